//! The arguments of a message, and how long its payload may become.

ghost use Rattle.std.specs.Prelude.{◌≡◌, ◌<◌, ◌≤◌, ◌+◌, ◌*◌, ◌++◌, [], ◌∷◌, List, map, nat_lt, OnOk, IfErr, vec_len};
ghost use Rattle.fl_interface.specs.Interface.{TheArgType, arg_type_of, type_of, fixed, text, sized};
ghost use Rattle.fl_interface.specs.Sizes.{size_of, align_of};
ghost use Rattle.fl_interface.specs.Payload.{greatest_end, greatest_payload};

use crate::fault::CheckFault;
use crate::measured::Measured;
use fl_interface::{ArgType, MAX_PAYLOAD};
use std::alloc::Global;

/// An argument's type that keeps the rules, with its measures.
#[derive(Drop)]
pub enum Checked {
    Fixed { measured: Measured },
    Text { bound: u32 },
    Sized { bound: u32, element: Measured },
}

/// The arguments of a message so far: their types, where the last one may end, and the alignment
/// that is due after it.
#[derive(Drop)]
pub struct Payload {
    pub args: Vec<ArgType>,
    pub end: u64,
    pub due: u64,
    ghost ended: { (more : List TheArgType) → greatest_end 0 1 (map arg_type_of args.items ++ more) ≡ greatest_end end due more },
    ghost some_due: { 0 < due },
    ghost few_due: { due ≤ 8 },
    ghost bounded: { end ≤ 16777240 * vec_len args },
}

impl Payload {
    ghost use Rattle.fl_check.specs.Views.{checked_of, IsBounded};
    ghost use Rattle.fl_check.specs.declared.fault.CheckFault.TheVariants.{Memory};

    pub fn new(alloc: Global) -> Payload
        ensures none { map arg_type_of result.args.items ≡ [] }
        ensures len { vec_len result.args ≡ 0 }
    {
        Payload {
            args: Vec::new(alloc),
            end: 0,
            due: 1,
        }
    }

    fn push_fixed(&mut self, measured: Measured) -> Result<(), CheckFault>
        requires few { vec_len self.old.args < 32 }
        requires size { measured.size ≤ 4096 }
        ensures more { OnOk result (map arg_type_of self.new.args.items ≡ map arg_type_of self.old.args.items ++ fixed (type_of measured.fixed) ∷ []) }
        ensures len { OnOk result (vec_len self.new.args ≡ vec_len self.old.args + 1) }
        ensures memory { IfErr result (λ e. e ≡ Memory) }
    {
        let align = self.due.max(u64::from(measured.align));
        let end = self.end.next_multiple_of(align) + u64::from(measured.size);
        self.args.push(ArgType::Fixed(measured.fixed))?;
        self.end = end;
        self.due = 1;
        Ok(())
    }

    fn push_text(&mut self, bound: u32) -> Result<(), CheckFault>
        requires few { vec_len self.old.args < 32 }
        requires bounded { bound ≤ 4096 }
        ensures more { OnOk result (map arg_type_of self.new.args.items ≡ map arg_type_of self.old.args.items ++ text bound ∷ []) }
        ensures len { OnOk result (vec_len self.new.args ≡ vec_len self.old.args + 1) }
        ensures memory { IfErr result (λ e. e ≡ Memory) }
    {
        let end = self.end.next_multiple_of(8) + (8 + u64::from(bound));
        self.args.push(ArgType::Text(bound))?;
        self.end = end;
        self.due = 8;
        Ok(())
    }

    fn push_sized(&mut self, bound: u32, element: Measured) -> Result<(), CheckFault>
        requires few { vec_len self.old.args < 32 }
        requires bounded { bound ≤ 4096 }
        requires size { element.size ≤ 4096 }
        ensures more { OnOk result (map arg_type_of self.new.args.items ≡ map arg_type_of self.old.args.items ++ sized bound (type_of element.fixed) ∷ []) }
        ensures len { OnOk result (vec_len self.new.args ≡ vec_len self.old.args + 1) }
        ensures memory { IfErr result (λ e. e ≡ Memory) }
    {
        let end = self.end.next_multiple_of(8) + (8 + u64::from(bound) * u64::from(element.size));
        self.args.push(ArgType::Sized(bound, element.fixed))?;
        self.end = end;
        self.due = 8;
        Ok(())
    }

    /// Adds an argument.
    pub fn push(&mut self, checked: Checked) -> Result<(), CheckFault>
        requires few { vec_len self.old.args < 32 }
        requires bounded { IsBounded (checked_of checked) }
        ensures more { OnOk result (map arg_type_of self.new.args.items ≡ map arg_type_of self.old.args.items ++ checked_of checked ∷ []) }
        ensures len { OnOk result (vec_len self.new.args ≡ vec_len self.old.args + 1) }
        ensures memory { IfErr result (λ e. e ≡ Memory) }
    {
        match checked {
            Checked::Fixed { measured } => self.push_fixed(measured),
            Checked::Text { bound } => self.push_text(bound),
            Checked::Sized { bound, element } => self.push_sized(bound, element),
        }
    }

    /// Whether the payload may pass 32,768 bytes.
    pub fn is_too_long(&self) -> bool
        ensures exact { result ≡ nat_lt 32768 (greatest_payload (map arg_type_of self.now.args.items)) }
    {
        self.end > u64::from(MAX_PAYLOAD)
    }
}
