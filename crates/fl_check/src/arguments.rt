//! The arguments of messages, each part at its place.

ghost use Rattle.std.specs.Prelude.{◌≡◌, ◌≤◌, ◌<◌, ◌+◌, ◌∷◌, [], ◌++◌, OnOk, IfOk, IfErr, option_map, None, map, vec_len, if◌then◌else◌, nat_lt, ◌||◌, false};
ghost use Rattle.fl_interface.specs.Payload.{greatest_payload};
ghost use Rattle.fl_interface.specs.Interface.{fixed, text, sized, arg_type_of};
ghost use Rattle.fl_check.specs.Known.{is_string, stands_for, bound_or, argument_type, ins, outs, if_in, if_out};
ghost use Rattle.fl_check.specs.Places.{plain_argument_places, sized_argument_places, string_argument_places, fixed_type_place, plain_type_place};
ghost use Rattle.fl_check.specs.Places.{string_place, listed_place, other_place, bound_place, bound_places, argument_names, argument_place};
ghost use Rattle.fl_check.specs.Places.{argument_places, arguments_of};
ghost use Rattle.fl_check.specs.Checks.{first_fault};
ghost use Rattle.fl_check.specs.declared.fault.CheckFault.TheVariants.{Memory};
ghost use Rattle.fl_check.specs.Faults.{Tells};
ghost use Rattle.fl_check.specs.Views.{before_of, list_of, checked_of, IsBounded};
ghost use Rattle.fl_parse.specs.Tree.{name_of, number_of, argument_of, directed_of};

use crate::declared::Declared;
use crate::fault::CheckFault;
use crate::parts::{add_listed_name, add_name};
use crate::payload::{Checked, Payload};
use crate::types::{check_bound, check_string_type};
use crate::words::DistinctNames;
use fl_parse::{Argument, DirectedArgument, Direction, Name, Number, Shape};
use std::alloc::Global;

const USUAL_ELEMENTS: u32 = 1_024;

/// The arguments of an rpc's two messages.
#[derive(Drop)]
pub struct RpcPayloads {
    pub ins: Payload,
    pub outs: Payload,
}

impl RpcPayloads {
    pub fn new(alloc: Global) -> RpcPayloads
        ensures ins { map arg_type_of result.ins.args.items ≡ [] }
        ensures outs { map arg_type_of result.outs.args.items ≡ [] }
        ensures len { vec_len result.ins.args + vec_len result.outs.args ≡ 0 }
    {
        RpcPayloads {
            ins: Payload::new(alloc),
            outs: Payload::new(alloc),
        }
    }

    /// Whether the payload of a half may pass 32,768 bytes.
    pub fn is_too_long(&self) -> bool
        ensures exact { result ≡ nat_lt 32768 (greatest_payload (map arg_type_of self.now.ins.args.items))
            || (nat_lt 32768 (greatest_payload (map arg_type_of self.now.outs.args.items)) || false) }
    {
        self.ins.is_too_long() || self.outs.is_too_long()
    }

    /// Adds an argument to the half that carries it.
    pub fn push(&mut self, direction: Direction, checked: Checked) -> Result<(), CheckFault>
        requires few { vec_len self.old.ins.args + vec_len self.old.outs.args < 32 }
        requires bounded { IsBounded (checked_of checked) }
        ensures ins { OnOk result (map arg_type_of self.new.ins.args.items ≡ map arg_type_of self.old.ins.args.items ++ if_in direction (checked_of checked)) }
        ensures outs { OnOk result (map arg_type_of self.new.outs.args.items ≡ map arg_type_of self.old.outs.args.items ++ if_out direction
            (checked_of checked)) }
        ensures len { OnOk result (vec_len self.new.ins.args + vec_len self.new.outs.args ≡ vec_len self.old.ins.args + vec_len self.old.outs.args + 1) }
        ensures memory { IfErr result (λ e. e ≡ Memory) }
    {
        match direction {
            Direction::In => self.ins.push(checked),
            Direction::Out => self.outs.push(checked),
        }
    }
}

fn bound_of(bound: Option<Number>) -> u32
    ensures exact { result ≡ bound_or 1024 (option_map number_of bound) }
{
    match bound {
        Some(number) => number.value,
        None => USUAL_ELEMENTS,
    }
}

impl<'a> Declared<'a> {
    #[tactic(auto, using(crate::proofs::FirstFaults::places))]
    fn check_plain_argument(
        &self,
        names: &mut DistinctNames<'a>,
        counted_before: usize,
        kind: &Name,
        name: &Name<'a>,
    ) -> Result<Checked, CheckFault>
        ensures sound { OnOk result (first_fault
            (plain_argument_places (before_of self.now) (list_of names.old) counted_before (name_of kind.now) (name_of name.now)) ≡ None) }
        ensures names { OnOk result (list_of names.new ≡ list_of names.old ++ name.now.text.now ∷ []) }
        ensures few { OnOk result (counted_before < 32) }
        ensures stands { IfOk result (λ a. checked_of a ≡ (if is_string kind.now.text.now then text 2047 else fixed
            (stands_for (before_of self.now) (name_of kind.now)))) }
        ensures bounded { IfOk result (λ a. IsBounded (checked_of a)) }
        ensures fault { IfErr result (λ e. Tells e (first_fault
            (plain_argument_places (before_of self.now) (list_of names.old) counted_before (name_of kind.now) (name_of name.now)))) }
    {
        let checked = self.check_plain_type(kind)?;
        add_listed_name(names, counted_before, name)?;
        Ok(checked)
    }

    #[tactic(auto, using(crate::proofs::FirstFaults::places))]
    fn check_sized_argument(
        &self,
        names: &mut DistinctNames<'a>,
        counted_before: usize,
        argument: &Argument<'a>,
        length: &Name<'a>,
        bound: Option<Number>,
    ) -> Result<Checked, CheckFault>
        ensures sound { OnOk result (first_fault (sized_argument_places (before_of self.now) (list_of names.old) counted_before
            (argument_of argument.now) (name_of length.now) (option_map number_of bound)) ≡ None) }
        ensures names { OnOk result (list_of names.new ≡ list_of names.old ++ argument.now.name.text.now ∷ (length.now.text.now ∷ [])) }
        ensures few { OnOk result (counted_before < 32) }
        ensures stands { IfOk result (λ a. checked_of a ≡ sized (bound_or 1024 (option_map number_of bound))
            (stands_for (before_of self.now) (name_of argument.now.type_name))) }
        ensures bounded { IfOk result (λ a. IsBounded (checked_of a)) }
        ensures fault { IfErr result (λ e. Tells e (first_fault (sized_argument_places (before_of self.now) (list_of names.old) counted_before
            (argument_of argument.now) (name_of length.now) (option_map number_of bound)))) }
    {
        let element = self.check_fixed_type(&argument.type_name)?;
        add_listed_name(names, counted_before, &argument.name)?;
        add_name(names, length)?;
        check_bound(bound)?;
        Ok(Checked::Sized {
            bound: bound_of(bound),
            element,
        })
    }

    /// An argument after those whose names these are, so many of them arguments'.
    pub fn check_argument(
        &self,
        names: &mut DistinctNames<'a>,
        counted_before: usize,
        argument: &Argument<'a>,
    ) -> Result<Checked, CheckFault>
        ensures sound { OnOk result (first_fault (argument_place (before_of self.now) (list_of names.old) counted_before (argument_of argument.now)) ≡ None) }
        ensures names { OnOk result (list_of names.new ≡ list_of names.old ++ argument_names (argument_of argument.now)) }
        ensures few { OnOk result (counted_before < 32) }
        ensures stands { IfOk result (λ a. checked_of a ≡ argument_type (before_of self.now) (argument_of argument.now)) }
        ensures bounded { IfOk result (λ a. IsBounded (checked_of a)) }
        ensures fault { IfErr result (λ e. Tells e (first_fault
            (argument_place (before_of self.now) (list_of names.old) counted_before (argument_of argument.now)))) }
    {
        match argument.shape {
            Shape::Plain => {
                self.check_plain_argument(
                    names,
                    counted_before,
                    &argument.type_name,
                    &argument.name,
                )
            }
            Shape::Bounded(number) => {
                check_string_argument(names, counted_before, argument, number)
            }
            Shape::Sized { length, bound } => {
                self.check_sized_argument(names, counted_before, argument, &length, bound)
            }
        }
    }

    /// Adds an argument to a payload, and its names to those of the arguments before it.
    fn add_argument(
        &self,
        names: &mut DistinctNames<'a>,
        payload: &mut Payload,
        argument: &Argument<'a>,
    ) -> Result<(), CheckFault>
        ensures sound { OnOk result (first_fault
            (argument_place (before_of self.now) (list_of names.old) (vec_len payload.old.args) (argument_of argument.now)) ≡ None) }
        ensures names { OnOk result (list_of names.new ≡ list_of names.old ++ argument_names (argument_of argument.now)) }
        ensures few { OnOk result (vec_len payload.old.args < 32) }
        ensures more { OnOk result (map arg_type_of payload.new.args.items ≡ map arg_type_of payload.old.args.items
            ++ argument_type (before_of self.now) (argument_of argument.now) ∷ []) }
        ensures len { OnOk result (vec_len payload.new.args ≡ vec_len payload.old.args + 1) }
        ensures fault { IfErr result (λ e. Tells e (first_fault
            (argument_place (before_of self.now) (list_of names.old) (vec_len payload.old.args) (argument_of argument.now)))) }
    {
        let checked = self.check_argument(names, payload.args.len(), argument)?;
        payload.push(checked)
    }

    /// The arguments of a message.
    #[tactic(auto, using(crate::proofs::FirstFaults::places))]
    pub fn check_arguments(
        &self,
        alloc: Global,
        args: &[Argument<'a>],
    ) -> Result<Payload, CheckFault>
        ensures sound { OnOk result (first_fault (argument_places (before_of self.now) [] 0 (map argument_of args.now)) ≡ None) }
        ensures stands { IfOk result (λ p. map arg_type_of p.args.items ≡ map (argument_type (before_of self.now)) (map argument_of args.now)) }
        ensures fault { IfErr result (λ e. Tells e (first_fault (argument_places (before_of self.now) [] 0 (map argument_of args.now)))) }
    {
        let mut names = DistinctNames::new(alloc);
        let mut payload = Payload::new(alloc);
        for argument in args {
            self.add_argument(&mut names, &mut payload, argument)?;
        }
        Ok(payload)
    }

    /// Adds an argument to the half that carries it, and its names to those of the arguments before it.
    fn add_directed(
        &self,
        names: &mut DistinctNames<'a>,
        halves: &mut RpcPayloads,
        directed: &DirectedArgument<'a>,
    ) -> Result<(), CheckFault>
        requires short { vec_len halves.old.ins.args + vec_len halves.old.outs.args ≤ 32 }
        ensures sound { OnOk result (first_fault
            (argument_place (before_of self.now) (list_of names.old) (vec_len halves.old.ins.args + vec_len halves.old.outs.args)
            (argument_of directed.now.argument)) ≡ None) }
        ensures names { OnOk result (list_of names.new ≡ list_of names.old ++ argument_names (argument_of directed.now.argument)) }
        ensures few { OnOk result (vec_len halves.old.ins.args + vec_len halves.old.outs.args < 32) }
        ensures ins { OnOk result (map arg_type_of halves.new.ins.args.items ≡ map arg_type_of halves.old.ins.args.items
            ++ if_in directed.now.direction (argument_type (before_of self.now) (argument_of directed.now.argument))) }
        ensures outs { OnOk result (map arg_type_of halves.new.outs.args.items ≡ map arg_type_of halves.old.outs.args.items
            ++ if_out directed.now.direction (argument_type (before_of self.now) (argument_of directed.now.argument))) }
        ensures len { OnOk result (vec_len halves.new.ins.args + vec_len halves.new.outs.args
            ≡ vec_len halves.old.ins.args + vec_len halves.old.outs.args + 1) }
        ensures fault { IfErr result (λ e. Tells e (first_fault
            (argument_place (before_of self.now) (list_of names.old) (vec_len halves.old.ins.args + vec_len halves.old.outs.args)
            (argument_of directed.now.argument)))) }
    {
        let counted_before = halves.ins.args.len() + halves.outs.args.len();
        let checked = self.check_argument(names, counted_before, &directed.argument)?;
        halves.push(directed.direction, checked)
    }

    /// The arguments of an rpc, in one list of names.
    #[tactic(auto, using(crate::proofs::FirstFaults::places))]
    pub fn check_directed(
        &self,
        alloc: Global,
        args: &[DirectedArgument<'a>],
    ) -> Result<RpcPayloads, CheckFault>
        ensures sound { OnOk result (first_fault (argument_places (before_of self.now) [] 0 (arguments_of (map directed_of args.now))) ≡ None) }
        ensures ins { IfOk result (λ h. map arg_type_of h.ins.args.items ≡ map (argument_type (before_of self.now)) (ins (map directed_of args.now))) }
        ensures outs { IfOk result (λ h. map arg_type_of h.outs.args.items ≡ map (argument_type (before_of self.now)) (outs (map directed_of args.now))) }
        ensures fault { IfErr result (λ e. Tells e (first_fault (argument_places (before_of self.now) [] 0 (arguments_of (map directed_of args.now))))) }
    {
        let mut names = DistinctNames::new(alloc);
        let mut halves = RpcPayloads::new(alloc);
        for directed in args {
            self.add_directed(&mut names, &mut halves, directed)?;
        }
        Ok(halves)
    }
}

#[tactic(auto, using(crate::proofs::FirstFaults::places))]
fn check_string_argument<'a>(
    names: &mut DistinctNames<'a>,
    counted_before: usize,
    argument: &Argument<'a>,
    bound: Number,
) -> Result<Checked, CheckFault>
    ensures sound { OnOk result (first_fault (string_argument_places (list_of names.old) counted_before
        (argument_of argument.now) (number_of bound)) ≡ None) }
    ensures names { OnOk result (list_of names.new ≡ list_of names.old ++ argument.now.name.text.now ∷ []) }
    ensures few { OnOk result (counted_before < 32) }
    ensures stands { IfOk result (λ a. checked_of a ≡ text bound.value) }
    ensures bounded { IfOk result (λ a. IsBounded (checked_of a)) }
    ensures fault { IfErr result (λ e. Tells e (first_fault (string_argument_places (list_of names.old) counted_before
        (argument_of argument.now) (number_of bound)))) }
{
    check_string_type(&argument.type_name)?;
    add_listed_name(names, counted_before, &argument.name)?;
    check_bound(Some(bound))?;
    Ok(Checked::Text { bound: bound.value })
}
