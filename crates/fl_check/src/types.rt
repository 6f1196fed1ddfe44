//! The rules on types and their names, each at its place.

ghost use Rattle.std.specs.Prelude.{◌≡◌, ◌≤◌, ◌∷◌, [], ◌++◌, OnOk, OnErr, IfOk, IfErr, IfSome, option_map, is_some, None, true, false, if◌then◌else◌};
ghost use Rattle.fl_interface.specs.Interface.{type_of, fixed, text};
ghost use Rattle.fl_check.specs.Known.{is_string, type_named, stands_for};
ghost use Rattle.fl_interface.specs.Limits.{is_among};
ghost use Rattle.fl_check.specs.Places.{fixed_type_place, plain_type_place, string_place, new_type_place, whole_type_place, count_places};
ghost use Rattle.fl_check.specs.Places.{bound_places, type_names};
ghost use Rattle.fl_check.specs.Checks.{first_fault};
ghost use Rattle.fl_check.specs.Faults.{Tells, ComesAfter};
ghost use Rattle.fl_check.specs.Views.{before_of, checked_of, IsBounded};
ghost use Rattle.fl_parse.specs.Tree.{name_of, number_of};

use crate::declared::{Declared, KnownType};
use crate::fault::{CheckFault, Rule};
use crate::measured::Measured;
use crate::payload::Checked;
use crate::words::{is_built_in, is_capability, is_string, scalar_named};
use fl_interface::{MAX_BOUND, MAX_ELEMENTS, MAX_TYPES};
use fl_parse::{Name, Number};
use std::alloc::AllocError;

const USUAL_TEXT: u32 = 2_047;

/// The fault of a rule that is broken at a place.
pub fn refuse(rule: Rule, at: usize) -> CheckFault
    ensures exact { result ≡ CheckFault.Broken rule at }
{
    CheckFault::Broken { rule, at }
}

impl<'a> Declared<'a> {
    /// The fixed type of a name, built in or declared before.
    pub fn resolve(&self, name: &[u8]) -> Result<Option<Measured>, AllocError>
        ensures exact { IfOk result (λ found. option_map (λ m. type_of m.fixed) found ≡ type_named (before_of self.now) name.now) }
        ensures size { IfOk result (λ found. IfSome found (λ m. m.size ≤ 4096)) }
        ensures depth { IfOk result (λ found. IfSome found (λ m. m.depth ≤ 16)) }
        ensures arrays { IfOk result (λ found. IfSome found (λ m. m.arrays ≤ 7)) }
        ensures named { OnErr result (is_some (type_named (before_of self.now) name.now) ≡ true) }
    {
        if let Some(kind) = scalar_named(name) {
            return Ok(Some(Measured::of_scalar(kind)));
        }
        let Some(known) = self.find(name) else {
            return Ok(None);
        };
        let copy = known.measured.duplicate()?;
        Ok(Some(copy))
    }

    /// The type of a name that stands where a fixed type must be.
    #[tactic(auto, unfolding(crate::specs::Checks::first_fault, crate::specs::Places::fixed_type_place))]
    pub fn check_fixed_type(&self, name: &Name) -> Result<Measured, CheckFault>
        ensures sound { OnOk result (first_fault (fixed_type_place (before_of self.now) (name_of name.now) ∷ []) ≡ None) }
        ensures stands { IfOk result (λ m. type_of m.fixed ≡ stands_for (before_of self.now) (name_of name.now)) }
        ensures size { IfOk result (λ m. m.size ≤ 4096) }
        ensures depth { IfOk result (λ m. m.depth ≤ 16) }
        ensures arrays { IfOk result (λ m. m.arrays ≤ 7) }
        ensures fault { IfErr result (λ e. Tells e (first_fault (fixed_type_place (before_of self.now) (name_of name.now) ∷ []))) }
        ensures memory { IfErr result (λ e. ComesAfter e (fixed_type_place (before_of self.now) (name_of name.now) ∷ [])) }
    {
        if is_capability(name.text) {
            return Err(refuse(Rule::Capability, name.at));
        }
        if is_string(name.text) {
            return Err(refuse(Rule::NotFixed, name.at));
        }
        let Some(measured) = self.resolve(name.text)? else {
            return Err(refuse(Rule::UnknownType, name.at));
        };
        Ok(measured)
    }

    /// The type of a name that stands alone before an argument's name.
    #[tactic(auto, unfolding(crate::specs::Checks::first_fault, crate::specs::Places::plain_type_place))]
    pub fn check_plain_type(&self, name: &Name) -> Result<Checked, CheckFault>
        ensures sound { OnOk result (first_fault (plain_type_place (before_of self.now) (name_of name.now) ∷ []) ≡ None) }
        ensures stands { IfOk result (λ a. checked_of a ≡ (if is_string name.now.text.now then text 2047 else fixed
            (stands_for (before_of self.now) (name_of name.now)))) }
        ensures bounded { IfOk result (λ a. IsBounded (checked_of a)) }
        ensures fault { IfErr result (λ e. Tells e (first_fault (plain_type_place (before_of self.now) (name_of name.now) ∷ []))) }
    {
        if is_capability(name.text) {
            return Err(refuse(Rule::Capability, name.at));
        }
        if is_string(name.text) {
            return Ok(Checked::Text { bound: USUAL_TEXT });
        }
        let Some(measured) = self.resolve(name.text)? else {
            return Err(refuse(Rule::UnknownType, name.at));
        };
        Ok(Checked::Fixed { measured })
    }

    /// The name of a new type, which is empty where it is of an enum or struct with nothing in it.
    #[tactic(auto, unfolding(crate::specs::Checks::first_fault, crate::specs::Places::new_type_place))]
    pub fn check_new_type(&self, name: &Name, empty: bool) -> Result<(), CheckFault>
        ensures absent { OnOk result (is_among (type_names (before_of self.now)) name.now.text.now ≡ false) }
        ensures sound { OnOk result (first_fault (new_type_place (before_of self.now) (name_of name.now) empty ∷ []) ≡ None) }
        ensures fault { IfErr result (λ e. Tells e (first_fault (new_type_place (before_of self.now) (name_of name.now) empty ∷ []))) }
        ensures memory { IfErr result (λ e. ComesAfter e (new_type_place (before_of self.now) (name_of name.now) empty ∷ [])) }
    {
        if is_built_in(name.text) || self.has_type(name.text) {
            return Err(refuse(Rule::TypeNameTaken, name.at));
        }
        if empty {
            return Err(refuse(Rule::NothingInIt, name.at));
        }
        if self.count_types() >= MAX_TYPES {
            return Err(refuse(Rule::TooMany, name.at));
        }
        Ok(())
    }

    /// Declares a type of a name that isn't taken, if it isn't too big.
    #[tactic(auto, unfolding(crate::specs::Checks::first_fault, crate::specs::Places::whole_type_place))]
    pub fn add_type(&mut self, name: &Name<'a>, measured: Measured) -> Result<(), CheckFault>
        requires new { is_among (type_names (before_of self.old)) name.now.text.now ≡ false }
        ensures sound { OnOk result (first_fault (whole_type_place (name_of name.now) (type_of measured.fixed) ∷ []) ≡ None) }
        ensures types { OnOk result ((before_of self.new).types ≡ (before_of self.old).types
            ++ record { name = name.now.text.now; type = type_of measured.fixed } ∷ []) }
        ensures messages { OnOk result ((before_of self.new).messages ≡ (before_of self.old).messages) }
        ensures fault { IfErr result (λ e. Tells e (first_fault (whole_type_place (name_of name.now) (type_of measured.fixed) ∷ []))) }
    {
        if measured.is_too_big() {
            return Err(refuse(Rule::TooBig, name.at));
        }
        self.push_type(name.text, KnownType { measured })?;
        Ok(())
    }
}

/// A type that takes a bound in brackets: a string alone.
#[tactic(auto, unfolding(crate::specs::Checks::first_fault, crate::specs::Places::string_place))]
pub fn check_string_type(name: &Name) -> Result<(), CheckFault>
    ensures sound { OnOk result (first_fault (string_place (name_of name.now) ∷ []) ≡ None) }
    ensures fault { IfErr result (λ e. Tells e (first_fault (string_place (name_of name.now) ∷ []))) }
{
    if is_capability(name.text) {
        return Err(refuse(Rule::Capability, name.at));
    }
    if !is_string(name.text) {
        return Err(refuse(Rule::UnknownType, name.at));
    }
    Ok(())
}

/// A bound, where there is one, is 1 to 4,096.
#[tactic(auto, unfolding(crate::specs::Checks::first_fault, crate::specs::Places::bound_place))]
pub fn check_bound(bound: Option<Number>) -> Result<(), CheckFault>
    ensures sound { OnOk result (first_fault (bound_places (option_map number_of bound)) ≡ None) }
    ensures few { OnOk result (IfSome bound (λ n. n.value ≤ 4096)) }
    ensures fault { IfErr result (λ e. Tells e (first_fault (bound_places (option_map number_of bound)))) }
{
    let Some(number) = bound else {
        return Ok(());
    };
    if number.value < 1 || number.value > MAX_BOUND {
        return Err(refuse(Rule::BadBound, number.at));
    }
    Ok(())
}

/// A count of elements, where there is one, is 1 to 1,024.
#[tactic(auto, unfolding(crate::specs::Checks::first_fault, crate::specs::Places::count_place))]
pub fn check_count(count: Option<Number>) -> Result<(), CheckFault>
    ensures sound { OnOk result (first_fault (count_places (option_map number_of count)) ≡ None) }
    ensures few { OnOk result (IfSome count (λ n. n.value ≤ 1024)) }
    ensures fault { IfErr result (λ e. Tells e (first_fault (count_places (option_map number_of count)))) }
{
    let Some(number) = count else {
        return Ok(());
    };
    if number.value < 1 || number.value > MAX_ELEMENTS {
        return Err(refuse(Rule::BadCount, number.at));
    }
    Ok(())
}
