//! The parts of declarations in their order: enumerators and fields.

ghost use Rattle.std.specs.Prelude.{◌≡◌, ◌≤◌, ◌<◌, ◌+◌, ◌∷◌, [], ◌++◌, OnOk, OnErr, IfOk, IfErr, IfSome, option_map, None, map, length, take, false, vec_len};
ghost use Rattle.fl_interface.specs.Interface.{type_of};
ghost use Rattle.fl_check.specs.Known.{counted, field_type};
ghost use Rattle.fl_interface.specs.Limits.{is_among};
ghost use Rattle.fl_check.specs.Places.{other_place, listed_place, member_places, field_place, field_places, count_places};
ghost use Rattle.fl_check.specs.Checks.{first_fault};
ghost use Rattle.fl_check.specs.Faults.{Tells, ComesAfter};
ghost use Rattle.fl_check.specs.Views.{before_of, list_of, sorted_of, HaveSame};
ghost use Rattle.fl_parse.specs.Tree.{name_of, number_of, field_of};

use crate::declared::Declared;
use crate::fault::{CheckFault, Rule};
use crate::measured::{Measured, StructFields};
use crate::types::{check_count, refuse};
use crate::words::{DistinctNames, SortedNames};
use fl_interface::MAX_LISTED;
use fl_parse::{Field, Name, Number};
use std::alloc::{AllocError, Global};

/// Adds a name that isn't counted: it stands once among these.
#[tactic(auto, unfolding(crate::specs::Checks::first_fault, crate::specs::Places::other_place))]
pub fn add_name<'a>(names: &mut DistinctNames<'a>, name: &Name<'a>) -> Result<(), CheckFault>
    ensures sound { OnOk result (first_fault (other_place (list_of names.old) (name_of name.now) ∷ []) ≡ None) }
    ensures names { OnOk result (list_of names.new ≡ list_of names.old ++ name.now.text.now ∷ []) }
    ensures fault { IfErr result (λ e. Tells e (first_fault (other_place (list_of names.old) (name_of name.now) ∷ []))) }
{
    if !names.add(name.text)? {
        return Err(refuse(Rule::NameTwice, name.at));
    }
    Ok(())
}

/// Adds a name of a list that has at most 32, after so many that count: it stands once among these.
#[tactic(auto, unfolding(crate::specs::Checks::first_fault, crate::specs::Places::listed_place))]
pub fn add_listed_name<'a>(
    names: &mut DistinctNames<'a>,
    counted_before: usize,
    name: &Name<'a>,
) -> Result<(), CheckFault>
    ensures sound { OnOk result (first_fault (listed_place (list_of names.old) counted_before (name_of name.now) ∷ []) ≡ None) }
    ensures names { OnOk result (list_of names.new ≡ list_of names.old ++ name.now.text.now ∷ []) }
    ensures few { OnOk result (counted_before < 32) }
    ensures fault { IfErr result (λ e. Tells e (first_fault (listed_place (list_of names.old) counted_before (name_of name.now) ∷ []))) }
{
    if !names.add(name.text)? {
        return Err(refuse(Rule::NameTwice, name.at));
    }
    if counted_before >= MAX_LISTED {
        return Err(refuse(Rule::TooMany, name.at));
    }
    Ok(())
}

/// Adds an enumerator: it stands once among those before it.
#[tactic(auto, unfolding(crate::specs::Checks::first_fault, crate::specs::Places::other_place))]
fn add_member<'a>(names: &mut SortedNames<'a>, name: &Name<'a>) -> Result<(), CheckFault>
    ensures sound { OnOk result (first_fault (other_place (sorted_of names.old) (name_of name.now) ∷ []) ≡ None) }
    ensures names { OnOk result (HaveSame (sorted_of names.new) (sorted_of names.old ++ name.now.text.now ∷ [])) }
    ensures fault { IfErr result (λ e. Tells e (first_fault (other_place (sorted_of names.old) (name_of name.now) ∷ []))) }
{
    if !names.add(name.text)? {
        return Err(refuse(Rule::NameTwice, name.at));
    }
    Ok(())
}

/// The names of an enum: none stands twice.
pub fn check_members(alloc: Global, members: &[Name]) -> Result<(), CheckFault>
    ensures sound { OnOk result (first_fault (member_places [] (map name_of members.now)) ≡ None) }
    ensures fault { IfErr result (λ e. Tells e (first_fault (member_places [] (map name_of members.now)))) }
    ensures some { OnErr result (0 < length members.now) }
{
    let mut names = SortedNames::new(alloc);
    for member in members {
        add_member(&mut names, member)?;
    }
    Ok(())
}

/// A type, or the fixed array that a count makes of it.
pub fn apply_count(
    alloc: Global,
    measured: Measured,
    count: Option<Number>,
) -> Result<Measured, CheckFault>
    requires size { measured.size ≤ 4096 }
    requires depth { measured.depth ≤ 16 }
    requires arrays { measured.arrays ≤ 7 }
    ensures sound { OnOk result (first_fault (count_places (option_map number_of count)) ≡ None) }
    ensures stands { IfOk result (λ m. type_of m.fixed ≡ counted (option_map number_of count) (type_of measured.fixed)) }
    ensures size { IfOk result (λ m. m.size ≤ 4194304) }
    ensures depth { IfOk result (λ m. m.depth ≤ 17) }
    ensures arrays { IfOk result (λ m. m.arrays ≤ 8) }
    ensures fault { IfErr result (λ e. Tells e (first_fault (count_places (option_map number_of count)))) }
{
    check_count(count)?;
    let Some(number) = count else {
        return Ok(measured);
    };
    let array = measured.array(alloc, number.value)?;
    Ok(array)
}

impl<'a> Declared<'a> {
    /// A field after those whose names these are.
    #[tactic(auto, using(crate::proofs::FirstFaults::places))]
    pub fn check_field(
        &self,
        alloc: Global,
        names: &mut DistinctNames<'a>,
        field: &Field<'a>,
    ) -> Result<Measured, CheckFault>
        ensures sound { OnOk result (first_fault (field_place (before_of self.now) (list_of names.old) (field_of field.now)) ≡ None) }
        ensures names { OnOk result (list_of names.new ≡ list_of names.old ++ field.now.name.text.now ∷ []) }
        ensures len { OnOk result (length (list_of names.new) ≡ length (list_of names.old) + 1) }
        ensures few { OnOk result (length (list_of names.old) < 32) }
        ensures stands { IfOk result (λ m. type_of m.fixed ≡ field_type (before_of self.now) (field_of field.now)) }
        ensures size { IfOk result (λ m. m.size ≤ 4194304) }
        ensures depth { IfOk result (λ m. m.depth ≤ 17) }
        ensures arrays { IfOk result (λ m. m.arrays ≤ 8) }
        ensures fault { IfErr result (λ e. Tells e (first_fault (field_place (before_of self.now) (list_of names.old) (field_of field.now)))) }
        ensures memory { IfErr result (λ e. ComesAfter e (take 1 (field_place (before_of self.now) (list_of names.old) (field_of field.now)))) }
    {
        let measured = self.check_fixed_type(&field.type_name)?;
        let counted_before = names.len();
        add_listed_name(names, counted_before, &field.name)?;
        apply_count(alloc, measured, field.count)
    }

    /// Adds a field to those before it, and its name to theirs.
    fn add_field(
        &self,
        alloc: Global,
        names: &mut DistinctNames<'a>,
        laid: &mut StructFields,
        field: &Field<'a>,
    ) -> Result<(), CheckFault>
        requires same { length (list_of names.old) ≡ vec_len laid.old.types }
        ensures sound { OnOk result (first_fault (field_place (before_of self.now) (list_of names.old) (field_of field.now)) ≡ None) }
        ensures names { OnOk result (list_of names.new ≡ list_of names.old ++ field.now.name.text.now ∷ []) }
        ensures same { OnOk result (length (list_of names.new) ≡ vec_len laid.new.types) }
        ensures few { OnOk result (vec_len laid.new.types ≤ 32) }
        ensures more { OnOk result (map type_of laid.new.types.items ≡ map type_of laid.old.types.items
            ++ field_type (before_of self.now) (field_of field.now) ∷ []) }
        ensures fault { IfErr result (λ e. Tells e (first_fault (field_place (before_of self.now) (list_of names.old) (field_of field.now)))) }
        ensures memory { IfErr result (λ e. ComesAfter e (take 1 (field_place (before_of self.now) (list_of names.old) (field_of field.now)))) }
    {
        let measured = self.check_field(alloc, names, field)?;
        laid.push(measured)
    }

    /// The fields of a struct.
    #[tactic(auto, using(crate::proofs::FirstFaults::places))]
    pub fn check_structure(
        &self,
        alloc: Global,
        fields: &[Field<'a>],
    ) -> Result<StructFields, CheckFault>
        ensures sound { OnOk result (first_fault (field_places (before_of self.now) [] (map field_of fields.now)) ≡ None) }
        ensures stands { IfOk result (λ laid. map type_of laid.types.items ≡ map (field_type (before_of self.now)) (map field_of fields.now)) }
        ensures few { IfOk result (λ laid. vec_len laid.types ≤ 32) }
        ensures fault { IfErr result (λ e. Tells e (first_fault (field_places (before_of self.now) [] (map field_of fields.now)))) }
        ensures memory { IfErr result (λ e. ComesAfter e (take 1 (field_places (before_of self.now) [] (map field_of fields.now)))) }
        ensures some { OnErr result (0 < length fields.now) }
    {
        let mut names = DistinctNames::new(alloc);
        let mut laid = StructFields::new(alloc);
        for field in fields {
            self.add_field(alloc, &mut names, &mut laid, field)?;
        }
        Ok(laid)
    }
}
