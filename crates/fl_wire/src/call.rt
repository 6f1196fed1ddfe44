//! The arguments of a call from the bytes of its fragments.

ghost use Rattle.std.specs.Prelude.{◌≡◌, ◌+◌, ◌*◌, ◌^◌, ◌<◌, ◌≤◌, map, length, IfOk, IfErr, IfSome};
ghost use Rattle.fl_interface.specs.Interface.{TheArgType, arg_type_of};
ghost use Rattle.fl_value_data.specs.Plan.{rank_of};
ghost use Rattle.fl_value_data.specs.Value.{datum_of};
ghost use Rattle.fl_wire.specs.Shapes.{ReadAt, StopsAt, starts_after, next_argument, calls_of};
ghost use Rattle.fl_wire.specs.Whole.{Whole, StopsWhole};

use crate::leaf::{CallReadFault, read_padding, read_zeros};
use crate::types::{ends_fixed, is_dynamic};
use crate::value::{is_wide, read_argument, read_scalar_argument, read_wide};
use fl_base::{FRAG_BYTES, Frag};
use fl_interface::ArgType;
use fl_layout::fragment_count;
use fl_value_data::{PlanNo, RANKS, Value};
use std::alloc::{AllocError, Global};

/// Where an argument may start: after a string or a sized array, past zeros up to a multiple of 8.
fn read_start(frags: &[Frag], at: usize, after_dynamic: bool) -> Result<usize, CallReadFault>
    requires within { at ≤ 56 * length frags.now }
    ensures within { IfOk result (λ start. start ≤ 56 * length frags.now) }
    ensures later { IfOk result (λ start. at ≤ start) }
    ensures read { IfOk result (λ start. ReadAt (starts_after after_dynamic) frags.now at tt start) }
    ensures stop { IfErr result (λ stop. StopsAt stop (starts_after after_dynamic) frags.now at) }
{
    if after_dynamic {
        read_padding(frags, at, 8)
    } else {
        Ok(at)
    }
}

/// The next argument, and where it ends.
fn read_next(
    alloc: Global,
    frags: &[Frag],
    at: usize,
    after_dynamic: bool,
    ty: &ArgType,
) -> Result<(Value, usize), CallReadFault>
    requires within { at ≤ 56 * length frags.now }
    ensures within { IfOk result (λ r. r.1 ≤ 56 * length frags.now) }
    ensures later { IfOk result (λ r. at ≤ r.1) }
    ensures read { IfOk result (λ r. ReadAt (next_argument after_dynamic (arg_type_of ty.now)) frags.now at (datum_of r.0) r.1) }
    ensures stop { IfErr result (λ stop. StopsAt stop (next_argument after_dynamic (arg_type_of ty.now)) frags.now at) }
{
    let start = read_start(frags, at, after_dynamic)?;
    let (value, end) = read_argument(alloc, frags, start, ty)?;
    Ok((value, end))
}

// So many values, to be replaced.
fn blanks(alloc: Global, count: usize) -> Result<Vec<Value>, AllocError>
    ensures count { IfOk result (λ values. length values.items ≡ count) }
{
    let mut values = Vec::with_capacity(alloc, count)?;
    for _index in 0..count {
        values.push(Value::Int(0))?;
    }
    Ok(values)
}

/// How many ranks the arguments of a plan have.
fn ranks_of(plan: PlanNo) -> u8
    ensures all { (t : TheArgType) → rank_of plan t < result }
    ensures few { result ≤ 5 }
{
    match plan {
        PlanNo::One => 1,
        PlanNo::Two => RANKS,
    }
}

// The word after one: of the same fragment, or the first of the next.
#[inline(always)]
fn word_after(frag: usize, word: usize) -> (usize, usize)
    requires inside { word < 7 }
    requires few { frag < 2 ^ 63 }
    ensures inside { result.1 < 7 }
    ensures place { 56 * result.0 + 8 * result.1 ≡ 56 * frag + 8 * word + 8 }
{
    if word == 6 {
        (frag + 1, 0)
    } else {
        (frag, word + 1)
    }
}

/// The arguments of a call, and where the last one ends, if all are scalars that the plan keeps in declared
/// order, and the bytes are a call's. Many calls are such, and want no blanks and no search for each rank.
fn read_scalar_arguments(
    alloc: Global,
    frags: &[Frag],
    plan: PlanNo,
    types: &[ArgType],
) -> Option<(Vec<Value>, usize)>
    ensures within { IfSome result (λ r. r.1 ≤ 56 * length frags.now) }
    ensures read { IfSome result (λ r.
        ReadAt (calls_of plan (map arg_type_of types.now)) frags.now 0 (map datum_of r.0.items) r.1) }
{
    // Where the last argument isn't of a fixed size, not all are scalars: that is told before memory is taken.
    if !ends_fixed(types) {
        return None;
    }
    let Ok(mut values) = Vec::with_capacity(alloc, types.len()) else {
        return None;
    };
    let (mut at, mut least) = (0, 0);
    let (mut frag, mut word) = (0, 0);
    for ty in types {
        if least == 0 && at % 8 == 0 && is_wide(ty) {
            if frag >= frags.len() {
                return None;
            }
            let value = read_wide(frags, frag, word);
            values.push_reserved(value);
            let after = word_after(frag, word);
            (at, frag, word) = (at + 8, after.0, after.1);
        } else {
            let Some((value, end, rank)) = read_scalar_argument(frags, at, plan, least, ty) else {
                return None;
            };
            values.push_reserved(value);
            (at, least) = (end, rank);
            (frag, word) = (end / FRAG_BYTES, end / 8 % 7);
        }
    }
    Some((values, at))
}

/// The arguments of a call, in declared order, and where the last one ends: the plan lays them out rank by
/// rank.
fn read_ranks(
    alloc: Global,
    frags: &[Frag],
    plan: PlanNo,
    types: &[ArgType],
) -> Result<(Vec<Value>, usize), CallReadFault>
    ensures within { IfOk result (λ r. r.1 ≤ 56 * length frags.now) }
    ensures read { IfOk result (λ r. ReadAt (calls_of plan (map arg_type_of types.now)) frags.now 0 (map datum_of r.0.items) r.1) }
    ensures stop { IfErr result (λ stop. StopsAt stop (calls_of plan (map arg_type_of types.now)) frags.now 0) }
{
    let mut values = blanks(alloc, types.len())?;
    let mut at = 0;
    let mut after_dynamic = false;
    for rank in 0..ranks_of(plan) {
        for (j, ty) in types.iter().enumerate() {
            if plan.rank_of(ty) != rank {
                continue;
            }
            let (value, end) = read_next(alloc, frags, at, after_dynamic, ty)?;
            values[j] = value;
            at = end;
            after_dynamic = is_dynamic(ty);
        }
    }
    Ok((values, at))
}

/// The arguments of a call, in declared order, and where the last one ends.
pub(crate) fn read_arguments(
    alloc: Global,
    frags: &[Frag],
    plan: PlanNo,
    types: &[ArgType],
) -> Result<(Vec<Value>, usize), CallReadFault>
    ensures within { IfOk result (λ r. r.1 ≤ 56 * length frags.now) }
    ensures read { IfOk result (λ r.
        ReadAt (calls_of plan (map arg_type_of types.now)) frags.now 0 (map datum_of r.0.items) r.1) }
    ensures stop { IfErr result (λ stop.
        StopsAt stop (calls_of plan (map arg_type_of types.now)) frags.now 0) }
{
    match read_scalar_arguments(alloc, frags, plan, types) {
        Some(read) => Ok(read),
        None => read_ranks(alloc, frags, plan, types),
    }
}

/// The arguments of a call and the number of its fragments: what follows the last argument in these is 0.
pub(crate) fn read_whole(
    alloc: Global,
    frags: &[Frag],
    plan: PlanNo,
    types: &[ArgType],
) -> Result<(Vec<Value>, usize), CallReadFault>
    requires some { 0 < length frags.now }
    ensures read { IfOk result (λ r. Whole plan (map arg_type_of types.now) frags.now (map datum_of r.0.items) r.1) }
    ensures stop { IfErr result (λ stop. StopsWhole stop plan (map arg_type_of types.now) frags.now) }
{
    let (values, end) = read_arguments(alloc, frags, plan, types)?;
    let count = fragment_count(end);
    read_zeros(frags, end, count * FRAG_BYTES)?;
    Ok((values, count))
}
