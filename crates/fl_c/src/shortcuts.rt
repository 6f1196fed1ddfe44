//! What is asked for most often, each by an export of its own: what [`flounder_use`] does for its number, without a choice
//! among all of them.

ghost use types.Logic.{sem};
ghost use Rattle.std.specs.Ptr.{points_to};
ghost use Rattle.fl_c_operations.specs.contracts.handle.Handle.{the_row};
ghost use Rattle.fl_c_operations.specs.Handles.{Uses};

use crate::exports::{flounder_use, flounder_use_eight, flounder_use_sending, flounder_use_taking};
use fl_c_operations::{Answered, Handle};

/// Puts a fragment at a side of a ring (1).
#[unsafe(no_mangle)]
pub unsafe extern "C" fn flounder_put(handle: *mut u8, numbers: &mut [u64; 8]) -> Answered
    ghost before: { Handle }
    requires* { sem 𝓛 (points_to the_row handle before) }
    ensures* { ∃ₛ (λ (after : Handle). sem 𝓛 (points_to the_row handle after) ∗ ⌜ Uses before 1 numbers.old result after numbers.new ⌝) }
{
    flounder_use_eight(handle, 1, numbers)
}

/// Takes what stands first at a side of a ring (2).
#[unsafe(no_mangle)]
pub unsafe extern "C" fn flounder_take(handle: *mut u8, numbers: &mut [u64; 8]) -> Answered
    ghost before: { Handle }
    requires* { sem 𝓛 (points_to the_row handle before) }
    ensures* { ∃ₛ (λ (after : Handle). sem 𝓛 (points_to the_row handle after) ∗ ⌜ Uses before 2 numbers.old result after numbers.new ⌝) }
{
    flounder_use_eight(handle, 2, numbers)
}

/// Makes a call at an end, or begins it at a send run (6).
#[unsafe(no_mangle)]
pub unsafe extern "C" fn flounder_call(handle: *mut u8, numbers: &mut [u64]) -> Answered
    ghost before: { Handle }
    requires* { sem 𝓛 (points_to the_row handle before) }
    ensures* { ∃ₛ (λ (after : Handle). sem 𝓛 (points_to the_row handle after) ∗ ⌜ Uses before 6 numbers.old result after numbers.new ⌝) }
{
    flounder_use(handle, 6, numbers)
}

/// Puts the next fragment of the call in transmission at an end (7).
#[unsafe(no_mangle)]
pub unsafe extern "C" fn flounder_write(handle: *mut u8, numbers: &mut [u64]) -> Answered
    ghost before: { Handle }
    requires* { sem 𝓛 (points_to the_row handle before) }
    ensures* { ∃ₛ (λ (after : Handle). sem 𝓛 (points_to the_row handle after) ∗ ⌜ Uses before 7 numbers.old result after numbers.new ⌝) }
{
    flounder_use(handle, 7, numbers)
}

/// Takes a fragment at an end (8).
#[unsafe(no_mangle)]
pub unsafe extern "C" fn flounder_receive(handle: *mut u8, numbers: &mut [u64]) -> Answered
    ghost before: { Handle }
    requires* { sem 𝓛 (points_to the_row handle before) }
    ensures* { ∃ₛ (λ (after : Handle). sem 𝓛 (points_to the_row handle after) ∗ ⌜ Uses before 8 numbers.old result after numbers.new ⌝) }
{
    flounder_use(handle, 8, numbers)
}

/// Reads the call that an end handled, or a receive run was fed (9).
#[unsafe(no_mangle)]
pub unsafe extern "C" fn flounder_read(handle: *mut u8, numbers: &mut [u64]) -> Answered
    ghost before: { Handle }
    requires* { sem 𝓛 (points_to the_row handle before) }
    ensures* { ∃ₛ (λ (after : Handle). sem 𝓛 (points_to the_row handle after) ∗ ⌜ Uses before 9 numbers.old result after numbers.new ⌝) }
{
    flounder_use(handle, 9, numbers)
}

/// Makes a call at an end, and puts its first fragment (16).
#[unsafe(no_mangle)]
pub unsafe extern "C" fn flounder_send(handle: *mut u8, numbers: &mut [u64]) -> Answered
    ghost before: { Handle }
    requires* { sem 𝓛 (points_to the_row handle before) }
    ensures* { ∃ₛ (λ (after : Handle). sem 𝓛 (points_to the_row handle after) ∗ ⌜ Uses before 16 numbers.old result after numbers.new ⌝) }
{
    flounder_use_sending(handle, 16, numbers)
}

/// Takes a fragment at an end, and reads the call that it makes whole (17).
#[unsafe(no_mangle)]
pub unsafe extern "C" fn flounder_take_call(handle: *mut u8, numbers: &mut [u64]) -> Answered
    ghost before: { Handle }
    requires* { sem 𝓛 (points_to the_row handle before) }
    ensures* { ∃ₛ (λ (after : Handle). sem 𝓛 (points_to the_row handle after) ∗ ⌜ Uses before 17 numbers.old result after numbers.new ⌝) }
{
    flounder_use_taking(handle, 17, numbers)
}
