//! Handles for C: pointers, each to a block of its own.

ghost use Rattle.std.specs.Prelude.{◌≡◌, ◌≢◌, ◌⊎◌, IfSome, IsSome};

use crate::handle::Handle;
use std::alloc::Global;

/// A handle in a block of its own, where there is memory.
pub fn boxed(alloc: Global, handle: Handle) -> Option<Box<Handle>>
    ensures boxed { IfSome result (λ b. b.value ≡ handle) }
{
    Box::new(alloc, handle).ok()
}

/// Hands out a handle; where there was no memory for it (99) the pointer is as it was. That the pointer leads to the handle no clause
/// says.
pub fn hand_one(handle: Option<Box<Handle>>, at: &mut *mut u8) -> u32
    ensures faults { (result ≡ 0) ⊎ (result ≡ 99) }
    ensures given { IsSome handle → result ≡ 0 }
    ensures some { result ≡ 0 → IsSome handle }
    ensures kept { result ≢ 0 → at.new ≡ at.old }
{
    let Some(handle) = handle else {
        return 99;
    };
    *at = Box::into_raw(handle) as *mut u8;
    0
}

/// Hands out two handles; where there was no memory for one of them (99) both pointers are as they were. That each pointer leads to
/// its handle no clause says.
pub fn hand_out(
    first: Option<Box<Handle>>,
    second: Option<Box<Handle>>,
    one: &mut *mut u8,
    two: &mut *mut u8,
) -> u32
    ensures faults { (result ≡ 0) ⊎ (result ≡ 99) }
    ensures given { IsSome first → IsSome second → result ≡ 0 }
    ensures some { result ≡ 0 → IsSome first × IsSome second }
    ensures kept { result ≢ 0 → (one.new ≡ one.old) × (two.new ≡ two.old) }
{
    let Some(first) = first else {
        return 99;
    };
    let Some(second) = second else {
        return 99;
    };
    *one = Box::into_raw(first) as *mut u8;
    *two = Box::into_raw(second) as *mut u8;
    0
}
