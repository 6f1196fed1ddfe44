//! What C calls. A handle is a pointer that C keeps and never reads: it owns what the pointer leads to.

ghost use Rattle.std.specs.Prelude.{◌≡◌, ◌≢◌, ◌↔◌, ◌⊎◌};
ghost use types.Logic.{sem};
ghost use Rattle.std.specs.Ptr.{points_to};
ghost use Rattle.fl_ring.specs.Duo.{MayHaveSlots};
ghost use Rattle.fl_c_operations.specs.contracts.handle.Handle.{the_row};
ghost use Rattle.fl_c_operations.specs.Handles.{Uses, HandsRun};
ghost use Rattle.fl_c_operations.specs.Making.{plan_at, AnswersTextEnds, AnswersImageEnds, AnswersTextProgram, AnswersImageProgram};

use fl_c_operations::{
    Answered, Handle, HeldProgram, Outcome, UseFault, boxed, hand_one, hand_out, image_ends,
    image_program, new_run, ring_handles, text_ends, text_program, use_handle, use_sending,
    use_taking,
};
use fl_endpoint::EndFault;
use fl_ring::RingFault;
use fl_value_data::PlanNo;
use std::alloc::Global;

const NO_SUCH_PLAN: u32 = 102;

/// Makes the two sides of a ring of two directions, each with its slots ([`ring_handles`]). Faults: a ring
/// can't have this number of slots (32), out of memory (99); then no handle was made, and both pointers are
/// as they were.
#[unsafe(no_mangle)]
pub extern "C" fn flounder_make(
    alloc: Global,
    slots: usize,
    one: &mut *mut u8,
    two: &mut *mut u8,
) -> u32
    ensures bad_size { (result ≡ 32) ↔ (¬ MayHaveSlots slots) }
    ensures faults { (result ≡ 0) ⊎ ((result ≡ 32) ⊎ (result ≡ 99)) }
    ensures kept { result ≢ 0 → (one.new ≡ one.old) × (two.new ≡ two.old) }
{
    match ring_handles(alloc, slots) {
        Ok((first, second)) => { hand_out(boxed(alloc, first), boxed(alloc, second), one, two) }
        Err(RingFault::BadSize) => 32,
        Err(RingFault::Memory) => 99,
    }
}

// The plan of a number.
fn plan_of(number: u32) -> Option<PlanNo>
    ensures exact { result ≡ plan_at number }
{
    match number {
        1 => Some(PlanNo::One),
        2 => Some(PlanNo::Two),
        _ => None,
    }
}

/// Makes both ends of the interface that a text stands for, compiled under plan 1 or 2, over a new ring
/// ([`text_ends`]). Faults: no such plan (102), a ring can't have this number of slots (32), a fault of the
/// text (1 to 21), out of memory (99); then no handle was made, and both pointers are as they were. `place`
/// gets where in the text its fault stands; 0 with fault 32, and where memory ran out before both ends were
/// made. Else (without a fault, with 102, where only the handles' memory is wanting) it is as it was.
#[unsafe(no_mangle)]
pub extern "C" fn flounder_make_text_ends(
    alloc: Global,
    text: &[u8],
    plan: u32,
    slots: usize,
    one: &mut *mut u8,
    two: &mut *mut u8,
    place: &mut u64,
) -> u32
    ensures answers { AnswersTextEnds (plan_at plan) text.now slots result place.old place.new }
    ensures kept { result ≢ 0 → (one.new ≡ one.old) × (two.new ≡ two.old) }
{
    let Some(plan) = plan_of(plan) else {
        return NO_SUCH_PLAN;
    };
    match text_ends(alloc, text, plan, slots) {
        Ok((first, second)) => {
            let first = boxed(alloc, Handle::End(first));
            let second = boxed(alloc, Handle::End(second));
            hand_out(first, second, one, two)
        }
        Err(fault) => {
            *place = fault.place();
            fault.number()
        }
    }
}

/// Makes both ends of the program of an image over a new ring ([`image_ends`]). Faults: a ring can't have
/// this number of slots (32), the bytes are no image (80 to 85), out of memory (99); then no handle was made,
/// and both pointers are as they were.
#[unsafe(no_mangle)]
pub extern "C" fn flounder_make_image_ends(
    alloc: Global,
    image: &[u8],
    slots: usize,
    one: &mut *mut u8,
    two: &mut *mut u8,
) -> u32
    ensures answers { AnswersImageEnds image.now slots result }
    ensures kept { result ≢ 0 → (one.new ≡ one.old) × (two.new ≡ two.old) }
{
    match image_ends(alloc, image, slots) {
        Ok((first, second)) => {
            let first = boxed(alloc, Handle::End(first));
            let second = boxed(alloc, Handle::End(second));
            hand_out(first, second, one, two)
        }
        Err(fault) => fault.number(),
    }
}

/// Makes the program of the interface that a text stands for, compiled under plan 1 or 2 ([`text_program`]).
/// Faults: no such plan (102), a fault of the text (1 to 21), out of memory (99); then no handle was made, and the
/// pointer is as it was. `place` gets where in the text its fault stands; 0 where memory ran out before the
/// program was made. Else (without a fault, with 102, where only the handle's memory is wanting) it is as it was.
#[unsafe(no_mangle)]
pub extern "C" fn flounder_make_text_program(
    alloc: Global,
    text: &[u8],
    plan: u32,
    program: &mut *mut u8,
    place: &mut u64,
) -> u32
    ensures answers { AnswersTextProgram (plan_at plan) text.now result place.old place.new }
    ensures kept { result ≢ 0 → program.new ≡ program.old }
{
    let Some(plan) = plan_of(plan) else {
        return NO_SUCH_PLAN;
    };
    match text_program(alloc, text, plan) {
        Ok(made) => {
            let made = Handle::Program(HeldProgram::new(alloc, made));
            hand_one(boxed(alloc, made), program)
        }
        Err(fault) => {
            *place = fault.place();
            fault.number()
        }
    }
}

/// Makes the program of an image ([`image_program`]). Faults: the bytes are no image (80 to 85), out of memory
/// (99); then no handle was made, and the pointer is as it was.
#[unsafe(no_mangle)]
pub extern "C" fn flounder_make_image_program(
    alloc: Global,
    image: &[u8],
    program: &mut *mut u8,
) -> u32
    ensures answers { AnswersImageProgram image.now result }
    ensures kept { result ≢ 0 → program.new ≡ program.old }
{
    match image_program(alloc, image) {
        Ok(made) => {
            let made = Handle::Program(HeldProgram::new(alloc, made));
            hand_one(boxed(alloc, made), program)
        }
        Err(fault) => fault.number(),
    }
}

// A run of what a handle leads to, for C.
fn make_run(handle: &mut Handle, kind: u32, run: &mut *mut u8) -> Answered
    ensures hands { HandsRun handle.old kind run.old result handle.new run.new }
{
    let Handle::Program(program) = handle else {
        return Answered::of(Err(UseFault::NoSuchOperation));
    };
    match new_run(program, kind) {
        Err(fault) => Answered::of(Err(fault)),
        Ok(made) => match hand_one(boxed(program.alloc(), made), run) {
            0 => Answered::of(Ok(Outcome::Made)),
            _ => Answered::of(Err(UseFault::End(EndFault::Memory))),
        },
    }
}

/// Makes a run of a program: 1 is a send run, 2 a receive run ([`new_run`]). Faults: the handle leads to no program,
/// or there is no such run (101), out of memory (99); then no handle was made, and the pointer is as it was.
#[unsafe(no_mangle)]
pub unsafe extern "C" fn flounder_make_run(
    handle: *mut u8,
    kind: u32,
    run: &mut *mut u8,
) -> Answered
    ghost before: { Handle }
    requires* { sem 𝓛 (points_to the_row handle before) }
    ensures* { ∃ₛ (λ (after : Handle). sem 𝓛 (points_to the_row handle after) ∗ ⌜ HandsRun before kind run.old result after run.new ⌝) }
{
    make_run(&mut *(handle as *mut Handle), kind, run)
}

/// Does the operation of this number at a handle, on these numbers ([`use_handle`]). The handle still owns
/// what it leads to.
#[inline(always)]
#[unsafe(no_mangle)]
pub unsafe extern "C" fn flounder_use(handle: *mut u8, what: u32, numbers: &mut [u64]) -> Answered
    ghost before: { Handle }
    requires* { sem 𝓛 (points_to the_row handle before) }
    ensures* { ∃ₛ (λ (after : Handle). sem 𝓛 (points_to the_row handle after) ∗ ⌜ Uses before what numbers.old result after numbers.new ⌝) }
{
    use_handle(&mut *(handle as *mut Handle), what, numbers)
}

/// The same by [`use_sending`].
#[inline(always)]
pub(crate) unsafe fn flounder_use_sending(
    handle: *mut u8,
    what: u32,
    numbers: &mut [u64],
) -> Answered
    ghost before: { Handle }
    requires* { sem 𝓛 (points_to the_row handle before) }
    ensures* { ∃ₛ (λ (after : Handle). sem 𝓛 (points_to the_row handle after) ∗ ⌜ Uses before what numbers.old result after numbers.new ⌝) }
{
    use_sending(&mut *(handle as *mut Handle), what, numbers)
}

/// The same by [`use_taking`].
#[inline(always)]
pub(crate) unsafe fn flounder_use_taking(
    handle: *mut u8,
    what: u32,
    numbers: &mut [u64],
) -> Answered
    ghost before: { Handle }
    requires* { sem 𝓛 (points_to the_row handle before) }
    ensures* { ∃ₛ (λ (after : Handle). sem 𝓛 (points_to the_row handle after) ∗ ⌜ Uses before what numbers.old result after numbers.new ⌝) }
{
    use_taking(&mut *(handle as *mut Handle), what, numbers)
}

// As `use_handle`, on eight numbers.
#[inline(always)]
fn use_eight(handle: &mut Handle, what: u32, numbers: &mut [u64; 8]) -> Answered
    ensures uses { Uses handle.old what numbers.old result handle.new numbers.new }
{
    use_handle(handle, what, numbers)
}

/// As [`flounder_use`], on eight numbers, of which C passes no count.
#[inline(always)]
pub(crate) unsafe fn flounder_use_eight(
    handle: *mut u8,
    what: u32,
    numbers: &mut [u64; 8],
) -> Answered
    ghost before: { Handle }
    requires* { sem 𝓛 (points_to the_row handle before) }
    ensures* { ∃ₛ (λ (after : Handle). sem 𝓛 (points_to the_row handle after) ∗ ⌜ Uses before what numbers.old result after numbers.new ⌝) }
{
    use_eight(&mut *(handle as *mut Handle), what, numbers)
}
