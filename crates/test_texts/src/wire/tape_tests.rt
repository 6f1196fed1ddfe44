//! Tapes: the numbers of calls in each plan's order.

use crate::interfaces::interface;
use crate::rows::{TextCase, all_hold};
use fl_interface::Interface;
use fl_value::{ValueFault, read_call};
use fl_value_data::{PlanNo, fits, flatten, law_one_call_of_a_tape, unflatten};
use std::alloc::Global;
use std::test::Fail;

// An interface's text, a call of it, and the call's tape under each plan.
struct Flat {
    text: &'static [u8],
    call: &'static [u8],
    one: &'static [u64],
    two: &'static [u64],
}

// Plan 2 puts wider arguments first.
const FLAT: &[Flat] = &[
    Flat {
        text: b"interface i { message m(int8 a, string b[2048], uint16 c); }",
        call: b"m(-128, \"hi\", 5)",
        one: &[128, 2, 104, 105, 5],
        two: &[5, 128, 2, 104, 105],
    },
    Flat {
        text: b"interface i {
            typedef uint8 two[2];
            message m(bool a, string b[4], uint16 c, two d, uint32 e[n, 4], int64 f);
        }",
        call: b"m(1, \"hi\", 5, [1, 2], [7, 8, 9], -1)",
        one: &[1, 2, 104, 105, 5, 1, 2, 3, 7, 8, 9, 0xffff_ffff_ffff_ffff],
        two: &[0xffff_ffff_ffff_ffff, 5, 1, 1, 2, 2, 104, 105, 3, 7, 8, 9],
    },
];

// Whether a call that stands as text fits and has this tape, and the tape is a call's.
fn has_tape(
    alloc: Global,
    interface: &Interface,
    plan: PlanNo,
    call: &[u8],
    tape: &[u64],
) -> Result<bool, ValueFault> {
    let call = read_call(alloc, call, interface)?;
    Ok(
        fits(&call, interface)
            && flatten(alloc, &call, interface, plan)?.as_slice() == tape
            && unflatten(alloc, call.msg, tape, interface, plan)?.is_some(),
    )
}

impl TextCase for Flat {
    fn holds(&self, alloc: Global) -> Result<bool, Fail> {
        let interface = interface(alloc, self.text)?;
        Ok(
            has_tape(alloc, &interface, PlanNo::One, self.call, self.one)?
                && has_tape(alloc, &interface, PlanNo::Two, self.call, self.two)?,
        )
    }
}

#[test]
fn tapes_follow_the_plan(rt: HostRuntime) -> Result<(), Fail> {
    law_one_call_of_a_tape();
    all_hold(rt.alloc(), "calls", FLAT)
}
