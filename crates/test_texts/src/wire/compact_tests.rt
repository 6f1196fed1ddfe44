//! Calls in little memory: what they hold, whether they fit, and the calls that they lend.

use crate::interfaces::interface;
use crate::rows::{TextCase, all_hold};
use fl_base::MsgNo;
use fl_compact_calls::{CompactCall, NumberCall};
use fl_interface::Interface;
use fl_value::{print_call, read_call};
use fl_value_data::Call;
use std::alloc::Global;
use std::test::Fail;

const TYPES: &[u8] =
    b"interface i { message small(uint8 x); message large(uint64 x); message two(uint8 x, uint8 y);
    message text(string s[8]); message none(); message array(uint8 x[n, 4]); }";

// A call as text, and its one number, if it is a call of one.
struct CompactRow(&'static [u8], Option<u64>);

const CALLS: &[CompactRow] = &[
    CompactRow(b"small(0)", Some(0)),
    CompactRow(b"small(255)", Some(255)),
    CompactRow(
        b"large(18446744073709551615)",
        Some(18_446_744_073_709_551_615),
    ),
    CompactRow(b"two(1, 2)", None),
    CompactRow(b"text(\"a\")", None),
    CompactRow(b"none()", None),
    CompactRow(b"array([7])", None),
];

// Whether it is the call of a text: by its number, its message, and the call that it lends.
fn is_call(
    alloc: Global,
    compact: &CompactCall,
    row: &CompactRow,
    call: &Call,
    interface: &Interface,
) -> Result<bool, Fail> {
    let mut spare = NumberCall::new(alloc)?;
    spare.set(MsgNo(9), 9);
    let Some(message) = interface.messages.get(usize::from(call.msg.0)) else {
        return Ok(false);
    };
    let mut printed = Vec::new(alloc);
    print_call(
        alloc,
        &mut printed,
        &message.name.bytes,
        &compact.lend(&mut spare).args,
    )?;
    Ok(
        compact.number() == row.1
            && compact.msg() == call.msg
            && compact.fits(interface)
            && printed.as_slice() == row.0,
    )
}

impl TextCase for CompactRow {
    fn holds(&self, alloc: Global) -> Result<bool, Fail> {
        let interface = interface(alloc, TYPES)?;
        let mut call = read_call(alloc, self.0, &interface)?;
        let kept = CompactCall::keep(alloc, read_call(alloc, self.0, &interface)?)?;
        if !is_call(alloc, &kept, self, &call, &interface)? {
            return Ok(false);
        }
        let taken = CompactCall::take(alloc, &mut call)?;
        is_call(alloc, &taken, self, &call, &interface)
    }
}

#[test]
fn calls_are_held_in_little_memory(rt: HostRuntime) -> Result<(), Fail> {
    all_hold(rt.alloc(), "calls", CALLS)
}

#[test]
fn numbers_are_held_that_fit_no_message(rt: HostRuntime) -> Result<(), Fail> {
    let alloc = rt.alloc();
    let interface = interface(alloc, TYPES)?;
    let mut spare = NumberCall::new(alloc)?;
    for (msg, number, fits) in [
        (0, 255, true),
        (0, 256, false),
        (2, 1, false),
        (3, 1, false),
        (6, 1, false),
    ] {
        let compact = CompactCall::of_number(&mut spare, MsgNo(msg), number);
        if compact.fits(&interface) != fits || compact.number() != Some(number) {
            return Err(Fail::new(format_args!("{number} of message {msg}")));
        }
    }
    Ok(())
}
