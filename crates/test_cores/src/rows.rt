//! Worked examples.

use crate::gates::{Held, NoGate, SideBySide};
use crate::texts::{TextOutcome, add_lines, comes_to, run, skip_lines};
use fl_core_run::Gate;
use fl_cores::{CoresEnd, CoresFault};
use std::alloc::{AllocError, Global};
use std::sync::Wait;
use std::test::Fail;
use std::thread::Threads;

// So many turns are never used up.
const MANY: u64 = 1_000_000_000;

const PINGS: &[u8] = b"idl\ninterface i { message ping(uint32 v); }\n.\n";

// The same laid out by plan 1.
const PINGS_ONE: &[u8] = b"idl 1\ninterface i { message ping(uint32 v); }\n.\n";

// Calls within a core: by its N-th turn it has handled N of them.
const THREE_CALLS: &[u8] =
    b"disp d 0\ndisp e 0\nexport s e i\nbind p d i s local 4\ncall p.c ping(1)\ncall p.c ping(2)\ncall p.c ping(3)\n";

// Three cores in a row, and a binding over them.
const ROW: &[u8] =
    b"cores 3\nlink 0 1 4\nlink 1 2 4\ndisp d 0\ndisp e 2\nexport s e i\nbind p d i s hop 0 1 2\n";

// The same without the second link.
const BROKEN_ROW: &[u8] =
    b"cores 3\nlink 0 1 4\ndisp d 0\ndisp e 2\nexport s e i\nbind p d i s hop 0 1 2\n";

// Eight lines, of which the last sets a rule.
const RULED: &[u8] =
    b"idl\ninterface i { message a(uint32 v); }\n.\ndisp d 0\ndisp e 0\nexport s e i\nbind p d i s local 4\nreply p.s a a\n";

// Two parts of a text.
fn join(alloc: Global, one: &[u8], two: &[u8]) -> Result<Vec<u8>, AllocError> {
    let mut text = Vec::new(alloc);
    text.extend_from_slice(one)?;
    text.extend_from_slice(two)?;
    Ok(text)
}

// A row with 100 calls each way.
fn both_ways(alloc: Global, pings: &[u8], row: &[u8]) -> Result<Vec<u8>, AllocError> {
    let mut text = join(alloc, pings, row)?;
    add_lines(alloc, &mut text, "call p.c", (0, 100))?;
    add_lines(alloc, &mut text, "call p.s", (100, 200))?;
    Ok(text)
}

// What is told of it once all are handled.
fn all_handled(alloc: Global) -> Result<Vec<u8>, AllocError> {
    let mut text = Vec::new(alloc);
    add_lines(alloc, &mut text, "handle p.c", (100, 200))?;
    add_lines(alloc, &mut text, "handle p.s", (0, 100))?;
    text.extend_from_slice(b"complete\n")?;
    Ok(text)
}

// Whether all calls of such a text are handled.
fn handles_all<R: Threads + Wait + Sync, G: Gate + Sync>(
    rt: &R,
    alloc: Global,
    text: &[u8],
    gate: &G,
) -> Result<bool, CoresFault> {
    let wanted = all_handled(alloc)?;
    comes_to(rt, alloc, text, MANY, gate, (CoresEnd::Complete, &wanted))
}

// How many calls were handled at the client and at the server where turns were used up.
fn counts(alloc: Global, outcome: &TextOutcome) -> Result<Option<(u64, u64)>, AllocError> {
    let (client, rest) = skip_lines(alloc, &outcome.text, "handle p.c", (100, 200))?;
    let (server, rest) = skip_lines(alloc, rest, "handle p.s", (0, 100))?;
    if rest == b"turns out\n".as_slice() && outcome.end == CoresEnd::TurnsOut {
        return Ok(Some((client, server)));
    }
    Ok(None)
}

// The two parts of a text, how many turns there are, and what its run comes to and tells.
struct TextRow(&'static [u8], &'static [u8], u64, CoresEnd, &'static [u8]);

const TWO_HANDLED: &[u8] = b"handle p.s ping(1)\nhandle p.s ping(2)\nturns out\n";

const ALL_HANDLED: &[u8] =
    b"handle p.s ping(1)\nhandle p.s ping(2)\nhandle p.s ping(3)\ncomplete\n";

const TEXTS: &[TextRow] = &[
    TextRow(PINGS_ONE, THREE_CALLS, 2, CoresEnd::TurnsOut, TWO_HANDLED),
    TextRow(PINGS_ONE, THREE_CALLS, 3, CoresEnd::Complete, ALL_HANDLED),
    TextRow(
        RULED,
        b"call p.s a(1)\n",
        MANY,
        CoresEnd::Refused,
        b"line 9 refused E44\n",
    ),
    TextRow(
        RULED,
        b"reply p.c a a\n",
        MANY,
        CoresEnd::Refused,
        b"line 9 refused E44\n",
    ),
    TextRow(
        RULED,
        b"turn d\n",
        MANY,
        CoresEnd::Refused,
        b"line 9 refused E90\n",
    ),
];

fn is_so<R: Threads + Wait + Sync>(
    rt: &R,
    alloc: Global,
    row: &TextRow,
) -> Result<bool, CoresFault> {
    let text = join(alloc, row.0, row.1)?;
    comes_to(rt, alloc, &text, row.2, &NoGate, (row.3, row.4))
}

#[test]
fn texts_come_to(rt: HostRuntime) -> Result<(), Fail> {
    for row in TEXTS {
        assert!(rt; is_so(&rt, rt.alloc(), row)?);
    }
    Ok(())
}

// Whether nothing is handled in no turns.
fn handles_none<R: Threads + Wait + Sync>(
    rt: &R,
    alloc: Global,
    pings: &[u8],
) -> Result<bool, CoresFault> {
    let text = both_ways(alloc, pings, ROW)?;
    let wanted = (CoresEnd::TurnsOut, b"turns out\n".as_slice());
    comes_to(rt, alloc, &text, 0, &NoGate, wanted)
}

#[test]
fn no_turns(rt: HostRuntime) -> Result<(), Fail> {
    assert!(rt; handles_none(&rt, rt.alloc(), PINGS)?);
    assert!(rt; handles_none(&rt, rt.alloc(), PINGS_ONE)?);
    Ok(())
}

#[test]
fn three_cores_in_step(rt: HostRuntime) -> Result<(), Fail> {
    let text = both_ways(rt.alloc(), PINGS_ONE, ROW)?;
    assert!(rt; handles_all(&rt, rt.alloc(), &text, &SideBySide::new(&rt))?);
    Ok(())
}

// Whether in fifty turns at most so many calls are handled at the client, and at the server.
fn handles_few<R: Threads + Wait + Sync, G: Gate + Sync>(
    rt: &R,
    alloc: Global,
    pings: &[u8],
    gate: &G,
    most: (u64, u64),
) -> Result<bool, CoresFault> {
    let text = both_ways(alloc, pings, ROW)?;
    let told = run(rt, alloc, &text, 50, gate)?;
    Ok(match counts(alloc, &told)? {
        Some((client, server)) => client <= most.0 && server <= most.1,
        None => false,
    })
}

#[test]
fn fifty_turns(rt: HostRuntime) -> Result<(), Fail> {
    assert!(rt; handles_few(&rt, rt.alloc(), PINGS, &NoGate, (50, 50))?);
    assert!(rt; handles_few(&rt, rt.alloc(), PINGS_ONE, &NoGate, (50, 50))?);
    Ok(())
}

// Each of the first two cores waits for the other's first turn, so that one thread for all would never go on. No wait may run out before all is handled.
#[test]
fn cores_run_side_by_side(rt: HostRuntime) -> Result<(), Fail> {
    let text = both_ways(rt.alloc(), PINGS, ROW)?;
    let gate = SideBySide::new(&rt);
    let all = handles_all(&rt, rt.alloc(), &text, &gate)?;
    assert!(rt; !gate.wait.ran_out());
    assert!(rt; all);
    Ok(())
}

// Core 1 begins when core 0 has taken nearly all its turns: so next to nothing is handled, and nothing of that is told that wasn't.
#[test]
fn a_core_that_begins_late(rt: HostRuntime) -> Result<(), Fail> {
    let gate = Held::new(&rt, 50);
    let few = handles_few(&rt, rt.alloc(), PINGS, &gate, (1, 5))?;
    assert!(rt; !gate.wait.ran_out());
    assert!(rt; few);
    let gate_of_one = Held::new(&rt, 50);
    let few_of_one = handles_few(&rt, rt.alloc(), PINGS_ONE, &gate_of_one, (1, 5))?;
    assert!(rt; !gate_of_one.wait.ran_out());
    assert!(rt; few_of_one);
    Ok(())
}

#[test]
fn a_route_without_its_second_link(rt: HostRuntime) -> Result<(), Fail> {
    let text = both_ways(rt.alloc(), PINGS_ONE, BROKEN_ROW)?;
    let wanted = (
        CoresEnd::Complete,
        b"refused E73 p.c\ncomplete\n".as_slice(),
    );
    assert!(rt; comes_to(&rt, rt.alloc(), &text, MANY, &NoGate, wanted)?);
    Ok(())
}
