//! What C asks of handles, by its number: each operation once, and on handles of a wrong kind and with too little room.
//!
//! Handles are made here and handed on by value: what is asked of them stands over [`Asked`], which knows of no handle's parts.

use fl_c_operations::{
    Answered, Handle, HeldEnd, HeldProgram, MakeFault, UseFault, image_ends, image_program,
    new_run, ring_handles, text_ends, text_program, use_handle,
};
use fl_compile::Program;
use fl_image::{is_writable, write_image};
use fl_ring::{RingFault, duo};
use fl_value_data::PlanNo;
use std::alloc::{AllocError, Global};
use std::mem::{align_of, size_of};
use std::test::Fail;

const TEXT: &[u8] = b"interface desk \"a desk\" {
    typedef uint64 row[8];
    rpc echo(in string line[200], out string again[200]);
    message pair(uint8 a, int16 b);
    message long(row all);
    typedef struct { uint8 x; uint32 y; } spot;
    message at(spot place);
};";

// The words of fragments: of `long`, with and without the epoch of a ring's first round, and of a call of `echo`.
const FIRST: &[u64] = &[1, 2, 3, 4, 5, 6, 7, 196_610];

const LAST: &[u64] = &[8, 0, 0, 0, 0, 0, 0, 196_608];

const LINE: &[u64] = &[2, 25_185, 0, 0, 0, 0, 0, 2];

const LONG: &[u64] = &[3, 1, 2, 3, 4, 5, 6, 7, 8];

const ECHO: &[u64] = &[0, 2, 97, 98];

// A call of a struct of two numbers, with padding between them.
const SPOT: &[u64] = &[4, 1, 2];

// A call of scalars alone; its only fragment; and the same with a byte between its arguments that isn't 0.
const PAIR: &[u64] = &[2, 7, 65_535];

const ONLY: &[u64] = &[4_294_901_767, 0, 0, 0, 0, 0, 0, 131_074];

const WRONG: &[u64] = &[4_294_902_023, 0, 0, 0, 0, 0, 0, 131_074];

// The alignment and the size of a handle's block.
const ALIGN: u32 = align_of::<Handle>() as u32;

const SIZE: u64 = size_of::<Handle>() as u64;

// What is asked of the first or the second handle, and on which numbers; what it came to: the fault, which of the
// things that it may come to, and the count; and the numbers afterwards.
type Row = (u8, u32, &'static [u64], (u32, u32, u64), &'static [u64]);

// At the two sides of a ring. A side that is freed tells its block, and answers nothing then.
const SIDES: &[Row] = &[
    (2, 2, &[9; 8], (0, 0, 0), &[9; 8]),
    (
        1,
        1,
        &[7, 6, 5, 4, 3, 2, 1, 2],
        (0, 0, 0),
        &[7, 6, 5, 4, 3, 2, 1, 2],
    ),
    (2, 3, &[9; 8], (0, 1, 8), &[7, 6, 5, 4, 3, 2, 1, 3]),
    (2, 2, &[9; 8], (0, 1, 8), &[7, 6, 5, 4, 3, 2, 1, 3]),
    (2, 4, &[], (0, 0, 0), &[]),
    (1, 1, FIRST, (0, 0, 0), FIRST),
    (2, 2, &[9; 8], (0, 1, 8), &[1, 2, 3, 4, 5, 6, 7, 196_611]),
    (2, 4, &[], (0, 1, 0), &[]),
    (1, 2, &[9; 8], (0, 2, 0), &[9; 8]),
    // Mistakes at the same sides.
    (1, 1, &[0; 7], (103, 0, 0), &[0; 7]),
    (1, 2, &[0; 9], (103, 0, 0), &[0; 9]),
    (1, 3, &[], (103, 0, 0), &[]),
    (1, 77, &[2; 8], (101, 0, 0), &[2; 8]),
    (1, 6, &[2; 8], (101, 0, 0), &[2; 8]),
    (1, 16, &[2; 8], (101, 0, 0), &[2; 8]),
    (1, 17, &[2; 8], (101, 0, 0), &[2; 8]),
    (
        1,
        1,
        &[0, 0, 0, 0, 0, 0, 0, 4],
        (63, 0, 0),
        &[0, 0, 0, 0, 0, 0, 0, 4],
    ),
    (1, 5, &[], (0, ALIGN, SIZE), &[]),
    (1, 4, &[], (101, 0, 0), &[]),
];

// At the two ends of a binding.
const CALLS: &[Row] = &[
    (2, 10, &[0, 1], (0, 0, 0), &[0, 1]),
    (1, 11, &[], (0, 0, 0), &[]),
    (1, 6, ECHO, (0, 0, 0), ECHO),
    (1, 11, &[], (0, 1, 0), &[]),
    (1, 6, ECHO, (40, 0, 0), ECHO),
    (1, 7, &[], (0, 1, 0), &[]),
    (1, 7, &[], (0, 0, 0), &[]),
    (2, 9, &[7; 5], (0, 0, 0), &[7; 5]),
    (2, 8, &[], (0, 4, 0), &[]),
    (2, 8, &[], (105, 0, 0), &[]),
    (2, 9, &[7; 3], (103, 0, 4), &[7; 3]),
    (2, 9, &[7; 5], (0, 1, 4), &[0, 2, 97, 98, 7]),
    (2, 7, &[], (0, 1, 0), &[]),
    (1, 8, &[], (0, 4, 0), &[]),
    (1, 9, &[7; 5], (0, 1, 4), &[1, 2, 97, 98, 7]),
    (1, 8, &[], (0, 0, 0), &[]),
    (1, 4, &[], (0, 0, 0), &[]),
    (1, 6, LONG, (0, 0, 0), LONG),
    (1, 7, &[], (0, 1, 1), &[]),
    (2, 8, &[], (0, 1, 0), &[]),
    (1, 6, &[], (103, 0, 0), &[]),
    (1, 6, &[5], (41, 0, 0), &[5]),
    (1, 6, &[65_538, 1, 2], (41, 0, 0), &[65_538, 1, 2]),
    (1, 6, &[2, 256, 0], (42, 0, 0), &[2, 256, 0]),
    (1, 6, &[2, 1], (42, 0, 0), &[2, 1]),
    (1, 10, &[0], (103, 0, 0), &[0]),
    (1, 10, &[0, 2], (42, 0, 0), &[0, 2]),
    (1, 10, &[0, 65_537], (41, 0, 0), &[0, 65_537]),
    (1, 1, &[0; 8], (101, 0, 0), &[0; 8]),
    (1, 7, &[], (0, 1, 0), &[]),
    (2, 8, &[], (0, 4, 0), &[]),
    (2, 9, &[7; 9], (0, 1, 9), LONG),
    // A call of one fragment, behind which a reply by rule waits.
    (2, 6, PAIR, (0, 0, 0), PAIR),
    (2, 11, &[], (0, 1, 0), &[]),
    (2, 6, PAIR, (40, 0, 0), PAIR),
    (2, 6, LONG, (40, 0, 0), LONG),
    (1, 6, ECHO, (0, 0, 0), ECHO),
    (1, 7, &[], (0, 1, 0), &[]),
    (2, 8, &[], (0, 4, 0), &[]),
    (2, 9, &[7; 4], (0, 1, 4), ECHO),
    (2, 7, &[], (0, 1, 0), &[]),
    (2, 11, &[], (0, 1, 0), &[]),
    (2, 6, PAIR, (40, 0, 0), PAIR),
    (2, 7, &[], (0, 1, 0), &[]),
    (2, 7, &[], (0, 0, 0), &[]),
    (1, 8, &[], (0, 4, 0), &[]),
    (1, 9, &[7; 2], (103, 0, 3), &[7; 2]),
    (1, 9, &[7; 3], (0, 1, 3), PAIR),
    (1, 8, &[], (0, 4, 0), &[]),
    (1, 9, &[7; 4], (0, 1, 4), &[1, 2, 97, 98]),
    // One that comes while a reply by rule waits to be written.
    (1, 6, ECHO, (0, 0, 0), ECHO),
    (1, 7, &[], (0, 1, 0), &[]),
    (1, 6, PAIR, (0, 0, 0), PAIR),
    (1, 7, &[], (0, 1, 0), &[]),
    (2, 8, &[], (0, 4, 0), &[]),
    (2, 9, &[7; 4], (0, 1, 4), ECHO),
    (2, 8, &[], (0, 4, 0), &[]),
    (2, 8, &[], (105, 0, 0), &[]),
    (2, 9, &[7; 2], (103, 0, 3), &[7; 2]),
    (2, 9, &[7; 4], (0, 1, 3), &[2, 7, 65_535, 7]),
    (2, 9, &[7; 4], (0, 0, 0), &[7; 4]),
    (2, 7, &[], (0, 1, 0), &[]),
    (2, 7, &[], (0, 0, 0), &[]),
    (1, 8, &[], (0, 4, 0), &[]),
    (1, 9, &[7; 4], (0, 1, 4), &[1, 2, 97, 98]),
    // One to which there is a reply by rule.
    (1, 10, &[2, 2], (0, 0, 0), &[2, 2]),
    (2, 6, PAIR, (0, 0, 0), PAIR),
    (2, 7, &[], (0, 1, 0), &[]),
    (1, 8, &[], (0, 4, 0), &[]),
    (1, 9, &[7; 3], (0, 1, 3), PAIR),
    (1, 11, &[], (0, 1, 0), &[]),
    (1, 7, &[], (0, 1, 0), &[]),
    (2, 8, &[], (0, 4, 0), &[]),
    (2, 9, &[7; 3], (0, 1, 3), PAIR),
];

// The same by two operations in one: calls of few numbers, with a string, with a struct, and of two fragments; too little room for a
// call, which stays to be read; mistakes; and a ring with no room, until what was taken is told.
const PAIRS: &[Row] = &[
    (2, 17, &[7; 5], (0, 0, 0), &[7; 5]),
    (1, 16, PAIR, (0, 1, 0), PAIR),
    (1, 11, &[], (0, 0, 0), &[]),
    (2, 17, &[7; 4], (0, 4, 3), &[2, 7, 65_535, 7]),
    (2, 9, &[7; 4], (0, 0, 0), &[7; 4]),
    (1, 16, PAIR, (0, 1, 0), PAIR),
    (2, 17, &[7; 2], (103, 4, 3), &[7; 2]),
    (2, 17, &[7; 3], (105, 0, 0), &[7; 3]),
    (2, 9, &[7; 3], (0, 1, 3), PAIR),
    (1, 16, ECHO, (0, 1, 0), ECHO),
    (2, 17, &[7; 3], (103, 4, 4), &[7; 3]),
    (2, 9, &[7; 5], (0, 1, 4), &[0, 2, 97, 98, 7]),
    (1, 16, SPOT, (0, 1, 0), SPOT),
    (2, 17, &[7; 4], (0, 4, 3), &[4, 1, 2, 7]),
    (1, 16, LONG, (0, 1, 1), LONG),
    (1, 16, PAIR, (40, 0, 0), PAIR),
    (2, 17, &[7; 9], (0, 1, 0), &[7; 9]),
    (1, 7, &[], (0, 1, 0), &[]),
    (2, 17, &[7; 9], (0, 4, 9), LONG),
    (1, 16, &[], (103, 0, 0), &[]),
    (1, 16, &[5], (41, 0, 0), &[5]),
    (1, 16, &[2, 256, 0], (42, 0, 0), &[2, 256, 0]),
    (1, 16, PAIR, (0, 1, 0), PAIR),
    (1, 16, PAIR, (0, 2, 0), PAIR),
    (1, 11, &[], (0, 1, 0), &[]),
    (1, 16, PAIR, (40, 0, 0), PAIR),
    (2, 4, &[], (0, 1, 0), &[]),
    (1, 17, &[7; 3], (0, 2, 0), &[7; 3]),
    (1, 7, &[], (0, 1, 0), &[]),
    (2, 17, &[7; 3], (0, 4, 3), PAIR),
    (2, 17, &[7; 3], (0, 4, 3), PAIR),
    (2, 17, &[7; 3], (0, 0, 0), &[7; 3]),
];

// At a side of a ring, and at the end over the other side: calls of one fragment before and behind one of two, and behind them a wrong
// fragment, at which the end fails for good.
const BEHIND: &[Row] = &[
    (1, 1, ONLY, (0, 0, 0), ONLY),
    (1, 1, FIRST, (0, 0, 0), FIRST),
    (1, 1, LAST, (0, 0, 0), LAST),
    (1, 1, ONLY, (0, 0, 0), ONLY),
    (1, 1, WRONG, (0, 0, 0), WRONG),
    (1, 1, ONLY, (0, 0, 0), ONLY),
    (2, 8, &[], (0, 4, 0), &[]),
    (2, 9, &[7; 3], (0, 1, 3), PAIR),
    (2, 8, &[], (0, 1, 0), &[]),
    (2, 8, &[], (0, 4, 0), &[]),
    (2, 9, &[7; 9], (0, 1, 9), LONG),
    (2, 8, &[], (0, 4, 0), &[]),
    (2, 9, &[7; 3], (0, 1, 3), PAIR),
    (2, 8, &[], (63, 0, 0), &[]),
    (2, 8, &[], (64, 0, 0), &[]),
    (2, 6, PAIR, (64, 0, 0), PAIR),
    (2, 7, &[], (64, 0, 0), &[]),
];

// The same where such a call comes before one under way is whole.
const INSIDE: &[Row] = &[
    (1, 1, FIRST, (0, 0, 0), FIRST),
    (1, 1, ONLY, (0, 0, 0), ONLY),
    (2, 8, &[], (0, 1, 0), &[]),
    (2, 8, &[], (61, 0, 0), &[]),
    (2, 8, &[], (64, 0, 0), &[]),
];

// The first handle is a send run, the second a receive run.
const RUNS: &[Row] = &[
    (1, 14, &[9; 8], (0, 0, 0), &[9; 8]),
    (1, 6, LONG, (0, 0, 0), LONG),
    (1, 14, &[9; 7], (103, 0, 0), &[9; 7]),
    (1, 14, &[9; 8], (0, 1, 8), FIRST),
    (1, 6, ECHO, (40, 0, 0), ECHO),
    (1, 14, &[9; 8], (0, 1, 8), LAST),
    (1, 14, &[9; 8], (0, 0, 0), &[9; 8]),
    (1, 6, &[2, 256, 0], (42, 0, 0), &[2, 256, 0]),
    (1, 6, ECHO, (0, 0, 0), ECHO),
    (1, 14, &[9; 8], (0, 1, 8), LINE),
    (1, 1, &[0; 8], (101, 0, 0), &[0; 8]),
    (2, 9, &[9; 9], (0, 0, 0), &[9; 9]),
    (2, 15, LAST, (60, 0, 0), LAST),
    (2, 15, FIRST, (0, 1, 0), FIRST),
    (2, 15, LINE, (61, 0, 0), LINE),
    (2, 15, &[0; 3], (103, 0, 0), &[0; 3]),
    (2, 15, LAST, (0, 4, 0), LAST),
    (2, 15, FIRST, (105, 0, 0), FIRST),
    (2, 9, &[9; 8], (103, 0, 9), &[9; 8]),
    (2, 9, &[9; 10], (0, 1, 9), &[3, 1, 2, 3, 4, 5, 6, 7, 8, 9]),
    (2, 9, &[9; 9], (0, 0, 0), &[9; 9]),
    (2, 14, &[9; 8], (101, 0, 0), &[9; 8]),
];

// The handle is a program.
const SIZES: &[Row] = &[
    (1, 12, &[], (0, 0, 5), &[]),
    (1, 13, &[0], (0, 208, 201), &[0]),
    (1, 13, &[2], (0, 4, 2), &[2]),
    (1, 13, &[3], (0, 64, 8), &[3]),
    (1, 13, &[4], (0, 8, 2), &[4]),
    (1, 13, &[5], (41, 0, 0), &[5]),
    (1, 13, &[65_536], (41, 0, 0), &[65_536]),
    (1, 13, &[], (103, 0, 0), &[]),
    (1, 2, &[0; 8], (101, 0, 0), &[0; 8]),
];

// The number of a want of memory.
const MEMORY: u32 = 99;

// What has operations, and runs, by number.
trait Asked: Drop {
    fn ask(&mut self, what: u32, numbers: &mut [u64]) -> Answered;

    fn run(&self, kind: u32) -> Result<Handle, UseFault>;
}

impl Asked for Handle {
    fn ask(&mut self, what: u32, numbers: &mut [u64]) -> Answered {
        use_handle(self, what, numbers)
    }

    fn run(&self, kind: u32) -> Result<Handle, UseFault> {
        match self {
            Handle::Program(program) => new_run(program, kind),
            _ => Err(UseFault::NoSuchOperation),
        }
    }
}

// Whether an answer is the one that is wanted, where memory didn't run out.
fn is_wanted(answer: Answered, wanted: (u32, u32, u64)) -> Result<bool, AllocError> {
    if answer.fault == MEMORY {
        return Err(AllocError);
    }
    let (fault, came, count) = wanted;
    Ok(answer.fault == fault && answer.what == came && answer.count == count)
}

// Whether a row's operation comes to what the row says, on numbers of which there are as many as before.
fn comes<H: Asked>(handle: &mut H, row: &Row, numbers: &mut [u64]) -> Result<bool, AllocError> {
    let (_, what, before, wanted, after) = *row;
    if numbers.len() != before.len() {
        return Ok(false);
    }
    numbers.copy_from_slice(before);
    let answer = handle.ask(what, numbers);
    Ok(is_wanted(answer, wanted)? && *numbers == *after)
}

// The same.
fn holds<H: Asked>(handle: &mut H, row: &Row) -> Result<bool, AllocError> {
    let mut room = [0; 16];
    let (numbers, _) = room.split_at_mut(row.2.len().min(16));
    comes(handle, row, numbers)
}

// The same at the first or the second of two.
fn holds_at<A: Asked, B: Asked>(one: &mut A, two: &mut B, row: &Row) -> Result<bool, AllocError> {
    if row.0 == 1 {
        return holds(one, row);
    }
    holds(two, row)
}

// Whether all rows come to what they say at two handles, one after another.
fn all_come<A: Asked, B: Asked>(
    one: &mut A,
    two: &mut B,
    rows: &[Row],
) -> Result<bool, AllocError> {
    for row in rows {
        if !holds_at(one, two, row)? {
            return Ok(false);
        }
    }
    Ok(true)
}

// The same of handles that are let go then.
fn all_come_at<A: Asked, B: Asked>(one: A, two: B, rows: &[Row]) -> Result<bool, AllocError> {
    let mut one = one;
    let mut two = two;
    all_come(&mut one, &mut two, rows)
}

// The two sides of a ring. Only where memory runs out none are made; so it is of the ends and the runs below.
fn sides_answer(alloc: Global) -> Result<bool, AllocError> {
    match ring_handles(alloc, 4) {
        Ok((one, two)) => all_come_at(one, two, SIDES),
        Err(_) => Err(AllocError),
    }
}

#[test]
fn fragments_go_over(rt: HostRuntime) -> Result<(), Fail> {
    assert!(rt; sides_answer(rt.alloc())?);
    Ok(())
}

// Two ends.
fn ends_answer(alloc: Global, rows: &[Row]) -> Result<bool, AllocError> {
    match text_ends(alloc, TEXT, PlanNo::One, 8) {
        Ok((one, two)) => all_come_at(Handle::End(one), Handle::End(two), rows),
        Err(_) => Err(AllocError),
    }
}

#[test]
fn calls_go_over(rt: HostRuntime) -> Result<(), Fail> {
    for rows in [CALLS, PAIRS] {
        assert!(rt; ends_answer(rt.alloc(), rows)?);
    }
    Ok(())
}

// A side of a ring, and the end over the other side, if there was memory for it.
fn ring_answers<S: Asked>(
    side: S,
    end: Result<HeldEnd, AllocError>,
    rows: &[Row],
) -> Result<bool, AllocError> {
    match end {
        Ok(end) => all_come_at(side, Handle::End(end), rows),
        Err(AllocError) => Err(AllocError),
    }
}

fn end_of(alloc: Global, program: Program, rows: &[Row]) -> Result<bool, AllocError> {
    match duo(alloc, 8) {
        Ok((one, two)) => ring_answers(Handle::Side(one), HeldEnd::new(alloc, program, two), rows),
        Err(_) => Err(AllocError),
    }
}

fn end_answers(alloc: Global, rows: &[Row]) -> Result<bool, AllocError> {
    match text_program(alloc, TEXT, PlanNo::One) {
        Ok(program) => end_of(alloc, program, rows),
        Err(_) => Err(AllocError),
    }
}

#[test]
fn wrong_fragments_fail_an_end(rt: HostRuntime) -> Result<(), Fail> {
    for rows in [BEHIND, INSIDE] {
        assert!(rt; end_answers(rt.alloc(), rows)?);
    }
    Ok(())
}

// A send run of a program, and a receive run.
fn runs_answer<S: Asked, P: Asked>(program: &P, sender: S) -> Result<bool, AllocError> {
    match program.run(2) {
        Ok(receiver) => all_come_at(sender, receiver, RUNS),
        Err(_) => Err(AllocError),
    }
}

fn runs_of<P: Asked>(program: &P) -> Result<bool, AllocError> {
    match program.run(1) {
        Ok(sender) => runs_answer(program, sender),
        Err(_) => Err(AllocError),
    }
}

// There is no third kind of run.
fn has_no_third<P: Asked>(program: &P) -> bool {
    matches!(program.run(3).err(), Some(UseFault::NoSuchOperation))
}

// Whether all rows come to what they say at a program.
fn sizes_come<P: Asked>(program: &mut P) -> Result<bool, AllocError> {
    for row in SIZES {
        if !holds(program, row)? {
            return Ok(false);
        }
    }
    Ok(true)
}

// A program makes two kinds of runs, and tells sizes.
fn is_program<P: Asked>(program: &mut P) -> Result<bool, AllocError> {
    if !has_no_third(program) || !runs_of(program)? {
        return Ok(false);
    }
    sizes_come(program)
}

fn program_answers<P: Asked>(program: P) -> Result<bool, AllocError> {
    let mut program = program;
    is_program(&mut program)
}

fn programs_answer(alloc: Global) -> Result<bool, AllocError> {
    match text_program(alloc, TEXT, PlanNo::One) {
        Ok(program) => program_answers(Handle::Program(HeldProgram::new(alloc, program))),
        Err(_) => Err(AllocError),
    }
}

#[test]
fn runs_give_and_take_fragments(rt: HostRuntime) -> Result<(), Fail> {
    assert!(rt; programs_answer(rt.alloc())?);
    Ok(())
}

// The image of a program. Where it has none there are no bytes, which are no image.
fn image_of(alloc: Global, program: &Program) -> Result<Vec<u8>, AllocError> {
    if !is_writable(program.interface()) {
        return Ok(Vec::new(alloc));
    }
    write_image(alloc, program)
}

fn image_ends_answer(alloc: Global, image: &[u8]) -> Result<bool, AllocError> {
    match image_ends(alloc, image, 8) {
        Ok((one, two)) => all_come_at(Handle::End(one), Handle::End(two), CALLS),
        Err(MakeFault::Memory) => Err(AllocError),
        Err(_) => Ok(false),
    }
}

fn image_program_answers(alloc: Global, image: &[u8]) -> Result<bool, AllocError> {
    match image_program(alloc, image) {
        Ok(program) => program_answers(Handle::Program(HeldProgram::new(alloc, program))),
        Err(MakeFault::Memory) => Err(AllocError),
        Err(_) => Ok(false),
    }
}

fn images_answer(alloc: Global) -> Result<bool, AllocError> {
    let Ok(program) = text_program(alloc, TEXT, PlanNo::One) else {
        return Err(AllocError);
    };
    let image = image_of(alloc, &program)?;
    if !image_ends_answer(alloc, &image)? {
        return Ok(false);
    }
    image_program_answers(alloc, &image)
}

// The ends and the program of an image do what those of its text do.
#[test]
fn images_do_as_their_texts(rt: HostRuntime) -> Result<(), Fail> {
    assert!(rt; images_answer(rt.alloc())?);
    Ok(())
}

// What isn't made: both ends of a text, over so many slots; both ends of an image.
enum Refused {
    Text(&'static [u8], usize),
    Image(&'static [u8]),
}

// The number of the fault, and its place.
const REFUSED: &[(Refused, u32, u64)] = &[
    (
        Refused::Text(b"interface i { message m(uint7 x); };", 8),
        11,
        24,
    ),
    (Refused::Text(TEXT, 7), 32, 0),
    (Refused::Image(b"FLAN"), 80, 0),
];

fn text_fault(alloc: Global, text: &[u8], slots: usize) -> Option<MakeFault> {
    text_ends(alloc, text, PlanNo::One, slots).err()
}

fn image_fault(alloc: Global, image: &[u8]) -> Option<MakeFault> {
    image_ends(alloc, image, 8).err()
}

fn fault_of(alloc: Global, refused: &Refused) -> Option<MakeFault> {
    match refused {
        Refused::Text(text, slots) => text_fault(alloc, text, *slots),
        Refused::Image(image) => image_fault(alloc, image),
    }
}

// Whether nothing is made, for the fault of this number at this place.
fn is_refused(fault: Option<MakeFault>, number: u32, place: u64) -> Result<bool, AllocError> {
    match fault {
        None => Ok(false),
        Some(MakeFault::Memory) => Err(AllocError),
        Some(fault) => Ok(fault.number() == number && fault.place() == place),
    }
}

fn has_no_ring(alloc: Global, slots: usize) -> bool {
    matches!(ring_handles(alloc, slots).err(), Some(RingFault::BadSize))
}

// A text with a fault, a wrong number of slots and bytes that are no image are refused.
#[test]
fn texts_and_images_may_be_refused(rt: HostRuntime) -> Result<(), Fail> {
    for (refused, number, place) in REFUSED {
        assert!(rt; is_refused(fault_of(rt.alloc(), refused), *number, *place)?);
    }
    assert!(rt; has_no_ring(rt.alloc(), 5));
    Ok(())
}
