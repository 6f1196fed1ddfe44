//! Bindings that are opened while cores run.

use crate::gates::{Held, NoGate};
use crate::texts::comes_to;
use fl_cores::CoresEnd;
use std::alloc::{AllocError, Global};
use std::test::Fail;

const MANY: u64 = 1_000_000_000;

const TWO_CORES: &[u8] =
    b"idl\ninterface i { message ping(uint32 v); }\n.\ncores 2\nlink 0 1 4\ndisp d 0\ndisp e 1\nexport s e i\n";

// So many bindings between the two cores.
fn bindings(alloc: Global, count: u64) -> Result<Vec<u8>, AllocError> {
    let mut text = Vec::new(alloc);
    text.extend_from_slice(TWO_CORES)?;
    for number in 0..count {
        let (tens, ones) = (number / 10, number % 10);
        let line = format!(in alloc; "bind p{tens}{ones} d i s hop 0 1\n")?;
        text.extend_from_slice(line.as_bytes())?;
    }
    Ok(text)
}

// Appends a call for each of 100 bindings, and the line that tells that it was handled.
fn add_calls(alloc: Global, text: &mut Vec<u8>, wanted: &mut Vec<u8>) -> Result<(), AllocError> {
    for number in 0..100 {
        let (tens, ones) = (number / 10, number % 10);
        let call = format!(in alloc; "call p{tens}{ones}.c ping({number})\n")?;
        text.extend_from_slice(call.as_bytes())?;
        let line = format!(in alloc; "handle p{tens}{ones}.s ping({number})\n")?;
        wanted.extend_from_slice(line.as_bytes())?;
    }
    wanted.extend_from_slice(b"complete\n")
}

// Core 1 begins when core 0 has taken 200 turns: the circuits are asked for before any is answered, and each call waits for its own.
#[test]
fn a_hundred_bindings(rt: HostRuntime) -> Result<(), Fail> {
    let mut text = bindings(rt.alloc(), 100)?;
    let mut told = Vec::new(rt.alloc());
    add_calls(rt.alloc(), &mut text, &mut told)?;
    let gate = Held::new(&rt, 200);
    let wanted = (CoresEnd::Complete, told.as_slice());
    let is_so = comes_to(&rt, rt.alloc(), &text, MANY, &gate, wanted)?;
    assert!(rt; !gate.wait.ran_out());
    assert!(rt; is_so);
    Ok(())
}

// A link has 1,023 numbers to give, and the core asks for circuits in the order of the bindings: so the last one is refused, and nothing is told of the
// others, which have no calls.
#[test]
fn one_binding_too_many(rt: HostRuntime) -> Result<(), Fail> {
    let text = bindings(rt.alloc(), 1_024)?;
    let wanted = (
        CoresEnd::Complete,
        b"refused E74 p1023.c\ncomplete\n".as_slice(),
    );
    assert!(rt; comes_to(&rt, rt.alloc(), &text, MANY, &NoGate, wanted)?);
    Ok(())
}
