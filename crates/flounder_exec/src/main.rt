//! `flounder_exec`: `flounder exec` by itself, the smallest program over the proved `exec`. It runs the script on standard input,
//! writes its transcript to standard output, and builds sooner than `flounder`. Its statuses are those of `flounder exec`
//! (0; 3 where memory was refused; 4 where a read or a write failed); it takes no words and says nothing on standard error.
#![tactic(auto)]

use fl_script_exec::exec;
use fl_world::World;
use std::io::{BufWriter, Write};
use std::process::ExitCode;

// The statuses of want of memory, and of a write that failed.
const NO_MEMORY: u8 = 3;

const NOT_WRITTEN: u8 = 4;

fn main(rt: HostRuntime) -> ExitCode {
    let alloc = rt.alloc();
    let Ok(mut output) = BufWriter::new(alloc, rt.stdout()) else {
        return ExitCode::from(NO_MEMORY);
    };
    if let Err(fault) = exec::<World, _, _>(alloc, &mut rt.reader(), &mut output) {
        return ExitCode::from(fault.number());
    }
    match output.flush() {
        Ok(()) => ExitCode::SUCCESS,
        Err(_) => ExitCode::from(NOT_WRITTEN),
    }
}
