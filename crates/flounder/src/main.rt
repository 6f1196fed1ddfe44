//! `flounder`: the message system's program. `flounder exec`, also without a word, runs the script on
//! standard input and writes its transcript to standard output; `flounder show FILE` prints the plan table of
//! an interface's text or of an image; `flounder compile FILE OUT` writes the image of a text; `flounder cores
//! FILE --turns N` runs a cores file, with a thread for each core, and with `--script OUT` writes a script of the
//! run; `flounder chart FILE` draws a script's run; `flounder header FILE` prints a header in C for the interface of a
//! text or of an image.
#![tactic(auto)]

mod progress;

use crate::progress::ProgressLine;
use flounder_commands::{Disk, Fault, Watched, finish, no_words};
use flounder_run::run;
use std::env;
use std::io::{BufWriter, IsTerminal};
use std::process::ExitCode;

// Bytes of output that are gathered before they are written: a transcript of a script of 1 MiB takes some 20 writes.
const OUTPUT_ROOM: usize = 65_536;

fn main(rt: HostRuntime) -> ExitCode {
    let alloc = rt.alloc();
    let mut errors = rt.stderr();
    let args = match env::args(&rt) {
        Ok(args) => args,
        Err(error) => return ExitCode::from(finish(Err(no_words(error)), &mut errors)),
    };
    let Ok(words) = args.collect::<Vec<String>>(alloc) else {
        return ExitCode::from(finish(Err(Fault::Memory), &mut errors));
    };
    let watched = Watched::new(alloc, rt.stdout());
    let Ok(mut output) = BufWriter::with_capacity(alloc, OUTPUT_ROOM, watched) else {
        return ExitCode::from(finish(Err(Fault::Memory), &mut errors));
    };
    let reader = rt.reader();
    let is_typed = reader.is_terminal();
    let mut input = Watched::new(alloc, reader).typed(is_typed);
    let progress = ProgressLine::new(&rt, rt.stderr().is_terminal());
    let status = run(
        &rt,
        &progress,
        alloc,
        &words,
        &mut Disk(&rt),
        &mut input,
        &mut output,
        &mut errors,
    );
    ExitCode::from(status)
}
