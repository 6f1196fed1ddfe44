//! Words that ask for no command: help, and what is wrong with them.

ghost use Rattle.std.specs.Prelude.{◌≡◌, MatchResult};
ghost use Rattle.clap.specs.Words.{kind_of};
ghost use Rattle.clap.specs.declared.error.kind.ErrorKind.TheVariants.{DisplayHelp};
ghost use Rattle.flounder_commands.specs.Status.{status_of};
ghost use Rattle.flounder_commands.specs.Streams.{output_of};
ghost use Rattle.flounder_commands.specs.Commands.{Helps};

use crate::fault::Fault;
use crate::output::print;
use clap::error::ErrorKind;
use std::alloc::Global;
use std::io::{BufWriter, Write};

/// Prints help, or the version, where the words ask for it. `hint` is what stands behind words about others.
///
/// # Errors
/// What is wrong with the words; or why help isn't printed.
pub fn tell_usage<'a, W: Write + Drop>(
    alloc: Global,
    error: clap::Error,
    hint: &'static str,
    output: &mut BufWriter<W>,
) -> Result<(), Fault<'a>>
    ensures told { MatchResult result
        (λ _. Helps (kind_of error) (output_of W.contents output.old output.new) 0)
        (λ fault. Helps (kind_of error) (output_of W.contents output.old output.new) (status_of fault)) }
{
    match error.kind() {
        ErrorKind::DisplayHelp | ErrorKind::DisplayVersion => put_help(alloc, &error, output),
        ErrorKind::OutOfMemory => Err(Fault::Memory),
        _ => Err(Fault::Usage { error, hint }),
    }
}

fn put_help<'a, W: Write + Drop>(
    alloc: Global,
    help: &clap::Error,
    output: &mut BufWriter<W>,
) -> Result<(), Fault<'a>>
    ensures told { MatchResult result
        (λ _. Helps DisplayHelp (output_of W.contents output.old output.new) 0)
        (λ fault. Helps DisplayHelp (output_of W.contents output.old output.new) (status_of fault)) }
{
    let Ok(text) = help.to_string(alloc) else {
        return Err(Fault::Memory);
    };
    print(text.as_bytes(), output)
}
