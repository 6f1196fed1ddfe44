//! The command `header`.

ghost use Rattle.std.specs.Prelude.{◌∷◌, []};
ghost use Rattle.flounder_commands.specs.FileEffects.{Does, was_read};
ghost use Rattle.flounder_commands.specs.Headers.{Heads};
ghost use Rattle.flounder_commands.specs.Parts.{EndsSo};
ghost use Rattle.flounder_commands.specs.Streams.{output_of};

use crate::fault::{Fault, fault_of_content, fault_of_reading, finish};
use crate::files::{FileKind, FileStore};
use crate::output::print;
use flounder_show::header_of_content;
use std::alloc::Global;
use std::io::{BufWriter, Write};

/// `header FILE`: prints a header in C for the interface of a file's content.
pub fn header_file<F: FileStore, W: Write + Drop, E: Write>(
    alloc: Global,
    file: &str,
    files: &mut F,
    output: &mut BufWriter<W>,
    errors: &mut E,
) -> u8
    ensures headed { Does (F.effects files.old) (F.effects files.new) (Heads file.now (output_of W.contents output.old output.new) result) }
{
    match files.read(alloc, file, FileKind::TextOrImage) {
        Ok(content) => finish(header_read(alloc, file, &content, output), errors),
        Err(error) => finish(Err(fault_of_reading(file, error)), errors),
    }
}

// Prints the header of a file that was read.
fn header_read<'a, W: Write + Drop>(
    alloc: Global,
    file: &'a str,
    content: &'a [u8],
    output: &mut BufWriter<W>,
) -> Result<(), Fault<'a>>
    ensures headed { EndsSo result (λ status. Heads file.now (output_of W.contents output.old output.new) status (was_read file.now content.now ∷ [])) }
{
    match header_of_content(alloc, content) {
        Ok(header) => print(&header, output),
        Err(fault) => Err(fault_of_content(alloc, file, content, fault)),
    }
}
