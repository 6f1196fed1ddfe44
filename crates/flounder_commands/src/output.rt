//! Standard output: texts that are put into its buffer and written out.

ghost use Rattle.std.specs.Prelude.{◌≡◌, ℕ, List, OnOk, OnErr, IfErr};
ghost use Rattle.std.specs.Io.KnownBytes.{Appends};
ghost use Rattle.fl_base.specs.Prefix.{IsPrefix};
ghost use Rattle.flounder_commands.specs.Status.{status_of};
ghost use Rattle.flounder_commands.specs.Streams.{output_of, PutsPrefix, Prints};
ghost use Rattle.flounder_commands.specs.Parts.{IsCut};

use crate::fault::Fault;
use std::io;
use std::io::{BufWriter, Write};

/// Prints a text: puts all of it, and writes out what the buffer holds. Where that fails, a prefix of it was put.
///
/// # Errors
/// [`Fault::Unwritten`].
pub fn print<'a, W: Write + Drop>(text: &[u8], output: &mut BufWriter<W>) -> Result<(), Fault<'a>>
    ensures put { OnOk result (Prints (output_of W.contents output.old output.new) text.now) }
    ensures part { IfErr result (λ fault. IsCut (output_of W.contents output.old output.new) text.now (status_of fault)) }
{
    match put(text, output) {
        Ok(()) => Ok(()),
        Err(error) => Err(Fault::Unwritten(error)),
    }
}

// Puts all of a text, and writes out what the buffer holds. Where that fails, a prefix of the text was put.
fn put<W: Write + Drop>(text: &[u8], output: &mut BufWriter<W>) -> io::Result<()>
    ensures put { OnOk result (Prints (output_of W.contents output.old output.new) text.now) }
    ensures part { OnErr result (PutsPrefix (output_of W.contents output.old output.new) text.now) }
{
    put_all(text, output)?;
    output.flush()
}

// Puts all of a text, by as many writes as it takes. Where one fails, a prefix was put.
fn put_all<W: Write>(text: &[u8], writer: &mut W) -> io::Result<()>
    ensures put { OnOk result (Appends (W.contents writer.old) (W.contents writer.new) text.now) }
    ensures part { OnErr result ((prefix : List ℕ) × IsPrefix prefix text.now
        × Appends (W.contents writer.old) (W.contents writer.new) prefix) }
{
    let mut rest = text;
    while !rest.is_empty() {
        let n = writer.write(rest)?;
        if n == 0 {
            return Err(io::Error::from(io::ErrorKind::WriteZero));
        }
        rest = &rest[n..];
    }
    Ok(())
}
