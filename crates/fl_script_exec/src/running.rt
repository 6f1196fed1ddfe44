//! `exec`: reads a script whole, runs it item by item, and writes each answer as it comes.

ghost use Rattle.std.specs.Prelude.{◌≡◌, ◌≢◌, List, ℕ, Err, IfOk, IfErr, OnOk, OnErr, IfSome};
ghost use Rattle.std.specs.Io.KnownBytes.{Appends};
ghost use Rattle.fl_script_exec.specs.declared.running.ExecFault.TheVariants.{Memory};
ghost use Rattle.fl_script_exec.specs.Transcript.{Script as TheScript};
ghost use Rattle.fl_script_exec.specs.CutShort.{IsProperPrefix};
ghost use Rattle.fl_script_exec.specs.Shown.{IsAt};
ghost use Rattle.fl_script_exec.specs.Counting.{CountsUpTo};
ghost use Rattle.fl_script_exec.specs.Reading.{status_of, ReadsWhole, CanBeUnread, GivesSome, GivesScript, GivesUntil};
ghost use Rattle.fl_script_exec.specs.Written.{WritesTranscript, WritesPrefix, WritesAnswers, WritesUntil};
ghost use Rattle.fl_script_exec.specs.Written.{RanOn, Ran};

use crate::reader::ScriptReader;
use crate::script::Script;
use fl_model::Machine;
use std::alloc::{AllocError, AllocFailed, Global};
use std::io::Write;
use thiserror::Error;

/// Bytes of the longest script; a longer one has the transcript `refused E91`.
pub const MAX_SCRIPT: usize = 1_048_576;

/// Why a script was not run to its end. What was written until then is a prefix of its transcript.
#[derive(Clone, Copy, Debug, PartialEq, Eq, Error)]
pub enum ExecFault {
    /// Memory was refused. Some items' answers are written, each of them whole, and an item is left.
    #[error("out of memory")]
    Memory,
    /// A read failed. Nothing is written.
    #[error("the script could not be read")]
    Read,
    /// A write failed, or took no byte. A byte of the transcript is left, or more.
    #[error("the transcript could not be written")]
    Write,
}

impl ExecFault {
    /// The status with which a program ends that met it.
    pub fn number(self) -> u8
        ensures status { result ≡ status_of self }
    {
        match self {
            ExecFault::Memory => 3,
            ExecFault::Read => 4,
            ExecFault::Write => 4,
        }
    }
}

impl From<AllocError> for ExecFault {
    ghost from_gives = { λ _ e. e ≡ Memory };

    fn from(_e: AllocError) -> ExecFault {
        ExecFault::Memory
    }
}

// Reads all there is, or more than a script may have. Each read but the last gives a byte of a script that isn't too long.
fn read_script<R: ScriptReader>(alloc: Global, reader: &mut R) -> Result<Vec<u8>, ExecFault>
    ensures whole { IfOk result (λ text. IfSome (R.remaining reader.old) (λ input. ReadsWhole input text.items)) }
    ensures err { IfErr result (λ fault. IfSome (R.remaining reader.old) (λ input. CanBeUnread fault input)) }
    ensures given { IfOk result (λ text. GivesScript (R.remaining reader.old) text.items (R.remaining reader.new)) }
    ensures some { OnErr result (GivesSome (R.remaining reader.old) (R.remaining reader.new)) }
    ensures fault { IfErr result (λ fault. fault ≢ ExecFault.Write) }
    ensures reads { CountsUpTo 1048577 (R.reads reader.old) (R.reads reader.new) }
{
    let mut text = Vec::new(alloc);
    let mut chunk = [0; 16_384];
    for _turn in 0..1_048_577_usize {
        let Ok(n) = reader.read(&mut chunk) else {
            return Err(ExecFault::Read);
        };
        if n == 0 {
            return Ok(text);
        }
        text.extend_from_slice(&chunk[..n])?;
        if text.len() > MAX_SCRIPT {
            return Ok(text);
        }
    }
    Ok(text)
}

// Writes all of a text, by as many writes as it takes.
fn put_all<W: Write>(writer: &mut W, text: &[u8]) -> Result<(), ExecFault>
    ensures ok { OnOk result (Appends (W.contents writer.old) (W.contents writer.new) text.now) }
    ensures err { OnErr result ((prefix : List ℕ) × IsProperPrefix prefix text.now
        × Appends (W.contents writer.old) (W.contents writer.new) prefix) }
    ensures fault { IfErr result (λ f. f ≡ ExecFault.Write) }
{
    let mut rest = text;
    while !rest.is_empty() {
        let Ok(n) = writer.write(rest) else {
            return Err(ExecFault::Write);
        };
        if n == 0 {
            return Err(ExecFault::Write);
        }
        rest = &rest[n..];
    }
    Ok(())
}

// Runs a script's items one after another, and writes each one's answer; one buffer serves all.
fn run<M: Machine, W: Write>(
    script: &mut Script<M>,
    text: &[u8],
    writer: &mut W,
) -> Result<(), ExecFault>
    ensures ok { OnOk result ((s : TheScript) → IsAt M.shows script.old s
        → WritesAnswers s text.now (W.contents writer.old) (W.contents writer.new)) }
    ensures err { IfErr result (λ fault. (s : TheScript) → IsAt M.shows script.old s
        → WritesUntil fault s text.now (W.contents writer.old) (W.contents writer.new)) }
    ensures fault { result ≢ Err ExecFault.Read }
    ensures ran { OnOk result ((s : TheScript) → IsAt M.shows script.old s
        → RanOn M.shows script.new.machine s text.now) }
{
    let mut out = Vec::new(script.alloc);
    let mut rest = text;
    while !rest.is_empty() {
        out.clear();
        let Ok(behind) = script.answer_first(rest, &mut out) else {
            return Err(ExecFault::Memory);
        };
        if let Err(fault) = put_all(writer, &out) {
            return Err(fault);
        }
        rest = behind;
    }
    Ok(())
}

/// Reads a script and writes its transcript.
///
/// Reads to the end first, or until a script is too long (at most 1,048,577 reads, and no more than 16,384
/// bytes behind the longest script), then writes line by line with as many writes as it takes; a write that
/// takes no byte is a fault.
///
/// # Errors
/// [`ExecFault`]: memory was refused, or a read or a write failed. What was written then is a prefix of
/// the transcript: whole answers where memory is refused, not all of it after a failed write, and nothing after
/// a failed read (`specs/CutShort.antt`). The reader then has given some of its first bytes; all of a script
/// where a write failed (`specs/Reading.antt`).
pub fn exec<M: Machine + Drop, R: ScriptReader, W: Write>(
    alloc: Global,
    reader: &mut R,
    writer: &mut W,
) -> Result<(), ExecFault>
    ensures ok { OnOk result (WritesTranscript (R.remaining reader.old) (W.contents writer.old) (W.contents writer.new)) }
    ensures err { IfErr result (λ fault. WritesPrefix fault (R.remaining reader.old) (W.contents writer.old) (W.contents writer.new)) }
    ensures unread { result ≡ Err ExecFault.Read → writer.new ≡ writer.old }
    ensures given { GivesUntil (R.remaining reader.old) result (R.remaining reader.new) }
    ensures reads { CountsUpTo 1048577 (R.reads reader.old) (R.reads reader.new) }
    ensures ran { OnOk result (IfSome (R.remaining reader.old) (λ input. Ran M.shows input)) }
{
    let text = match read_script(alloc, reader) {
        Ok(text) => text,
        Err(fault) => return Err(fault),
    };
    if text.len() > MAX_SCRIPT {
        return put_all(writer, b"refused E91\n");
    }
    if text.is_empty() {
        return Ok(());
    }
    let Ok(mut script) = Script::<M>::new(alloc) else {
        return Err(ExecFault::Memory);
    };
    run(&mut script, &text, writer)
}
