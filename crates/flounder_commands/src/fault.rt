//! Why the program doesn't end well.

ghost use Rattle.std.specs.Prelude.{◌≡◌, OnOk, IfErr};
ghost use Rattle.std.specs.IoError.{error_kind};
ghost use Rattle.flounder_show.specs.Content.{status_of as shown_status};
ghost use Rattle.flounder_commands.specs.Status.{status_of};
ghost use Rattle.flounder_commands.specs.Commands.{failed_status, no_words_status};

use crate::names::FileName;
use crate::told::RefusedFile;
use fl_script_exec::ExecFault;
use flounder_show::{ShowFault, cause_of};
use std::alloc::Global;
use std::io::Write;
use std::{fmt, io};
use thiserror::Error;

/// Why the program ends with another status than 0. It is printed with its line end.
#[derive(Drop, Error)]
pub enum Fault<'a> {
    /// The words of the command line aren't of a form that the program has.
    #[error("{error}{hint}")]
    Usage {
        error: clap::Error,
        hint: &'static str,
    },
    /// The words of the command line can't be had.
    #[error("the words of the command line could not be read: {0}\n")]
    Words(io::Error),
    /// A word of the command line is no text.
    #[error("the words of the command line could not be read: {0}\nhelp: a word is not UTF-8: give files names that are\n")]
    NoText(io::Error),
    /// The file isn't there, or can't be read.
    #[error("{file} could not be read: {error}\n")]
    Unread {
        file: FileName<'a>,
        error: io::Error,
    },
    /// The file's content is refused.
    #[error("{0}\n")]
    Show(RefusedFile<'a>),
    /// The file can't be written.
    #[error("{file} could not be written: {error}\n")]
    Unmade {
        file: FileName<'a>,
        error: io::Error,
    },
    /// The script was cut short.
    #[error("{fault}{reason}\n")]
    Exec {
        fault: ExecFault,
        reason: Reason,
    },
    /// A line of the cores file is refused. [`crate::explain_line`] tells which.
    #[error("{file}: nothing was run, since a line is refused; docs/FAULTS.md says of its fault what to do\n")]
    Line {
        file: FileName<'a>,
    },
    /// A core hadn't finished when its turns were used up.
    #[error("a core had not finished when its turns ({turns}) were used up; docs/CORES.md says how to choose the number\n")]
    TurnsOut {
        turns: u64,
    },
    /// Standard output takes no more.
    #[error("standard output could not be written: {0}\n")]
    Unwritten(io::Error),
    /// Out of memory.
    #[error("out of memory\n")]
    Memory,
}

impl fmt::Debug for Fault<'_> {
    // As it is printed, since what it holds is for that alone.
    fn fmt<W: fmt::Write>(&self, f: &mut fmt::Formatter<W>) -> fmt::Result {
        write!(f, "{self}")
    }
}

/// Why a read or a write failed, as the system tells it. It is printed on a line of its own, with a line feed
/// before it, or as nothing.
#[derive(Clone, Copy)]
pub struct Reason(pub Option<io::Error>);

impl fmt::Display for Reason {
    fn fmt<W: fmt::Write>(&self, f: &mut fmt::Formatter<W>) -> fmt::Result {
        match self.0 {
            Some(error) => write!(f, "\nreason: {error}"),
            None => Ok(()),
        }
    }
}

fn is_closed(error: &io::Error) -> bool {
    error.kind() == io::ErrorKind::BrokenPipe
}

impl Fault<'_> {
    // Whether nothing is told of it: who reads standard output wants no more.
    fn is_quiet(&self) -> bool {
        match self {
            Fault::Unwritten(error) => is_closed(error),
            Fault::Exec {
                fault: ExecFault::Write,
                reason: Reason(Some(error)),
            } => is_closed(error),
            _ => false,
        }
    }

    /// The status with which the program ends: 1 usage, 2 a content that is refused, 3 out of memory or of threads,
    /// 4 a read or a write that failed, 5 turns that were used up.
    pub fn status(&self) -> u8
        ensures status { result ≡ status_of self.now }
    {
        match self {
            Fault::Usage { error: _, hint: _ } => 1,
            Fault::Words(_) => 1,
            Fault::NoText(_) => 1,
            Fault::Unread { file: _, error: _ } => 4,
            Fault::Show(refused) => refused.fault.status(),
            Fault::Unmade { file: _, error: _ } => 4,
            Fault::Exec { fault, reason: _ } => fault.number(),
            Fault::Line { file: _ } => 2,
            Fault::TurnsOut { turns: _ } => 5,
            Fault::Unwritten(_) => 4,
            Fault::Memory => 3,
        }
    }
}

/// Tells of a fault, and answers the status.
pub fn finish<E: Write>(outcome: Result<(), Fault<'_>>, errors: &mut E) -> u8
    ensures done { OnOk outcome.entry (result ≡ 0) }
    ensures fault { IfErr outcome.entry (λ f. result ≡ status_of f) }
{
    match outcome {
        Ok(()) => 0,
        Err(fault) => {
            if !fault.is_quiet() {
                let _told = write!(errors, "{fault}");
            }
            fault.status()
        }
    }
}

/// Why there are no words of the command line to be read.
pub fn no_words<'a>(error: io::Error) -> Fault<'a>
    ensures status { status_of result ≡ no_words_status (error_kind error) }
{
    match error.kind() {
        io::ErrorKind::OutOfMemory => Fault::Memory,
        io::ErrorKind::InvalidData => Fault::NoText(error),
        _ => Fault::Words(error),
    }
}

/// Why a file couldn't be read.
pub fn fault_of_reading(file: &str, error: io::Error) -> Fault<'_>
    ensures failed { status_of result ≡ failed_status (error_kind error) }
{
    match error.kind() {
        io::ErrorKind::OutOfMemory => Fault::Memory,
        _ => Fault::Unread {
            file: FileName(file),
            error,
        },
    }
}

/// Why a file couldn't be written.
pub fn fault_of_writing(file: &str, error: io::Error) -> Fault<'_>
    ensures failed { status_of result ≡ failed_status (error_kind error) }
{
    match error.kind() {
        io::ErrorKind::OutOfMemory => Fault::Memory,
        _ => Fault::Unmade {
            file: FileName(file),
            error,
        },
    }
}

/// The file whose content is refused.
pub fn fault_of_content<'a>(
    alloc: Global,
    file: &'a str,
    content: &'a [u8],
    fault: ShowFault<'a>,
) -> Fault<'a>
    ensures status { status_of result ≡ shown_status fault.entry }
{
    let cause = match fault {
        ShowFault::Refused(refusal) => cause_of(alloc, content, refusal.explained.fault),
        ShowFault::NoImage(_) | ShowFault::Memory => None,
    };
    Fault::Show(RefusedFile {
        file,
        content,
        fault,
        cause,
    })
}
