//! Why a run has no script.

ghost use Rattle.std.specs.Prelude.{◌≡◌};
ghost use Rattle.fl_cores_replay.specs.declared.no_script.NoScript.TheVariants.{Memory as OutOfMemory};
ghost use Rattle.fl_cores_replay.specs.Reasons.{IsOfRecord};

use fl_cores_script::MAX_SCRIPT;
use std::alloc::AllocError;
use std::fmt;

/// Why there is no script of a run.
#[derive(Clone, Copy)]
pub enum NoScript {
    /// Out of memory (E99).
    Memory,
    /// The run wasn't recorded.
    Unrecorded,
    /// It was to be, and there was no memory to record it whole.
    RecordLost,
    /// The record isn't of this file: the file is refused, or its cores or rings are others.
    OtherFile,
    /// The cores of the file, run once more, don't do what the record tells.
    Strays,
    /// The cores' events have no order in which each finds what it found.
    NoOrder,
    /// The script has so many bytes, which are more than `exec` takes.
    TooLong { bytes: usize },
    /// A line of the script neither stands in the file nor asks for an event.
    OtherLines,
    /// The script's transcript tells other calls than the report.
    OtherCalls,
}

/// Why no script is made of a record.
#[derive(Clone, Copy)]
pub(crate) enum RecordFault {
    /// Out of memory.
    Memory,
    /// It isn't of this file.
    OtherFile,
    /// The cores of the file, run once more, don't do what it tells.
    Strays,
    /// The cores' events have no order in which each finds what it found.
    NoOrder,
}

impl RecordFault {
    /// What is told of it.
    pub(crate) fn reason(self) -> NoScript
        ensures of_record { IsOfRecord result }
    {
        match self {
            RecordFault::Memory => NoScript::Memory,
            RecordFault::OtherFile => NoScript::OtherFile,
            RecordFault::Strays => NoScript::Strays,
            RecordFault::NoOrder => NoScript::NoOrder,
        }
    }
}

impl From<AllocError> for RecordFault {
    fn from(_e: AllocError) -> RecordFault {
        RecordFault::Memory
    }
}

impl From<AllocError> for NoScript {
    ghost from_gives = { λ _ e. e ≡ OutOfMemory };

    fn from(_e: AllocError) -> NoScript {
        NoScript::Memory
    }
}

impl fmt::Display for NoScript {
    fn fmt<W: fmt::Write>(&self, f: &mut fmt::Formatter<W>) -> fmt::Result {
        match self {
            NoScript::Memory => f.write_str("out of memory"),
            NoScript::Unrecorded => f.write_str("the run wasn't recorded"),
            NoScript::RecordLost => f.write_str("there was no memory to record the run"),
            NoScript::OtherFile => f.write_str("the record is of another file"),
            NoScript::Strays => f.write_str("its cores, run once more, do something else"),
            NoScript::NoOrder => f.write_str("no order of its events was found"),
            NoScript::TooLong { bytes } => {
                let most = MAX_SCRIPT;
                write!(
                    f,
                    "the script has {bytes} bytes, and exec takes {most}; record fewer calls or turns"
                )
            }
            NoScript::OtherLines => {
                f.write_str("a line of the script neither stands in the file nor asks for an event")
            }
            NoScript::OtherCalls => {
                f.write_str("the script handles other calls than the report tells")
            }
        }
    }
}
