//! What the table tells of a message and of an argument.

ghost use Rattle.std.specs.Prelude.{◌≡◌, Some};
ghost use Rattle.fl_interface.specs.Interface.{arg_type_of};
ghost use Rattle.fl_layout.specs.Layouts.{argument_size};
ghost use Rattle.flounder_show.specs.Table.{figures_text, place_text, kind_of, kind_text};

use fl_interface::ArgType;
use std::fmt;

/// The least and the greatest number of bytes that a payload of a message has, and the fragments of the
/// greatest.
#[derive(Clone, Copy)]
pub(crate) struct MessageSizes {
    pub least: usize,
    pub greatest: usize,
    pub fragments: usize,
}

impl fmt::Display for MessageSizes {
    ghost output = { λ figures. Some (figures_text figures) };

    fn fmt<W: fmt::Write>(&self, f: &mut fmt::Formatter<W>) -> fmt::Result {
        let MessageSizes {
            least,
            greatest,
            fragments,
        } = *self;
        write!(f, "least {least} greatest {greatest}")?;
        write!(f, " fragments {fragments}")
    }
}

/// Where an argument begins in its message's payload: an offset in bytes, or `-` where that depends on the call.
#[derive(Clone, Copy)]
pub(crate) struct Offset(pub Option<usize>);

/// What an argument takes: a fixed number of bytes, or at most so many bytes or elements.
#[derive(Clone, Copy)]
pub(crate) enum ArgKind {
    Fixed { size: usize },
    Text { most: u32 },
    Sized { most: u32, stride: usize },
}

impl ArgKind {
    /// That of an argument whose value, or whose every element, has so many bytes.
    pub(crate) fn of(argument: &ArgType, size: usize) -> ArgKind
        requires size { size ≡ argument_size (Some (arg_type_of argument.now)) }
        ensures kind { result ≡ kind_of (arg_type_of argument.now) }
    {
        match argument {
            ArgType::Fixed(_) => ArgKind::Fixed { size },
            ArgType::Text(most) => ArgKind::Text { most: *most },
            ArgType::Sized(most, _) => ArgKind::Sized {
                most: *most,
                stride: size,
            },
        }
    }
}

impl fmt::Display for Offset {
    ghost output = { λ place. Some (place_text place.0) };

    fn fmt<W: fmt::Write>(&self, f: &mut fmt::Formatter<W>) -> fmt::Result {
        match self.0 {
            Some(at) => write!(f, "{at}"),
            None => write!(f, "-"),
        }
    }
}

impl fmt::Display for ArgKind {
    ghost output = { λ kind. Some (kind_text kind) };

    fn fmt<W: fmt::Write>(&self, f: &mut fmt::Formatter<W>) -> fmt::Result {
        match *self {
            ArgKind::Fixed { size } => write!(f, "fixed {size}"),
            ArgKind::Text { most } => write!(f, "string max {most}"),
            ArgKind::Sized { most, stride } => write!(f, "array max {most} stride {stride}"),
        }
    }
}
