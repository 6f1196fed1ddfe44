//! Sizes of types as a text declares them, also of those that are too big. A sum that no 64 bits hold stays
//! at the greatest.

use fl_parse::{Argument, Declaration, DirectedArgument, Direction, Field, Name, Number, Shape};
use std::alloc::Global;

/// Bytes of a string without a bound.
const USUAL_TEXT: u32 = 2_047;

/// Elements of a sized array without a bound.
const USUAL_ELEMENTS: u32 = 1_024;

/// A type's bytes and alignment, how deep structs and fixed arrays nest in it, and how deep fixed arrays
/// alone.
#[derive(Clone, Copy)]
pub(crate) struct Measure {
    pub size: u64,
    pub align: u64,
    pub depth: u32,
    pub arrays: u32,
}

// The next multiple of an alignment.
fn align_up(end: u64, align: u64) -> u64 {
    end.checked_next_multiple_of(align).unwrap_or(end)
}

impl Measure {
    fn of_bytes(bytes: u64) -> Measure {
        Measure {
            size: bytes,
            align: bytes,
            depth: 0,
            arrays: 0,
        }
    }

    // The fixed array of so many of these, if there is a count.
    fn counted(self, count: Option<Number>) -> Measure {
        let Some(count) = count else {
            return self;
        };
        Measure {
            size: self.size.saturating_mul(u64::from(count.value)),
            align: self.align,
            depth: self.depth.saturating_add(1),
            arrays: self.arrays.saturating_add(1),
        }
    }

    // The struct so far with one more field.
    fn with_field(self, field: Measure) -> Measure {
        Measure {
            size: align_up(self.size, field.align).saturating_add(field.size),
            align: self.align.max(field.align),
            depth: self.depth.max(field.depth.saturating_add(1)),
            arrays: self.arrays.max(field.arrays),
        }
    }

    // The struct of all its fields.
    fn ended(self) -> Measure {
        Measure {
            size: align_up(self.size, self.align),
            align: self.align,
            depth: self.depth,
            arrays: self.arrays,
        }
    }
}

// Built-in types of less than 8 bytes.
const BUILT_IN: &[(&[u8], u64)] = &[
    (b"uint8", 1),
    (b"int8", 1),
    (b"bool", 1),
    (b"char", 1),
    (b"uint16", 2),
    (b"int16", 2),
    (b"uint32", 4),
    (b"int32", 4),
    (b"iref", 4),
];

// A built-in type's bytes; of a name that is none those of the greatest.
fn built_in_bytes(name: &[u8]) -> u64 {
    for (known, bytes) in BUILT_IN {
        if name == *known {
            return *bytes;
        }
    }
    8
}

/// The types that declarations made so far, by their names; some are missing where memory was refused.
#[derive(Drop)]
pub(crate) struct KnownTypes<'a> {
    types: Vec<(Name<'a>, Measure)>,
    pub is_whole: bool,
}

impl<'a> KnownTypes<'a> {
    pub(crate) fn new(alloc: Global) -> KnownTypes<'a> {
        KnownTypes {
            types: Vec::new(alloc),
            is_whole: true,
        }
    }

    fn measure(&self, name: &Name<'_>) -> Measure {
        for (known, measure) in &self.types {
            if known.text == name.text {
                return *measure;
            }
        }
        Measure::of_bytes(built_in_bytes(name.text))
    }

    fn measure_fields(&self, fields: &[Field<'_>]) -> Measure {
        let mut all = Measure {
            size: 0,
            align: 1,
            depth: 1,
            arrays: 0,
        };
        for field in fields {
            all = all.with_field(self.measure(&field.type_name).counted(field.count));
        }
        all.ended()
    }

    /// Takes up a declaration, and tells the measure of the type that it makes, if it makes one.
    pub(crate) fn declare(&mut self, declaration: &Declaration<'a>) -> Option<Measure> {
        let (name, measure) = match declaration {
            Declaration::Alias { new, old } => (new, self.measure(old)),
            Declaration::Typedef { old, new, count } => (new, self.measure(old).counted(*count)),
            Declaration::Enumeration { members: _, name } => (name, Measure::of_bytes(4)),
            Declaration::Structure { fields, name } => (name, self.measure_fields(fields)),
            Declaration::Message { .. } | Declaration::Rpc { .. } => return None,
        };
        let is_kept = self.types.push((*name, measure)).is_ok();
        self.is_whole = self.is_whole && is_kept;
        Some(measure)
    }

    // Where an argument may end at most behind one that may end there, and what its end is aligned to.
    fn end_behind(&self, end: u64, due: u64, argument: &Argument<'_>) -> (u64, u64) {
        let element = self.measure(&argument.type_name);
        let is_text = argument.type_name.text == b"string".as_slice();
        let (most, size) = match argument.shape {
            Shape::Plain if !is_text => {
                let start = align_up(end, due.max(element.align));
                return (start.saturating_add(element.size), 1);
            }
            Shape::Plain => (USUAL_TEXT, 1),
            Shape::Bounded(bound) => (bound.value, 1),
            Shape::Sized {
                length: _,
                bound: Some(bound),
            } => (bound.value, element.size),
            Shape::Sized {
                length: _,
                bound: None,
            } => (USUAL_ELEMENTS, element.size),
        };
        let bytes = size.saturating_mul(u64::from(most)).saturating_add(8);
        (align_up(end, 8).saturating_add(bytes), 8)
    }

    /// The greatest payload of these arguments, in bytes.
    pub(crate) fn payload(&self, arguments: &[Argument<'_>]) -> u64 {
        let mut end = 0;
        let mut due = 1;
        for argument in arguments {
            (end, due) = self.end_behind(end, due, argument);
        }
        end
    }

    /// The same of those arguments of an rpc that one of its messages carries.
    pub(crate) fn half_payload(
        &self,
        arguments: &[DirectedArgument<'_>],
        direction: Direction,
    ) -> u64 {
        let mut end = 0;
        let mut due = 1;
        for directed in arguments {
            if directed.direction == direction {
                (end, due) = self.end_behind(end, due, &directed.argument);
            }
        }
        end
    }
}
