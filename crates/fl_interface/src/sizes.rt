//! Sizes and alignments of types, in bytes: the one place where code asks for them.

ghost use Rattle.std.specs.Prelude.{◌≡◌, ◌+◌, ◌<◌, ◌≤◌, ◌^◌, map};
ghost use Rattle.fl_interface.specs.Interface.{fields_from, type_of, structure};
ghost use Rattle.fl_interface.specs.Sizes.{round_up, scalar_size, size_of, align_of, greatest_align};

use crate::interface::{FixedType, Scalar};

/// The bytes of an enum's value, which are its alignment too.
pub const ENUM_SIZE: u32 = 4;

/// The next multiple of an alignment: std's `next_multiple_of`. The alignments that types have are told one by one, so that none
/// is divided by: a division by what isn't known before takes long.
#[inline(always)]
pub fn next_multiple(at: usize, align: usize) -> usize
    requires some { 0 < align }
    requires few { align ≤ 8 }
    requires fits { at < 2 ^ 63 }
    ensures same { result ≡ round_up at align }
    ensures near { result < at + 8 }
{
    if align == 8 {
        return at.next_multiple_of(8);
    }
    match align {
        1 => at,
        2 => at.next_multiple_of(2),
        4 => at.next_multiple_of(4),
        _ => at.next_multiple_of(align),
    }
}

impl Scalar {
    /// The bytes of a scalar, which are its alignment too.
    pub fn size(self) -> u32
        ensures exact { result ≡ scalar_size self }
        ensures some { 0 < result }
        ensures few { result ≤ 8 }
    {
        match self {
            Scalar::Uint8 | Scalar::Int8 | Scalar::Bool | Scalar::Char => 1,
            Scalar::Uint16 | Scalar::Int16 => 2,
            Scalar::Uint32 | Scalar::Int32 | Scalar::Iref => 4,
            Scalar::Uint64
            | Scalar::Int64
            | Scalar::Uintptr
            | Scalar::Intptr
            | Scalar::Size
            | Scalar::Errval => 8,
        }
    }
}

/// A type's size and alignment, in bytes.
#[derive(Clone, Copy, Debug, PartialEq, Eq)]
pub struct Measures {
    /// The bytes of a value, a struct's padding counted.
    pub size: u32,
    /// Where a value may begin: 1, 2, 4 or 8.
    pub align: u32,
}

impl FixedType {
    /// The size and the alignment, in one pass over the type.
    #[cycle(sizes)]
    pub fn measures(&self) -> Measures
        requires fits { size_of (type_of self.now) < 2 ^ 32 }
        ensures size { result.size ≡ size_of (type_of self.now) }
        ensures align { result.align ≡ align_of (type_of self.now) }
        ensures some { 0 < result.align }
        ensures few { result.align ≤ 8 }
    {
        match self {
            FixedType::Scalar(scalar) => {
                let size = scalar.size();
                Measures { size, align: size }
            }
            FixedType::Enumeration(_) => Measures {
                size: ENUM_SIZE,
                align: ENUM_SIZE,
            },
            FixedType::Structure(fields) => measures_of_fields(fields),
            FixedType::Array(count, element) => {
                if *count == 0 {
                    return Measures {
                        size: 0,
                        align: element.alignment(),
                    };
                }
                let Measures { size, align } = element.measures();
                Measures {
                    size: count * size,
                    align,
                }
            }
        }
    }

    /// The bytes of a value, a struct's padding counted. It goes over the whole type.
    pub fn size(&self) -> u32
        requires fits { size_of (type_of self.now) < 2 ^ 32 }
        ensures exact { result ≡ size_of (type_of self.now) }
    {
        self.measures().size
    }

    /// Where a value may begin, in bytes: 1, 2, 4 or 8. It goes over the whole type.
    #[cycle(alignments)]
    pub fn alignment(&self) -> u32
        ensures exact { result ≡ align_of (type_of self.now) }
        ensures some { 0 < result }
        ensures few { result ≤ 8 }
    {
        match self {
            FixedType::Scalar(scalar) => scalar.size(),
            FixedType::Enumeration(_) => ENUM_SIZE,
            FixedType::Structure(fields) => greatest_alignment(fields),
            FixedType::Array(_, element) => element.alignment(),
        }
    }
}

/// The greatest alignment of some fields, which is that of their struct; 1 of none.
#[cycle(alignments)]
pub fn greatest_alignment(fields: &[FixedType]) -> u32
    ensures exact { result ≡ greatest_align (fields_from (map type_of fields.now)) }
    ensures some { 0 < result }
    ensures few { result ≤ 8 }
{
    let mut greatest = 1;
    for field in fields {
        greatest = field.alignment().max(greatest);
    }
    greatest
}

/// The measures of the struct of these fields: each at its alignment, and the whole rounded up to the struct's.
#[cycle(sizes)]
fn measures_of_fields(fields: &[FixedType]) -> Measures
    requires fits { size_of (structure (fields_from (map type_of fields.now))) < 2 ^ 32 }
    ensures size { result.size ≡ size_of (structure (fields_from (map type_of fields.now))) }
    ensures align { result.align ≡ greatest_align (fields_from (map type_of fields.now)) }
    ensures some { 0 < result.align }
    ensures few { result.align ≤ 8 }
{
    let mut end: u32 = 0;
    let mut greatest: u32 = 1;
    for field in fields {
        let Measures { size, align } = field.measures();
        end = end.next_multiple_of(align) + size;
        greatest = align.max(greatest);
    }
    Measures {
        size: end.next_multiple_of(greatest),
        align: greatest,
    }
}
