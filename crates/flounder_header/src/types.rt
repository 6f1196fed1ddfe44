//! Fixed types in C: a member, and the lines that move its numbers.

use crate::page::{MoveWay, Page};
use fl_interface::{FixedType, Scalar};

// The name of a scalar's type in C, and that of the unsigned one of its bits.
fn names(scalar: Scalar) -> (&'static [u8], &'static [u8]) {
    match scalar {
        Scalar::Uint8 | Scalar::Bool | Scalar::Char => (b"uint8_t", b"uint8_t"),
        Scalar::Int8 => (b"int8_t", b"uint8_t"),
        Scalar::Uint16 => (b"uint16_t", b"uint16_t"),
        Scalar::Int16 => (b"int16_t", b"uint16_t"),
        Scalar::Uint32 | Scalar::Iref => (b"uint32_t", b"uint32_t"),
        Scalar::Int32 => (b"int32_t", b"uint32_t"),
        Scalar::Uint64 | Scalar::Uintptr | Scalar::Size | Scalar::Errval => {
            (b"uint64_t", b"uint64_t")
        }
        Scalar::Int64 | Scalar::Intptr => (b"int64_t", b"uint64_t"),
    }
}

/// A member of a type, by a name that ends in a number.
pub(crate) fn declare(page: &mut Page, fixed: &FixedType, name: &[u8], number: usize) {
    page.indent();
    declare_kind(page, fixed);
    page.push_numbered(name, number);
    declare_counts(page, fixed);
    page.push(b";\n");
}

/// The member of a sized array's elements, of which there are so many at most.
pub(crate) fn declare_items(page: &mut Page, element: &FixedType, most: u32) {
    page.indent();
    declare_kind(page, element);
    page.push_numbered(b" items[", most as usize);
    page.push(b"]");
    declare_counts(page, element);
    page.push(b";\n");
}

// The type of the elements of an array, or of arrays of these; and what isn't an array by itself.
#[cycle(declaring)]
fn declare_kind(page: &mut Page, fixed: &FixedType) {
    match fixed {
        FixedType::Scalar(scalar) => page.push(names(*scalar).0),
        FixedType::Enumeration(_) => page.push(b"uint32_t"),
        FixedType::Structure(fields) => {
            page.push(b"struct {\n");
            page.open();
            declare_fields(page, fields);
            page.close();
            page.indent();
            page.push(b"}");
        }
        FixedType::Array(_, element) => declare_kind(page, element),
    }
}

#[cycle(declaring)]
fn declare_fields(page: &mut Page, fields: &[FixedType]) {
    if fields.is_empty() {
        page.indent();
        page.push(b"uint8_t none;\n");
    }
    for (number, field) in fields.iter().enumerate() {
        page.indent();
        declare_kind(page, field);
        page.push_numbered(b" f", number);
        declare_counts(page, field);
        page.push(b";\n");
    }
}

// How many elements the arrays have that a value is, one in the other.
fn declare_counts(page: &mut Page, fixed: &FixedType) {
    if let FixedType::Array(count, element) = fixed {
        page.push_numbered(b"[", *count as usize);
        page.push(b"]");
        declare_counts(page, element);
    }
}

/// The line that moves a number, by a cast to the type in C, or to that of its bits.
pub(crate) fn move_number(page: &mut Page, kind: &[u8], bits: &[u8], way: MoveWay) {
    page.indent();
    match way {
        MoveWay::Put => {
            page.push(b"call[n++] = (");
            page.push(bits);
            page.push(b")");
            page.push_path();
            page.push(b";\n");
        }
        MoveWay::Get => {
            page.push_path();
            page.push(b" = (");
            page.push(kind);
            page.push(b")fl_next(&tape);\n");
        }
    }
}

/// The lines that move the numbers of a value.
#[cycle(moving)]
pub(crate) fn move_value(page: &mut Page, fixed: &FixedType, way: MoveWay) {
    match fixed {
        FixedType::Scalar(scalar) => {
            let (kind, bits) = names(*scalar);
            move_number(page, kind, bits, way);
        }
        FixedType::Enumeration(_) => move_number(page, b"uint32_t", b"uint32_t", way),
        FixedType::Structure(fields) => move_fields(page, fields, way),
        FixedType::Array(count, element) => {
            let mark = page.begin_loop(Some(*count), b"");
            move_value(page, element, way);
            page.end_loop(mark);
        }
    }
}

#[cycle(moving)]
fn move_fields(page: &mut Page, fields: &[FixedType], way: MoveWay) {
    for (number, field) in fields.iter().enumerate() {
        let mark = page.enter(b".f", number);
        move_value(page, field, way);
        page.leave(mark);
    }
}
