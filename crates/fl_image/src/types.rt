//! Types and messages read off the bytes of an image.

ghost use Rattle.std.specs.Prelude.{◌≡◌, map, IfOk};
ghost use Rattle.fl_interface.specs.Interface.{type_of, arg_type_of, scalar, enumeration, structure, array, fields_from};
ghost use Rattle.fl_image.specs.Reading.{Gives, scalar_with, scalar_at, enumeration_at, structure_at, array_at, coded_at};
ghost use Rattle.fl_image.specs.Reading.{type_at, many_at, text_at, sized_at, fixed_at, argument_at, argument_count_at};
ghost use Rattle.fl_image.specs.Reading.{arguments_at};

use crate::fault::{BadImage, ImageFault};
use crate::number::{one, two};
use fl_interface::{ArgType, FixedType, MAX_LISTED, Scalar};
use std::alloc::{AllocError, Global};
use std::sync::Arc;

/// The scalar type with a code.
#[tactic(auto, unfolding(crate::specs::Reading::scalar_with))]
fn scalar_with(code: u8) -> Option<Scalar>
    ensures exact { result ≡ scalar_with code }
{
    match code {
        1 => Some(Scalar::Uint8),
        2 => Some(Scalar::Int8),
        3 => Some(Scalar::Bool),
        4 => Some(Scalar::Char),
        5 => Some(Scalar::Uint16),
        6 => Some(Scalar::Int16),
        7 => Some(Scalar::Uint32),
        8 => Some(Scalar::Int32),
        9 => Some(Scalar::Iref),
        10 => Some(Scalar::Uint64),
        11 => Some(Scalar::Int64),
        12 => Some(Scalar::Uintptr),
        13 => Some(Scalar::Intptr),
        14 => Some(Scalar::Size),
        15 => Some(Scalar::Errval),
        _ => None,
    }
}

fn of_scalar(kind: Scalar) -> FixedType
    ensures stands { type_of result ≡ scalar kind }
{
    FixedType::Scalar(kind)
}

fn of_enum(count: u32) -> FixedType
    ensures stands { type_of result ≡ enumeration count }
{
    FixedType::Enumeration(count)
}

fn of_fields(alloc: Global, fields: Vec<FixedType>) -> Result<FixedType, AllocError>
    ensures stands { IfOk result (λ t. type_of t ≡ structure (fields_from (map type_of fields.items))) }
{
    Ok(FixedType::Structure(Arc::new(alloc, fields)?))
}

fn of_elements(alloc: Global, count: u32, element: FixedType) -> Result<FixedType, AllocError>
    ensures stands { IfOk result (λ t. type_of t ≡ array count (type_of element)) }
{
    Ok(FixedType::Array(count, Arc::new(alloc, element)?))
}

/// A scalar with this code.
#[tactic(auto, unfolding(crate::specs::Reading::scalar_at))]
fn scalar(code: u8, bytes: &[u8]) -> Result<(FixedType, &[u8]), ImageFault>
    ensures reads { Gives (λ x. (type_of x.0, x.1.now)) result (scalar_at code bytes.now) }
{
    let Some(kind) = scalar_with(code) else {
        return Err(ImageFault::Refused(BadImage::BadField));
    };
    Ok((of_scalar(kind), bytes))
}

/// An enum behind its code.
#[tactic(auto, unfolding(crate::specs::Reading::enumeration_at))]
fn enumeration(bytes: &[u8]) -> Result<(FixedType, &[u8]), ImageFault>
    ensures reads { Gives (λ x. (type_of x.0, x.1.now)) result (enumeration_at bytes.now) }
{
    let (count, rest) = two(bytes)?;
    Ok((of_enum(count), rest))
}

/// A type, where so many may stand in one another.
#[cycle(types)]
fn fixed_type(alloc: Global, left: u32, bytes: &[u8]) -> Result<(FixedType, &[u8]), ImageFault>
    ensures reads { Gives (λ x. (type_of x.0, x.1.now)) result (type_at left bytes.now) }
{
    let (code, rest) = one(bytes)?;
    if left == 0 {
        return Err(ImageFault::Refused(BadImage::BadField));
    }
    coded_type(alloc, left - 1, code, rest)
}

/// A type behind its code, where so many may stand in one another inside it.
#[cycle(types)]
fn coded_type(
    alloc: Global,
    left: u32,
    code: u8,
    bytes: &[u8],
) -> Result<(FixedType, &[u8]), ImageFault>
    ensures reads { Gives (λ x. (type_of x.0, x.1.now)) result (coded_at (type_at left) code bytes.now) }
{
    match code {
        16 => enumeration(bytes),
        17 => structure(alloc, left, bytes),
        18 => array(alloc, left, bytes),
        _ => scalar(code, bytes),
    }
}

/// A struct behind its code, its fields read as types where so many may stand in one another.
#[cycle(types)]
#[tactic(auto, unfolding(crate::specs::Reading::structure_at))]
fn structure(alloc: Global, left: u32, bytes: &[u8]) -> Result<(FixedType, &[u8]), ImageFault>
    ensures reads { Gives (λ x. (type_of x.0, x.1.now)) result (structure_at (type_at left) bytes.now) }
{
    let (count, rest) = one(bytes)?;
    let (fields, rest) = fields(alloc, left, count, rest)?;
    Ok((of_fields(alloc, fields)?, rest))
}

/// So many types, where so many may stand in one another.
#[cycle(types)]
fn fields(
    alloc: Global,
    left: u32,
    count: u8,
    bytes: &[u8],
) -> Result<(Vec<FixedType>, &[u8]), ImageFault>
    ensures reads { Gives (λ x. (map type_of x.0.items, x.1.now)) result (many_at (type_at left) count bytes.now) }
{
    let mut found = Vec::new(alloc);
    let mut rest = bytes;
    for _ in 0..count {
        let (field, after) = fixed_type(alloc, left, rest)?;
        found.push(field)?;
        rest = after;
    }
    Ok((found, rest))
}

/// An array behind its code, its element read as a type where so many may stand in one another.
#[cycle(types)]
#[tactic(auto, unfolding(crate::specs::Reading::array_at))]
fn array(alloc: Global, left: u32, bytes: &[u8]) -> Result<(FixedType, &[u8]), ImageFault>
    ensures reads { Gives (λ x. (type_of x.0, x.1.now)) result (array_at (type_at left) bytes.now) }
{
    let (count, rest) = two(bytes)?;
    let (element, rest) = fixed_type(alloc, left, rest)?;
    Ok((of_elements(alloc, count, element)?, rest))
}

/// A string behind its code.
#[tactic(auto, unfolding(crate::specs::Reading::text_at))]
fn text(bytes: &[u8]) -> Result<(ArgType, &[u8]), ImageFault>
    ensures reads { Gives (λ x. (arg_type_of x.0, x.1.now)) result (text_at bytes.now) }
{
    let (most, rest) = two(bytes)?;
    Ok((ArgType::Text(most), rest))
}

/// A sized array behind its code.
#[tactic(auto, unfolding(crate::specs::Reading::sized_at))]
fn sized_type(alloc: Global, bytes: &[u8]) -> Result<(ArgType, &[u8]), ImageFault>
    ensures reads { Gives (λ x. (arg_type_of x.0, x.1.now)) result (sized_at bytes.now) }
{
    let (most, rest) = two(bytes)?;
    let (element, rest) = fixed_type(alloc, 17, rest)?;
    Ok((ArgType::Sized(most, element), rest))
}

/// A fixed type.
#[tactic(auto, unfolding(crate::specs::Reading::fixed_at))]
fn type_alone(alloc: Global, bytes: &[u8]) -> Result<(ArgType, &[u8]), ImageFault>
    ensures reads { Gives (λ x. (arg_type_of x.0, x.1.now)) result (fixed_at bytes.now) }
{
    let (fixed, rest) = fixed_type(alloc, 18, bytes)?;
    Ok((ArgType::Fixed(fixed), rest))
}

/// An argument's type.
#[tactic(auto, unfolding(crate::specs::Reading::argument_at))]
fn argument(alloc: Global, bytes: &[u8]) -> Result<(ArgType, &[u8]), ImageFault>
    ensures reads { Gives (λ x. (arg_type_of x.0, x.1.now)) result (argument_at bytes.now) }
{
    match bytes {
        [] => Err(ImageFault::Refused(BadImage::EndsEarly)),
        [32, rest @ ..] => text(rest),
        [33, rest @ ..] => sized_type(alloc, rest),
        [_, ..] => type_alone(alloc, bytes),
    }
}

/// So many arguments' types.
fn some_arguments(
    alloc: Global,
    count: u8,
    bytes: &[u8],
) -> Result<(Vec<ArgType>, &[u8]), ImageFault>
    ensures reads { Gives (λ x. (map arg_type_of x.0.items, x.1.now)) result (many_at argument_at count bytes.now) }
{
    let mut found = Vec::new(alloc);
    let mut rest = bytes;
    for _ in 0..count {
        let (argument, after) = argument(alloc, rest)?;
        found.push(argument)?;
        rest = after;
    }
    Ok((found, rest))
}

/// A number of arguments.
#[tactic(auto, unfolding(crate::specs::Reading::argument_count_at))]
fn argument_count(bytes: &[u8]) -> Result<(u8, &[u8]), ImageFault>
    ensures reads { Gives (λ x. (x.0, x.1.now)) result (argument_count_at bytes.now) }
{
    let (count, rest) = one(bytes)?;
    if usize::from(count) > MAX_LISTED {
        return Err(ImageFault::Refused(BadImage::BadField));
    }
    Ok((count, rest))
}

/// The arguments' types of a message.
#[tactic(auto, unfolding(crate::specs::Reading::arguments_at))]
pub(crate) fn arguments(alloc: Global, bytes: &[u8]) -> Result<(Vec<ArgType>, &[u8]), ImageFault>
    ensures reads { Gives (λ x. (map arg_type_of x.0.items, x.1.now)) result (arguments_at bytes.now) }
{
    let (count, rest) = argument_count(bytes)?;
    some_arguments(alloc, count, rest)
}
