//! Values from the bytes of fragments.

ghost use Rattle.std.specs.Prelude.{◌≡◌, ◌+◌, ◌*◌, ◌/◌, ◌%◌, ◌<◌, ◌≤◌, map, length, true, false};
ghost use Rattle.std.specs.Prelude.{IfOk, IfErr, IfSome};
ghost use Rattle.fl_interface.specs.Interface.{scalar, enumeration, structure, fixed, type_of, arg_type_of, fields_from};
ghost use Rattle.fl_interface.specs.Sizes.{scalar_size, greatest_align};
ghost use Rattle.fl_value_data.specs.Value.{number, string, elements, fields, datum_of, data_from};
ghost use Rattle.fl_value_data.specs.Fits.{least_above, how_many_below};
ghost use Rattle.fl_value_data.specs.Plan.{is_dynamic, rank_of};
ghost use Rattle.fl_wire.specs.Standing.{signed_half, number_back, word_in};
ghost use Rattle.fl_interface.specs.declared.interface.Scalar.TheVariants.{Uint64};
ghost use Rattle.fl_wire.specs.Shapes.{ReadAt, StopsAt, values_of, fields_of, elements_of, text_byte, texts_of, length_below, arguments_of};

use crate::leaf::{CallReadFault, byte_of, read_number, read_padding, read_word, word_at};
use crate::text::bytes_from;
use fl_base::{FRAG_BYTES, Frag};
use fl_interface::{ArgType, FixedType, Scalar, greatest_alignment};
use fl_value_data::{PlanNo, Value, are_text_bytes};
use std::alloc::{AllocError, Global};

// Half of the numbers that a signed scalar has; 0 for scalars without a sign.
#[inline(always)]
fn half_of(kind: Scalar) -> u64
    ensures half { result ≡ signed_half (fixed (scalar kind)) }
{
    match kind {
        Scalar::Int8 => 0x80,
        Scalar::Int16 => 0x8000,
        Scalar::Int32 => 0x8000_0000,
        Scalar::Int64 | Scalar::Intptr => 0x8000_0000_0000_0000,
        _ => 0,
    }
}

// The number that has these bits.
#[inline(always)]
fn number_from(kind: Scalar, raw: u64) -> i128
    ensures number { result ≡ number_back (fixed (scalar kind)) raw }
{
    let half = half_of(kind);
    let number = i128::from(raw);
    if half > 0 && raw >= half {
        number - 2 * i128::from(half)
    } else {
        number
    }
}

// The greatest bits that a scalar has.
#[inline(always)]
fn greatest_bits(kind: Scalar) -> u64
    ensures bits { 1 + result ≡ least_above kind + how_many_below kind }
{
    match kind {
        Scalar::Bool => 1,
        Scalar::Uint8 | Scalar::Int8 | Scalar::Char => 0xff,
        Scalar::Uint16 | Scalar::Int16 => 0xffff,
        Scalar::Uint32 | Scalar::Int32 | Scalar::Iref => 0xffff_ffff,
        _ => 0xffff_ffff_ffff_ffff,
    }
}

// A number as a value.
#[inline(always)]
fn int_value(z: i128) -> Value
    ensures value { datum_of result ≡ number z }
{
    Value::Int(z)
}

// A string's bytes as a value.
fn text_value(bytes: Vec<u8>) -> Value
    ensures value { datum_of result ≡ string bytes.items }
{
    Value::Text(bytes)
}

// An array's elements as a value.
fn list_value(values: Vec<Value>) -> Value
    ensures value { datum_of result ≡ elements (data_from (map datum_of values.items)) }
{
    Value::List(values)
}

// A struct's fields as a value.
fn fields_value(values: Vec<Value>) -> Value
    ensures value { datum_of result ≡ fields (data_from (map datum_of values.items)) }
{
    Value::Fields(values)
}

/// The next scalar, and where it ends.
#[inline(always)]
fn read_scalar(frags: &[Frag], at: usize, kind: Scalar) -> Result<(Value, usize), CallReadFault>
    requires within { at ≤ 56 * length frags.now }
    ensures within { IfOk result (λ r. r.1 ≤ 56 * length frags.now) }
    ensures later { IfOk result (λ r. at ≤ r.1) }
    ensures read { IfOk result (λ r. ReadAt (values_of (scalar kind)) frags.now at (datum_of r.0) r.1) }
    ensures stop { IfErr result (λ stop. StopsAt stop (values_of (scalar kind)) frags.now at) }
{
    let (raw, end) = read_number(frags, at, kind.size() as usize)?;
    if raw > greatest_bits(kind) {
        return Err(CallReadFault::Value);
    }
    Ok((int_value(number_from(kind, raw)), end))
}

// As `read_scalar`, which is in line here once for each kind: the kind is told once, and not for its width, its greatest
// number and its sign each.
#[inline(always)]
fn read_known_scalar(
    frags: &[Frag],
    at: usize,
    kind: Scalar,
) -> Result<(Value, usize), CallReadFault>
    requires within { at ≤ 56 * length frags.now }
    ensures within { IfOk result (λ r. r.1 ≤ 56 * length frags.now) }
    ensures later { IfOk result (λ r. at ≤ r.1) }
    ensures read { IfOk result (λ r. ReadAt (values_of (scalar kind)) frags.now at (datum_of r.0) r.1) }
    ensures stop { IfErr result (λ stop. StopsAt stop (values_of (scalar kind)) frags.now at) }
{
    match kind {
        Scalar::Uint8 => read_scalar(frags, at, Scalar::Uint8),
        Scalar::Int8 => read_scalar(frags, at, Scalar::Int8),
        Scalar::Bool => read_scalar(frags, at, Scalar::Bool),
        Scalar::Char => read_scalar(frags, at, Scalar::Char),
        Scalar::Uint16 => read_scalar(frags, at, Scalar::Uint16),
        Scalar::Int16 => read_scalar(frags, at, Scalar::Int16),
        Scalar::Uint32 => read_scalar(frags, at, Scalar::Uint32),
        Scalar::Int32 => read_scalar(frags, at, Scalar::Int32),
        Scalar::Iref => read_scalar(frags, at, Scalar::Iref),
        Scalar::Uint64 => read_scalar(frags, at, Scalar::Uint64),
        Scalar::Int64 => read_scalar(frags, at, Scalar::Int64),
        Scalar::Uintptr => read_scalar(frags, at, Scalar::Uintptr),
        Scalar::Intptr => read_scalar(frags, at, Scalar::Intptr),
        Scalar::Size => read_scalar(frags, at, Scalar::Size),
        Scalar::Errval => read_scalar(frags, at, Scalar::Errval),
    }
}

// The rank of a scalar argument; that of numbers of eight bytes is told first.
#[inline(always)]
fn rank_of_scalar(plan: PlanNo, ty: &ArgType, kind: Scalar) -> u8
    requires kind { arg_type_of ty.now ≡ fixed (scalar kind) }
    ensures rank { result ≡ rank_of plan (arg_type_of ty.now) }
{
    match kind {
        Scalar::Uint64 => 0,
        _ => plan.rank_of(ty),
    }
}

/// The next argument, where it ends, and its rank, if it is a scalar of no rank below a least one, and all its
/// bytes are there and right.
#[inline(always)]
pub(crate) fn read_scalar_argument(
    frags: &[Frag],
    at: usize,
    plan: PlanNo,
    least: u8,
    ty: &ArgType,
) -> Option<(Value, usize, u8)>
    requires within { at ≤ 56 * length frags.now }
    ensures within { IfSome result (λ r. r.1 ≤ 56 * length frags.now) }
    ensures later { IfSome result (λ r. at ≤ r.1) }
    ensures fixed { IfSome result (λ r. is_dynamic (arg_type_of ty.now) ≡ false) }
    ensures read { IfSome result
        (λ r. ReadAt (arguments_of (arg_type_of ty.now)) frags.now at (datum_of r.0) r.1) }
    ensures rank { IfSome result (λ r. r.2 ≡ rank_of plan (arg_type_of ty.now)) }
    ensures up { IfSome result (λ r. least ≤ r.2) }
{
    let ArgType::Fixed(FixedType::Scalar(kind)) = ty else {
        return None;
    };
    let rank = rank_of_scalar(plan, ty, *kind);
    if rank < least {
        return None;
    }
    match read_known_scalar(frags, at, *kind) {
        Ok((value, end)) => Some((value, end, rank)),
        Err(_) => None,
    }
}

/// Whether arguments of a type are numbers of eight bytes that may be any.
#[inline(always)]
pub(crate) fn is_wide(ty: &ArgType) -> bool
    ensures wide { result ≡ true → arg_type_of ty.now ≡ fixed (scalar Uint64) }
{
    matches!(ty, ArgType::Fixed(FixedType::Scalar(Scalar::Uint64)))
}

/// The argument of such a type that is a word of a fragment; 0 where the fragment isn't there.
#[inline(always)]
pub(crate) fn read_wide(frags: &[Frag], frag: usize, word: usize) -> Value
    requires inside { word < 7 }
    ensures read { frag < length frags.now
        → ReadAt (arguments_of (fixed (scalar Uint64))) frags.now (56 * frag + 8 * word) (datum_of result) (56 * frag + 8 * word + 8) }
{
    int_value(i128::from(read_word(frags, frag, word)))
}

/// The next enumerator of so many, and where it ends.
fn read_enumerator(frags: &[Frag], at: usize, count: u32) -> Result<(Value, usize), CallReadFault>
    requires within { at ≤ 56 * length frags.now }
    ensures within { IfOk result (λ r. r.1 ≤ 56 * length frags.now) }
    ensures later { IfOk result (λ r. at ≤ r.1) }
    ensures read { IfOk result (λ r. ReadAt (values_of (enumeration count)) frags.now at (datum_of r.0) r.1) }
    ensures stop { IfErr result (λ stop. StopsAt stop (values_of (enumeration count)) frags.now at) }
{
    let (raw, end) = read_number(frags, at, 4)?;
    if raw >= u64::from(count) {
        return Err(CallReadFault::Value);
    }
    Ok((int_value(i128::from(raw)), end))
}

// How many of so many things there can be that take a byte each, in what is left.
fn most_left(frags: &[Frag], at: usize, count: u64) -> usize
    requires within { at ≤ 56 * length frags.now }
{
    (count as usize).min(frags.len() * FRAG_BYTES - at)
}

// So many scalars of eight bytes, from a multiple of 8 on, where all are there: each is a word, and may be any. They are taken
// fragment by fragment, so that within one nothing is asked but where it ends.
fn read_words(
    alloc: Global,
    frags: &[Frag],
    at: usize,
    count: usize,
    kind: Scalar,
) -> Result<Vec<Value>, AllocError>
    requires wide { scalar_size kind ≡ 8 }
    requires word { at % 8 ≡ 0 }
    requires there { at + 8 * count ≤ 56 * length frags.now }
    ensures read { IfOk result (λ values. ReadAt (elements_of count (scalar kind)) frags.now at (data_from (map datum_of values.items)) (at + 8 * count)) }
{
    let mut values = Vec::with_capacity(alloc, count)?;
    let mut next = at / 8;
    let end = next + count;
    while next < end {
        let frag = next / 7;
        let past = (end - 7 * frag).min(7);
        for word in next % 7..past {
            let raw = read_word(frags, frag, word);
            values.push_reserved(int_value(number_from(kind, raw)));
        }
        next = 7 * frag + past;
    }
    Ok(values)
}

// So many scalars of one kind, and where the last one ends: one by one, so that the first fault is found.
fn read_each_scalar(
    alloc: Global,
    frags: &[Frag],
    at: usize,
    count: u64,
    kind: Scalar,
) -> Result<(Vec<Value>, usize), CallReadFault>
    requires within { at ≤ 56 * length frags.now }
    ensures within { IfOk result (λ r. r.1 ≤ 56 * length frags.now) }
    ensures later { IfOk result (λ r. at ≤ r.1) }
    ensures read { IfOk result (λ r. ReadAt (elements_of count (scalar kind)) frags.now at (data_from (map datum_of r.0.items)) r.1) }
    ensures stop { IfErr result (λ stop. StopsAt stop (elements_of count (scalar kind)) frags.now at) }
{
    let mut values = Vec::with_capacity(alloc, most_left(frags, at, count))?;
    let mut end = at;
    for _index in 0..count {
        let (value, after) = read_known_scalar(frags, end, kind)?;
        values.push(value)?;
        end = after;
    }
    Ok((values, end))
}

/// So many scalars of one kind, and where the last one ends. Out of line: its loops have registers of their own, and no
/// number passes through memory but to its place.
#[inline(never)]
fn read_scalars(
    alloc: Global,
    frags: &[Frag],
    at: usize,
    count: u64,
    kind: Scalar,
) -> Result<(Vec<Value>, usize), CallReadFault>
    requires within { at ≤ 56 * length frags.now }
    ensures within { IfOk result (λ r. r.1 ≤ 56 * length frags.now) }
    ensures later { IfOk result (λ r. at ≤ r.1) }
    ensures read { IfOk result (λ r. ReadAt (elements_of count (scalar kind)) frags.now at (data_from (map datum_of r.0.items)) r.1) }
    ensures stop { IfErr result (λ stop. StopsAt stop (elements_of count (scalar kind)) frags.now at) }
{
    let long = count as usize;
    if kind.size() == 8 && at % 8 == 0 && long <= (frags.len() * FRAG_BYTES - at) / 8 {
        let values = read_words(alloc, frags, at, long, kind)?;
        return Ok((values, at + 8 * long));
    }
    read_each_scalar(alloc, frags, at, count, kind)
}

/// The next value of a type, and where it ends.
#[cycle(reading)]
pub(crate) fn read_value(
    alloc: Global,
    frags: &[Frag],
    at: usize,
    ty: &FixedType,
) -> Result<(Value, usize), CallReadFault>
    requires within { at ≤ 56 * length frags.now }
    ensures within { IfOk result (λ r. r.1 ≤ 56 * length frags.now) }
    ensures later { IfOk result (λ r. at ≤ r.1) }
    ensures read { IfOk result (λ r. ReadAt (values_of (type_of ty.now)) frags.now at (datum_of r.0) r.1) }
    ensures stop { IfErr result (λ stop. StopsAt stop (values_of (type_of ty.now)) frags.now at) }
{
    match ty {
        FixedType::Scalar(scalar) => read_scalar(frags, at, *scalar),
        FixedType::Enumeration(count) => read_enumerator(frags, at, *count),
        FixedType::Structure(fields) => {
            let align = greatest_alignment(fields) as usize;
            read_struct(alloc, frags, at, fields, align)
        }
        FixedType::Array(count, element) => {
            let (values, end) = read_elements(alloc, frags, at, u64::from(*count), element)?;
            Ok((list_value(values), end))
        }
    }
}

/// The next struct of these fields, whose alignment is told, and where it ends: it begins and ends at a multiple of that.
#[cycle(reading)]
#[inline(always)]
fn read_struct(
    alloc: Global,
    frags: &[Frag],
    at: usize,
    fields: &[FixedType],
    align: usize,
) -> Result<(Value, usize), CallReadFault>
    requires within { at ≤ 56 * length frags.now }
    requires aligned { align ≡ greatest_align (fields_from (map type_of fields.now)) }
    ensures within { IfOk result (λ r. r.1 ≤ 56 * length frags.now) }
    ensures later { IfOk result (λ r. at ≤ r.1) }
    ensures read { IfOk result (λ r. ReadAt (values_of (structure (fields_from (map type_of fields.now)))) frags.now at (datum_of r.0) r.1) }
    ensures stop { IfErr result (λ stop. StopsAt stop (values_of (structure (fields_from (map type_of fields.now)))) frags.now at) }
{
    let start = read_padding(frags, at, align)?;
    let (values, last) = read_fields(alloc, frags, start, fields)?;
    let end = read_padding(frags, last, align)?;
    Ok((fields_value(values), end))
}

/// The fields of a struct, and where the last one ends. A scalar, the most common, is read without a call.
#[cycle(reading)]
fn read_fields(
    alloc: Global,
    frags: &[Frag],
    at: usize,
    fields: &[FixedType],
) -> Result<(Vec<Value>, usize), CallReadFault>
    requires within { at ≤ 56 * length frags.now }
    ensures within { IfOk result (λ r. r.1 ≤ 56 * length frags.now) }
    ensures later { IfOk result (λ r. at ≤ r.1) }
    ensures read { IfOk result (λ r. ReadAt (fields_of (fields_from (map type_of fields.now))) frags.now at (data_from (map datum_of r.0.items)) r.1) }
    ensures stop { IfErr result (λ stop. StopsAt stop (fields_of (fields_from (map type_of fields.now))) frags.now at) }
{
    let mut values = Vec::with_capacity(alloc, fields.len())?;
    let mut end = at;
    for field in fields {
        if let FixedType::Scalar(kind) = field {
            let (number, next) = read_known_scalar(frags, end, *kind)?;
            values.push_reserved(number);
            end = next;
            continue;
        }
        let (value, after) = read_value(alloc, frags, end, field)?;
        values.push_reserved(value);
        end = after;
    }
    Ok((values, end))
}

/// So many elements of one type, and where the last one ends.
#[cycle(reading)]
pub(crate) fn read_elements(
    alloc: Global,
    frags: &[Frag],
    at: usize,
    count: u64,
    element: &FixedType,
) -> Result<(Vec<Value>, usize), CallReadFault>
    requires within { at ≤ 56 * length frags.now }
    ensures within { IfOk result (λ r. r.1 ≤ 56 * length frags.now) }
    ensures later { IfOk result (λ r. at ≤ r.1) }
    ensures read { IfOk result (λ r. ReadAt (elements_of count (type_of element.now)) frags.now at (data_from (map datum_of r.0.items)) r.1) }
    ensures stop { IfErr result (λ stop. StopsAt stop (elements_of count (type_of element.now)) frags.now at) }
{
    match element {
        FixedType::Scalar(kind) => read_scalars(alloc, frags, at, count, *kind),
        FixedType::Structure(fields) => read_structs(alloc, frags, at, count, fields),
        _ => read_each(alloc, frags, at, count, element),
    }
}

/// So many structs of these fields, and where the last one ends: their alignment is found once.
#[cycle(reading)]
fn read_structs(
    alloc: Global,
    frags: &[Frag],
    at: usize,
    count: u64,
    fields: &[FixedType],
) -> Result<(Vec<Value>, usize), CallReadFault>
    requires within { at ≤ 56 * length frags.now }
    ensures within { IfOk result (λ r. r.1 ≤ 56 * length frags.now) }
    ensures later { IfOk result (λ r. at ≤ r.1) }
    ensures read { IfOk result (λ r. ReadAt (elements_of count (structure (fields_from (map type_of fields.now))))
        frags.now at (data_from (map datum_of r.0.items)) r.1) }
    ensures stop { IfErr result (λ stop. StopsAt stop (elements_of count (structure (fields_from (map type_of fields.now)))) frags.now at) }
{
    let align = greatest_alignment(fields) as usize;
    let mut values = Vec::with_capacity(alloc, most_left(frags, at, count))?;
    let mut end = at;
    for _index in 0..count {
        let (value, after) = read_struct(alloc, frags, end, fields, align)?;
        values.push(value)?;
        end = after;
    }
    Ok((values, end))
}

/// So many elements of one type, and where the last one ends, each by a call.
#[cycle(reading)]
fn read_each(
    alloc: Global,
    frags: &[Frag],
    at: usize,
    count: u64,
    element: &FixedType,
) -> Result<(Vec<Value>, usize), CallReadFault>
    requires within { at ≤ 56 * length frags.now }
    ensures within { IfOk result (λ r. r.1 ≤ 56 * length frags.now) }
    ensures later { IfOk result (λ r. at ≤ r.1) }
    ensures read { IfOk result (λ r. ReadAt (elements_of count (type_of element.now)) frags.now at (data_from (map datum_of r.0.items)) r.1) }
    ensures stop { IfErr result (λ stop. StopsAt stop (elements_of count (type_of element.now)) frags.now at) }
{
    let mut values = Vec::with_capacity(alloc, most_left(frags, at, count))?;
    let mut end = at;
    for _index in 0..count {
        let (value, after) = read_value(alloc, frags, end, element)?;
        values.push(value)?;
        end = after;
    }
    Ok((values, end))
}

/// So many bytes of a string, and where the last one ends: one by one, so that the first fault is found.
fn read_text_slowly(
    alloc: Global,
    frags: &[Frag],
    at: usize,
    count: u64,
) -> Result<(Vec<u8>, usize), CallReadFault>
    requires within { at ≤ 56 * length frags.now }
    ensures within { IfOk result (λ r. r.1 ≤ 56 * length frags.now) }
    ensures later { IfOk result (λ r. at ≤ r.1) }
    ensures read { IfOk result (λ r. ReadAt (texts_of count) frags.now at r.0.items r.1) }
    ensures stop { IfErr result (λ stop. StopsAt stop (texts_of count) frags.now at) }
{
    let mut bytes = Vec::with_capacity(alloc, most_left(frags, at, count))?;
    let mut end = at;
    let mut word = word_at(frags, at / 8);
    for _index in 0..count {
        word = word_around(frags, end, word);
        let byte = read_text_byte(frags, end, word)?;
        bytes.push(byte)?;
        end += 1;
    }
    Ok((bytes, end))
}

/// So many bytes of a string, and where the last one ends: word by word, where all are there and none is 0.
fn read_text(
    alloc: Global,
    frags: &[Frag],
    at: usize,
    count: u64,
) -> Result<(Vec<u8>, usize), CallReadFault>
    requires within { at ≤ 56 * length frags.now }
    ensures within { IfOk result (λ r. r.1 ≤ 56 * length frags.now) }
    ensures later { IfOk result (λ r. at ≤ r.1) }
    ensures read { IfOk result (λ r. ReadAt (texts_of count) frags.now at r.0.items r.1) }
    ensures stop { IfErr result (λ stop. StopsAt stop (texts_of count) frags.now at) }
{
    let long = count as usize;
    if at % 8 == 0 && long <= frags.len() * FRAG_BYTES - at {
        let bytes = bytes_from(alloc, frags, at, long)?;
        if are_text_bytes(&bytes) {
            return Ok((bytes, at + long));
        }
    }
    read_text_slowly(alloc, frags, at, count)
}

/// The word in which a payload byte stands, if the one in hand is that of the byte before.
fn word_around(frags: &[Frag], at: usize, word: u64) -> u64
    requires known { 0 < at % 8 → word ≡ word_in frags.now (at / 8) }
    ensures word { result ≡ word_in frags.now (at / 8) }
{
    if at % 8 == 0 {
        return word_at(frags, at / 8);
    }
    word
}

/// The next byte of a string, in that word.
fn read_text_byte(frags: &[Frag], at: usize, word: u64) -> Result<u8, CallReadFault>
    requires within { at ≤ 56 * length frags.now }
    requires word { word ≡ word_in frags.now (at / 8) }
    ensures within { IfOk result (λ byte. at + 1 ≤ 56 * length frags.now) }
    ensures read { IfOk result (λ byte. ReadAt text_byte frags.now at byte (at + 1)) }
    ensures stop { IfErr result (λ stop. StopsAt stop text_byte frags.now at) }
{
    if at >= frags.len() * FRAG_BYTES {
        return Err(CallReadFault::Short);
    }
    let byte = byte_of(word, at);
    if byte == 0 {
        return Err(CallReadFault::Value);
    }
    Ok(byte)
}

/// The next length, at most so great, and where it ends.
fn read_length(frags: &[Frag], at: usize, most: u32) -> Result<(u64, usize), CallReadFault>
    requires within { at ≤ 56 * length frags.now }
    ensures within { IfOk result (λ r. r.1 ≤ 56 * length frags.now) }
    ensures later { IfOk result (λ r. at ≤ r.1) }
    ensures read { IfOk result (λ r. ReadAt (length_below (most + 1)) frags.now at r.0 r.1) }
    ensures stop { IfErr result (λ stop. StopsAt stop (length_below (most + 1)) frags.now at) }
{
    let (length, end) = read_number(frags, at, 8)?;
    if length > u64::from(most) {
        return Err(CallReadFault::Length);
    }
    Ok((length, end))
}

/// The next argument of a type, and where it ends.
pub(crate) fn read_argument(
    alloc: Global,
    frags: &[Frag],
    at: usize,
    ty: &ArgType,
) -> Result<(Value, usize), CallReadFault>
    requires within { at ≤ 56 * length frags.now }
    ensures within { IfOk result (λ r. r.1 ≤ 56 * length frags.now) }
    ensures later { IfOk result (λ r. at ≤ r.1) }
    ensures read { IfOk result (λ r. ReadAt (arguments_of (arg_type_of ty.now)) frags.now at (datum_of r.0) r.1) }
    ensures stop { IfErr result (λ stop. StopsAt stop (arguments_of (arg_type_of ty.now)) frags.now at) }
{
    match ty {
        ArgType::Fixed(fixed) => read_value(alloc, frags, at, fixed),
        ArgType::Text(most) => {
            let (count, start) = read_length(frags, at, *most)?;
            let (bytes, end) = read_text(alloc, frags, start, count)?;
            Ok((text_value(bytes), end))
        }
        ArgType::Sized(most, element) => {
            let (count, start) = read_length(frags, at, *most)?;
            let (values, end) = read_elements(alloc, frags, start, count, element)?;
            Ok((list_value(values), end))
        }
    }
}
