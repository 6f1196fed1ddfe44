//! Whether types and messages keep the limits.

ghost use Rattle.std.specs.Prelude.{◌≡◌, ◌<◌, ◌≤◌, ◌*◌, ◌+◌, ◌∷◌, ℕ, List, map, nat_lt, min};
ghost use Rattle.fl_interface.specs.Interface.{TheType, TheTypes, TheArgType, type_of, arg_type_of, message_of, scalar, enumeration};
ghost use Rattle.fl_interface.specs.Interface.{structure, array, no_more, field, fixed, text, sized, fields_from};
ghost use Rattle.fl_interface.specs.Sizes.{scalar_size, round_up};
ghost use Rattle.fl_interface.specs.Depth.{is_too_big};
ghost use Rattle.fl_interface.specs.Limits.{is_well_made, are_well_made, is_type_within, is_argument_within, are_arguments_within, is_message_within};
ghost use Rattle.fl_interface.specs.Payload.{greatest_payload};
ghost use Rattle.fl_interface.specs.Limits.{is_among};
ghost use Rattle.fl_interface.specs.Sizes.{IsAlign};
ghost use Rattle.fl_image.specs.Limits.{Measures, SoFar, Reaches};

use fl_interface::{
    ArgType, ENUM_SIZE, FixedType, MAX_BOUND, MAX_ELEMENTS, MAX_LISTED, MAX_NESTED_ARRAYS,
    MAX_PAYLOAD, MAX_TYPE_DEPTH, MAX_TYPE_SIZE, Message, Scalar,
};

/// No measure is told past this.
const CAP: u32 = 65536;

/// The size and alignment of a type in bytes, how deep structs and arrays nest in it, and how many arrays stand
/// on one path through it.
#[derive(Clone, Copy)]
pub(crate) struct TypeMeasures {
    pub size: u32,
    pub align: u32,
    pub depth: u32,
    pub arrays: u32,
}

/// Where the arguments so far may end, and the alignment that is due there.
#[derive(Clone, Copy)]
pub(crate) struct ArgsEnd {
    pub end: u32,
    pub due: u32,
}

fn of_scalar(kind: Scalar) -> TypeMeasures
    ensures measures { Measures result (scalar kind) }
{
    let bytes = kind.size();
    TypeMeasures {
        size: bytes,
        align: bytes,
        depth: 0,
        arrays: 0,
    }
}

fn of_enum(count: u32) -> TypeMeasures
    ensures measures { Measures result (enumeration count) }
{
    TypeMeasures {
        size: ENUM_SIZE,
        align: ENUM_SIZE,
        depth: 0,
        arrays: 0,
    }
}

/// So many times a size, as far as it is told.
fn times(count: u32, size: u32) -> u32
    ensures capped { result ≡ min (count * size) 65536 }
{
    (u64::from(count) * u64::from(size)).min(u64::from(CAP)) as u32
}

/// The array of so many of these.
fn of_array(count: u32, element: TypeMeasures) -> TypeMeasures
    requires small { element.depth ≤ 65536 }
    requires few { element.arrays ≤ 65536 }
    ensures measures { (t : TheType) → Measures element t → Measures result (array count t) }
{
    TypeMeasures {
        size: times(count, element.size),
        align: element.align,
        depth: (element.depth + 1).min(CAP),
        arrays: (element.arrays + 1).min(CAP),
    }
}

/// A struct with one more field behind those so far.
fn with_field(so_far: TypeMeasures, next: TypeMeasures) -> TypeMeasures
    requires align { IsAlign next.align }
    requires small { so_far.size ≤ 65536 }
    requires small_next { next.size ≤ 65536 }
    ensures so_far { (t : TheType) (left all : TheTypes) → Measures next t → SoFar so_far (field t left) all → SoFar result left all }
{
    let end = so_far.size.next_multiple_of(next.align) + next.size;
    TypeMeasures {
        size: end.min(CAP),
        align: next.align.max(so_far.align),
        depth: next.depth.max(so_far.depth),
        arrays: next.arrays.max(so_far.arrays),
    }
}

/// The struct of the fields so far.
fn of_fields(so_far: TypeMeasures) -> TypeMeasures
    requires align { IsAlign so_far.align }
    requires small { so_far.size ≤ 65536 }
    requires shallow { so_far.depth ≤ 65536 }
    ensures measures { (all : TheTypes) → SoFar so_far no_more all → Measures result (structure all) }
{
    TypeMeasures {
        size: so_far.size.next_multiple_of(so_far.align).min(CAP),
        align: so_far.align,
        depth: (so_far.depth + 1).min(CAP),
        arrays: so_far.arrays,
    }
}

/// The measures of a type.
#[cycle(measures)]
fn measure(fixed: &FixedType) -> TypeMeasures
    ensures measures { Measures result (type_of fixed.now) }
{
    match fixed {
        FixedType::Scalar(kind) => of_scalar(*kind),
        FixedType::Enumeration(count) => of_enum(*count),
        FixedType::Structure(fields) => measure_fields(fields),
        FixedType::Array(count, element) => measure_array(*count, element),
    }
}

/// The measures of an array of so many elements of a type.
#[cycle(measures)]
fn measure_array(count: u32, element: &FixedType) -> TypeMeasures
    ensures measures { Measures result (array count (type_of element.now)) }
{
    of_array(count, measure(element))
}

/// The measures of the struct of these fields.
#[cycle(measures)]
fn measure_fields(fields: &[FixedType]) -> TypeMeasures
    ensures measures { Measures result (structure (fields_from (map type_of fields.now))) }
{
    let mut so_far = TypeMeasures {
        size: 0,
        align: 1,
        depth: 0,
        arrays: 0,
    };
    for field in fields {
        so_far = with_field(so_far, measure(field));
    }
    of_fields(so_far)
}

/// Whether a type has over 4,096 bytes or nests too deep.
fn is_too_big(fixed: &FixedType) -> bool
    ensures exact { result ≡ is_too_big (type_of fixed.now) }
{
    let measured = measure(fixed);
    measured.size > MAX_TYPE_SIZE
        || (measured.depth > MAX_TYPE_DEPTH || measured.arrays > MAX_NESTED_ARRAYS)
}

/// Whether enums and structs aren't empty, structs have at most 32 fields, and arrays 1 to 1,024 elements.
#[cycle(made)]
fn is_well_made(fixed: &FixedType) -> bool
    ensures exact { result ≡ is_well_made (type_of fixed.now) }
{
    match fixed {
        FixedType::Scalar(_) => true,
        FixedType::Enumeration(count) => 1 <= *count,
        FixedType::Structure(fields) => is_well_made_of(fields),
        FixedType::Array(count, element) => {
            1 <= *count && (*count <= MAX_ELEMENTS && is_well_made(element))
        }
    }
}

/// Whether a struct of these fields is well made.
#[cycle(made)]
fn is_well_made_of(fields: &[FixedType]) -> bool
    ensures exact { result ≡ is_well_made (structure (fields_from (map type_of fields.now))) }
{
    1 <= fields.len() && (fields.len() <= MAX_LISTED && are_well_made(fields))
}

/// Whether each of these types is well made.
#[cycle(made)]
fn are_well_made(fields: &[FixedType]) -> bool
    ensures exact { result ≡ are_well_made (fields_from (map type_of fields.now)) }
{
    for field in fields {
        if !is_well_made(field) {
            return false;
        }
    }
    true
}

/// Whether a type could be declared.
fn is_type_within(fixed: &FixedType) -> bool
    ensures exact { result ≡ is_type_within (type_of fixed.now) }
{
    is_well_made(fixed) && !is_too_big(fixed)
}

/// Whether an argument's type keeps the limits.
fn is_argument_within(argument: &ArgType) -> bool
    ensures exact { result ≡ is_argument_within (arg_type_of argument.now) }
{
    match argument {
        ArgType::Fixed(fixed) => is_type_within(fixed),
        ArgType::Text(most) => 1 <= *most && *most <= MAX_BOUND,
        ArgType::Sized(most, element) => {
            1 <= *most && (*most <= MAX_BOUND && is_type_within(element))
        }
    }
}

/// Whether the types of these arguments keep the limits.
fn are_arguments_within(arguments: &[ArgType]) -> bool
    ensures exact { result ≡ are_arguments_within (map arg_type_of arguments.now) }
{
    for argument in arguments {
        if !is_argument_within(argument) {
            return false;
        }
    }
    true
}

/// Behind a fixed argument.
fn behind_fixed(before: ArgsEnd, measured: TypeMeasures) -> ArgsEnd
    requires due { IsAlign before.due }
    requires align { IsAlign measured.align }
    requires small { before.end ≤ 65536 }
    requires size { measured.size ≤ 65536 }
    ensures reaches { (t : TheType) (left : List TheArgType) (total : ℕ) → Measures measured t
        → Reaches before (fixed t ∷ left) total → Reaches result left total }
{
    let end = before.end.next_multiple_of(before.due.max(measured.align)) + measured.size;
    ArgsEnd {
        end: end.min(CAP),
        due: 1,
    }
}

/// Behind a string or a sized array that takes so many bytes behind its length.
fn behind_counted(before: ArgsEnd, size: u32) -> ArgsEnd
    requires small { before.end ≤ 65536 }
    requires size { size ≤ 65536 }
    ensures end { result.end ≡ min (round_up before.end 8 + (8 + size)) 65536 }
    ensures due { result.due ≡ 8 }
{
    let end = before.end.next_multiple_of(8) + (8 + size);
    ArgsEnd {
        end: end.min(CAP),
        due: 8,
    }
}

/// Behind an argument.
fn behind(before: ArgsEnd, argument: &ArgType) -> ArgsEnd
    requires due { IsAlign before.due }
    requires small { before.end ≤ 65536 }
    ensures reaches { (left : List TheArgType) (total : ℕ) → Reaches before (arg_type_of argument.now ∷ left) total → Reaches result left total }
{
    match argument {
        ArgType::Fixed(fixed) => behind_fixed(before, measure(fixed)),
        ArgType::Text(most) => behind_counted(before, (*most).min(CAP)),
        ArgType::Sized(most, element) => behind_counted(
            before,
            times(*most, measure(element).size),
        ),
    }
}

/// Whether a payload of these arguments may pass 32,768 bytes.
fn is_too_long(arguments: &[ArgType]) -> bool
    ensures exact { result ≡ nat_lt 32768 (greatest_payload (map arg_type_of arguments.now)) }
{
    let mut extent = ArgsEnd { end: 0, due: 1 };
    for argument in arguments {
        extent = behind(extent, argument);
    }
    extent.end > MAX_PAYLOAD
}

/// Whether a message keeps the limits.
pub(crate) fn is_message_within(message: &Message) -> bool
    ensures exact { result ≡ is_message_within (message_of message.now) }
{
    message.args.len() <= MAX_LISTED
        && (are_arguments_within(&message.args) && !is_too_long(&message.args))
}

/// Whether one of these messages has that name.
pub(crate) fn is_taken(messages: &[Message], name: &[u8]) -> bool
    ensures exact { result ≡ is_among (map (λ m. m.name) (map message_of messages.now)) name.now }
{
    for message in messages {
        if message.name.bytes.as_slice() == name {
            return true;
        }
    }
    false
}
