//! Numbers at the front of a packed tape.

ghost use Rattle.std.specs.Prelude.{◌≡◌, ◌≤◌, ◌^◌, ℕ, take, drop};
ghost use Rattle.std.specs.Int.{w16, w32, w64};
ghost use Rattle.fl_interface.specs.Interface.{scalar, enumeration};
ghost use Rattle.fl_interface.specs.Sizes.{scalar_size};
ghost use Rattle.fl_value_data.specs.Fits.{how_many_below};
ghost use Rattle.fl_value_data.specs.Value.{number};
ghost use Rattle.fl_value_unpack.specs.Reading.{byte_in, number_in, first_number, signed_of, number_with, PackedValueAt, OnlyOne};

use fl_interface::Scalar;

// So many bytes, or as many as there are, and what follows them.
#[inline(always)]
pub(crate) fn split(tape: &[u8], count: usize) -> (&[u8], &[u8])
    ensures first { result.0.now ≡ take count tape.now }
    ensures rest { result.1.now ≡ drop count tape.now }
{
    tape.split_at(count.min(tape.len()))
}

// The number that the first byte is; 0 where there is none.
#[inline(always)]
fn number_of_1(tape: &[u8]) -> u64
    ensures { result ≡ byte_in tape.now }
{
    if tape.len() < 1 {
        return 0;
    }
    u64::from(tape[0])
}

// The number that the first two bytes are; 0 where there are fewer.
#[inline(always)]
fn number_of_2(tape: &[u8]) -> u64
    ensures { result ≡ number_in w16 2 tape.now }
{
    if tape.len() < 2 {
        return 0;
    }
    u64::from(u16::from_le_bytes([tape[0], tape[1]]))
}

// The number that the first four bytes are; 0 where there are fewer.
#[inline(always)]
fn number_of_4(tape: &[u8]) -> u64
    ensures { result ≡ number_in w32 4 tape.now }
{
    if tape.len() < 4 {
        return 0;
    }
    u64::from(u32::from_le_bytes([tape[0], tape[1], tape[2], tape[3]]))
}

// The number that the first eight bytes are; 0 where there are fewer.
#[inline(always)]
pub(crate) fn number_of_8(tape: &[u8]) -> u64
    ensures { result ≡ number_in w64 8 tape.now }
{
    if tape.len() < 8 {
        return 0;
    }
    u64::from_le_bytes([
        tape[0], tape[1], tape[2], tape[3], tape[4], tape[5], tape[6], tape[7],
    ])
}

// The number that so many bytes are: 1, 2, 4 or 8.
#[inline(always)]
fn number_of(tape: &[u8], width: u32) -> u64
    ensures { result ≡ first_number width tape.now }
{
    match width {
        1 => number_of_1(tape),
        2 => number_of_2(tape),
        4 => number_of_4(tape),
        _ => number_of_8(tape),
    }
}

// The number that has these bits in two's complement, where half of the numbers are below 0.
#[inline(always)]
fn signed(bits: u64, half: u64) -> i128
    requires half { half ≤ 2 ^ 63 }
    ensures { result ≡ signed_of half bits }
{
    if bits < half {
        i128::from(bits)
    } else if bits - half < half {
        i128::from(bits - half) - i128::from(half)
    } else {
        0
    }
}

// How many numbers of a scalar are below 0: none of one without a sign.
#[inline(always)]
pub(crate) fn half_of(kind: Scalar) -> u64
    ensures half { result ≡ how_many_below kind }
    ensures few { result ≤ 2 ^ 63 }
{
    match kind {
        Scalar::Int8 => 0x80,
        Scalar::Int16 => 0x8000,
        Scalar::Int32 => 0x8000_0000,
        Scalar::Int64 | Scalar::Intptr => 0x8000_0000_0000_0000,
        _ => 0,
    }
}

// The number that has these bits, of a scalar of which so many are below 0.
#[inline(always)]
fn number_from(half: u64, bits: u64) -> i128
    requires half { half ≤ 2 ^ 63 }
    ensures { result ≡ number_with half bits }
{
    if half == 0 {
        return i128::from(bits);
    }
    signed(bits, half)
}

// The scalar that the tape begins with, and what follows it. Its width is told, and how many of its kind are below 0: so
// that in line, where they are known, nothing of them is asked.
#[inline(always)]
pub(crate) fn read_told(tape: &[u8], kind: Scalar, width: u32, half: u64) -> (i128, &[u8])
    requires width { width ≡ scalar_size kind }
    requires half { half ≡ how_many_below kind }
    requires few { half ≤ 2 ^ 63 }
    ensures only { OnlyOne (PackedValueAt (scalar kind) tape.now) (number result.0) result.1.now }
{
    if tape.len() < width as usize {
        // No such scalar stands there, so nothing is asked of the answer.
        return (0, tape);
    }
    let bits = number_of(tape, width);
    let (_read, rest) = tape.split_at(width as usize);
    (number_from(half, bits), rest)
}

// The place of the enumerator that the tape begins with, and what follows it.
#[inline(always)]
pub(crate) fn read_enumerator(tape: &[u8]) -> (i128, &[u8])
    ensures only { (count : ℕ) → count ≤ 2 ^ 32
        → OnlyOne (PackedValueAt (enumeration count) tape.now) (number result.0) result.1.now }
{
    let place = number_of_4(tape);
    let (_read, rest) = split(tape, 4);
    (i128::from(place), rest)
}
