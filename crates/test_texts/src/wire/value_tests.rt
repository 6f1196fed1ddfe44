//! Calls as text: which texts are calls, which calls fit, and how they are printed.

use crate::interfaces::interface;
use fl_interface::Interface;
use fl_value::{
    ValueFault, law_one_reading, law_printed_call_read, law_printed_reads, print_call, read_call,
};
use fl_value_data::Call;
use std::alloc::{AllocError, Global};
use std::test::Fail;

// A message for each type.
const TYPES: &[u8] = b"interface types {
    typedef enum { red, green, blue } colour;
    typedef colour colours[2];
    typedef uint8 bytes[2];
    typedef struct { bool on; uint8 level; } point;
    message u8(uint8 x);
    message i8(int8 x);
    message b(bool x);
    message c(char x);
    message u16(uint16 x);
    message i16(int16 x);
    message u32(uint32 x);
    message i32(int32 x);
    message ir(iref x);
    message u64(uint64 x);
    message i64(int64 x);
    message up(uintptr x);
    message ip(intptr x);
    message sz(size x);
    message ev(errval x);
    message enumerator(colour x);
    message array(bytes x);
    message structure(point x);
    message two(string x[2]);
    message four(string x[4]);
    message text(string x[2048]);
    message sized(uint8 x[n, 2]);
    message arrays(colours x[n, 4]);
    message structures(point x[n, 4]);
    message six(bool a, string b[4], uint16 c, bytes d, uint32 e[n, 4], int64 f);
}";

// A text, and the call that it is as it is printed, or the number of its fault.
struct Spoken(&'static [u8], Result<&'static [u8], u8>);

// The least and the greatest value of each type, and other spellings.
const SPOKEN: &[Spoken] = &[
    Spoken(b"u8(0)", Ok(b"u8(0)")),
    Spoken(b"u8(1)", Ok(b"u8(1)")),
    Spoken(b"u8(255)", Ok(b"u8(255)")),
    Spoken(b"i8(-128)", Ok(b"i8(-128)")),
    Spoken(b"i8(127)", Ok(b"i8(127)")),
    Spoken(b"b(0)", Ok(b"b(0)")),
    Spoken(b"b(1)", Ok(b"b(1)")),
    Spoken(b"c(0)", Ok(b"c(0)")),
    Spoken(b"c(1)", Ok(b"c(1)")),
    Spoken(b"c(255)", Ok(b"c(255)")),
    Spoken(b"u16(0)", Ok(b"u16(0)")),
    Spoken(b"u16(1)", Ok(b"u16(1)")),
    Spoken(b"u16(65535)", Ok(b"u16(65535)")),
    Spoken(b"i16(-32768)", Ok(b"i16(-32768)")),
    Spoken(b"i16(-128)", Ok(b"i16(-128)")),
    Spoken(b"i16(127)", Ok(b"i16(127)")),
    Spoken(b"i16(32767)", Ok(b"i16(32767)")),
    Spoken(b"u32(0)", Ok(b"u32(0)")),
    Spoken(b"u32(1)", Ok(b"u32(1)")),
    Spoken(b"u32(4294967295)", Ok(b"u32(4294967295)")),
    Spoken(b"i32(-2147483648)", Ok(b"i32(-2147483648)")),
    Spoken(b"i32(-128)", Ok(b"i32(-128)")),
    Spoken(b"i32(127)", Ok(b"i32(127)")),
    Spoken(b"i32(2147483647)", Ok(b"i32(2147483647)")),
    Spoken(b"ir(0)", Ok(b"ir(0)")),
    Spoken(b"ir(1)", Ok(b"ir(1)")),
    Spoken(b"ir(4294967295)", Ok(b"ir(4294967295)")),
    Spoken(b"u64(0)", Ok(b"u64(0)")),
    Spoken(b"u64(1)", Ok(b"u64(1)")),
    Spoken(
        b"u64(18446744073709551615)",
        Ok(b"u64(18446744073709551615)"),
    ),
    Spoken(
        b"i64(-9223372036854775808)",
        Ok(b"i64(-9223372036854775808)"),
    ),
    Spoken(b"i64(-128)", Ok(b"i64(-128)")),
    Spoken(b"i64(127)", Ok(b"i64(127)")),
    Spoken(b"i64(9223372036854775807)", Ok(b"i64(9223372036854775807)")),
    Spoken(b"up(0)", Ok(b"up(0)")),
    Spoken(b"up(1)", Ok(b"up(1)")),
    Spoken(b"up(18446744073709551615)", Ok(b"up(18446744073709551615)")),
    Spoken(b"ip(-9223372036854775808)", Ok(b"ip(-9223372036854775808)")),
    Spoken(b"ip(-128)", Ok(b"ip(-128)")),
    Spoken(b"ip(127)", Ok(b"ip(127)")),
    Spoken(b"ip(9223372036854775807)", Ok(b"ip(9223372036854775807)")),
    Spoken(b"sz(0)", Ok(b"sz(0)")),
    Spoken(b"sz(1)", Ok(b"sz(1)")),
    Spoken(b"sz(18446744073709551615)", Ok(b"sz(18446744073709551615)")),
    Spoken(b"ev(0)", Ok(b"ev(0)")),
    Spoken(b"ev(1)", Ok(b"ev(1)")),
    Spoken(b"ev(18446744073709551615)", Ok(b"ev(18446744073709551615)")),
    Spoken(b"enumerator(0)", Ok(b"enumerator(0)")),
    Spoken(b"enumerator(2)", Ok(b"enumerator(2)")),
    Spoken(b"array([0, 0])", Ok(b"array([0, 0])")),
    Spoken(b"array([255, 255])", Ok(b"array([255, 255])")),
    Spoken(b"structure({0, 1})", Ok(b"structure({0, 1})")),
    Spoken(b"structure({1, 0})", Ok(b"structure({1, 0})")),
    Spoken(b"two(\"\")", Ok(b"two(\"\")")),
    Spoken(b"two(\"hi\")", Ok(b"two(\"hi\")")),
    Spoken(b"four(\"\")", Ok(b"four(\"\")")),
    Spoken(b"four(\"\\x01\\xffab\")", Ok(b"four(\"\\x01\\xffab\")")),
    Spoken(b"sized([])", Ok(b"sized([])")),
    Spoken(b"sized([1, 2])", Ok(b"sized([1, 2])")),
    Spoken(b"arrays([[0, 2], [1, 1]])", Ok(b"arrays([[0, 2], [1, 1]])")),
    Spoken(
        b"structures([{1, 7}, {0, 255}])",
        Ok(b"structures([{1, 7}, {0, 255}])"),
    ),
    Spoken(
        b"six(1, \"hi\", 5, [1, 2], [7, 8, 9], -1)",
        Ok(b"six(1, \"hi\", 5, [1, 2], [7, 8, 9], -1)"),
    ),
    Spoken(b"u8( 007 )", Ok(b"u8(7)")),
    Spoken(b"u8(-0)", Ok(b"u8(0)")),
    Spoken(b"text(\"\\x41\\xE9\")", Ok(b"text(\"A\\xe9\")")),
    Spoken(
        b" arrays ([[0, 2],[1,1]]) ",
        Ok(b"arrays([[0, 2], [1, 1]])"),
    ),
];

// Texts that are no call (90), of no message (41), or whose arguments don't fit (42).
const REFUSED: &[Spoken] = &[
    Spoken(b"u8(-1)", Err(42)),
    Spoken(b"u8(256)", Err(42)),
    Spoken(b"i8(-129)", Err(42)),
    Spoken(b"i8(128)", Err(42)),
    Spoken(b"b(-1)", Err(42)),
    Spoken(b"b(2)", Err(42)),
    Spoken(b"c(-1)", Err(42)),
    Spoken(b"c(256)", Err(42)),
    Spoken(b"u16(-1)", Err(42)),
    Spoken(b"u16(65536)", Err(42)),
    Spoken(b"i16(-32769)", Err(42)),
    Spoken(b"i16(32768)", Err(42)),
    Spoken(b"u32(-1)", Err(42)),
    Spoken(b"u32(4294967296)", Err(42)),
    Spoken(b"i32(-2147483649)", Err(42)),
    Spoken(b"i32(2147483648)", Err(42)),
    Spoken(b"ir(-1)", Err(42)),
    Spoken(b"ir(4294967296)", Err(42)),
    Spoken(b"u64(-1)", Err(42)),
    Spoken(b"u64(18446744073709551616)", Err(42)),
    Spoken(b"i64(-9223372036854775809)", Err(42)),
    Spoken(b"i64(9223372036854775808)", Err(42)),
    Spoken(b"up(-1)", Err(42)),
    Spoken(b"up(18446744073709551616)", Err(42)),
    Spoken(b"ip(-9223372036854775809)", Err(42)),
    Spoken(b"ip(9223372036854775808)", Err(42)),
    Spoken(b"sz(-1)", Err(42)),
    Spoken(b"sz(18446744073709551616)", Err(42)),
    Spoken(b"ev(-1)", Err(42)),
    Spoken(b"ev(18446744073709551616)", Err(42)),
    Spoken(b"enumerator(-1)", Err(42)),
    Spoken(b"enumerator(3)", Err(42)),
    Spoken(b"array([1])", Err(42)),
    Spoken(b"array({1, 2})", Err(42)),
    Spoken(b"structure({1})", Err(42)),
    Spoken(b"structure([1, 2])", Err(42)),
    Spoken(b"two(\"hip\")", Err(42)),
    Spoken(b"two(\"\\x00\")", Err(42)),
    Spoken(b"sized([1, 2, 3])", Err(42)),
    Spoken(b"sized([256])", Err(42)),
    Spoken(b"arrays([[0, 3]])", Err(42)),
    Spoken(b"text(\"\\x00\")", Err(42)),
    // 20 brackets, and 21
    Spoken(b"text([[[[[[[[[[[[[[[[[[[[]]]]]]]]]]]]]]]]]]]])", Err(42)),
    Spoken(b"text([[[[[[[[[[[[[[[[[[[[[]]]]]]]]]]]]]]]]]]]]])", Err(90)),
    Spoken(b"text(\"\\x4g\")", Err(90)),
    Spoken(b"text(\"a\tb\")", Err(90)),
    Spoken(b"u8(000000000000000000001)", Err(90)),
    Spoken(b"u8(- 5)", Err(90)),
    Spoken(b"", Err(90)),
    // what is no call comes first, then the name, then the arguments
    Spoken(b"ping(7", Err(90)),
    Spoken(b"u32(7) 8", Err(90)),
    Spoken(b"ping(1)", Err(41)),
    Spoken(b"ping(\"x\")", Err(41)),
    Spoken(b"u32(\"x\")", Err(42)),
    Spoken(b"u32(1, 2)", Err(42)),
    Spoken(b"u32()", Err(42)),
];

// Whether a call is printed so.
fn is_printed(
    alloc: Global,
    types: &Interface,
    call: &Call,
    text: &[u8],
) -> Result<bool, AllocError> {
    let Some(message) = types.messages.get(usize::from(call.msg.0)) else {
        return Ok(false);
    };
    let mut out = Vec::new(alloc);
    print_call(alloc, &mut out, &message.name.bytes, &call.args)?;
    Ok(out.as_slice() == text)
}

fn comes_to(alloc: Global, types: &Interface, row: &Spoken) -> Result<bool, ValueFault> {
    match (read_call(alloc, row.0, types), row.1) {
        (Ok(call), Ok(text)) => Ok(is_printed(alloc, types, &call, text)?),
        (Err(fault), Err(number)) => Ok(fault.number() == number),
        (Err(fault), Ok(_)) => Err(fault),
        (Ok(_), Err(_)) => Ok(false),
    }
}

#[test]
fn calls_as_text(rt: HostRuntime) -> Result<(), Fail> {
    law_printed_reads();
    law_printed_call_read();
    law_one_reading();
    let types = interface(rt.alloc(), TYPES)?;
    for row in SPOKEN {
        assert!(rt; comes_to(rt.alloc(), &types, row)?);
    }
    for row in REFUSED {
        assert!(rt; comes_to(rt.alloc(), &types, row)?);
    }
    Ok(())
}
