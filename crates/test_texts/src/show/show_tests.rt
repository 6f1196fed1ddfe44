//! Tables of texts and of their images, and a header that was written by hand.

use crate::image::images::MIXED;
use crate::rows::all_hold;
use crate::show::shown::ShownCase;
use fl_value_data::PlanNo;
use std::test::Fail;

const PLAN_ONE: &[u8] = b"\
interface i plan 1
message 0 m least 18 greatest 2066 fragments 37
arg 0 at 0 fixed 1
arg 1 at 8 string max 2047
arg 2 at - fixed 2
";

const PLAN_TWO: &[u8] = b"\
interface i plan 2
message 0 m least 16 greatest 2063 fragments 37
arg 0 at 2 fixed 1
arg 1 at 8 string max 2047
arg 2 at 0 fixed 2
";

// A text is shown under plan 2, an image under its own plan.
const SHOWN: &[ShownCase] = &[
    ShownCase::Text(MIXED, PLAN_TWO),
    // a struct of 16 bytes, an array of 2 times 2, and an rpc's two messages, of which one is empty
    ShownCase::Text(
        b"\
interface store {
    typedef struct { uint8 a; uint64 b; } t;
    typedef uint16 pair[2];
    message put(pair p, t x[n, 7], string s[4]);
    rpc get(in iref where, out bool ok);
    message nop();
};",
        b"\
interface store plan 2
message 0 put least 24 greatest 140 fragments 3
arg 0 at 0 fixed 4
arg 1 at 8 array max 7 stride 16
arg 2 at - string max 4
message 1 get_call least 4 greatest 4 fragments 1
arg 0 at 0 fixed 4
message 2 get_response least 1 greatest 1 fragments 1
arg 0 at 0 fixed 1
message 3 nop least 0 greatest 0 fragments 1
",
    ),
    ShownCase::Image(PlanNo::One, PLAN_ONE),
    ShownCase::Image(PlanNo::Two, PLAN_TWO),
    ShownCase::Header(HEADED, HEADER),
];

const HEADED: &[u8] = b"interface i {
    typedef struct { int8 x[2]; } pair;
    message m(string s[5], int16 n, pair p);
};";

const HEADER: &[u8] = b"/* Interface i, plan 2. */
#ifndef FLOUNDER_i_H
#define FLOUNDER_i_H
#include <flounder.h>

struct i_m {
    struct {
        uint32_t count;
        char bytes[5];
    } a0;
    int16_t a1;
    struct {
        int8_t f0[2];
    } a2;
};
enum { i_m_number = 0, i_m_most = 1 + 9 };
static inline size_t i_m_put(const struct i_m *m, uint64_t *call)
{
    size_t n = 0;
    (void)m;
    call[n++] = i_m_number;
    call[n++] = (uint16_t)m->a1;
    for (size_t i0 = 0; i0 < 2; i0++) {
        call[n++] = (uint8_t)m->a2.f0[i0];
    }
    if (m->a0.count > 5) return 0;
    call[n++] = m->a0.count;
    for (size_t i0 = 0; i0 < m->a0.count; i0++) {
        call[n++] = (uint8_t)m->a0.bytes[i0];
    }
    return n;
}
static inline int i_m_get(struct i_m *m, const uint64_t *call, size_t count)
{
    struct fl_tape tape = { call, count, 0 };
    (void)m;
    if (fl_next(&tape) != i_m_number) return 0;
    m->a1 = (int16_t)fl_next(&tape);
    for (size_t i0 = 0; i0 < 2; i0++) {
        m->a2.f0[i0] = (int8_t)fl_next(&tape);
    }
    m->a0.count = fl_next_count(&tape, 5);
    for (size_t i0 = 0; i0 < m->a0.count; i0++) {
        m->a0.bytes[i0] = (char)fl_next(&tape);
    }
    return !tape.wrong && !tape.left;
}

#endif
";

#[test]
fn tables_and_headers(rt: HostRuntime) -> Result<(), Fail> {
    all_hold(rt.alloc(), "what is shown", SHOWN)
}
