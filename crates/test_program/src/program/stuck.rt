//! The script of `examples/` in which a binding over a ring with a reply rule sticks, as it stands there:
//! `examples/check` tells where they differ. That of a circuit stands in `examples.rt`.

use crate::program::drawings::{Drawing, Example};
use crate::program::scripts::ScriptRow;

const STUCK: ScriptRow = ScriptRow(
    b"\
# A binding over a ring that sticks, with one reply rule. An end at which 16 replies wait takes nothing before
# one is written. To write one it wants room on the ring, and for that it looks at the first call that it
# holds back: the count that tells of room stands behind that call. How to choose N: docs/WIRE.md,
# \"Choosing N\".
idl
interface i { rpc echo(in uint32 x, out uint32 y); }
.
cores 2
disp d 0
disp e 1
export s e i
bind p d i s ump 4
reply p.s echo_call echo_response

# The client calls; the server handles its calls and acknowledges them, and writes none of its replies.
call p.c echo_call(1)
write p.c
call p.c echo_call(2)
write p.c
call p.c echo_call(3)
write p.c
call p.c echo_call(4)
write p.c
turn e
turn e
turn e
turn e
turn e
turn e
turn e
ack p.s
turn d
write p.c
call p.c echo_call(5)
write p.c
call p.c echo_call(6)
write p.c
call p.c echo_call(7)
write p.c
turn e
turn e
turn e
turn e
turn e
turn e
turn e
ack p.s
turn d
write p.c
call p.c echo_call(8)
write p.c
call p.c echo_call(9)
write p.c
call p.c echo_call(10)
write p.c
turn e
turn e
turn e
turn e
turn e
turn e
turn e
ack p.s
turn d
write p.c
call p.c echo_call(11)
write p.c
call p.c echo_call(12)
write p.c
call p.c echo_call(13)
write p.c
turn e
turn e
turn e
turn e
turn e
turn e
turn e
ack p.s
turn d
write p.c
call p.c echo_call(14)
write p.c
call p.c echo_call(15)
write p.c
call p.c echo_call(16)
write p.c
turn e
turn e
turn e
turn e
turn e
turn e
turn e
ack p.s
turn d
write p.c
call p.c echo_call(17)
write p.c
call p.c echo_call(18)
write p.c
call p.c echo_call(19)
write p.c
turn e
turn e
turn e
turn e
turn e

# 16 replies wait, beside the one that is under way: the server takes nothing, and acknowledges once more.
turn e
ack p.s
write p.c
call p.c echo_call(20)
write p.c
call p.c echo_call(21)
write p.c

# Two replies are written, and two calls more are taken in their places. The client finds no room for more.
write p.s
turn e
turn e
turn e
write p.s
turn e
turn e
turn e
write p.c

# The client handles both replies, and acknowledges them: behind the call that the server holds back.
turn d
turn d
turn d
turn d
turn d
turn d
ack p.c

# So the server never learns that there is room for its replies: whatever is tried, nothing moves.
write p.s
turn e
ack p.s
write p.c
turn d
turn d
ack p.c
call p.c echo_call(0)
turn e
turn e
",
    b"\
ok
ok
ok
ok
ok
ok
ok
accepted
written 1 of 1
accepted
written 1 of 1
accepted
written 1 of 1
accepted
full
ready p.s
handle p.s echo_call(1)
ready p.s
handle p.s echo_call(2)
ready p.s
handle p.s echo_call(3)
quiet p.s
ok
quiet p.c
written 1 of 1
accepted
written 1 of 1
accepted
written 1 of 1
accepted
full
ready p.s
handle p.s echo_call(4)
ready p.s
handle p.s echo_call(5)
ready p.s
handle p.s echo_call(6)
quiet p.s
ok
quiet p.c
written 1 of 1
accepted
written 1 of 1
accepted
written 1 of 1
accepted
full
ready p.s
handle p.s echo_call(7)
ready p.s
handle p.s echo_call(8)
ready p.s
handle p.s echo_call(9)
quiet p.s
ok
quiet p.c
written 1 of 1
accepted
written 1 of 1
accepted
written 1 of 1
accepted
full
ready p.s
handle p.s echo_call(10)
ready p.s
handle p.s echo_call(11)
ready p.s
handle p.s echo_call(12)
quiet p.s
ok
quiet p.c
written 1 of 1
accepted
written 1 of 1
accepted
written 1 of 1
accepted
full
ready p.s
handle p.s echo_call(13)
ready p.s
handle p.s echo_call(14)
ready p.s
handle p.s echo_call(15)
quiet p.s
ok
quiet p.c
written 1 of 1
accepted
written 1 of 1
accepted
written 1 of 1
accepted
full
ready p.s
handle p.s echo_call(16)
ready p.s
handle p.s echo_call(17)
ready p.s
full
ok
written 1 of 1
accepted
written 1 of 1
accepted
full
written 1 of 1
handle p.s echo_call(18)
ready p.s
full
written 1 of 1
handle p.s echo_call(19)
ready p.s
full
full
quiet p.c
ready p.c
handle p.c echo_response(1)
ready p.c
handle p.c echo_response(2)
quiet p.c
ok
full
full
nothing
full
quiet p.c
quiet p.c
nothing
refused E40
full
full
",
);

/// The one script.
pub const RING: &[Example] = &[Example(STUCK, Drawing(97, 149, 3704780212, 17759))];
