//! The script of `examples/` in which a binding within a core with reply rules sticks, as it stands there.

use crate::program::drawings::{Drawing, Example};
use crate::program::scripts::ScriptRow;

const STUCK: ScriptRow = ScriptRow(
    b"\
# A binding within a core that sticks, with reply rules at both ends. An end at which 16 replies wait takes
# nothing before one is written, and here both queues are full of what both ends hold back. How to choose N:
# docs/WIRE.md, \"Choosing N\".
idl
interface i { message m(string s[4000]); message r(string s[4000]); }
.
disp d 0
disp e 0
export s e i
bind p d i s local 16
reply p.s m m
reply p.c m m

# The client fills its queue, and the 17 places of the server for replies: one under way, and 16 that wait.
call p.c m(\"x\")
write p.c
call p.c m(\"x\")
write p.c
call p.c m(\"x\")
write p.c
call p.c m(\"x\")
write p.c
call p.c m(\"x\")
write p.c
call p.c m(\"x\")
write p.c
call p.c m(\"x\")
write p.c
call p.c m(\"x\")
write p.c
call p.c m(\"x\")
write p.c
call p.c m(\"x\")
write p.c
call p.c m(\"x\")
write p.c
call p.c m(\"x\")
write p.c
call p.c m(\"x\")
write p.c
call p.c m(\"x\")
write p.c
call p.c m(\"x\")
write p.c
call p.c m(\"x\")
write p.c
call p.c m(\"x\")
write p.c
turn e
write p.c
call p.c m(\"x\")
write p.c
turn e
write p.c
call p.c m(\"x\")
write p.c
turn e
write p.c
call p.c m(\"x\")
write p.c
turn e
write p.c
call p.c m(\"x\")
write p.c
turn e
write p.c
call p.c m(\"x\")
write p.c
turn e
write p.c
call p.c m(\"x\")
write p.c
turn e
write p.c
call p.c m(\"x\")
write p.c
turn e
write p.c
call p.c m(\"x\")
write p.c
turn e
write p.c
call p.c m(\"x\")
write p.c
turn e
write p.c
call p.c m(\"x\")
write p.c
turn e
write p.c
call p.c m(\"x\")
write p.c
turn e
write p.c
call p.c m(\"x\")
write p.c
turn e
write p.c
call p.c m(\"x\")
write p.c
turn e
write p.c
call p.c m(\"x\")
write p.c
turn e
write p.c
call p.c m(\"x\")
write p.c
turn e
write p.c
call p.c m(\"x\")
write p.c
turn e
write p.c
call p.c m(\"x\")
write p.c

# The server takes nothing. Each reply that it writes makes room for one call more: then its queue is full.
turn e
write p.s
write p.c
turn e
write p.c
call p.c m(\"x\")
write p.c
turn e
write p.s
write p.c
turn e
write p.c
call p.c m(\"x\")
write p.c
turn e
write p.s
write p.c
turn e
write p.c
call p.c m(\"x\")
write p.c
turn e
write p.s
write p.c
turn e
write p.c
call p.c m(\"x\")
write p.c
turn e
write p.s
write p.c
turn e
write p.c
call p.c m(\"x\")
write p.c
turn e
write p.s
write p.c
turn e
write p.c
call p.c m(\"x\")
write p.c
turn e
write p.s
write p.c
turn e
write p.c
call p.c m(\"x\")
write p.c
turn e
write p.s
write p.c
turn e
write p.c
call p.c m(\"x\")
write p.c
turn e
write p.s
write p.c
turn e
write p.c
call p.c m(\"x\")
write p.c
turn e
write p.s
write p.c
turn e
write p.c
call p.c m(\"x\")
write p.c
turn e
write p.s
write p.c
turn e
write p.c
call p.c m(\"x\")
write p.c
turn e
write p.s
write p.c
turn e
write p.c
call p.c m(\"x\")
write p.c
turn e
write p.s
write p.c
turn e
write p.c
call p.c m(\"x\")
write p.c
turn e
write p.s
write p.c
turn e
write p.c
call p.c m(\"x\")
write p.c
turn e
write p.s
write p.c
turn e
write p.c
call p.c m(\"x\")
write p.c
turn e
write p.s
write p.c
turn e
write p.c

# The client calls once more, in 17 fragments. While that call is under way, replies to what it takes wait.
call p.c m(\"yyyyyyyyyyyyyyyyyyyyyyyyyyyyyyyyyyyyyyyyyyyyyyyyyyyyyyyyyyyyyyyyyyyyyyyyyyyyyyyyyyyyyyy\
yyyyyyyyyyyyyyyyyyyyyyyyyyyyyyyyyyyyyyyyyyyyyyyyyyyyyyyyyyyyyyyyyyyyyyyyyyyyyyyyyyyyyyyyyyyyyyyyyyyy\
yyyyyyyyyyyyyyyyyyyyyyyyyyyyyyyyyyyyyyyyyyyyyyyyyyyyyyyyyyyyyyyyyyyyyyyyyyyyyyyyyyyyyyyyyyyyyyyyyyyy\
yyyyyyyyyyyyyyyyyyyyyyyyyyyyyyyyyyyyyyyyyyyyyyyyyyyyyyyyyyyyyyyyyyyyyyyyyyyyyyyyyyyyyyyyyyyyyyyyyyyy\
yyyyyyyyyyyyyyyyyyyyyyyyyyyyyyyyyyyyyyyyyyyyyyyyyyyyyyyyyyyyyyyyyyyyyyyyyyyyyyyyyyyyyyyyyyyyyyyyyyyy\
yyyyyyyyyyyyyyyyyyyyyyyyyyyyyyyyyyyyyyyyyyyyyyyyyyyyyyyyyyyyyyyyyyyyyyyyyyyyyyyyyyyyyyyyyyyyyyyyyyyy\
yyyyyyyyyyyyyyyyyyyyyyyyyyyyyyyyyyyyyyyyyyyyyyyyyyyyyyyyyyyyyyyyyyyyyyyyyyyyyyyyyyyyyyyyyyyyyyyyyyyy\
yyyyyyyyyyyyyyyyyyyyyyyyyyyyyyyyyyyyyyyyyyyyyyyyyyyyyyyyyyyyyyyyyyyyyyyyyyyyyyyyyyyyyyyyyyyyyyyyyyyy\
yyyyyyyyyyyyyyyyyyyyyyyyyyyyyyyyyyyyyyyyyyyyyyyyyyyyyyyyyyyyyyyyyyyyyyyyyyyyyyyyyyyyyyyyyyyyyyyyyyyy\
yyyyyyyyyyyyyyyyyyyyyyyyyyyyyyyyyyyyyyyyyyyyyyyyyyyyyyyyy\")
turn d
turn d
turn d
turn d
turn d
turn d
turn d
turn d
turn d
turn d
turn d
turn d
turn d
turn d
turn d
turn d
turn d

# The server writes 16 replies and takes 16 calls: its places are full again, and so is its queue.
write p.s
write p.s
write p.s
write p.s
write p.s
write p.s
write p.s
write p.s
write p.s
write p.s
write p.s
write p.s
write p.s
write p.s
write p.s
write p.s
write p.s
turn e
turn e
turn e
turn e
turn e
turn e
turn e
turn e
turn e
turn e
turn e
turn e
turn e
turn e
turn e
turn e
turn e

# The client writes 16 fragments of its long call into the places of those.
write p.c
write p.c
write p.c
write p.c
write p.c
write p.c
write p.c
write p.c
write p.c
write p.c
write p.c
write p.c
write p.c
write p.c
write p.c
write p.c
write p.c

# Both queues are full, and neither end takes anything: whatever is tried, nothing moves.
write p.s
turn d
turn e
turn d
turn e
",
    b"\
ok
ok
ok
ok
ok
ok
ok
accepted
written 1 of 1
accepted
written 1 of 1
accepted
written 1 of 1
accepted
written 1 of 1
accepted
written 1 of 1
accepted
written 1 of 1
accepted
written 1 of 1
accepted
written 1 of 1
accepted
written 1 of 1
accepted
written 1 of 1
accepted
written 1 of 1
accepted
written 1 of 1
accepted
written 1 of 1
accepted
written 1 of 1
accepted
written 1 of 1
accepted
written 1 of 1
accepted
full
handle p.s m(\"x\")
written 1 of 1
accepted
full
handle p.s m(\"x\")
written 1 of 1
accepted
full
handle p.s m(\"x\")
written 1 of 1
accepted
full
handle p.s m(\"x\")
written 1 of 1
accepted
full
handle p.s m(\"x\")
written 1 of 1
accepted
full
handle p.s m(\"x\")
written 1 of 1
accepted
full
handle p.s m(\"x\")
written 1 of 1
accepted
full
handle p.s m(\"x\")
written 1 of 1
accepted
full
handle p.s m(\"x\")
written 1 of 1
accepted
full
handle p.s m(\"x\")
written 1 of 1
accepted
full
handle p.s m(\"x\")
written 1 of 1
accepted
full
handle p.s m(\"x\")
written 1 of 1
accepted
full
handle p.s m(\"x\")
written 1 of 1
accepted
full
handle p.s m(\"x\")
written 1 of 1
accepted
full
handle p.s m(\"x\")
written 1 of 1
accepted
full
handle p.s m(\"x\")
written 1 of 1
accepted
full
handle p.s m(\"x\")
written 1 of 1
accepted
full
full
written 1 of 1
full
handle p.s m(\"x\")
written 1 of 1
accepted
full
full
written 1 of 1
full
handle p.s m(\"x\")
written 1 of 1
accepted
full
full
written 1 of 1
full
handle p.s m(\"x\")
written 1 of 1
accepted
full
full
written 1 of 1
full
handle p.s m(\"x\")
written 1 of 1
accepted
full
full
written 1 of 1
full
handle p.s m(\"x\")
written 1 of 1
accepted
full
full
written 1 of 1
full
handle p.s m(\"x\")
written 1 of 1
accepted
full
full
written 1 of 1
full
handle p.s m(\"x\")
written 1 of 1
accepted
full
full
written 1 of 1
full
handle p.s m(\"x\")
written 1 of 1
accepted
full
full
written 1 of 1
full
handle p.s m(\"x\")
written 1 of 1
accepted
full
full
written 1 of 1
full
handle p.s m(\"x\")
written 1 of 1
accepted
full
full
written 1 of 1
full
handle p.s m(\"x\")
written 1 of 1
accepted
full
full
written 1 of 1
full
handle p.s m(\"x\")
written 1 of 1
accepted
full
full
written 1 of 1
full
handle p.s m(\"x\")
written 1 of 1
accepted
full
full
written 1 of 1
full
handle p.s m(\"x\")
written 1 of 1
accepted
full
full
written 1 of 1
full
handle p.s m(\"x\")
written 1 of 1
accepted
full
full
written 1 of 1
full
handle p.s m(\"x\")
written 1 of 1
accepted
handle p.c m(\"x\")
handle p.c m(\"x\")
handle p.c m(\"x\")
handle p.c m(\"x\")
handle p.c m(\"x\")
handle p.c m(\"x\")
handle p.c m(\"x\")
handle p.c m(\"x\")
handle p.c m(\"x\")
handle p.c m(\"x\")
handle p.c m(\"x\")
handle p.c m(\"x\")
handle p.c m(\"x\")
handle p.c m(\"x\")
handle p.c m(\"x\")
handle p.c m(\"x\")
nothing
written 1 of 1
written 1 of 1
written 1 of 1
written 1 of 1
written 1 of 1
written 1 of 1
written 1 of 1
written 1 of 1
written 1 of 1
written 1 of 1
written 1 of 1
written 1 of 1
written 1 of 1
written 1 of 1
written 1 of 1
written 1 of 1
full
handle p.s m(\"x\")
handle p.s m(\"x\")
handle p.s m(\"x\")
handle p.s m(\"x\")
handle p.s m(\"x\")
handle p.s m(\"x\")
handle p.s m(\"x\")
handle p.s m(\"x\")
handle p.s m(\"x\")
handle p.s m(\"x\")
handle p.s m(\"x\")
handle p.s m(\"x\")
handle p.s m(\"x\")
handle p.s m(\"x\")
handle p.s m(\"x\")
handle p.s m(\"x\")
nothing
written 1 of 17
written 2 of 17
written 3 of 17
written 4 of 17
written 5 of 17
written 6 of 17
written 7 of 17
written 8 of 17
written 9 of 17
written 10 of 17
written 11 of 17
written 12 of 17
written 13 of 17
written 14 of 17
written 15 of 17
written 16 of 17
full
full
full
full
full
full
",
);

/// The one script.
pub const QUEUE: &[Example] = &[Example(STUCK, Drawing(280, 310, 3036537117, 16218))];
