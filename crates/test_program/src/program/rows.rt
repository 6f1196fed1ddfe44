//! Worked examples, each a script and its transcript, worked out apart from this repository: queues within a core, reply rules, waitsets, and
//! what is refused.

use crate::program::scripts::{ScriptRow, UnderBoth};

/// Those whose fragments both plans lay out alike.
pub const ROWS: &[UnderBoth] = &[
    UnderBoth(
        b"\
interface i { message ping(uint32 v); }
.
disp d 0
disp e 0
export s e i
bind p d i s local 4
call p.c ping(7)
show p.c
write p.c
turn e
turn e
",
        b"\
ok
ok
ok
ok
ok
accepted
0000000000000007 0000000000000000 0000000000000000 0000000000000000 0000000000000000 0000000000000000 0000000000000000 0000000000000003
written 1 of 1
handle p.s ping(7)
nothing
",
    ),
    UnderBoth(
        b"\
interface i { message nop(); }
.
disp d 0
disp e 0
export s e i
bind p d i s local 1
call p.c nop()
show p.c
write p.c
turn e
",
        b"\
ok
ok
ok
ok
ok
accepted
0000000000000000 0000000000000000 0000000000000000 0000000000000000 0000000000000000 0000000000000000 0000000000000000 0000000000000003
written 1 of 1
handle p.s nop()
",
    ),
    UnderBoth(
        b"\
interface i { typedef struct { uint8 a; uint64 b; } t; message m(t x[n]); }
.
disp d 0
disp e 0
export s e i
bind p d i s local 4
call p.c m([{1, 11}, {2, 12}, {3, 13}, {4, 14}, {5, 15}, {6, 16}, {7, 17}])
show p.c
write p.c
show p.c
write p.c
show p.c
",
        b"\
ok
ok
ok
ok
ok
accepted
0000000000000007 0000000000000001 000000000000000b 0000000000000002 000000000000000c 0000000000000003 000000000000000d 0000000000000003
written 1 of 3
0000000000000004 000000000000000e 0000000000000005 000000000000000f 0000000000000006 0000000000000010 0000000000000007 0000000000000001
written 2 of 3
0000000000000011 0000000000000000 0000000000000000 0000000000000000 0000000000000000 0000000000000000 0000000000000000 0000000000000001
",
    ),
    UnderBoth(
        b"\
interface i { message blob(string s); }
.
disp d 0
disp e 0
export s e i
bind p d i s local 4
call p.c blob(\"aaaaaaaaaaaaaaaaaaaaaaaaaaaaaaaaaaaaaaaaaaaaaaaaa\")
write p.c
call p.c blob(\"x\")
turn e
write p.c
call p.c blob(\"x\")
turn e
",
        b"\
ok
ok
ok
ok
ok
accepted
written 1 of 2
refused E40
part p.s
written 2 of 2
accepted
handle p.s blob(\"aaaaaaaaaaaaaaaaaaaaaaaaaaaaaaaaaaaaaaaaaaaaaaaaa\")
",
    ),
    UnderBoth(
        b"\
interface i { message ping(uint32 v); }
.
cores 2
disp a 0
disp c 0
disp b 1
export s a i
bind p b i s ump 4
bind q b i s ump 4
bind r c i s local 4
call r.c ping(1)
write r.c
call r.c ping(2)
write r.c
turn a
turn a
turn a
turn a
turn a
register r.s
deregister r.s
deregister r.s
call r.c ping(3)
write r.c
turn a
register r.s
turn a
",
        b"\
ok
ok
ok
ok
ok
ok
ok
ok
ok
accepted
written 1 of 1
accepted
written 1 of 1
handle r.s ping(1)
handle r.s ping(2)
quiet p.s
quiet q.s
quiet p.s
refused E50
ok
refused E51
accepted
written 1 of 1
quiet q.s
ok
handle r.s ping(3)
",
    ),
    UnderBoth(
        b"\
interface i { message m(cap c); }
.
",
        b"\
refused E14 at 24
",
    ),
    UnderBoth(
        b"\
interface i { message ping(uint32 v); }
.
disp d 0
disp e 0
export s e i
bind p d i s local 1
call p.c ping(4294967296)
call p.c ping(\"x\")
call p.c pong(1)
call p.c ping(7
call q.c ping(1)
write p.c
",
        b"\
ok
ok
ok
ok
ok
refused E42
refused E42
refused E41
refused E90
refused E92
nothing
",
    ),
    UnderBoth(
        b"\
interface i { rpc echo(in uint32 x, out uint32 y); }
.
disp d 0
disp e 0
export s e i
bind p d i s local 4
reply p.s echo_call echo_response
call p.c echo_call(9)
write p.c
turn e
show p.s
write p.s
turn d
",
        b"\
ok
ok
ok
ok
ok
ok
accepted
written 1 of 1
handle p.s echo_call(9)
0000000000000009 0000000000000000 0000000000000000 0000000000000000 0000000000000000 0000000000000000 0000000000000000 0000000000010003
written 1 of 1
handle p.c echo_response(9)
",
    ),
    UnderBoth(
        b"\
interface i { message ping(uint32 v); }
.
cores 3
link 0 1 4
disp d 0
disp e 2
export s e i
bind p d i s hop 0 1 2
mwrite 0 1
forward 1 0
mwrite 1 0
forward 0 1
call p.c ping(1)
",
        b"\
ok
ok
ok
ok
ok
ok
ok
written 1 of 1
ok
written 1 of 1
refused E73 p.c
refused E43
",
    ),
    UnderBoth(
        b"\
interface i { message m(uint64 x[n, 4096]); }
.
",
        b"\
refused E21 at 22
",
    ),
    UnderBoth(
        b"\
interface i { message m(uint64 x[n, 4095]); }
.
",
        b"\
ok
",
    ),
    UnderBoth(
        b"\
interface i { message m(uint64 a, uint64 b, uint64 c, uint64 d, uint64 e, uint64 f, uint64 g, uint64 h); }
.
disp d 0
disp e 0
export s e i
bind p d i s local 1
call p.c m(1, 2, 3, 4, 5, 6, 7, 8)
write p.c
show p.c
write p.c
turn e
write p.c
turn e
",
        b"\
ok
ok
ok
ok
ok
accepted
written 1 of 2
0000000000000008 0000000000000000 0000000000000000 0000000000000000 0000000000000000 0000000000000000 0000000000000000 0000000000000001
full
part p.s
written 2 of 2
handle p.s m(1, 2, 3, 4, 5, 6, 7, 8)
",
    ),
    UnderBoth(
        b"\
interface i { rpc echo(in uint32 x, out uint32 y); }
.
disp d 0
disp e 0
export s e i
bind p d i s local 32
reply p.s echo_call echo_response
call p.c echo_call(1)
write p.c
call p.c echo_call(2)
write p.c
call p.c echo_call(3)
write p.c
call p.c echo_call(4)
write p.c
call p.c echo_call(5)
write p.c
call p.c echo_call(6)
write p.c
call p.c echo_call(7)
write p.c
call p.c echo_call(8)
write p.c
call p.c echo_call(9)
write p.c
call p.c echo_call(10)
write p.c
call p.c echo_call(11)
write p.c
call p.c echo_call(12)
write p.c
call p.c echo_call(13)
write p.c
call p.c echo_call(14)
write p.c
call p.c echo_call(15)
write p.c
call p.c echo_call(16)
write p.c
call p.c echo_call(17)
write p.c
call p.c echo_call(18)
write p.c
turn e
turn e
turn e
turn e
turn e
turn e
turn e
turn e
turn e
turn e
turn e
turn e
turn e
turn e
turn e
turn e
turn e
turn e
write p.s
turn e
",
        b"\
ok
ok
ok
ok
ok
ok
accepted
written 1 of 1
accepted
written 1 of 1
accepted
written 1 of 1
accepted
written 1 of 1
accepted
written 1 of 1
accepted
written 1 of 1
accepted
written 1 of 1
accepted
written 1 of 1
accepted
written 1 of 1
accepted
written 1 of 1
accepted
written 1 of 1
accepted
written 1 of 1
accepted
written 1 of 1
accepted
written 1 of 1
accepted
written 1 of 1
accepted
written 1 of 1
accepted
written 1 of 1
accepted
written 1 of 1
handle p.s echo_call(1)
handle p.s echo_call(2)
handle p.s echo_call(3)
handle p.s echo_call(4)
handle p.s echo_call(5)
handle p.s echo_call(6)
handle p.s echo_call(7)
handle p.s echo_call(8)
handle p.s echo_call(9)
handle p.s echo_call(10)
handle p.s echo_call(11)
handle p.s echo_call(12)
handle p.s echo_call(13)
handle p.s echo_call(14)
handle p.s echo_call(15)
handle p.s echo_call(16)
handle p.s echo_call(17)
full
written 1 of 1
handle p.s echo_call(18)
",
    ),
];

/// Those whose fragments the two plans lay out otherwise.
pub const OF_ONE_PLAN: &[ScriptRow] = &[
    ScriptRow(
        b"\
idl 1
interface i { message m(uint8 a, string s, uint16 b); }
.
disp d 0
disp e 0
export s e i
bind p d i s local 4
call p.c m(1, \"hi\", 5)
show p.c
",
        b"\
ok
ok
ok
ok
ok
accepted
0000000000000001 0000000000000002 0000000000006968 0000000000000005 0000000000000000 0000000000000000 0000000000000000 0000000000000003
",
    ),
    ScriptRow(
        b"\
idl
interface i { message m(uint8 a, string s, uint16 b); }
.
disp d 0
disp e 0
export s e i
bind p d i s local 4
call p.c m(1, \"hi\", 5)
show p.c
",
        b"\
ok
ok
ok
ok
ok
accepted
0000000000010005 0000000000000002 0000000000006968 0000000000000000 0000000000000000 0000000000000000 0000000000000000 0000000000000003
",
    ),
    ScriptRow(
        b"\
idl 1
interface i { message m(int8 a, int64 b, uint8 c); }
.
disp d 0
disp e 0
export s e i
bind p d i s local 4
call p.c m(-128, -1, 255)
show p.c
",
        b"\
ok
ok
ok
ok
ok
accepted
0000000000000080 ffffffffffffffff 00000000000000ff 0000000000000000 0000000000000000 0000000000000000 0000000000000000 0000000000000003
",
    ),
    ScriptRow(
        b"\
idl
interface i { message m(int8 a, int64 b, uint8 c); }
.
disp d 0
disp e 0
export s e i
bind p d i s local 4
call p.c m(-128, -1, 255)
show p.c
",
        b"\
ok
ok
ok
ok
ok
accepted
ffffffffffffffff 000000000000ff80 0000000000000000 0000000000000000 0000000000000000 0000000000000000 0000000000000000 0000000000000003
",
    ),
];
