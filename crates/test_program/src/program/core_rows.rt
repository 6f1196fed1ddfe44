//! Worked examples of several cores, each a script and its transcript, worked out apart from this repository: rings that fill and are
//! acknowledged, circuits of two and three cores.

use crate::program::scripts::UnderBoth;

pub const ROWS: &[UnderBoth] = &[
    UnderBoth(
        b"\
interface i { message ping(uint32 v); }
.
cores 2
disp d 0
disp e 1
export s e i
bind p d i s ump 4
call p.c ping(1)
write p.c
call p.c ping(2)
write p.c
call p.c ping(3)
write p.c
call p.c ping(4)
write p.c
turn e
turn e
ack p.s
write p.c
turn e
turn e
ack p.s
write p.c
turn d
turn d
call p.c ping(5)
show p.c
write p.c
",
        b"\
ok
ok
ok
ok
ok
ok
accepted
written 1 of 1
accepted
written 1 of 1
accepted
written 1 of 1
accepted
full
ready p.s
handle p.s ping(1)
nothing
full
ready p.s
handle p.s ping(2)
ok
written 1 of 1
quiet p.c
quiet p.c
accepted
0000000000000005 0000000000000000 0000000000000000 0000000000000000 0000000000000000 0000000000000000 0000000000000000 0001000000000002
written 1 of 1
",
    ),
    UnderBoth(
        b"\
interface i { message ping(uint32 v); }
.
cores 2
disp d 0
disp e 1
export s e i
bind p d i s ump 4
call p.c ping(1)
show p.c
write p.c
turn e
turn e
ack p.s
call p.c ping(2)
show p.c
write p.c
turn e
turn e
ack p.s
call p.c ping(3)
show p.c
write p.c
turn e
turn e
ack p.s
call p.c ping(4)
show p.c
write p.c
turn e
turn e
ack p.s
call p.c ping(5)
show p.c
write p.c
turn e
turn e
ack p.s
call p.c ping(6)
write p.c
turn d
write p.c
",
        b"\
ok
ok
ok
ok
ok
ok
accepted
0000000000000001 0000000000000000 0000000000000000 0000000000000000 0000000000000000 0000000000000000 0000000000000000 0000000000000003
written 1 of 1
ready p.s
handle p.s ping(1)
nothing
accepted
0000000000000002 0000000000000000 0000000000000000 0000000000000000 0000000000000000 0000000000000000 0000000000000000 0000000000000003
written 1 of 1
ready p.s
handle p.s ping(2)
ok
accepted
0000000000000003 0000000000000000 0000000000000000 0000000000000000 0000000000000000 0000000000000000 0000000000000000 0000000000000003
written 1 of 1
ready p.s
handle p.s ping(3)
nothing
accepted
0000000000000004 0000000000000000 0000000000000000 0000000000000000 0000000000000000 0000000000000000 0000000000000000 0000000000000003
written 1 of 1
ready p.s
handle p.s ping(4)
ok
accepted
0000000000000005 0000000000000000 0000000000000000 0000000000000000 0000000000000000 0000000000000000 0000000000000000 0000000000000002
written 1 of 1
ready p.s
handle p.s ping(5)
nothing
accepted
full
quiet p.c
written 1 of 1
",
    ),
    UnderBoth(
        b"\
interface i { message ping(uint32 v); }
.
cores 3
link 0 1 4
link 1 2 4
disp d 0
disp e 2
export s e i
bind p d i s hop 0 1 2
mwrite 0 1
forward 1 0
mwrite 1 2
forward 2 1
mack 2 1
mwrite 2 1
forward 1 2
mwrite 1 0
forward 0 1
call p.c ping(1)
write p.c
call p.c ping(2)
write p.c
call p.c ping(3)
write p.c
forward 1 0
forward 1 0
forward 1 0
mack 1 0
call p.c ping(4)
write p.c
forward 1 0
forward 2 1
forward 2 1
mack 2 1
forward 1 0
forward 1 2
",
        b"\
ok
ok
ok
ok
ok
ok
ok
ok
written 1 of 1
ok
written 1 of 1
opened p.s
nothing
written 1 of 1
ok
written 1 of 1
opened p.c
accepted
written 1 of 1
accepted
written 1 of 1
accepted
written 1 of 1
forwarded
forwarded
forwarded
ok
accepted
written 1 of 1
full
forwarded
forwarded
ok
forwarded
ok
",
    ),
    UnderBoth(
        b"\
interface i { message blob(string s); }
.
cores 2
link 0 1 8
disp d 0
disp e 1
export s e i
bind p d i s hop 0 1
bind q d i s hop 0 1
mwrite 0 1
mwrite 0 1
forward 1 0
forward 1 0
mwrite 1 0
mwrite 1 0
forward 0 1
forward 0 1
call p.c blob(\"aaaaaaaaaaaaaaaaaaaaaaaaaaaaaaaaaaaaaaaaaaaaaaaaa\")
call q.c blob(\"bbbbbbbbbbbbbbbbbbbbbbbbbbbbbbbbbbbbbbbbbbbbbbbbb\")
show p.c
show q.c
write p.c
write q.c
write p.c
write q.c
forward 1 0
forward 1 0
forward 1 0
forward 1 0
turn e
turn e
turn e
turn e
turn e
",
        b"\
ok
ok
ok
ok
ok
ok
ok
ok
written 1 of 1
written 1 of 1
opened p.s
opened q.s
written 1 of 1
written 1 of 1
opened p.c
opened q.c
accepted
accepted
0000000000000031 6161616161616161 6161616161616161 6161616161616161 6161616161616161 6161616161616161 6161616161616161 0002000100000003
0000000000000031 6262626262626262 6262626262626262 6262626262626262 6262626262626262 6262626262626262 6262626262626262 0002000300000003
written 1 of 2
written 1 of 2
written 2 of 2
written 2 of 2
forwarded
forwarded
forwarded
forwarded
part p.s
part q.s
handle p.s blob(\"aaaaaaaaaaaaaaaaaaaaaaaaaaaaaaaaaaaaaaaaaaaaaaaaa\")
handle q.s blob(\"bbbbbbbbbbbbbbbbbbbbbbbbbbbbbbbbbbbbbbbbbbbbbbbbb\")
nothing
",
    ),
];
