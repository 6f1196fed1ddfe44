//! The scripts of `examples/` and their transcripts, as they stand there: `examples/check` tells where they differ.

use crate::program::drawings::{Drawing, Example};
use crate::program::scripts::ScriptRow;

const CIRCUIT: ScriptRow = ScriptRow(
    b"\
# A circuit over three cores: the monitors open it by messages of their own, and then fragments are forwarded link by link.
idl
interface disk \"a block device on another core\" {
    message write(uint64 block, string data[256]);
    message done(uint64 block);
};
.
cores 3
link 0 1 8
link 1 2 4
disp fs 0
disp diskd 2
export disk diskd disk
bind p fs disk disk hop 0 1 2
# Nothing can be called before the circuit stands (E43).
call p.c write(7, \"early\")

# The opening: core 0's monitor asks core 1's, and that asks core 2's, which makes the server's end.
mwrite 0 1
forward 1 0
mwrite 1 2
forward 2 1
# The answer comes back the same way, and binds the client's end.
mwrite 2 1
forward 1 2
mwrite 1 0
forward 0 1

# A call of two fragments. Each is written on the first link, forwarded by core 1, and arrives at core 2.
call p.c write(7, \"the quick brown fox jumps over the lazy dog, and rests\")
show p.c
write p.c
write p.c
forward 1 0
forward 1 0
forward 1 0
forward 2 1
forward 2 1
turn diskd
turn diskd
turn diskd

# And one the other way.
call p.s done(7)
write p.s
forward 1 2
forward 0 1
turn fs

# Three calls more than the second link holds: core 1 leaves on the first link what it can't pass on.
call p.c write(8, \"a\")
write p.c
call p.c write(9, \"b\")
write p.c
call p.c write(10, \"c\")
write p.c
call p.c write(11, \"d\")
write p.c
forward 1 0
forward 1 0
forward 1 0
forward 1 0
# Core 2 takes what came, and tells core 1; then there is room again.
forward 2 1
forward 2 1
mack 2 1
forward 1 0
forward 1 0
forward 2 1
forward 2 1
turn diskd
turn diskd
turn diskd
turn diskd
",
    b"\
ok
ok
ok
ok
ok
ok
ok
ok
refused E43
written 1 of 1
ok
written 1 of 1
opened p.s
written 1 of 1
ok
written 1 of 1
opened p.c
accepted
0000000000000007 0000000000000036 6369757120656874 206e776f7262206b 706d756a20786f66 74207265766f2073 20797a616c206568 0001000100000003
written 1 of 2
written 2 of 2
forwarded
forwarded
nothing
forwarded
forwarded
part p.s
handle p.s write(7, \"the quick brown fox jumps over the lazy dog, and rests\")
nothing
accepted
written 1 of 1
forwarded
forwarded
handle p.c done(7)
accepted
written 1 of 1
accepted
written 1 of 1
accepted
written 1 of 1
accepted
written 1 of 1
forwarded
forwarded
forwarded
full
forwarded
forwarded
ok
forwarded
nothing
forwarded
forwarded
handle p.s write(8, \"a\")
handle p.s write(9, \"b\")
handle p.s write(10, \"c\")
handle p.s write(11, \"d\")
",
);

const ECHO: ScriptRow = ScriptRow(
    b"\
# An rpc that is answered by a reply rule: whatever the echo server is asked, it answers with the same number.
idl
interface echo \"a server that answers what it is asked\" {
    rpc echo(in uint32 number, out uint32 number_again);
    message log(string line[200]);
};
.
disp app 0
disp echod 0
export echo echod echo
bind p app echo echo local 4

# The rule: where p.s handles echo_call, it makes the call echo_response with the same arguments.
reply p.s echo_call echo_response
# The two messages have to have the same argument types (E42), and both have to be there (E41).
reply p.s echo_call log
reply p.s echo_call nothing

# One call there and back. The answer waits at p.s until it is written.
call p.c echo_call(9)
write p.c
turn echod
show p.s
write p.s
turn app

# Two questions, and then the answers: the second waits until the first is written.
call p.c echo_call(10)
write p.c
call p.c echo_call(11)
write p.c
turn echod
turn echod
write p.s
write p.s
write p.s
turn app
turn app
turn app

# A message without a rule is handled, and nothing is made of it.
call p.c log(\"two answers came\")
write p.c
turn echod
write p.s
",
    b"\
ok
ok
ok
ok
ok
ok
refused E42
refused E41
accepted
written 1 of 1
handle p.s echo_call(9)
0000000000000009 0000000000000000 0000000000000000 0000000000000000 0000000000000000 0000000000000000 0000000000000000 0000000000010003
written 1 of 1
handle p.c echo_response(9)
accepted
written 1 of 1
accepted
written 1 of 1
handle p.s echo_call(10)
handle p.s echo_call(11)
written 1 of 1
written 1 of 1
nothing
handle p.c echo_response(10)
handle p.c echo_response(11)
nothing
accepted
written 1 of 1
handle p.s log(\"two answers came\")
nothing
",
);

const HELLO: ScriptRow = ScriptRow(
    b"\
idl
interface i { message ping(uint32 v); }
.
disp d 0
disp e 0
export s e i
bind p d i s local 4
call p.c ping(7)
show p.c
write p.c
turn e
turn e
",
    b"\
ok
ok
ok
ok
ok
accepted
0000000000000007 0000000000000000 0000000000000000 0000000000000000 0000000000000000 0000000000000000 0000000000000000 0000000000000003
written 1 of 1
handle p.s ping(7)
nothing
",
);

const MEMORY: ScriptRow = ScriptRow(
    b"\
# the memory server of docs/SCRIPTS.md, and its client
idl
interface mem \"a memory server\" {
    rpc allocate(in uint8 bits, out errval err, out uint64 base);
    message free(uint8 bits, uint64 base);
    message limits(uint64 a, uint64 b, uint64 c, uint64 d,
                   uint64 e, uint64 f, uint64 g, uint64 h);
};
.
disp app 0
disp memd 0
export memory memd mem
bind p app mem memory local 1
turn memd
call p.c allocate_call(300)
call p.c allocate_call(12)
call p.c free(12, 4096)
write p.c
turn memd
call p.s allocate_response(0, 4096)
write p.s
turn app
call p.c free(12, 4096)
show p.c
write p.c
call p.c limits(1, 2, 3, 4, 5, 6, 7, 8)
write p.c
turn memd
write p.c
turn memd
show p.c
write p.c
turn memd
turn memd
ack p.c
",
    b"\
ok
ok
ok
ok
ok
nothing
refused E42
accepted
refused E40
written 1 of 1
handle p.s allocate_call(12)
accepted
written 1 of 1
handle p.c allocate_response(0, 4096)
accepted
0000000000001000 000000000000000c 0000000000000000 0000000000000000 0000000000000000 0000000000000000 0000000000000000 0000000000020003
written 1 of 1
accepted
full
handle p.s free(12, 4096)
written 1 of 2
part p.s
0000000000000008 0000000000000000 0000000000000000 0000000000000000 0000000000000000 0000000000000000 0000000000000000 0000000000030001
written 2 of 2
handle p.s limits(1, 2, 3, 4, 5, 6, 7, 8)
nothing
nothing
",
);

const NAMES: ScriptRow = ScriptRow(
    b"\
# A name service with two services: a memory server and a block device, each under a name of its own. A binding names the
# service, and the interface under which it wants to speak to it.
idl
interface mem \"a memory server\" {
    rpc allocate(in uint8 bits, out errval err, out uint64 base);
    message free(uint8 bits, uint64 base);
};
.
idl
interface block \"a block device\" {
    rpc read(in uint64 block, out errval err, out uint8 bytes[len, 512]);
    message flush();
};
.
disp app 0
disp memd 0
disp diskd 0

export memory memd mem
export disk diskd block
# A name is given once (E71), and only for a dispatcher and an interface that are there (E92).
export disk memd mem
export tape taped block

bind m app mem memory local 4
bind d app block disk local 8
# There is no such service (E70), and this one has another interface (E72).
bind t app block tape local 4
bind x app mem disk local 4
# A binding's name is given once, too.
bind m app mem memory local 4

call m.c allocate_call(12)
call d.c read_call(7)
write m.c
write d.c
turn memd
turn diskd
call m.s allocate_response(0, 4096)
call d.s read_response(0, [104, 101, 108, 108, 111])
write d.s
write m.s
# Whose fragment came first is handled first.
turn app
turn app
turn app
# What one interface says, another doesn't.
call m.c flush()
",
    b"\
ok
ok
ok
ok
ok
ok
ok
refused E71
refused E92
ok
ok
refused E70
refused E72
refused E92
accepted
accepted
written 1 of 1
written 1 of 1
handle m.s allocate_call(12)
handle d.s read_call(7)
accepted
accepted
written 1 of 1
written 1 of 1
handle d.c read_response(0, [104, 101, 108, 108, 111])
handle m.c allocate_response(0, 4096)
nothing
refused E41
",
);

const REFUSED: ScriptRow = ScriptRow(
    b"\
# A route that is refused: the first link is there, so the client's monitor asks; the next core has no link to go on by.
idl
interface clock \"a clock\" {
    rpc now(out uint64 ticks);
};
.
cores 3
link 0 1 4
disp app 0
disp clockd 2
export clock clockd clock

# What the client's monitor can see, it refuses at once: a core that isn't there, a route that ends elsewhere, a core that
# stands twice, no link to the second core (all E73).
bind p app clock clock hop 0 1 7
bind p app clock clock hop 0 1
bind p app clock clock hop 0 1 0 2
bind p app clock clock hop 0 2
bind p app clock clock local 4

# What only another monitor can see comes back as an answer.
bind p app clock clock hop 0 1 2
show p.c
mwrite 0 1
forward 1 0
mwrite 1 0
forward 0 1
# The client's end stays unbound for good, and the name stays given.
call p.c now_call()
write p.c
register p.c
bind p app clock clock hop 0 1 2

# With the link that was missing, a new binding is opened.
link 1 2 4
bind q app clock clock hop 0 1 2
mwrite 0 1
forward 1 0
mwrite 1 2
forward 2 1
mwrite 2 1
forward 1 2
mwrite 1 0
forward 0 1
call q.c now_call()
",
    b"\
ok
ok
ok
ok
ok
ok
refused E73
refused E73
refused E73
refused E73
refused E73
ok
refused E43
written 1 of 1
ok
written 1 of 1
refused E73 p.c
refused E43
refused E43
refused E43
refused E92
ok
ok
written 1 of 1
ok
written 1 of 1
opened q.s
written 1 of 1
ok
written 1 of 1
opened q.c
accepted
",
);

const RING: ScriptRow = ScriptRow(
    b"\
# A ring between two cores that fills and is acknowledged. Of its four slots one direction can use three here: each put
# wants two free slots, so that the last is always free for an acknowledgement.
idl
interface serial \"a serial line\" {
    message output(uint8 c);
    message input(uint8 c);
};
.
cores 2
disp term 0
disp driver 1
export uart driver serial
bind p term serial uart ump 4
# Queues join the dispatchers of one core, rings those of two (E73); a ring has 4 to 1,024 slots, a power of two (E32).
bind q term serial uart local 4
bind q term serial uart ump 3

# Three characters fit, the fourth doesn't.
call p.c output(104)
write p.c
call p.c output(101)
write p.c
call p.c output(108)
write p.c
call p.c output(108)
show p.c
write p.c

# A ring's channel is polled: one turn finds that a fragment stands there, the next takes it.
turn driver
turn driver
# One was read. It is too early to acknowledge that: half of the slots have to be free by it.
ack p.s
write p.c
turn driver
turn driver
ack p.s
# The next write that finds too little room looks for what the other side told, and has two slots more.
write p.c
# An acknowledgement stands on the way back, where a turn of the other dispatcher finds and takes it. It is no call: the
# answer is the same as that of the next turn, which finds nothing.
turn term
turn term

# Whatever is written the other way tells as well what was read: then no acknowledgement is due.
turn driver
turn driver
turn driver
turn driver
call p.s input(13)
show p.s
write p.s
ack p.s
turn term
turn term
",
    b"\
ok
ok
ok
ok
ok
ok
refused E73
refused E32
accepted
written 1 of 1
accepted
written 1 of 1
accepted
written 1 of 1
accepted
000000000000006c 0000000000000000 0000000000000000 0000000000000000 0000000000000000 0000000000000000 0000000000000000 0000000000000003
full
ready p.s
handle p.s output(104)
nothing
full
ready p.s
handle p.s output(101)
ok
written 1 of 1
quiet p.c
quiet p.c
ready p.s
handle p.s output(108)
ready p.s
handle p.s output(108)
accepted
000000000000000d 0000000000000000 0000000000000000 0000000000000000 0000000000000000 0000000000000000 0000000000000000 0004000000010003
written 1 of 1
nothing
ready p.c
handle p.c input(13)
",
);

const STUCK: ScriptRow = ScriptRow(
    b"\
# A circuit with calls both ways that sticks, since its links have only four slots and both ends call without
# waiting. With eight slots the same lines go through. How to choose N: docs/WIRE.md, \"Choosing N\".
idl
interface chat \"two sides that both talk\" {
    message say(uint32 n);
};
.
cores 3
link 0 1 4
link 1 2 4
disp a 0
disp b 2
export chat b chat
bind p a chat chat hop 0 1 2
mwrite 0 1
forward 1 0
mwrite 1 2
forward 2 1
mwrite 2 1
forward 1 2
mwrite 1 0
forward 0 1

# Both sides talk; core 1 passes on two calls each way, and acknowledges what came.
call p.c say(1)
write p.c
call p.c say(2)
write p.c
call p.c say(3)
write p.c
call p.s say(101)
write p.s
call p.s say(102)
write p.s
forward 1 0
call p.s say(103)
write p.s
forward 1 0
mack 1 0
forward 1 2
forward 1 2
mack 1 2

# Cores 0 and 2 take all that comes, handle it, and acknowledge it.
forward 0 1
forward 0 1
forward 0 1
mack 0 1
forward 2 1
forward 2 1
forward 2 1
mack 2 1
turn a
turn a
turn b
turn b

# Now nothing stands before core 0 or core 2, and still core 1 can't pass on either of the two calls that are left. To find
# room it looks for what it is told at the first fragment that it hasn't taken; that is a call, written before the other side
# took anything, and the acknowledgements stand behind it. So it stays for good, whatever is tried.
forward 1 0
forward 1 2
mack 1 0
mack 1 2
mack 0 1
mack 2 1
forward 0 1
forward 2 1
forward 1 0
forward 1 2
",
    b"\
ok
ok
ok
ok
ok
ok
ok
ok
written 1 of 1
ok
written 1 of 1
opened p.s
written 1 of 1
ok
written 1 of 1
opened p.c
accepted
written 1 of 1
accepted
written 1 of 1
accepted
written 1 of 1
accepted
written 1 of 1
accepted
written 1 of 1
forwarded
accepted
written 1 of 1
forwarded
ok
forwarded
forwarded
ok
ok
forwarded
forwarded
ok
forwarded
forwarded
ok
ok
handle p.c say(101)
handle p.c say(102)
handle p.s say(1)
handle p.s say(2)
full
full
nothing
nothing
nothing
nothing
nothing
nothing
full
full
",
);

/// Those that call in turn.
pub const CALLS: &[Example] = &[
    Example(ECHO, Drawing(0, 0, 4058279369, 14487)),
    Example(HELLO, Drawing(0, 0, 662904997, 6135)),
    Example(MEMORY, Drawing(0, 0, 2321216848, 12182)),
    Example(NAMES, Drawing(0, 0, 2081026271, 13909)),
];

/// Those of links and rings.
pub const LINKS: &[Example] = &[
    Example(CIRCUIT, Drawing(0, 0, 1017331811, 25274)),
    Example(REFUSED, Drawing(0, 0, 4230324452, 15059)),
];

pub const RINGS: &[Example] = &[
    Example(RING, Drawing(0, 0, 1313997335, 17366)),
    Example(STUCK, Drawing(0, 0, 351664352, 23550)),
];
