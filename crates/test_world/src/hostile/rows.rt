//! Scripts and their transcripts, worked out apart from this repository (`program` has them among others).

/// A script and its transcript.
#[derive(Clone, Copy)]
pub struct HostileScript {
    pub script: &'static [u8],
    pub transcript: &'static [u8],
}

/// Two circuits on one link.
pub const CIRCUITS: HostileScript = HostileScript {
    script: b"\
idl
interface i { message blob(string s); }
.
cores 2
link 0 1 8
disp d 0
disp e 1
export s e i
bind p d i s hop 0 1
bind q d i s hop 0 1
mwrite 0 1
mwrite 0 1
forward 1 0
forward 1 0
mwrite 1 0
mwrite 1 0
forward 0 1
forward 0 1
call p.c blob(\"aaaaaaaaaaaaaaaaaaaaaaaaaaaaaaaaaaaaaaaaaaaaaaaaa\")
call q.c blob(\"bbbbbbbbbbbbbbbbbbbbbbbbbbbbbbbbbbbbbbbbbbbbbbbbb\")
show p.c
show q.c
write p.c
write q.c
write p.c
write q.c
forward 1 0
forward 1 0
forward 1 0
forward 1 0
turn e
turn e
turn e
turn e
turn e
",
    transcript: b"\
ok
ok
ok
ok
ok
ok
ok
ok
written 1 of 1
written 1 of 1
opened p.s
opened q.s
written 1 of 1
written 1 of 1
opened p.c
opened q.c
accepted
accepted
0000000000000031 6161616161616161 6161616161616161 6161616161616161 6161616161616161 6161616161616161 6161616161616161 0002000100000003
0000000000000031 6262626262626262 6262626262626262 6262626262626262 6262626262626262 6262626262626262 6262626262626262 0002000300000003
written 1 of 2
written 1 of 2
written 2 of 2
written 2 of 2
forwarded
forwarded
forwarded
forwarded
part p.s
part q.s
handle p.s blob(\"aaaaaaaaaaaaaaaaaaaaaaaaaaaaaaaaaaaaaaaaaaaaaaaaa\")
handle q.s blob(\"bbbbbbbbbbbbbbbbbbbbbbbbbbbbbbbbbbbbbbbbbbbbbbbbb\")
nothing
",
};

/// A ring that fills.
pub const RING: HostileScript = HostileScript {
    script: b"\
idl
interface i { message ping(uint32 v); }
.
cores 2
disp d 0
disp e 1
export s e i
bind p d i s ump 4
call p.c ping(1)
write p.c
call p.c ping(2)
write p.c
call p.c ping(3)
write p.c
call p.c ping(4)
write p.c
turn e
turn e
ack p.s
write p.c
turn e
turn e
ack p.s
write p.c
turn d
turn d
call p.c ping(5)
show p.c
write p.c
",
    transcript: b"\
ok
ok
ok
ok
ok
ok
accepted
written 1 of 1
accepted
written 1 of 1
accepted
written 1 of 1
accepted
full
ready p.s
handle p.s ping(1)
nothing
full
ready p.s
handle p.s ping(2)
ok
written 1 of 1
quiet p.c
quiet p.c
accepted
0000000000000005 0000000000000000 0000000000000000 0000000000000000 0000000000000000 0000000000000000 0000000000000000 0001000000000002
written 1 of 1
",
};

/// Three types, one of them strings, in the order of the first plan.
pub const STRINGS: HostileScript = HostileScript {
    script: b"\
idl 1
interface i { message m(uint8 a, string s, uint16 b); }
.
disp d 0
disp e 0
export s e i
bind p d i s local 4
call p.c m(1, \"hi\", 5)
show p.c
write p.c
turn e
",
    transcript: b"\
ok
ok
ok
ok
ok
accepted
0000000000000001 0000000000000002 0000000000006968 0000000000000005 0000000000000000 0000000000000000 0000000000000000 0000000000000003
written 1 of 1
handle p.s m(1, \"hi\", 5)
",
};

/// Three bindings of one dispatcher: pending, polled, registered and deregistered.
pub const WAITSETS: HostileScript = HostileScript {
    script: b"\
idl
interface i { message ping(uint32 v); }
.
cores 2
disp a 0
disp c 0
disp b 1
export s a i
bind p b i s ump 4
bind q b i s ump 4
bind r c i s local 4
call r.c ping(1)
write r.c
call r.c ping(2)
write r.c
turn a
turn a
turn a
turn a
turn a
register r.s
deregister r.s
deregister r.s
call r.c ping(3)
write r.c
turn a
register r.s
turn a
",
    transcript: b"\
ok
ok
ok
ok
ok
ok
ok
ok
ok
accepted
written 1 of 1
accepted
written 1 of 1
handle r.s ping(1)
handle r.s ping(2)
quiet p.s
quiet q.s
quiet p.s
refused E50
ok
refused E51
accepted
written 1 of 1
quiet q.s
ok
handle r.s ping(3)
",
};

/// A reply by a rule.
pub const REPLIES: HostileScript = HostileScript {
    script: b"\
idl
interface i { rpc echo(in uint32 x, out uint32 y); }
.
disp d 0
disp e 0
export s e i
bind p d i s local 4
reply p.s echo_call echo_response
call p.c echo_call(9)
write p.c
turn e
show p.s
write p.s
turn d
",
    transcript: b"\
ok
ok
ok
ok
ok
ok
accepted
written 1 of 1
handle p.s echo_call(9)
0000000000000009 0000000000000000 0000000000000000 0000000000000000 0000000000000000 0000000000000000 0000000000000000 0000000000010003
written 1 of 1
handle p.c echo_response(9)
",
};
