//! `cores`, by whole runs: words and a file in; standard output, standard error and a status out. The files and
//! reports are those of `examples`.

use crate::commands::{OneFile, go, into};
use fl_cores::{CoresEnd, CoresFault};
use flounder_commands::finish;
use flounder_run::{outcome_of, tell_no_report};
use std::io;

// More turns than any of these runs takes.
const MANY: &str = "1000000000000";

const CALLS: &[u8] = b"\
# turns 2: one core, on which a client calls a service. The third call would take a third turn.
idl
interface i { message ping(uint32 v); }
.
disp d 0
disp e 0
export s e i
bind p d i s local 4
call p.c ping(1)
call p.c ping(2)
call p.c ping(3)
";

const CALLS_REPORT: &[u8] = b"\
handle p.s ping(1)
handle p.s ping(2)
turns out
";

const DISK: &[u8] = b"\
# turns 1000000000000: a disk on core 0, a file system on core 1 beside it, and a pager two links away, on core 2
idl
interface block \"a block device\" {
    message write(uint32 sector, string data[512]);
    rpc flush(in uint32 volume, out uint32 done);
};
.
cores 3
link 0 1 8
link 1 2 8
disp disk 0
disp files 1
disp pager 2
export blocks disk block
bind f files block blocks ump 8
bind p pager block blocks hop 2 1 0

# each flush is answered
reply f.s flush_call flush_response

call f.c write(7, \"a line of a file that is longer than one fragment, which is one cache line\")
call f.c flush_call(1)
call f.c write(8, \"\")
call f.c flush_call(1)
call p.c write(4096, \"\\x01\\xff\")
call p.c write(4097, \"a page goes over two links, in as many fragments as it takes\")
";

const DISK_REPORT: &[u8] = b"\
handle f.c flush_response(1)
handle f.c flush_response(1)
handle f.s write(7, \"a line of a file that is longer than one fragment, which is one cache line\")
handle f.s flush_call(1)
handle f.s write(8, \"\")
handle f.s flush_call(1)
handle p.s write(4096, \"\\x01\\xff\")
handle p.s write(4097, \"a page goes over two links, in as many fragments as it takes\")
complete
";

const ECHO: &[u8] = b"\
# turns 1000000000000: two cores. The service's end replies to each call by a rule.
idl
interface i { rpc echo(in uint32 x, out uint32 y); }
.
cores 2
disp d 0
disp e 1
export s e i
bind p d i s ump 4
reply p.s echo_call echo_response
call p.c echo_call(1)
call p.c echo_call(2)
call p.c echo_call(3)
";

const ECHO_REPORT: &[u8] = b"\
handle p.c echo_response(1)
handle p.c echo_response(2)
handle p.c echo_response(3)
handle p.s echo_call(1)
handle p.s echo_call(2)
handle p.s echo_call(3)
complete
";

const HOPS: &[u8] = b"\
# turns 1000000000000: the circuit of p goes over the links from 0 to 1 and from 1 to 2; that of q can't go on from 1 to 3.
idl
interface i { message ping(uint32 v); }
.
cores 4
link 0 1 8
link 1 2 8
disp d 0
disp e 2
disp f 3
export s e i
export t f i
bind p d i s hop 0 1 2
bind q d i t hop 0 1 3
call p.c ping(1)
call p.c ping(2)
call p.s ping(3)
";

const HOPS_REPORT: &[u8] = b"\
handle p.c ping(3)
handle p.s ping(1)
handle p.s ping(2)
refused E73 q.c
complete
";

const RACE: &[u8] = b"\
# turns 1000000000000: two cores write to a log on a third. Its report is always the same; scripts of its runs tell which line came first.
idl
interface log \"a log of several cores\" { message line(string text[100]); }
.
cores 3
disp app 0
disp shell 1
disp logd 2
export log logd log
bind p app log log ump 4
bind q shell log log ump 4
call p.c line(\"the app has started\")
call q.c line(\"the shell has started\")
";

const RACE_REPORT: &[u8] = b"\
handle p.s line(\"the app has started\")
handle q.s line(\"the shell has started\")
complete
";

// Bindings are told in byte order of their names: B, ab, b.
const NAMES: &[u8] = b"\
idl
interface i { message a(uint32 v); message b(string s); }
.
disp d 0
disp e 0
export s e i
bind b d i s local 4
bind ab d i s local 4
bind B d i s local 4
call b.c a(0)
call ab.c a(1)
call ab.s a(10)
call B.s b(\"x\\\"\\xff\")
";

const NAMES_REPORT: &[u8] = b"\
handle B.c b(\"x\\\"\\xff\")
handle ab.c a(10)
handle ab.s a(1)
handle b.s a(0)
complete
";

const WRONG: &[u8] = b"\
# turns 8: an end that has a reply rule makes no calls of its own
idl
interface i { rpc echo(in uint32 x, out uint32 y); }
.
disp d 0
disp e 0
export s e i
bind p d i s local 4
reply p.s echo_call echo_response
call p.c echo_call(1)
call p.s echo_response(2)
";

const WRONG_REPORT: &[u8] = b"\
line 11 refused E44
";

const ALL_CALLS: &[u8] = b"\
handle p.s ping(1)
handle p.s ping(2)
handle p.s ping(3)
complete
";

const AFTER_2: &[u8] =
    b"a core had not finished when its turns (2) were used up; docs/CORES.md says how to choose the number\n";

const LINE_REFUSED: &[u8] =
    b"x: nothing was run, since a line is refused; docs/FAULTS.md says of its fault what to do\n";

const LEFT_0: &[u8] = b"\
a core had not finished when its turns (0) were used up; docs/CORES.md says how to choose the number
p.s, on core 0, handled 0 of the 3 calls that p.c, on core 0, was to make
";

const LEFT_2: &[u8] = b"\
a core had not finished when its turns (2) were used up; docs/CORES.md says how to choose the number
p.s, on core 0, handled 2 of the 3 calls that p.c, on core 0, was to make
";

const WRONG_RULE: &[u8] = b"\
x: nothing was run, since a line is refused; docs/FAULTS.md says of its fault what to do
x:11: E44: one end of a binding makes calls, and rules answer at the other
    call p.s echo_response(2)
help: give an end calls or rules, and not both; rules stand at one end of a binding alone
";

const WRONG_WORD: &[u8] = b"\
x: nothing was run, since a line is refused; docs/FAULTS.md says of its fault what to do
x:2: E90: this is no line that is read here
    write p.c
help: its form is: write END; a cores file has none
";

const WRONG_BLOCK: &[u8] = b"\
x: nothing was run, since a line is refused; docs/FAULTS.md says of its fault what to do
x:3:25: E14: messages carry no capabilities
    interface i { message m(cap c); }
                            ^
help: leave the argument out
";

// Files of the name x, how many turns are counted, the status, the report, and what is said on standard error.
const FILES: &[(&[u8], &str, u8, &[u8], &[u8])] = &[
    (CALLS, "2", 5, CALLS_REPORT, LEFT_2),
    (CALLS, "3", 0, ALL_CALLS, b""),
    (CALLS, MANY, 0, ALL_CALLS, b""),
    (CALLS, "0", 5, b"turns out\n", LEFT_0),
    (b"", "0", 0, b"complete\n", b""),
    (DISK, MANY, 0, DISK_REPORT, b""),
    (ECHO, MANY, 0, ECHO_REPORT, b""),
    (HOPS, MANY, 0, HOPS_REPORT, b""),
    (RACE, MANY, 0, RACE_REPORT, b""),
    (NAMES, MANY, 0, NAMES_REPORT, b""),
    (WRONG, "8", 2, WRONG_REPORT, WRONG_RULE),
    (
        b"disp d 0\nwrite p.c\n",
        "8",
        2,
        b"line 2 refused E90\n",
        WRONG_WORD,
    ),
    (
        b"# a comment\nidl\ninterface i { message m(cap c); }\n.\n",
        "8",
        2,
        b"line 2 refused E14\n",
        WRONG_BLOCK,
    ),
];

#[test]
fn files_are_run(rt: HostRuntime) {
    for (content, turns, status, report, said) in FILES {
        let words = ["flounder", "cores", "x", "--turns", *turns];
        let ran = go(&rt, &words, OneFile::Holds("x", content), b"");
        assert!(rt; ran.status == *status && ran.out.as_slice() == *report);
        assert!(rt; ran.err.as_slice() == *said);
    }
}

// Files, the status, and the report: a script of each run is found, and can't be written; a refused line has none.
const RECORDED: &[(&[u8], u8, &[u8])] = &[
    (CALLS, 4, ALL_CALLS),
    (DISK, 4, DISK_REPORT),
    (ECHO, 4, ECHO_REPORT),
    (HOPS, 4, HOPS_REPORT),
    (RACE, 4, RACE_REPORT),
    (WRONG, 2, WRONG_REPORT),
];

#[test]
fn scripts_are_found(rt: HostRuntime) {
    let words = ["flounder", "cores", "x", "--turns", MANY, "--script", "y"];
    for (content, status, report) in RECORDED {
        let ran = go(&rt, &words, OneFile::Holds("x", content), b"");
        assert!(rt; ran.status == *status && ran.out.as_slice() == *report);
    }
}

// Reading the file, its content, writing: standard output takes 5 bytes. The status, and how that ends which is said on standard error:
// it names the refused line, of which standard output took a part.
const FIRST_FAULTS: &[(OneFile, u8, &[u8])] = &[
    (OneFile::Fails(io::ErrorKind::Other), 4, b""),
    (
        OneFile::Fails(io::ErrorKind::OutOfMemory),
        3,
        b"out of memory\n",
    ),
    (OneFile::Holds("y", CALLS), 4, b""),
    (OneFile::Holds("x", CALLS), 4, b""),
    (OneFile::Holds("x", WRONG), 2, WRONG_RULE),
];

#[test]
fn the_first_fault_of_cores_counts(rt: HostRuntime) {
    let words = ["flounder", "cores", "x", "--turns", "2"];
    for (shelf, status, said) in FIRST_FAULTS {
        let ran = into(&rt, &words, *shelf, 5);
        assert!(rt; ran.status == *status && ran.err.ends_with(*said));
    }
}

const ENDS: &[(CoresEnd, u8, &[u8])] = &[
    (CoresEnd::Complete, 0, b""),
    (CoresEnd::Refused, 2, LINE_REFUSED),
    (CoresEnd::TurnsOut, 5, AFTER_2),
];

const SETUP: CoresFault = CoresFault::Setup {
    number: 94,
    place: 0,
};

const JOB: CoresFault = CoresFault::Job {
    number: 92,
    place: 1,
};

const FAULTS: &[(CoresFault, u8, &[u8])] = &[
    (SETUP, 2, b"the set-up is refused\n"),
    (JOB, 2, b"a job is refused\n"),
    (CoresFault::Memory, 3, b"out of memory\n"),
    (CoresFault::Thread, 3, b"a thread doesn't start\n"),
];

// A fault is told, and nothing else.
#[test]
fn statuses_of_runs(rt: HostRuntime) {
    for (end, status, said) in ENDS {
        let mut err = Vec::new(rt.alloc());
        assert_eq!(rt; finish(outcome_of("x", 2, *end), &mut err), *status);
        assert!(rt; err.as_slice() == *said);
    }
    for (fault, status, said) in FAULTS {
        let mut err = Vec::new(rt.alloc());
        assert_eq!(rt; tell_no_report(*fault, &mut err), *status);
        assert!(rt; err.as_slice() == *said);
    }
}
