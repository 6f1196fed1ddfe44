//! Whole reports of runs whose schedule is certain: what each end made and handled, which bindings are refused, and
//! how many turns were counted. They are worked out by hand, by what a turn does (`docs/CORES.md`).

use crate::gates::{NoGate, SideBySide};
use fl_compact_calls::CompactCall;
use fl_core_run::Gate;
use fl_cores::{CoresFault, Report, run_cores};
use fl_cores_file::{CallsByEnd, CoresFile, CoresText, Ending, read_cores_text};
use fl_world::Config;
use std::alloc::Global;
use std::sync::Wait;
use std::test::Fail;
use std::thread::Threads;

// More turns than any of these runs takes.
const MANY: u64 = 1_000_000_000;

// A call: the message's number, and its one argument.
type PlainCall = (u16, i128);

// Calls at a binding's two ends.
struct Both {
    client: &'static [PlainCall],
    server: &'static [PlainCall],
}

const NEITHER: Both = Both {
    client: &[],
    server: &[],
};

// What a run of a file with so many turns has to report.
struct ReportRow {
    file: &'static [u8],
    limit: u64,
    made: &'static [Both],
    handled: &'static [Both],
    refused: &'static [Option<u32>],
    turns: &'static [u64],
    ending: Ending,
}

const PINGS: &[u8] = b"\
idl
interface i { message ping(uint32 v); }
.
disp d 0
disp e 0
export s e i
bind p d i s local 4
call p.c ping(1)
call p.c ping(2)
call p.c ping(3)
";

// Each call is answered, a turn after it was handled.
const ECHO: &[u8] = b"\
idl
interface i { rpc echo(in uint32 x, out uint32 y); }
.
disp d 0
disp e 0
export s e i
bind p d i s local 4
reply p.s echo_call echo_response
call p.c echo_call(1)
call p.c echo_call(2)
";

// Both clients have one dispatcher, and so a turn every second turn; the queues hold one fragment.
//
// In turns from 1: the replies to the first calls are written in 2, p's is handled in 2 and q's in 3. The second is
// written in 3 at p; at q it finds the queue full, so the reply to the third call, handled in 3, waits there.
const TWO_ECHOES: &[u8] = b"\
idl
interface i { rpc echo(in uint32 x, out uint32 y); }
.
disp d 0
disp e 0
disp f 0
export s e i
export t f i
bind p d i s local 1
bind q d i t local 1
reply p.s echo_call echo_response
reply q.s echo_call echo_response
call p.c echo_call(1)
call p.c echo_call(2)
call p.c echo_call(3)
call p.c echo_call(4)
call q.c echo_call(5)
call q.c echo_call(6)
call q.c echo_call(7)
call q.c echo_call(8)
";

const ONE_CORE: &[ReportRow] = &[
    ReportRow {
        file: PINGS,
        limit: 0,
        made: &[NEITHER],
        handled: &[NEITHER],
        refused: &[None],
        turns: &[0],
        ending: Ending::TurnsOut,
    },
    // a call is made, written and handled in each turn
    ReportRow {
        file: PINGS,
        limit: 2,
        made: &[Both {
            client: &[(0, 1), (0, 2)],
            server: &[],
        }],
        handled: &[Both {
            client: &[],
            server: &[(0, 1), (0, 2)],
        }],
        refused: &[None],
        turns: &[2],
        ending: Ending::TurnsOut,
    },
    ReportRow {
        file: PINGS,
        limit: MANY,
        made: &[Both {
            client: &[(0, 1), (0, 2), (0, 3)],
            server: &[],
        }],
        handled: &[Both {
            client: &[],
            server: &[(0, 1), (0, 2), (0, 3)],
        }],
        refused: &[None],
        turns: &[3],
        ending: Ending::Complete,
    },
    // the second reply was made, and isn't written yet
    ReportRow {
        file: ECHO,
        limit: 2,
        made: &[Both {
            client: &[(0, 1), (0, 2)],
            server: &[(1, 1), (1, 2)],
        }],
        handled: &[Both {
            client: &[(1, 1)],
            server: &[(0, 1), (0, 2)],
        }],
        refused: &[None],
        turns: &[2],
        ending: Ending::TurnsOut,
    },
    ReportRow {
        file: ECHO,
        limit: MANY,
        made: &[Both {
            client: &[(0, 1), (0, 2)],
            server: &[(1, 1), (1, 2)],
        }],
        handled: &[Both {
            client: &[(1, 1), (1, 2)],
            server: &[(0, 1), (0, 2)],
        }],
        refused: &[None],
        turns: &[3],
        ending: Ending::Complete,
    },
    // the third reply at q waits, so it isn't made
    ReportRow {
        file: TWO_ECHOES,
        limit: 3,
        made: &[
            Both {
                client: &[(0, 1), (0, 2), (0, 3)],
                server: &[(1, 1), (1, 2), (1, 3)],
            },
            Both {
                client: &[(0, 5), (0, 6), (0, 7)],
                server: &[(1, 5), (1, 6)],
            },
        ],
        handled: &[
            Both {
                client: &[(1, 1)],
                server: &[(0, 1), (0, 2), (0, 3)],
            },
            Both {
                client: &[(1, 5)],
                server: &[(0, 5), (0, 6), (0, 7)],
            },
        ],
        refused: &[None, None],
        turns: &[3],
        ending: Ending::TurnsOut,
    },
    // a turn later the fourth at p waits, and the third at q was accepted in the place of the second
    ReportRow {
        file: TWO_ECHOES,
        limit: 4,
        made: &[
            Both {
                client: &[(0, 1), (0, 2), (0, 3), (0, 4)],
                server: &[(1, 1), (1, 2), (1, 3)],
            },
            Both {
                client: &[(0, 5), (0, 6), (0, 7), (0, 8)],
                server: &[(1, 5), (1, 6), (1, 7)],
            },
        ],
        handled: &[
            Both {
                client: &[(1, 1), (1, 2)],
                server: &[(0, 1), (0, 2), (0, 3), (0, 4)],
            },
            Both {
                client: &[(1, 5)],
                server: &[(0, 5), (0, 6), (0, 7), (0, 8)],
            },
        ],
        refused: &[None, None],
        turns: &[4],
        ending: Ending::TurnsOut,
    },
];

// Two openings, of which the second is refused by core 0, since no link leads from there to core 2.
//
// In rounds of three turns, from 0: in 0 both openings are asked for, and written in 1. p's is passed on in 1 and
// heard at core 2, where its rule is set; its answer reaches core 0 in 3. q's is heard at core 0 in 2, and its refusal
// at core 1 in the same round: so core 1 counts 3 turns. The calls are written in 3 and 4 and handled in the same
// round. The replies are written in 4 and 5, with which core 2 is done after 6 turns, passed on by core 1 in 5 and 6,
// and handled in 6 and 7: core 0 counts 8.
const ROW: ReportRow = ReportRow {
    file: b"\
idl
interface i { rpc echo(in uint32 x, out uint32 y); }
.
cores 3
link 0 1 4
link 1 2 4
disp d 0
disp f 1
disp e 2
export s e i
bind p d i s hop 0 1 2
bind q f i s hop 1 0 2
reply p.s echo_call echo_response
call p.c echo_call(1)
call p.c echo_call(2)
call q.c echo_call(3)
",
    limit: MANY,
    made: &[
        Both {
            client: &[(0, 1), (0, 2)],
            server: &[(1, 1), (1, 2)],
        },
        NEITHER,
    ],
    handled: &[
        Both {
            client: &[(1, 1), (1, 2)],
            server: &[(0, 1), (0, 2)],
        },
        NEITHER,
    ],
    refused: &[None, Some(73)],
    turns: &[8, 3, 6],
    ending: Ending::Complete,
};

// Whether these calls are made so, one after another.
fn are_said(calls: &[CompactCall], said: &[PlainCall]) -> bool {
    if calls.len() != said.len() {
        return false;
    }
    for (call, (number, wanted)) in calls.iter().zip(said) {
        let is_wanted = match call.number() {
            Some(value) => i128::from(value) == *wanted,
            None => false,
        };
        if !is_wanted || call.msg().0 != *number {
            return false;
        }
    }
    true
}

fn are_both(calls: &[CallsByEnd], both: &[Both]) -> bool {
    if calls.len() != both.len() {
        return false;
    }
    for (calls, both) in calls.iter().zip(both) {
        if !are_said(&calls.client, both.client) || !are_said(&calls.server, both.server) {
            return false;
        }
    }
    true
}

// The report of a file's run; none where a line of it is refused.
fn report_of<R: Threads + Wait + Sync, G: Gate + Sync>(
    rt: &R,
    alloc: Global,
    row: &ReportRow,
    gate: &G,
) -> Result<Option<Report>, CoresFault> {
    let CoresText::File(file) = read_cores_text(alloc, row.file)? else {
        return Ok(None);
    };
    let CoresFile {
        cores,
        setup,
        jobs,
        names: _names,
        numbers: _numbers,
    } = file;
    let config = Config {
        // (a file has at most 16)
        cores: (cores % 256) as u8,
        setup,
    };
    match run_cores(rt, alloc, &config, jobs, row.limit, gate) {
        Ok(report) => Ok(Some(report)),
        Err(fault) => Err(fault),
    }
}

// Whether a report is the row's.
fn is_report(report: &Report, row: &ReportRow) -> bool {
    are_both(&report.made, row.made)
        && are_both(&report.handled, row.handled)
        && report.refused.as_slice() == row.refused
        && report.turns.as_slice() == row.turns
        && report.ending == row.ending
}

// Whether a file's run has the row's report.
fn reports<R: Threads + Wait + Sync, G: Gate + Sync>(
    rt: &R,
    alloc: Global,
    row: &ReportRow,
    gate: &G,
) -> Result<bool, CoresFault> {
    match report_of(rt, alloc, row, gate)? {
        Some(report) => Ok(is_report(&report, row)),
        None => Ok(false),
    }
}

#[test]
fn reports_of_one_core(rt: HostRuntime) -> Result<(), Fail> {
    for row in ONE_CORE {
        assert!(rt; reports(&rt, rt.alloc(), row, &NoGate)?);
    }
    Ok(())
}

#[test]
fn a_report_of_cores_in_step(rt: HostRuntime) -> Result<(), Fail> {
    assert!(rt; reports(&rt, rt.alloc(), &ROW, &SideBySide::new(&rt))?);
    Ok(())
}
