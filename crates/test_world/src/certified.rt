//! Scripts that tell what a report of cores tells, and scripts made with a mistake.

use fl_cores_script::certify;
use std::alloc::{AllocError, Global};
use std::test::Fail;

const SETUP: &[u8] = b"\
idl
interface i { message ping(uint32 v); }
.
cores 2
disp d 0
disp e 1
export s e i
bind p d i s ump 4
bind q d i s ump 4
";

const REPORT: &[u8] = b"\
handle p.s ping(1)
handle p.s ping(2)
handle q.s ping(3)
turns out
";

const RIGHT: &[u8] = b"\
turn e
call p.c ping(1)
write p.c
call q.c ping(3)
write q.c
turn e
turn e
call p.c ping(2)
write p.c
turn e
turn e
turn e
turn e
turn e
call q.c ping(4)
write q.c
";

// A look that found nothing stands behind the fragment that was put, so a call more is handled.
const LOOKED_LATE: &[u8] = b"\
call p.c ping(1)
write p.c
call q.c ping(3)
write q.c
turn e
turn e
call p.c ping(2)
write p.c
turn e
turn e
turn e
turn e
call q.c ping(4)
write q.c
turn e
turn e
";

// Two rounds are swapped, so calls are handled in the other order.
const SWAPPED: &[u8] = b"\
call p.c ping(2)
write p.c
call q.c ping(3)
write q.c
turn e
turn e
turn e
turn e
call p.c ping(1)
write p.c
turn e
turn e
";

// Bindings stand for each other.
const RENUMBERED: &[u8] = b"\
call q.c ping(1)
write q.c
call p.c ping(3)
write p.c
turn e
turn e
call q.c ping(2)
write q.c
turn e
turn e
turn e
turn e
";

// The last call isn't handled.
const SHORT: &[u8] = b"\
call p.c ping(1)
write p.c
turn e
turn e
call p.c ping(2)
write p.c
turn e
turn e
";

const SCRIPTS: &[(&[u8], bool)] = &[
    (RIGHT, true),
    (LOOKED_LATE, false),
    (SWAPPED, false),
    (RENUMBERED, false),
    (SHORT, false),
    (b"", false),
];

fn is_certified(alloc: Global, events: &[u8]) -> Result<bool, AllocError> {
    let mut script = Vec::new(alloc);
    script.extend_from_slice(SETUP)?;
    script.extend_from_slice(events)?;
    match certify(alloc, script, REPORT)? {
        None => Ok(false),
        Some(_) => Ok(true),
    }
}

#[test]
fn mistakes_are_noticed(rt: HostRuntime) -> Result<(), Fail> {
    for (events, wanted) in SCRIPTS {
        assert!(rt; is_certified(rt.alloc(), events)? == *wanted);
    }
    Ok(())
}
