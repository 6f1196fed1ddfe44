//! Memory that is refused, over a script that makes and uses every kind of thing.

use fl_script_exec::{ExecFault, exec};
use fl_world::World;
use std::alloc::Global;

const SCRIPT: &[u8] = b"\
idl
interface i { rpc echo(in uint32 x, out uint32 y); message blob(string s[100]); }
.
cores 3
link 0 1 4
link 1 2 4
disp d 0
disp c 0
disp e 2
export s e i
export t c i
bind p d i s hop 0 1 2
bind q d i s ump 4
bind r d i t local 2
reply p.s echo_call echo_response
reply r.s echo_call echo_response
mwrite 0 1
forward 1 0
mwrite 1 2
forward 2 1
mwrite 2 1
forward 1 2
mwrite 1 0
forward 0 1
call p.c echo_call(7)
write p.c
forward 1 0
forward 2 1
turn e
turn e
write p.s
call q.c blob(\"memory is refused in turn to each call that asks for some\")
write q.c
write q.c
turn e
turn e
turn e
turn e
turn e
call r.c echo_call(8)
write r.c
turn c
write r.s
turn d
turn d
ack q.s
show q.c
turn x
";

const TRANSCRIPT: &[u8] = b"\
ok
ok
ok
ok
ok
ok
ok
ok
ok
ok
ok
ok
ok
ok
written 1 of 1
ok
written 1 of 1
opened p.s
written 1 of 1
ok
written 1 of 1
opened p.c
accepted
written 1 of 1
forwarded
forwarded
handle p.s echo_call(7)
quiet q.s
written 1 of 1
accepted
written 1 of 2
written 2 of 2
ready q.s
part q.s
ready q.s
handle q.s blob(\"memory is refused in turn to each call that asks for some\")
quiet q.s
accepted
written 1 of 1
handle r.s echo_call(8)
written 1 of 1
handle r.c echo_response(8)
quiet q.c
ok
nothing
refused E92
";

// Whether a script writes its transcript; or, out of memory, not all of it and nothing else.
fn is_cut_short_at_most(alloc: Global) -> bool {
    let mut reader = SCRIPT;
    let mut page = [0; 2048];
    let mut writer = page.as_mut_slice();
    let room = writer.len();
    let outcome = exec::<World, _, _>(alloc, &mut reader, &mut writer);
    let count = room.saturating_sub(writer.len());
    let written = page.get(..count).unwrap_or(b"?");
    match outcome {
        Ok(()) => written == TRANSCRIPT,
        Err(ExecFault::Memory) => written.len() < TRANSCRIPT.len()
            && TRANSCRIPT.starts_with(written),
        Err(_) => false,
    }
}

// With ample memory the transcript; run with each request for memory refused in turn, the fault, and a prefix of the transcript.
#[test]
fn memory_is_refused(rt: HostRuntime) {
    assert!(rt; is_cut_short_at_most(rt.alloc()));
}
