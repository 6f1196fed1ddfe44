//! Streams: each call, in one thread and in two.

ghost use Rattle.std.specs.Prelude.{◌≡◌, true, false};
ghost use Rattle.fl_base.specs.Control.{is_ack_only};
ghost use Rattle.fl_stream.specs.Plain.{is_plain};

use fl_base::Frag;
use fl_link::{LinkFault, PutFault, PutSide, Sight, TakeSide, Told};
use fl_stream::{StreamRx, StreamSide, StreamTx, duplex, is_plain, settle, stream};
use std::hint;
use std::sync::Wait;
use std::test::Fail;
use std::thread::{Threads, join};

// A fragment of a call, whose first word is this number.
fn frag(v: u64) -> Frag
    ensures data { is_ack_only result ≡ false }
    ensures plain { is_plain result ≡ true }
{
    Frag {
        words: [v, 0, 0, 0, 0, 0, 0],
        control: 2,
    }
}

const BLANK: Frag = Frag {
    words: [0; 7],
    control: 0,
};

const ACKNOWLEDGES: Frag = Frag {
    words: [0; 7],
    control: 4,
};

// What is done at a side, and what it answers.
enum StreamStep {
    Put(u64, Result<(), PutFault>),
    Room(bool),
    Peek(Option<u64>),
    Take(Option<u64>),
}

fn sight(v: Option<u64>) -> Sight {
    match v {
        Some(v) => Sight::Data(frag(v)),
        None => Sight::Empty,
    }
}

fn answers(from: &mut StreamSide, to: &mut StreamSide, step: &StreamStep) -> bool {
    match step {
        StreamStep::Put(v, answer) => from.put(&frag(*v)) == *answer,
        StreamStep::Room(room) => from.room() == *room,
        StreamStep::Peek(v) => to.peek() == sight(*v),
        StreamStep::Take(v) => to.take() == sight(*v) && to.tell() == Ok(Told::Nothing),
    }
}

// A slot is free as soon as its fragment is taken, and the other side sees so when it looks: not before it has to.
const STEPS: &[StreamStep] = &[
    StreamStep::Peek(None),
    StreamStep::Take(None),
    StreamStep::Room(true),
    StreamStep::Put(5, Ok(())),
    StreamStep::Put(6, Ok(())),
    StreamStep::Room(false),
    StreamStep::Put(7, Err(PutFault::Full)),
    StreamStep::Peek(Some(5)),
    StreamStep::Peek(Some(5)),
    StreamStep::Take(Some(5)),
    StreamStep::Room(false),
    StreamStep::Put(7, Ok(())),
    StreamStep::Put(8, Err(PutFault::Full)),
    StreamStep::Take(Some(6)),
    StreamStep::Take(Some(7)),
    StreamStep::Peek(None),
    StreamStep::Take(None),
];

fn follows(from: &mut StreamSide, to: &mut StreamSide) -> bool {
    for step in STEPS {
        if !answers(from, to, step) {
            return false;
        }
    }
    from.next_epoch() == 0 && from.next_told() == 0 && from.known() == 0
}

#[test]
fn one_by_one(rt: HostRuntime) -> Result<(), Fail> {
    let (mut one, mut two) = duplex(rt.alloc(), 2)?;
    assert!(rt; follows(&mut one, &mut two) && follows(&mut two, &mut one));
    Ok(())
}

// Whether these come next, and no more.
fn takes(rx: &mut StreamRx, numbers: &[u64]) -> bool {
    let mut out = [BLANK; 5];
    if rx.take_all(&mut out) != numbers.len() {
        return false;
    }
    for (got, v) in out.iter().zip(numbers) {
        if *got != frag(*v) {
            return false;
        }
    }
    true
}

// Puts three fragments, the first with this number, whole or not at all.
fn puts(tx: &mut StreamTx, first: u64) -> Result<(), PutFault> {
    let a = frag(first);
    let b = frag(first.wrapping_add(1));
    let c = frag(first.wrapping_add(2));
    tx.put_all(&[a, b, c])
}

// Slices go round the end of a stream of four slots.
#[test]
fn in_slices(rt: HostRuntime) -> Result<(), Fail> {
    let (mut tx, mut rx) = stream(rt.alloc(), 4)?;
    assert!(rt; puts(&mut tx, 1) == Ok(()) && puts(&mut tx, 4) == Err(PutFault::Full));
    assert!(rt; rx.try_take() == sight(Some(1)) && rx.try_peek() == sight(Some(2)));
    assert!(rt; takes(&mut rx, &[2, 3]) && puts(&mut tx, 4) == Ok(()));
    assert!(rt; takes(&mut rx, &[4, 5, 6]) && takes(&mut rx, &[]));
    assert!(rt; is_plain(&frag(5)) && !is_plain(&ACKNOWLEDGES));
    Ok(())
}

// With any one allocation refused a maker says so.
#[test]
fn made_without_memory(rt: HostRuntime) {
    let fault = match duplex(rt.alloc(), 3) {
        Ok(_) => LinkFault::Memory,
        Err(fault) => fault,
    };
    assert!(rt; fault == LinkFault::Memory);
}

const COUNT: u64 = 10_000;

// Puts fragments that count from 0.
fn put_counted<R: Wait>(rt: &R, mut tx: StreamTx) -> StreamTx
    ensures { result.stream ≡ tx.stream }
{
    let mut next = 0;
    for _ in rt.forever() {
        if next >= COUNT {
            break;
        }
        match tx.try_put(&frag(next)) {
            Ok(()) => next += 1,
            Err(_) => hint::spin_loop(),
        }
    }
    tx
}

// How many of these count on from `next`.
fn in_order(frags: &[Frag], count: usize, next: u64) -> u64 {
    let mut due = next;
    for got in frags.iter().take(count) {
        if *got != frag(due) || due >= COUNT + 2 {
            return due;
        }
        due += 1;
    }
    due
}

// Takes as many, and says how many came in order.
fn take_counted<R: Wait>(rt: &R, mut rx: StreamRx) -> (StreamRx, u64)
    ensures { result.0.stream ≡ rx.stream }
{
    let mut next = 0;
    let mut out = [BLANK; 7];
    for _ in rt.forever() {
        if next >= COUNT {
            break;
        }
        let before = next;
        let count = rx.take_all(&mut out);
        next = in_order(&out, count, next);
        if count > 0 && next == before {
            break;
        }
        hint::spin_loop();
    }
    (rx, next)
}

// A thread for each side. In the end both are in one hand again.
fn across<R: Threads + Wait + Sync>(rt: &R, tx: StreamTx, rx: StreamRx) -> u64
    requires { tx.stream ≡ rx.stream }
{
    let (mut tx, (mut rx, count)) = join(
        rt,
        move || -> StreamTx
            ensures { result.stream ≡ tx.stream }
        { put_counted(rt, tx) },
        move || -> (StreamRx, u64)
            ensures { result.0.stream ≡ rx.stream }
        { take_counted(rt, rx) },
    );
    settle(&mut tx, &mut rx);
    count
}

#[test]
fn two_threads(rt: HostRuntime) -> Result<(), Fail> {
    let (tx, rx) = stream(rt.alloc(), 16)?;
    assert!(rt; across(&rt, tx, rx) >= COUNT);
    Ok(())
}
