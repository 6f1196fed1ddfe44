//! A circuit over two links, with real rings between the cores.

use fl_base::{Circuit, CoreId, Frag, LinkId, MsgNo, control};
use fl_hop::{
    Circuits, ForwardOutcome, Forwarded, HopFault, HopFront, HopTarget, deliver, law_along,
    law_carried_in, law_carried_on, law_forward_adds, law_later_on, law_links_suffice,
    law_numbers_apart, law_openings_lead, law_own_alone, law_passage_adds, law_stretches_join,
};
use fl_link::{QueueLink, Sight, Told};
use fl_ring::{SharedSide, duo};
use std::alloc::{AllocError, Global};
use std::test::Fail;

const NEAR: LinkId = LinkId(0);

const FAR: LinkId = LinkId(1);

// What happens at one of the three cores.
enum RouteStep {
    /// The client's core puts a call, told by its first word, on a circuit.
    Puts(u64, u16),
    /// The middle core forwards from a link.
    Forwards(LinkId, Result<Forwarded, HopFault>),
    /// The middle core tells what it took from the client's core.
    Tells(Told),
    /// The server's core moves the first fragment to the arrival queue.
    Arrives,
    /// The server's core tells what it took.
    LastTells(Told),
    /// This call comes out of the arrival queue, with the circuit set aside.
    ComesOut(u64),
}

const MOVED: Result<Forwarded, HopFault> = Ok(Forwarded::Onward(ForwardOutcome::Moved));

const FULL: Result<Forwarded, HopFault> = Ok(Forwarded::Onward(ForwardOutcome::Full));

// The fourth call finds no room, until the last core tells what it took. One on a circuit without an entry stays.
const STEPS: &[RouteStep] = &[
    RouteStep::Puts(0, 1),
    RouteStep::Puts(1, 1),
    RouteStep::Puts(2, 1),
    RouteStep::Forwards(NEAR, MOVED),
    RouteStep::Forwards(NEAR, MOVED),
    RouteStep::Forwards(NEAR, MOVED),
    RouteStep::Tells(Told::Written),
    RouteStep::Puts(3, 1),
    RouteStep::Puts(4, 3),
    RouteStep::Forwards(NEAR, FULL),
    RouteStep::Arrives,
    RouteStep::Arrives,
    RouteStep::LastTells(Told::Written),
    RouteStep::Forwards(NEAR, MOVED),
    RouteStep::Forwards(NEAR, Err(HopFault::Misrouted)),
    RouteStep::Forwards(NEAR, Err(HopFault::Misrouted)),
    RouteStep::Forwards(FAR, Ok(Forwarded::Acknowledged)),
    RouteStep::Forwards(FAR, Ok(Forwarded::Nothing)),
    RouteStep::Forwards(LinkId(2), Err(HopFault::NoLink)),
    RouteStep::ComesOut(0),
    RouteStep::ComesOut(1),
];

// The first fragment of a call of message 0 on a circuit is put.
fn puts(client: &mut SharedSide, v: u64, circuit: u16) -> bool {
    let frag = Frag {
        words: [v, 0, 0, 0, 0, 0, 0],
        control: control(true, MsgNo(0), Circuit(circuit)),
    };
    !frag.is_ack_only() && client.try_put(&frag).is_ok()
}

// Takes the first fragment of a link to an arrival queue, and says whether it was moved.
fn arrives(last: &Circuits, server: &mut SharedSide, queue: &mut QueueLink) -> bool {
    match last.look(NEAR, server) {
        Ok(HopFront::Goes(frag, way)) => match way {
            HopTarget::End(_) => deliver(server, queue, &frag) == ForwardOutcome::Moved,
            HopTarget::Link(_, _) => false,
        },
        _ => false,
    }
}

// Whether each step comes to what it should.
fn passes(
    middle: &Circuits,
    last: &Circuits,
    client: &mut SharedSide,
    sides: &mut [SharedSide],
    server: &mut SharedSide,
    queue: &mut QueueLink,
) -> bool {
    for step in STEPS {
        let is_so = match step {
            RouteStep::Puts(v, circuit) => puts(client, *v, *circuit),
            RouteStep::Forwards(link, answer) => middle.forward(*link, sides) == *answer,
            RouteStep::Tells(told) => match sides.first_mut() {
                Some(side) => side.tell() == Ok(*told),
                None => false,
            },
            RouteStep::Arrives => arrives(last, server, queue),
            RouteStep::LastTells(told) => server.tell() == Ok(*told),
            RouteStep::ComesOut(v) => {
                queue.take()
                    == Sight::Data(Frag {
                        words: [*v, 0, 0, 0, 0, 0, 0],
                        control: 3,
                    })
            }
        };
        if !is_so {
            return false;
        }
    }
    true
}

// In a vector, since how an array of sides is dropped would be proved here.
fn both(alloc: Global, near: SharedSide, far: SharedSide) -> Result<Vec<SharedSide>, AllocError> {
    let mut sides = Vec::new(alloc);
    sides.push(near)?;
    sides.push(far)?;
    Ok(sides)
}

#[test]
fn routes(rt: HostRuntime) -> Result<(), Fail> {
    let mut middle = Circuits::new(rt.alloc(), CoreId(1));
    middle.add_link(CoreId(0))?;
    middle.add_link(CoreId(2))?;
    let mut last = Circuits::new(rt.alloc(), CoreId(2));
    last.add_link(CoreId(1))?;
    assert!(rt; middle.pass_on(NEAR, Circuit(1), FAR, 0) == Ok(Circuit(1)));
    assert!(rt; last.arrive(NEAR, Circuit(1), 0) == Ok(()));
    let (mut client, near) = duo(rt.alloc(), 4)?;
    let (far, mut server) = duo(rt.alloc(), 4)?;
    let mut queue = QueueLink::local(rt.alloc(), 16)?;
    let mut sides = both(rt.alloc(), near, far)?;
    assert!(rt;
        passes(
            &middle,
            &last,
            &mut client,
            &mut sides,
            &mut server,
            &mut queue
        )
    );
    Ok(())
}

// The laws by which steps at a core join, over a shared ring's side and an arrival queue, and what holds of the numbers of
// every table and of what a circuit carries: they may be called where circuits are.
#[test]
fn laws(_rt: HostRuntime) {
    law_openings_lead();
    law_later_on();
    law_stretches_join();
    law_passage_adds::<SharedSide, QueueLink>();
    law_forward_adds::<SharedSide>();
    law_numbers_apart();
    law_links_suffice();
    law_carried_on();
    law_carried_in();
    law_own_alone();
    law_along();
}
