//! A world driven event by event and by a list. What is refused as out of memory is asked again, once: the world has to be as
//! it was.

use fl_base::{EndId, MsgNo, Side};
use fl_check::{TextRead, read_text};
use fl_interface::Interface;
use fl_model::{Answer, BackEnd, DispatcherId, Event};
use fl_value_data::{Call, PlanNo, Value};
use fl_world::{BootFault, Config, World};
use std::alloc::{AllocError, Global};

const CLIENT: EndId = EndId {
    binding: 0,
    side: Side::Client,
};

const SERVER: EndId = EndId {
    binding: 0,
    side: Side::Server,
};

const FIRST: DispatcherId = DispatcherId { core: 0, place: 0 };

const SECOND: DispatcherId = DispatcherId { core: 0, place: 1 };

fn interface(alloc: Global) -> Result<Interface, AllocError> {
    match read_text(alloc, b"interface i { message ping(uint32 v); }") {
        Ok(TextRead::Interface(interface)) => Ok(interface),
        _ => Err(AllocError),
    }
}

fn ping(alloc: Global) -> Result<Call, AllocError> {
    let mut args = Vec::new(alloc);
    args.push(Value::Int(7))?;
    Ok(Call {
        msg: MsgNo(0),
        args,
    })
}

fn bind(service: &'static [u8]) -> Event<'static> {
    Event::Bind {
        client: FIRST,
        interface: 0,
        service,
        back_end: BackEnd::Local(4),
    }
}

// The events, by their places: a set-up, a call, a second one that finds its end busy, and a service that isn't there.
fn event(alloc: Global, place: usize) -> Result<Event<'static>, AllocError> {
    Ok(match place {
        0 => Event::AddInterface {
            interface: interface(alloc)?,
            plan: PlanNo::Two,
        },
        1 | 2 => Event::AddDispatcher(0),
        3 => Event::Export {
            name: b"s",
            dispatcher: SECOND,
            interface: 0,
        },
        4 => bind(b"s"),
        5 | 6 => Event::Call(CLIENT, ping(alloc)?),
        7 => Event::Show(CLIENT),
        8 => Event::Write(CLIENT),
        9 | 10 => Event::Turn(SECOND),
        _ => bind(b"t"),
    })
}

const COUNT: usize = 12;

// Whether this is answered to the event of a place.
fn is_answer(place: usize, answer: &Answer) -> bool {
    match answer {
        Answer::Done => place < 5,
        Answer::Accepted => place == 5,
        Answer::Refused(number) => place == 6 && *number == 40 || place == 11 && *number == 70,
        Answer::Words(frag) => place == 7 && frag.words[0] == 7 && frag.control == 3,
        Answer::Written { k, n } => place == 8 && *k == 1 && *n == 1,
        Answer::Handle { end, call } => {
            place == 9 && *end == SERVER && matches!(call.number(), Some(7))
        }
        Answer::Nothing => place == 10,
        _ => false,
    }
}

fn drives(alloc: Global) -> Result<bool, AllocError> {
    let mut world = World::new(alloc)?;
    for place in 0..COUNT {
        let event = event(alloc, place)?;
        let answer = match world.replay(&event) {
            Ok(answer) => answer,
            Err(_) => world.step(event)?,
        };
        if !is_answer(place, &answer) {
            return Ok(false);
        }
    }
    Ok(true)
}

fn events(alloc: Global, places: &[usize]) -> Result<Vec<Event<'static>>, AllocError> {
    let mut events = Vec::new(alloc);
    for place in places {
        events.push(event(alloc, *place)?)?;
    }
    Ok(events)
}

fn runs(alloc: Global) -> Result<bool, AllocError> {
    let events = events(alloc, &[0, 1, 2, 3, 4, 5, 6, 7, 8, 9, 10, 11])?;
    let mut world = World::new(alloc)?;
    let answers = world.run(&events)?;
    for (place, answer) in answers.iter().enumerate() {
        if !is_answer(place, answer) {
            return Ok(false);
        }
    }
    Ok(answers.len() == COUNT)
}

// Why no world is booted with so many cores and these events, if none is.
fn refusal(alloc: Global, cores: u8, places: &[usize]) -> Option<BootFault> {
    let setup = match events(alloc, places) {
        Ok(setup) => setup,
        Err(_) => return Some(BootFault::Memory),
    };
    match World::boot(alloc, &Config { cores, setup }) {
        Ok(_) => None,
        Err(fault) => Some(fault),
    }
}

// Whether this comes of a boot, or a want of memory.
fn boots(alloc: Global, cores: u8, places: &[usize], wanted: Option<BootFault>) -> bool {
    let fault = refusal(alloc, cores, places);
    fault == wanted || fault == Some(BootFault::Memory)
}

#[test]
fn a_world_answers(rt: HostRuntime) {
    assert!(rt; drives(rt.alloc()) != Ok(false));
    assert!(rt; runs(rt.alloc()) != Ok(false));
}

// The first event that is refused is told by its place from 1; at place 0 it is the number of cores.
#[test]
fn worlds_are_booted_or_refused(rt: HostRuntime) {
    let no_dispatcher = BootFault::Refused {
        number: 92,
        place: 2,
    };
    let cores = BootFault::Refused {
        number: 94,
        place: 0,
    };
    assert!(rt; boots(rt.alloc(), 16, &[0, 1, 2, 3, 4], None));
    assert!(rt; boots(rt.alloc(), 1, &[0, 3, 4], Some(no_dispatcher)));
    assert!(rt; boots(rt.alloc(), 17, &[0], Some(cores)));
}
