//! Monitors' messages as fragments, word for word; what a monitor lets open; and the table of names.

use crate::texts::{interface, program};
use fl_base::{Circuit, CoreId, Frag, IRef, LinkId};
use fl_compile::Program;
use fl_monitor::{
    Messenger, Monitor, MonitorFault, MonitorMessage, Path, law_epochs_say_nothing,
    law_messages_are_calls, law_one_fragment, law_one_message, law_outboxes_say_messages,
    law_stands_alone,
};
use fl_nameserv::{NameFault, Names, Registration, Service};
use fl_value_data::PlanNo;
use fl_wire::WireFault;
use std::test::Fail;

// The monitors' interface, as it is published.
const INTERFACE: &[u8] = b"interface intermon \"between monitors\" {
    message open_circuit(uint16 circuit, uint32 binding, iref service, uint8 path[n, 16]);
    message circuit_opened(uint16 circuit);
    message circuit_refused(uint16 circuit, uint32 reason);
};
";

const LINE: &[CoreId] = &[CoreId(0), CoreId(1), CoreId(2)];

// Whether a message is written as the fragment of these first words and this control word, and read from it, also with an epoch
// and with a count told.
fn stands_for(
    messenger: &mut Messenger,
    message: &MonitorMessage,
    first: [u64; 4],
    control: u64,
) -> Result<bool, WireFault> {
    let [a, b, c, d] = first;
    let wanted = Frag {
        words: [a, b, c, d, 0, 0, 0],
        control,
    };
    let stamped = wanted.stamp(1, 0xfffa);
    Ok(
        messenger.frag(message)? == wanted
            && messenger.read(&wanted)? == *message
            && messenger.read(&stamped)? == *message,
    )
}

// By hand: circuit at byte 0, binding at 4, service at 8, the route's length at 16 and its cores from 24 on; reason at 4.
fn each_stands(messenger: &mut Messenger, path: Path) -> Result<bool, WireFault> {
    let open = MonitorMessage::OpenCircuit {
        circuit: Circuit(2_046),
        binding: 1_023,
        service: IRef(256),
        path,
    };
    let opened = MonitorMessage::CircuitOpened {
        circuit: Circuit(2_046),
    };
    let refused = MonitorMessage::CircuitRefused {
        circuit: Circuit(2_046),
        reason: 70,
    };
    let words = [0x0000_03ff_0000_07fe, 0x100, 3, 0x02_0100];
    Ok(
        stands_for(messenger, &open, words, 2)?
            && stands_for(messenger, &opened, [0x7fe, 0, 0, 0], 0x1_0002)?
            && stands_for(messenger, &refused, [0x46_0000_07fe, 0, 0, 0], 0x2_0002)?,
    )
}

#[test]
fn messages(rt: HostRuntime) -> Result<(), Fail> {
    law_messages_are_calls();
    law_one_fragment();
    law_one_message();
    law_epochs_say_nothing();
    law_stands_alone();
    law_outboxes_say_messages();
    let mut messenger = Messenger::new(rt.alloc())?;
    let published = interface(rt.alloc(), INTERFACE)?;
    assert!(rt; messenger.interface().same(&published));
    let Some(path) = Path::new(LINE) else {
        return Err(Fail::new(format_args!("no route")));
    };
    assert!(rt; path.cores() == LINE && each_stands(&mut messenger, path)?);
    Ok(())
}

const SAME: &[u8] = b"interface i { message m(uint8 a, uint64 b); };";

const OTHER: &[u8] = b"interface i { message m(uint8 a, uint32 b); };";

// What may be opened: the service's interface, its plan, and the route, in this order.
fn lets_open(monitor: &Monitor, client: &Program, other: &Program, planned: &Program) -> bool {
    monitor.may_open(client, other, CoreId(9), &[], 3) == Err(MonitorFault::Differs)
        && monitor.may_open(client, planned, CoreId(9), &[], 3) == Err(MonitorFault::PlansDiffer)
        && monitor.may_open(client, client, CoreId(1), LINE, 3) == Err(MonitorFault::NoRoute)
        && monitor.may_open(client, client, CoreId(2), LINE, 3) == Ok(LinkId(0))
}

#[test]
fn offers(rt: HostRuntime) -> Result<(), Fail> {
    let client = program(rt.alloc(), SAME, PlanNo::One)?;
    let other = program(rt.alloc(), OTHER, PlanNo::Two)?;
    let planned = program(rt.alloc(), SAME, PlanNo::Two)?;
    let mut monitor = Monitor::new(rt.alloc(), CoreId(0))?;
    assert!(rt; monitor.add_link(CoreId(1)) == Ok(LinkId(0)));
    assert!(rt; lets_open(&monitor, &client, &other, &planned));
    Ok(())
}

const SERVICE: Service = Service {
    core: CoreId(1),
    dispatcher: 101,
    interface: 51,
};

const REGISTERED: Registration<'static> = Registration {
    name: b"s",
    iref: IRef(1),
    service: SERVICE,
};

// Whether this one service is all that is registered.
fn has_one(names: &Names) -> bool {
    let mut list = names.list();
    list.len() == 1
        && list.next() == Some(REGISTERED)
        && names.lookup(b"s") == Ok(REGISTERED)
        && names.lookup_iref(IRef(1)) == Ok(REGISTERED)
        && names.lookup(b"t") == Err(NameFault::Unknown)
        && names.lookup_iref(IRef(2)) == Err(NameFault::Unknown)
}

#[test]
fn names(rt: HostRuntime) -> Result<(), Fail> {
    let mut names = Names::new(rt.alloc());
    assert!(rt; names.register(b"s", SERVICE) == Ok(IRef(1)));
    assert!(rt; names.register(b"s", SERVICE) == Err(NameFault::Taken));
    let copy = names.duplicate()?;
    assert!(rt; has_one(&names) && has_one(&copy));
    Ok(())
}
