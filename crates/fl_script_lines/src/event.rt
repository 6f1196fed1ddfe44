//! What a command asks of the machine, and the name that it gives.

use crate::table::InterfaceNames;
use fl_model::Event;

/// The name that is given where an event is answered `ok`.
#[derive(Drop)]
pub enum Naming<'a> {
    /// None: nothing is made, or a thing without a name, or a service, whose name the machine keeps.
    Nothing,
    /// The name of a new dispatcher, which is on this core.
    Dispatcher { name: &'a [u8], core: u32 },
    /// The name of a new binding, whose ends speak the interface of this place.
    Binding { name: &'a [u8], interface: usize },
    /// The names of a new interface and of its messages. In a box: it is seldom, and an event and its name
    /// are passed on by value.
    Interface(Box<InterfaceNames>),
}

/// An event, and the name that is given where it is answered `ok`.
#[derive(Drop)]
pub struct NamedEvent<'a> {
    /// What the machine is asked.
    pub event: Event<'a>,
    /// The name that is given then.
    pub naming: Naming<'a>,
}
