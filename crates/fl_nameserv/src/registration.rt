//! A service, and its registration.

ghost use Rattle.std.specs.Prelude.{◌≡◌, ◌+◌, ◌<◌, ◌^◌};
ghost use Rattle.fl_nameserv.specs.Lent.{registration_of};
ghost use Rattle.fl_nameserv.specs.Numbered.{numbered};

use fl_base::{CoreId, IRef};

/// Who offers what, and where: said so that every core reads it alike, also one that runs by itself and has no more than its
/// own dispatchers and a copy of the list of interfaces.
#[derive(Clone, Copy, Debug, PartialEq, Eq)]
pub struct Service {
    /// The core at which it is offered.
    pub core: CoreId,
    /// The dispatcher that offers it, by its place among the dispatchers of that core.
    pub dispatcher: usize,
    /// The interface that is offered, by its place in the list of interfaces, of which each core has a copy.
    pub interface: usize,
}

/// A registered service: what a look-up finds.
#[derive(Clone, Copy, Debug, PartialEq, Eq)]
pub struct Registration<'a> {
    /// The name, as it was registered.
    pub name: &'a [u8],
    /// The interface reference: 1 for the first registration, 2 for the second, and so on.
    pub iref: IRef,
    /// What is registered under the name.
    pub service: Service,
}

impl<'a> Registration<'a> {
    /// The registration at a place, from 0: its interface reference is the next number.
    pub(crate) fn at(place: usize, name: &'a Vec<u8>, service: &Service) -> Registration<'a>
        requires few { place + 1 < 2 ^ 32 }
        ensures at { registration_of result ≡ numbered place (name.now, service.now) }
    {
        Registration {
            name: name.as_slice(),
            iref: IRef(place as u32 + 1),
            service: *service,
        }
    }
}
