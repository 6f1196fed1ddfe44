//! The table of names.

ghost use Rattle.std.specs.Prelude.{◌≡◌, ◌≢◌, ◌+◌, ◌↔◌, [], length, Err, None, Some, IsSome, IfOk, IfErr, OnOk, OnErr};
ghost use Rattle.fl_nameserv.specs.Lent.{registration_of};
ghost use Rattle.fl_nameserv.specs.Registrations.{IsTable, by_name, by_iref, with_registered};

use crate::fault::NameFault;
use crate::registration::{Registration, Service};
use crate::registrations::Registrations;
use fl_base::IRef;
use indexmap::IndexMap;
use std::alloc::{AllocError, Global};
use std::marker::Model;

// So many services have interface references, which are numbers of 32 bits from 1.
const MOST: usize = u32::MAX as usize;

/// The services that are registered, in order. A world has one table, and each running core a copy.
///
/// A look-up takes no memory, and no search: it asks the map by the name, or by the place.
#[derive(Drop)]
pub struct Names {
    alloc: Global,
    services: IndexMap<Vec<u8>, Service>,
}

impl Model for Names {
    ghost use Rattle.std.specs.Prelude.{List, ◌<◌, ◌^◌, length};
    ghost use Rattle.fl_nameserv.specs.Registrations.{TheRegistration};
    ghost use Rattle.fl_nameserv.specs.Numbered.{numbered_from};

    ghost Value = { List TheRegistration };

    ghost view = { λ n. numbered_from 0 n.services.entries };

    ghost invariant = { λ n. length n.services.entries < 2 ^ 32 };
}

impl Names {
    /// A table with no services. Takes no memory.
    pub fn new(alloc: Global) -> Names
        ensures none { result ≡ [] }
    {
        Names {
            alloc,
            services: IndexMap::new(alloc),
        }
    }

    /// Registers a service under a name, behind those that are registered, and gives its interface
    /// reference: 1 for the first, and one more for each further one.
    ///
    /// # Errors
    /// The name is taken (E71); out of memory (E99), also past 2^32 - 1 services. Nothing has
    /// changed then.
    pub fn register(&mut self, name: &[u8], service: Service) -> Result<IRef, NameFault>
        ensures added { OnOk result (self.new ≡ with_registered self.old name.now service) }
        ensures iref { IfOk result (λ iref. iref.0 ≡ length self.old + 1) }
        ensures new { OnOk result (by_name name.now self.old ≡ None) }
        ensures taken { (result ≡ Err NameFault.Taken) ↔ (IsSome (by_name name.now self.old)) }
        ensures refusals { result ≢ Err NameFault.Unknown }
        ensures kept { OnErr result (self.new ≡ self.old) }
    {
        if self.services.contains_key(name) {
            return Err(NameFault::Taken);
        }
        let place = self.services.len();
        if place >= MOST {
            return Err(NameFault::Memory);
        }
        let name = Vec::from_slice(self.alloc, name)?;
        self.services.insert(name, service)?;
        Ok(IRef(place as u32 + 1))
    }

    /// The registration of a name.
    ///
    /// # Errors
    /// No service has the name (E70).
    pub fn lookup(&self, name: &[u8]) -> Result<Registration<'_>, NameFault>
        ensures found { IfOk result (λ r. by_name name.now self.now ≡ Some (registration_of r)) }
        ensures unknown { OnErr result (by_name name.now self.now ≡ None) }
        ensures refusal { IfErr result (λ fault. fault ≡ NameFault.Unknown) }
    {
        let Some((place, name, service)) = self.services.get_full(name) else {
            return Err(NameFault::Unknown);
        };
        Ok(Registration::at(place, name, service))
    }

    /// The registration of an interface reference.
    ///
    /// # Errors
    /// No service has the reference (E70).
    pub fn lookup_iref(&self, iref: IRef) -> Result<Registration<'_>, NameFault>
        ensures found { IfOk result (λ r. by_iref iref.0 self.now ≡ Some (registration_of r)) }
        ensures unknown { OnErr result (by_iref iref.0 self.now ≡ None) }
        ensures refusal { IfErr result (λ fault. fault ≡ NameFault.Unknown) }
    {
        let services = &self.services;
        if iref.0 == 0 {
            return Err(NameFault::Unknown);
        }
        let place = iref.0 as usize - 1;
        let Some((name, service)) = services.get_index(place) else {
            return Err(NameFault::Unknown);
        };
        Ok(Registration::at(place, name, service))
    }

    /// All registrations, in order.
    pub fn list(&self) -> Registrations<'_>
        ensures all { result ≡ self.now }
        ensures table { IsTable self.now }
    {
        Registrations::new(self.services.iter())
    }

    /// An equal table, in memory of its own.
    ///
    /// # Errors
    /// Out of memory (E99).
    pub fn duplicate(&self) -> Result<Names, AllocError>
        ensures equal { IfOk result (λ copy. copy ≡ self.now) }
    {
        let services = self.services.clone()?;
        Ok(Names {
            alloc: self.alloc,
            services,
        })
    }
}
