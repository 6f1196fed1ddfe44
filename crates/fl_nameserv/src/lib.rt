//! The table of names: which services are registered, and where a binding to one has to go.
//!
//! A service is registered once, under a name that no other has, and gets an interface reference:
//! 1, 2, 3 and so on. A client's core finds it by the name, and the service's core by the reference
//! that the monitors' messages carry. Both take the same time whatever the number of services, by
//! a map that keeps its order, and no memory. Each running core has a copy of its own.
//!
//! Contract for the layers above: a [`Names`] is the list of registrations, in order
//! (`specs/Registrations.antt`). [`Names::register`] puts one more at its end exactly where no name is
//! equal; a look-up gives the one that has the name or the reference, exactly where there is one.
//!
//! - `names.rt`: `Names`
//! - `registration.rt`: a service, and its registration
//! - `registrations.rt`: going over all registrations, in order
//! - `law.rt`: a registration is found by its name and its reference, and by no other
//! - `fault.rt`: why a call is refused
#![tactic(auto)]

mod fault;
mod law;
mod names;
mod registration;
mod registrations;

pub use fault::NameFault;
pub use law::{law_each_is_found, law_found_is_registered};
pub use names::Names;
pub use registration::{Registration, Service};
pub use registrations::Registrations;
