//! Interfaces of texts, and their programs.

use fl_check::{TextRead, read_text};
use fl_compile::{Program, compile};
use fl_interface::Interface;
use fl_value_data::PlanNo;
use std::alloc::{AllocError, Global};

/// The interface of a text; none only where memory runs out.
pub fn interface(alloc: Global, text: &[u8]) -> Result<Interface, AllocError> {
    match read_text(alloc, text) {
        Ok(TextRead::Interface(interface)) => Ok(interface),
        _ => Err(AllocError),
    }
}

/// The program of a text; none only where memory runs out.
pub fn program(alloc: Global, text: &[u8], plan: PlanNo) -> Result<Program, AllocError> {
    match interface(alloc, text) {
        Ok(interface) => compile(alloc, &interface, plan),
        Err(_) => Err(AllocError),
    }
}
