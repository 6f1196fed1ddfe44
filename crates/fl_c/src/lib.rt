//! The proved parts as C functions: exports over one type of handle.
//!
//! C makes handles (`flounder_make`) and asks operations of them by number (`flounder_use`), or by name
//! (`flounder_put`). Each operation is an ordinary function of `fl_c_operations`, whose contract the export states
//! again. `ffi/flounder.h` has a C function for each operation. Nothing is dropped here, so that how a handle is
//! dropped is proved below alone.
//!
//! - `exports.rt`: what C calls; `shortcuts.rt`: what it calls most often
#![tactic(auto)]

mod exports;
mod shortcuts;

pub use exports::{
    flounder_make, flounder_make_image_ends, flounder_make_image_program, flounder_make_run,
    flounder_make_text_ends, flounder_make_text_program, flounder_use,
};
pub use shortcuts::{
    flounder_call, flounder_put, flounder_read, flounder_receive, flounder_send, flounder_take,
    flounder_take_call, flounder_write,
};
