//! The compiler: for each message of an interface, send and receive code under a plan.
//!
//! Contract for the layers above: [`compile`] gives exactly the stated code (`specs/Compiled.antt`), which
//! turns the tape of a fitting call into its payload, and takes nothing but these back (`specs/Laws.antt`).
//!
//! - `types.rt`: the code of types
//! - `arguments.rt`: the code of arguments, one after another
//! - `order.rt`: the plan's order of arguments
//! - `compiler.rt`: [`compile`]
//! - `program.rt`: [`Program`]
//! - `law.rt`: what the code does
#![tactic(auto)]

mod arguments;
mod compiler;
mod law;
mod order;
mod program;
mod types;

pub use compiler::compile;
pub use law::{
    law_codes_move_alike, law_compiles_to_code, law_one_fault, law_sends_calls, law_spreads_calls,
    law_takes_calls, law_tells_faults,
};
pub use program::Program;
