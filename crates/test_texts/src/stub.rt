//! Which instructions are code, which code interfaces have, and what send and receive runs give and take, by
//! rows from outside.

mod compile_tests;
mod recv_tests;
mod send_tests;
mod steps_tests;
mod verify_tests;
