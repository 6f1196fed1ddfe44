//! Worlds, over their public calls alone, with events as values. Worked rows stand in `test_program`, as scripts.
//!
//! - `steps.rt`: a world driven event by event and by a list, and worlds that are refused
//!
//! With any one allocation refused (`rt try --test --fail-alloc N`) all tests pass.

mod steps;
