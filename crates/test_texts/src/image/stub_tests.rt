//! The stubs of programs that were read from images give the fragments of their image's plan.

use crate::image::images::{MIXED, image_of};
use crate::rows::{TextCase, all_hold};
use fl_base::{Circuit, Frag, MsgNo};
use fl_compile::Program;
use fl_image::read_image;
use fl_machine::SendRun;
use fl_value_data::PlanNo;
use std::alloc::Global;
use std::test::Fail;

// A plan, a tape, and the words of the one fragment that is sent of it.
struct OneFragment(PlanNo, &'static [u64], [u64; 7]);

// m(1, "hi", 5)
const SENT: &[OneFragment] = &[
    // in declared order, the string at a multiple of 8 and what follows it at the next
    OneFragment(
        PlanNo::One,
        &[1, 2, 104, 105, 5],
        [1, 2, 0x6968, 5, 0, 0, 0],
    ),
    // the numbers first, the greater one before the smaller
    OneFragment(
        PlanNo::Two,
        &[5, 1, 2, 104, 105],
        [0x0001_0005, 2, 0x6968, 0, 0, 0, 0],
    ),
];

// Whether a program's send code gives the row's fragment of its tape, and nothing behind it.
fn is_sent(alloc: Global, program: &Program, row: &OneFragment) -> Result<bool, Fail> {
    let Some(code) = program.send_code(MsgNo(0)) else {
        return Ok(false);
    };
    let tape = Vec::from_slice(alloc, row.1)?;
    let mut run = SendRun::start(code, MsgNo(0), Circuit(0), tape);
    let frag = Frag {
        words: row.2,
        control: 2,
    };
    Ok(run.next_frag(code) == Some(frag) && run.next_frag(code).is_none())
}

// The program of the text goes by way of its image under the plan.
impl TextCase for OneFragment {
    fn holds(&self, alloc: Global) -> Result<bool, Fail> {
        let image = image_of(alloc, MIXED, self.0)?;
        let program = read_image(alloc, &image)?;
        is_sent(alloc, &program, self)
    }
}

#[test]
fn fragments_under_both_plans(rt: HostRuntime) -> Result<(), Fail> {
    all_hold(rt.alloc(), "plans", SENT)
}
