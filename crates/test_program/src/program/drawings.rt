//! Examples with their drawings, by what `cksum` prints of each: `examples/check` tells where they differ.

use crate::program::scripts::ScriptRow;
use crate::rows::ProgramCase;
use fl_world::World;
use flounder_chart::{Lines, chart_script};
use std::alloc::Global;
use std::test::Fail;

/// The lines of a script that are drawn (from 0 to 0: all), and the drawing's sum and bytes.
pub struct Drawing(pub usize, pub usize, pub u32, pub usize);

/// A script of `examples/`, its transcript and its drawing.
pub struct Example(pub ScriptRow, pub Drawing);

// A sum with one more byte: the rest of a division, bit by bit.
fn added(sum: u32, byte: u8) -> u32 {
    let mut rest = sum ^ (u32::from(byte) * 0x100_0000);
    for _bit in 0..8 {
        let is_high = rest >= 0x8000_0000;
        rest = rest.wrapping_mul(2);
        if is_high {
            rest ^= 0x04c1_1db7;
        }
    }
    rest
}

// The sum that `cksum` prints of these bytes: of them and of their number.
fn sum_of(bytes: &[u8]) -> u32 {
    let mut sum = 0;
    for byte in bytes {
        sum = added(sum, *byte);
    }
    let mut rest = bytes.len();
    for _digit in 0..8 {
        if rest > 0 {
            sum = added(sum, (rest % 256) as u8);
            rest /= 256;
        }
    }
    !sum
}

impl Drawing {
    fn is_of(&self, alloc: Global, script: &[u8]) -> Result<bool, Fail> {
        let drawing = chart_script::<World>(alloc, script, Lines::new(self.0, self.1))?;
        Ok(drawing.len() == self.3 && sum_of(&drawing) == self.2)
    }
}

impl ProgramCase for Example {
    fn holds(&self, alloc: Global) -> Result<bool, Fail> {
        Ok(self.0.holds(alloc)? && self.1.is_of(alloc, self.0.0)?)
    }
}
