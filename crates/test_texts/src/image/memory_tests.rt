//! Images are read and written, or memory was refused, and then they are at the second try.

use crate::image::images::PING_TWO;
use fl_compile::Program;
use fl_image::{ImageFault, is_writable, read_image, write_image};
use std::alloc::Global;

// Whether the image of `ping` is read and written again; where memory is refused, at the second try.
fn is_read_and_written(alloc: Global) -> bool {
    let program = match read_image(alloc, &PING_TWO) {
        Err(ImageFault::Memory) => read_image(alloc, &PING_TWO),
        outcome => outcome,
    };
    match program {
        Ok(program) => is_written(alloc, &program),
        Err(_) => false,
    }
}

fn is_written(alloc: Global, program: &Program) -> bool {
    if !is_writable(program.interface()) {
        return false;
    }
    let image = match write_image(alloc, program) {
        Err(_no_memory) => write_image(alloc, program),
        image => image,
    };
    match image {
        Ok(image) => image.as_slice() == PING_TWO.as_slice(),
        Err(_no_memory) => false,
    }
}

#[test]
fn images_without_memory(rt: HostRuntime) {
    assert!(rt; is_read_and_written(rt.alloc()));
}
