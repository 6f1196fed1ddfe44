//! Arguments in C: a member, and the lines that move its numbers.

use crate::page::{MoveWay, Page};
use crate::types::{declare, declare_items, move_number, move_value};
use fl_interface::ArgType;

/// An argument's member.
pub(crate) fn declare_argument(page: &mut Page, argument: &ArgType, number: usize) {
    match argument {
        ArgType::Fixed(fixed) => declare(page, fixed, b" a", number),
        ArgType::Text(most) => {
            page.push(b"    struct {\n        uint32_t count;\n");
            page.push_numbered(b"        char bytes[", *most as usize);
            page.push_numbered(b"];\n    } a", number);
            page.push(b";\n");
        }
        ArgType::Sized(most, element) => {
            page.push(b"    struct {\n        uint32_t count;\n");
            page.open();
            declare_items(page, element, *most);
            page.close();
            page.push_numbered(b"    } a", number);
            page.push(b";\n");
        }
    }
}

// The lines that move a length, which may be so many at most.
fn move_length(page: &mut Page, most: u32, way: MoveWay) {
    match way {
        MoveWay::Put => {
            page.push(b"    if (");
            page.push_path();
            page.push_numbered(b".count > ", most as usize);
            page.push(b") return 0;\n    call[n++] = ");
            page.push_path();
            page.push(b".count;\n");
        }
        MoveWay::Get => {
            page.push(b"    ");
            page.push_path();
            page.push_numbered(b".count = fl_next_count(&tape, ", most as usize);
            page.push(b");\n");
        }
    }
}

/// The lines that move an argument's numbers.
pub(crate) fn move_argument(page: &mut Page, argument: &ArgType, number: usize, way: MoveWay) {
    page.argument(number);
    match argument {
        ArgType::Fixed(fixed) => move_value(page, fixed, way),
        ArgType::Text(most) => {
            move_length(page, *most, way);
            let mark = page.begin_loop(None, b".bytes");
            move_number(page, b"char", b"uint8_t", way);
            page.end_loop(mark);
        }
        ArgType::Sized(most, element) => {
            move_length(page, *most, way);
            let mark = page.begin_loop(None, b".items");
            move_value(page, element, way);
            page.end_loop(mark);
        }
    }
}
