//! A script's items.

use crate::rows::{ScriptCase, all_hold};
use fl_script_lines::{Item, Line, law_one_items, next_item};
use fl_value_data::PlanNo;
use std::alloc::{AllocError, Global};
use std::test::Fail;

// Scripts, and their items: s without an answer, c a command, u unread, 1 and 2 a block under a plan with its text
// behind it, o an open block.
struct ItemsRow(&'static [u8], &'static [u8]);

const SCRIPTS: &[ItemsRow] = &[
    ItemsRow(b"", b""),
    ItemsRow(b"\n\n", b"ss"),
    ItemsRow(b"# c\n \t\nturn d", b"ssc"),
    ItemsRow(b"turn d\n", b"c"),
    ItemsRow(b"turn d\r\nturn d\r\r\n", b"cu"),
    // a carriage return is dropped only directly before a line feed
    ItemsRow(b"turn d\r", b"u"),
    ItemsRow(
        b"idl\ninterface i {\n}\n.\nturn d\n",
        b"2(interface i {\n}\n)c",
    ),
    ItemsRow(
        b"idl 1\r\ninterface i { }\r\n.\r\n",
        b"1(interface i { }\r\n)",
    ),
    ItemsRow(b"idl\n.\n.\n", b"2()u"),
    ItemsRow(b"idl\n .\n..\n.", b"2( .\n..\n)"),
    ItemsRow(b"idl\n.\r", b"o"),
    ItemsRow(b"idl", b"o"),
    ItemsRow(b"idl\ninterface i { }\nturn d\n", b"o"),
    ItemsRow(b"idl 2\ninterface i { }\n.\n", b"uuu"),
];

fn push_item(told: &mut Vec<u8>, item: Item<'_>) -> Result<(), AllocError> {
    let letter = match item {
        Item::Line(Line::Silent) => b's',
        Item::Line(Line::Command(_)) => b'c',
        Item::Line(_) => b'u',
        Item::Block(PlanNo::One, _) => b'1',
        Item::Block(PlanNo::Two, _) => b'2',
        Item::OpenBlock => b'o',
    };
    told.push(letter)?;
    if let Item::Block(_, text) = item {
        told.push(b'(')?;
        told.extend_from_slice(text)?;
        told.push(b')')?;
    }
    Ok(())
}

fn items(alloc: Global, script: &[u8]) -> Result<Vec<u8>, AllocError> {
    let mut told = Vec::new(alloc);
    let mut rest = script;
    for _ in 0..script.len() {
        if rest.is_empty() {
            return Ok(told);
        }
        let (item, behind) = next_item(rest);
        push_item(&mut told, item)?;
        rest = behind;
    }
    Ok(told)
}

impl ScriptCase for ItemsRow {
    fn holds(&self, alloc: Global) -> Result<bool, Fail> {
        let told = items(alloc, self.0)?;
        Ok(told.as_slice() == self.1)
    }
}

#[test]
fn scripts_have_items(rt: HostRuntime) -> Result<(), Fail> {
    law_one_items();
    all_hold(rt.alloc(), "scripts", SCRIPTS)
}
