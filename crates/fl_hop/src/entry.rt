//! Where an entry leads, and how entries are kept.

ghost use Rattle.std.specs.Prelude.{◌≡◌, ◌==◌, ◌≤◌, ◌*◌, ◌++◌, ℕ, length, replicate, OnOk, OnErr};
ghost use Rattle.std.specs.List.{list_any};
ghost use Rattle.slab.specs.Slab.{entries};
ghost use Rattle.fl_hop.specs.declared.entry.Entry.{Entry};
ghost use Rattle.fl_hop.specs.declared.entry.Cell.TheVariants.{Free};
ghost use Rattle.fl_hop.specs.Slots.{from_client, from_server, cell_of, with_cell, Entered};

use crate::numbers::NUMBERS;
use fl_base::{Circuit, EndId, LinkId};
use slab::Slab;
use std::alloc::AllocError;

/// Where an entry leads.
#[derive(Clone, Copy, Debug, PartialEq, Eq)]
pub enum HopTarget {
    /// On, over a link of this core, under a number there.
    Link(LinkId, Circuit),
    /// To an end at this core.
    End(EndId),
}

/// What an entry says, read from one of its sides.
#[derive(Clone, Copy, Debug, PartialEq, Eq)]
pub struct Hop {
    /// The binding whose circuit this is.
    pub binding: usize,
    /// The entry's other side.
    pub way: HopTarget,
    /// Whether the opening was answered here, by [`Circuits::answer`](crate::Circuits::answer).
    pub answered: bool,
}

// An entry: two sides, each leading to the other.
#[derive(Clone, Copy)]
pub(crate) struct Entry {
    pub(crate) binding: usize,
    pub(crate) client: HopTarget,
    pub(crate) server: HopTarget,
    pub(crate) answered: bool,
}

// What stands at a number of a link: nothing, or the client's or the server's side of the entry with this key.
#[derive(Clone, Copy)]
pub(crate) enum Cell {
    Free,
    ClientSide(usize),
    ServerSide(usize),
}

impl Entry {
    #[inline]
    pub(crate) fn from_client(&self) -> Hop
        ensures { result ≡ from_client self.now }
    {
        Hop {
            binding: self.binding,
            way: self.server,
            answered: self.answered,
        }
    }

    #[inline]
    pub(crate) fn from_server(&self) -> Hop
        ensures { result ≡ from_server self.now }
    {
        Hop {
            binding: self.binding,
            way: self.client,
            answered: self.answered,
        }
    }
}

// What stands at a number of a link.
#[inline]
pub(crate) fn cell_at(cells: &[Cell], link: LinkId, circuit: Circuit) -> Cell
    ensures { result ≡ cell_of cells.now link.0 circuit.0 }
{
    let number = usize::from(circuit.0);
    if number >= NUMBERS {
        return Cell::Free;
    }
    match cells.get(NUMBERS * usize::from(link.0) + number) {
        Some(cell) => *cell,
        None => Cell::Free,
    }
}

// Puts a cell at a way's own number; a way to an end has none.
pub(crate) fn put_cell(cells: &mut Vec<Cell>, way: HopTarget, cell: Cell)
    ensures { cells.new.items ≡ with_cell way cell cells.old.items }
{
    if let HopTarget::Link(link, circuit) = way {
        let place = NUMBERS * usize::from(link.0) + usize::from(circuit.0);
        if place < cells.len() {
            cells[place] = cell;
        }
    }
}

// Empties the numbers of two ways.
pub(crate) fn clear(cells: &mut Vec<Cell>, way: HopTarget, other: HopTarget)
    ensures { cells.new.items ≡ with_cell other Free (with_cell way Free cells.old.items) }
{
    put_cell(cells, way, Cell::Free);
    put_cell(cells, other, Cell::Free);
}

// Makes the cells of one more link, all free.
pub(crate) fn add_cells(cells: &mut Vec<Cell>) -> Result<(), AllocError>
    requires { length cells.old.items ≤ 2047 * 14 }
    ensures added { OnOk result (cells.new.items ≡ cells.old.items ++ replicate 2047 Free) }
    ensures kept { OnErr result (cells.new.items ≡ cells.old.items) }
{
    let count = cells.as_slice().len();
    cells.resize(count + NUMBERS, Cell::Free)
}

// Puts an entry into the slab, and its sides into the cells.
pub(crate) fn enter(
    cells: &mut Vec<Cell>,
    entries: &mut Slab<Entry>,
    entry: Entry,
) -> Result<(), AllocError>
    ensures entered { OnOk result (Entered entry cells.old.items entries.old cells.new.items entries.new) }
    ensures cells { OnErr result (cells.new.items ≡ cells.old.items) }
    ensures entries { OnErr result (entries.new ≡ record entries.old { capacity = entries.new.capacity }) }
{
    let Ok(key) = entries.insert(entry) else {
        return Err(AllocError);
    };
    put_cell(cells, entry.client, Cell::ClientSide(key));
    put_cell(cells, entry.server, Cell::ServerSide(key));
    Ok(())
}

// Whether an entry of this binding is kept.
pub(crate) fn is_kept(kept: &Slab<Entry>, binding: usize) -> bool
    ensures any { result ≡ list_any (λ (e : ℕ × Entry). e.1.binding == binding) (entries kept.now) }
{
    for (_, entry) in kept.iter() {
        if entry.binding == binding {
            return true;
        }
    }
    false
}
