//! Where arguments end one after another.

ghost use Rattle.std.specs.Prelude.{◌≡◌, pos, ◌<◌, ◌≤◌, ◌+◌, ◌*◌, ◌^◌, ℕ, Some, map, length, get_or, true};
ghost use Rattle.std.specs.List.{list_all};
ghost use Rattle.fl_interface.specs.Sizes.{round_up};
ghost use Rattle.fl_layout.specs.declared.extent.Fill.TheVariants.{Full};
ghost use Rattle.fl_value_data.specs.Value.{number, datum_of};
ghost use Rattle.fl_layout.specs.Extents.{start_of, end_of, end_of_all, due_after, count_by, count_in, count_at, filled_up, filled_by};
ghost use Rattle.fl_layout.specs.Extents.{numbers_in, numbers_in_all, most_of, is_within, are_within, is_short, extent_among, start_among};
ghost use Rattle.fl_layout.specs.Extents.{IsFixedLength};

use crate::extent::{Extent, Fill, PlacedArg};
use fl_interface::next_multiple;
use fl_value_data::Value;

// Where an argument ends, and the alignment that is due after it.
#[derive(Clone, Copy)]
struct FilledEnd {
    at: usize,
    due: usize,
}

impl FilledEnd {
    // Where an argument begins that follows.
    fn start(self, extent: Extent) -> usize
        requires within { is_within extent ≡ true }
        requires some { 0 < self.due }
        requires few { self.due ≤ 8 }
        requires fits { self.at < 2 ^ 50 }
        ensures start { result ≡ start_of self.at self.due extent }
    {
        match extent {
            Extent::Fixed { align, .. } => next_multiple(self.at, self.due.max(align as usize)),
            _ => self.at.next_multiple_of(8),
        }
    }

    // Where it ends, with so many bytes or elements.
    fn after(self, extent: Extent, count: usize) -> FilledEnd
        requires within { is_within extent ≡ true }
        requires count { count ≤ 4096 }
        requires some { 0 < self.due }
        requires few { self.due ≤ 8 }
        requires fits { self.at < 2 ^ 50 }
        ensures at { result.at ≡ end_of self.at self.due extent count }
        ensures due { result.due ≡ due_after extent }
        ensures near { result.at ≤ self.at + 16777240 }
        ensures some_due { 0 < result.due }
        ensures few_due { result.due ≤ 8 }
    {
        match extent {
            Extent::Fixed { size, align, .. } => FilledEnd {
                at: next_multiple(self.at, self.due.max(align as usize)) + size as usize,
                due: 1,
            },
            Extent::Text { .. } => FilledEnd {
                at: self.at.next_multiple_of(8) + (8 + count),
                due: 8,
            },
            Extent::Sized { stride, .. } => FilledEnd {
                at: self.at.next_multiple_of(8) + (8 + count * stride as usize),
                due: 8,
            },
        }
    }
}

impl Fill {
    fn count(self, extent: Extent) -> usize
        requires within { is_within extent ≡ true }
        ensures exact { result ≡ count_by self extent }
        ensures few { result ≤ 4096 }
    {
        match self {
            Fill::Empty => 0,
            Fill::Full => match extent {
                Extent::Fixed { .. } => 0,
                Extent::Text { most } => most as usize,
                Extent::Sized { most, .. } => most as usize,
            },
        }
    }
}

/// Where the last of some arguments ends that are all filled alike.
pub(crate) fn limit(placed: &[PlacedArg], fill: Fill) -> usize
    requires few { length placed.now ≤ 160 }
    requires within { are_within placed.now ≡ true }
    ensures exact { result ≡ end_of_all 0 1 (map (filled_up fill) placed.now) }
    ensures small { result ≤ 2 ^ 40 }
{
    let mut end = FilledEnd { at: 0, due: 1 };
    for each in placed {
        end = end.after(each.extent, fill.count(each.extent));
    }
    end.at
}

// How many bytes of a string, or elements of an array, a value is.
fn count(value: &Value) -> usize
    ensures exact { result ≡ count_in (datum_of value.now) }
{
    match value {
        Value::Text(bytes) => bytes.len(),
        Value::List(values) => values.len(),
        _ => 0,
    }
}

// How many bytes or elements an argument has, of a call with these values.
fn count_among(values: &[Value], placed: PlacedArg) -> usize
    ensures exact { result ≡ count_at placed.extent (get_or (map datum_of values.now) placed.argument (number (pos 0))) }
{
    if !placed.extent.is_varying() {
        return 0;
    }
    match values.get(placed.argument as usize) {
        Some(value) => count(value),
        None => 0,
    }
}

/// Where the last of some arguments ends in each call; none where one is a string or a sized array.
pub(crate) fn fixed_length(placed: &[PlacedArg]) -> Option<usize>
    requires few { length placed.now ≤ 160 }
    requires within { are_within placed.now ≡ true }
    ensures exact { (n : ℕ) → result ≡ Some n → IsFixedLength placed.now n }
{
    let mut end = FilledEnd { at: 0, due: 1 };
    for argument in placed {
        if argument.extent.is_varying() {
            return None;
        }
        end = end.after(argument.extent, 0);
    }
    Some(end.at)
}

/// Where the last of some arguments ends in a call with these values.
pub(crate) fn length_with(placed: &[PlacedArg], values: &[Value]) -> usize
    requires few { length placed.now ≤ 160 }
    requires within { are_within placed.now ≡ true }
    requires short { list_all (is_short (map datum_of values.now)) placed.now ≡ true }
    ensures exact { result ≡ end_of_all 0 1 (map (filled_by (map datum_of values.now)) placed.now) }
{
    let mut end = FilledEnd { at: 0, due: 1 };
    for each in placed {
        end = end.after(each.extent, count_among(values, *each));
    }
    end.at
}

/// The extent of an argument by its number.
pub(crate) fn extent_among(placed: &[PlacedArg], argument: usize) -> Option<Extent>
    ensures exact { result ≡ extent_among argument placed.now }
{
    for each in placed {
        if each.argument as usize == argument {
            return Some(each.extent);
        }
    }
    None
}

/// Where an argument begins, by its number; none where a string or a sized array stands before it.
pub(crate) fn start_among(placed: &[PlacedArg], argument: usize) -> Option<usize>
    requires few { length placed.now ≤ 160 }
    requires within { are_within placed.now ≡ true }
    ensures exact { result ≡ start_among argument 0 1 placed.now }
{
    let mut end = FilledEnd { at: 0, due: 1 };
    for each in placed {
        if each.argument as usize == argument {
            return Some(end.start(each.extent));
        }
        if each.extent.is_varying() {
            return None;
        }
        end = end.after(each.extent, 0);
    }
    None
}

// How many numbers of a tape an argument has at most.
fn most_numbers(extent: Extent) -> usize
    requires within { is_within extent ≡ true }
    ensures exact { result ≡ numbers_in extent (most_of extent) }
    ensures small { result ≤ 16777240 }
{
    match extent {
        Extent::Fixed { numbers, .. } => numbers as usize,
        Extent::Text { most } => 1 + most as usize,
        Extent::Sized { most, numbers, .. } => 1 + most as usize * numbers as usize,
    }
}

/// How many numbers a tape of some arguments has at most.
pub(crate) fn tape_limit(placed: &[PlacedArg]) -> usize
    requires few { length placed.now ≤ 160 }
    requires within { are_within placed.now ≡ true }
    ensures exact { result ≡ numbers_in_all (map (filled_up Full) placed.now) }
{
    let mut numbers = 0;
    for each in placed {
        numbers += most_numbers(each.extent);
    }
    numbers
}
