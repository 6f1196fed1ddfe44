//! Fragments: an arrow from where each was put to where it was taken, or a dot where it stands.

use crate::canvas::Canvas;
use crate::drawing::Shown;
use crate::layout::{Layout, TOP, row_y};
use crate::run::{Carried, Passage, Run};
use flounder_svg::{Attribute, Tag};
use std::alloc::{AllocError, Global};

// How far from a lane's middle an arrow begins and ends.
const GAP: u32 = 4;
// How far from its lane a dot stands.
const AWAY: u32 = 15;

/// How a kind of fragment is called, and how it looks: its arrow, its dot where it was left, and its ring where
/// a later line takes it.
#[derive(Clone, Copy)]
struct Look {
    name: &'static str,
    arrow: &'static [u8],
    left: &'static [u8],
    later: &'static [u8],
    // Dots differ by size as well as by colour.
    radius: u32,
}

const CALL: Look = Look {
    name: "fragment of a call",
    arrow: b"arrow call",
    left: b"stands call",
    later: b"later call",
    radius: 4,
};

const ACKNOWLEDGEMENT: Look = Look {
    name: "acknowledgement",
    arrow: b"arrow ack",
    left: b"stands ack",
    later: b"later ack",
    radius: 3,
};

const MONITOR: Look = Look {
    name: "monitor's message",
    arrow: b"arrow monitor",
    left: b"stands monitor",
    later: b"later monitor",
    radius: 5,
};

fn look_of(carried: Carried) -> Look {
    match carried {
        Carried::Call => CALL,
        Carried::Acknowledgement => ACKNOWLEDGEMENT,
        Carried::MonitorMessage => MONITOR,
    }
}

/// Draws an arrow for each fragment that was taken in the rows that are shown.
pub(crate) fn draw_arrows(canvas: &mut Canvas, layout: &Layout<'_>, run: &Run<'_>, shown: Shown) {
    canvas.open_group(b"group", b"fragments that were taken");
    for passage in &run.passages {
        if let Some(row) = passage.taken {
            if shown.first <= row && row < shown.end {
                draw_arrow(canvas, layout, run, shown, passage, row);
            }
        }
    }
    canvas.close();
}

/// Draws a dot for each fragment that stood in a queue behind these rows.
pub(crate) fn draw_dots(canvas: &mut Canvas, layout: &Layout<'_>, run: &Run<'_>, shown: Shown) {
    canvas.open_group(b"group", b"fragments that were not taken");
    for passage in &run.passages {
        if is_left(passage, shown) {
            draw_dot(canvas, layout, run, shown, passage);
        }
    }
    canvas.close();
}

/// Counts at their lanes the fragments that were put before these rows and stood in a queue behind them: their
/// dots are all at one place.
pub(crate) fn count_above(layout: &mut Layout<'_>, run: &Run<'_>, shown: Shown) {
    for passage in &run.passages {
        if is_left(passage, shown) && passage.from.row < shown.first {
            layout.add_above(passage.from.actor, passage.toward);
        }
    }
}

// Whether a fragment stood in a queue behind the rows that are shown.
fn is_left(passage: &Passage, shown: Shown) -> bool {
    let is_taken = match passage.taken {
        Some(row) => row < shown.end,
        None => false,
    };
    passage.from.row < shown.end && !is_taken
}

// Where a row is; the top edge for one that stands before all that are shown.
fn height_of(shown: Shown, row: usize) -> u32 {
    if row < shown.first {
        return TOP - 4;
    }
    row_y(row - shown.first)
}

fn draw_arrow(
    canvas: &mut Canvas,
    layout: &Layout<'_>,
    run: &Run<'_>,
    shown: Shown,
    passage: &Passage,
    row: usize,
) {
    let Some(way) = way_of(layout, shown, passage) else {
        return;
    };
    let look = look_of(passage.carried);
    let path = path_of(canvas, way, height_of(shown, row));
    canvas.begin(
        Tag::Path,
        &[
            (Attribute::Class, look.arrow),
            (Attribute::Role, b"img"),
            (Attribute::D, path.as_bytes()),
        ],
        &[],
    );
    draw_title(canvas, run, look.name, passage);
    canvas.close();
}

fn draw_dot(
    canvas: &mut Canvas,
    layout: &Layout<'_>,
    run: &Run<'_>,
    shown: Shown,
    passage: &Passage,
) {
    let Some(way) = way_of(layout, shown, passage) else {
        return;
    };
    let look = look_of(passage.carried);
    let class = match passage.taken {
        Some(_later) => look.later,
        None => look.left,
    };
    canvas.begin(
        Tag::Circle,
        &[(Attribute::Class, class), (Attribute::Role, b"img")],
        &[
            (Attribute::CenterX, way.away(AWAY)),
            (Attribute::CenterY, way.y),
            (Attribute::Radius, look.radius),
        ],
    );
    draw_title(canvas, run, look.name, passage);
    canvas.close();
}

fn draw_title(canvas: &mut Canvas, run: &Run<'_>, name: &str, passage: &Passage) {
    let title = title_of(canvas.alloc, run, name, passage);
    let title = canvas.made(title);
    canvas.title(title.as_bytes());
}

// From where and to where a fragment goes, where both have lanes.
fn way_of(layout: &Layout<'_>, shown: Shown, passage: &Passage) -> Option<PassageWay> {
    let from = layout.lane(passage.from.actor)?;
    let to = layout.lane(passage.toward)?;
    Some(PassageWay {
        from: layout.lane_x(from),
        to: layout.lane_x(to),
        y: height_of(shown, passage.from.row),
    })
}

// What a fragment is, and the lines that put and took it.
fn title_of(
    alloc: Global,
    run: &Run<'_>,
    name: &str,
    passage: &Passage,
) -> Result<String, AllocError> {
    let put = number_of(run, passage.from.row);
    match passage.taken {
        Some(row) => {
            let taken = number_of(run, row);
            format!(in alloc; "{name}, put by line {put}, taken by line {taken}")
        }
        None => format!(in alloc; "{name}, put by line {put}, left in the queue"),
    }
}

// The number of a row's line.
fn number_of(run: &Run<'_>, row: usize) -> usize {
    match run.rows.get(row) {
        Some(row) => row.number,
        None => 0,
    }
}

// Between which lanes a fragment goes, and the height at which it was put.
#[derive(Clone, Copy)]
struct PassageWay {
    from: u32,
    to: u32,
    y: u32,
}

impl PassageWay {
    // A place so far from the first lane, toward the second.
    fn away(self, distance: u32) -> u32 {
        if self.to < self.from {
            self.from.saturating_sub(distance)
        } else {
            self.from.saturating_add(distance)
        }
    }
}

// A straight line; where a dispatcher takes what it put itself, a bow.
fn path_of(canvas: &mut Canvas, way: PassageWay, end: u32) -> String {
    let alloc = canvas.alloc;
    let y = way.y;
    let near = way.away(GAP);
    if way.from == way.to {
        let far = way.away(AWAY + AWAY);
        let bow = canvas.made(format!(in alloc; "C{far} {y} {far} {end}"));
        return canvas.made(format!(in alloc; "M{near} {y}{bow} {near} {end}"));
    }
    let back = PassageWay {
        from: way.to,
        to: way.from,
        y,
    };
    let stop = back.away(GAP + 1);
    canvas.made(format!(in alloc; "M{near} {y}L{stop} {end}"))
}
