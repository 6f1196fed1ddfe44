//! The drawing of a run.

ghost use Rattle.std.specs.Prelude.{IfOk};
ghost use Rattle.flounder_svg.specs.Xml.{IsDocument};

use crate::canvas::{Canvas, Placed};
use crate::layout::{LabelSide, Lane, Layout, MOST_OF_NAME, ROW, TOP, row_y};
use crate::marks::{LEGEND_HEIGHT, STYLE, draw_heads, draw_legend};
use crate::passages::{count_above, draw_arrows, draw_dots};
use crate::run::{ChartRow, RowKind, Run};
use flounder_svg::{Attribute, Tag};
use std::alloc::{AllocError, Global};

/// The rows that are drawn: those at these places of the run.
#[derive(Clone, Copy)]
pub(crate) struct Shown {
    pub first: usize,
    pub end: usize,
}

/// Draws some rows of a run.
///
/// # Errors
/// Out of memory.
pub(crate) fn draw(alloc: Global, run: &Run<'_>, shown: Shown) -> Result<Vec<u8>, AllocError>
    ensures document { IfOk result (λ drawing. IsDocument drawing.items) }
{
    let end = shown.end.min(run.rows.len());
    let rows = &run.rows[shown.first.min(end)..end];
    let mut layout = Layout::new(alloc, run, rows);
    count_above(&mut layout, run, shown);
    if !layout.is_whole {
        return Err(AllocError);
    }
    draw_in(alloc, &layout, run, rows, shown)
}

// The same, within its places.
fn draw_in(
    alloc: Global,
    layout: &Layout<'_>,
    run: &Run<'_>,
    rows: &[ChartRow<'_>],
    shown: Shown,
) -> Result<Vec<u8>, AllocError>
    ensures document { IfOk result (λ drawing. IsDocument drawing.items) }
{
    let width = layout.width();
    let bottom = row_y(rows.len()).saturating_sub(ROW / 2);
    match Canvas::new(alloc, width, bottom.saturating_add(LEGEND_HEIGHT)) {
        Ok(canvas) => draw_on(canvas, layout, run, rows, shown),
        Err(error) => Err(error),
    }
}

// The same, on an empty drawing.
fn draw_on(
    mut canvas: Canvas,
    layout: &Layout<'_>,
    run: &Run<'_>,
    rows: &[ChartRow<'_>],
    shown: Shown,
) -> Result<Vec<u8>, AllocError>
    ensures document { IfOk result (λ drawing. IsDocument drawing.items) }
{
    describe(&mut canvas, layout, run, rows.len());
    draw_heads(&mut canvas);
    let bottom = row_y(rows.len()).saturating_sub(ROW / 2);
    draw_ground(&mut canvas, layout.width(), rows.len(), bottom);
    draw_lanes(&mut canvas, layout, bottom);
    draw_arrows(&mut canvas, layout, run, shown);
    draw_rows(&mut canvas, layout, rows);
    draw_dots(&mut canvas, layout, run, shown);
    draw_legend(&mut canvas, bottom);
    canvas.finish()
}

// What is said of the drawing to those who don't see it, and how its parts look.
fn describe(canvas: &mut Canvas, layout: &Layout<'_>, run: &Run<'_>, rows: usize) {
    canvas.text_in(
        Tag::Title,
        &[(Attribute::Id, b"title")],
        b"A script's run: who put which fragment, and who took it",
    );
    let lanes = layout.lanes.len();
    let passages = run.passages.len();
    let alloc = canvas.alloc;
    let text = canvas.made(format!(in alloc;
        "Lines: {rows}; lanes: {lanes}; fragments in the whole run: {passages}. Time goes down."
    ));
    canvas.text_in(Tag::Desc, &[(Attribute::Id, b"desc")], text.as_bytes());
    canvas.text_in(Tag::Style, &[], STYLE);
}

// The ground: white, and every second row a little darker, so that a line is followed to its lane.
fn draw_ground(canvas: &mut Canvas, width: u32, rows: usize, bottom: u32) {
    let height = bottom.saturating_add(LEGEND_HEIGHT);
    canvas.rectangle(b"ground", (0, 0), (width, height));
    for place in 0..rows {
        if place % 2 == 0 {
            let y = row_y(place).saturating_sub(ROW / 2);
            canvas.rectangle(b"band", (0, y), (width, ROW));
        }
    }
}

// The lanes, between their names, and the cores above those.
fn draw_lanes(canvas: &mut Canvas, layout: &Layout<'_>, bottom: u32) {
    canvas.open_group(b"group", b"lanes");
    let mut first = 0;
    for (place, lane) in layout.lanes.iter().enumerate() {
        let x = layout.lane_x(place);
        draw_lane(canvas, lane, x, bottom);
        if is_last_of_core(&layout.lanes, place, lane.core) {
            draw_core(canvas, lane.core, layout.lane_x(first), x);
            first = place.saturating_add(1);
        }
    }
    canvas.close();
}

// Whether the lane behind this one is of another core, or there is none.
fn is_last_of_core(lanes: &[Lane<'_>], place: usize, core: u32) -> bool {
    match lanes.get(place.saturating_add(1)) {
        Some(next) => next.core != core,
        None => true,
    }
}

fn draw_lane(canvas: &mut Canvas, lane: &Lane<'_>, x: u32, bottom: u32) {
    canvas.line(b"lane", (x, TOP - 8), (x, bottom));
    let class = b"name";
    let y = TOP - 14;
    canvas.label(Placed { class, x, y }, lane.name, MOST_OF_NAME);
    let y = bottom.saturating_add(13);
    canvas.label(Placed { class, x, y }, lane.name, MOST_OF_NAME);
    draw_count(canvas, b"left", x.saturating_sub(21), lane.left_above);
    draw_count(canvas, b"right", x.saturating_add(21), lane.right_above);
}

// How many dots stand at one place above the first row, where it is more than one.
fn draw_count(canvas: &mut Canvas, class: &'static [u8], x: u32, count: u32) {
    if count > 1 {
        let alloc = canvas.alloc;
        let digits = canvas.made(format!(in alloc; "{count}"));
        let y = TOP;
        canvas.label(Placed { class, x, y }, digits.as_bytes(), 8);
    }
}

// A core's name, over its lanes, of which the first and the last stand here.
fn draw_core(canvas: &mut Canvas, core: u32, first: u32, last: u32) {
    let left = first.saturating_sub(24);
    let width = last.saturating_add(24).saturating_sub(left);
    let alloc = canvas.alloc;
    let text = canvas.made(format!(in alloc; "core {core}"));
    canvas.rectangle(b"core", (left, 10), (width, 20));
    let name = Placed {
        class: b"name",
        x: left.saturating_add(width / 2),
        y: 24,
    };
    canvas.label(name, text.as_bytes(), MOST_OF_NAME);
}

fn draw_rows(canvas: &mut Canvas, layout: &Layout<'_>, rows: &[ChartRow<'_>]) {
    canvas.open_group(b"list", b"lines and answers");
    for (place, row) in rows.iter().enumerate() {
        let y = row_y(place);
        canvas.begin(Tag::Group, &[(Attribute::Role, b"listitem")], &[]);
        draw_line(canvas, layout, row, y.saturating_add(4));
        if let RowKind::Line = row.kind {
            draw_answer(canvas, layout, row, y);
        }
        canvas.close();
    }
    canvas.close();
}

// A line's number and its text, on this base.
fn draw_line(canvas: &mut Canvas, layout: &Layout<'_>, row: &ChartRow<'_>, y: u32) {
    let number = row.number;
    let alloc = canvas.alloc;
    let digits = canvas.made(format!(in alloc; "{number}"));
    let x = layout.text.saturating_sub(8);
    let class = b"number";
    canvas.label(Placed { class, x, y }, digits.as_bytes(), 8);
    let class: &'static [u8] = match row.kind {
        RowKind::Comment => b"comment",
        RowKind::Line => b"line",
    };
    let x = layout.text;
    canvas.label(Placed { class, x, y }, row.text, layout.text_columns(row));
}

// A row's answer beside its lane, where a point stands; beside its text where nobody acts.
fn draw_answer(canvas: &mut Canvas, layout: &Layout<'_>, row: &ChartRow<'_>, y: u32) {
    let tone = tone_of(row.answer);
    let most = layout.label_columns(row);
    let base = y.saturating_add(4);
    let Some(lane) = layout.row_lane(row) else {
        let at = Placed {
            class: tone.right,
            x: layout.behind_text(row),
            y: base,
        };
        return canvas.label(at, row.answer, most);
    };
    let x = layout.lane_x(lane);
    canvas.dot(tone.point, (x, y), 3);
    let raised = y.saturating_sub(3);
    let (class, x, y) = match layout.label_side(row) {
        LabelSide::Left => (tone.left, x.saturating_sub(7), base),
        LabelSide::Right => (tone.right, x.saturating_add(7), base),
        LabelSide::RaisedLeft => (tone.left, x.saturating_sub(7), raised),
        LabelSide::RaisedRight => (tone.right, x.saturating_add(7), raised),
    };
    canvas.label(Placed { class, x, y }, row.answer, most);
}

/// How an answer looks: the classes of its text, on the left of its lane and on the right, and of its point.
#[derive(Clone, Copy)]
struct Tone {
    left: &'static [u8],
    right: &'static [u8],
    point: &'static [u8],
}

const PLAIN: Tone = Tone {
    left: b"answer left",
    right: b"answer",
    point: b"point",
};

const HANDLED: Tone = Tone {
    left: b"answer handled left",
    right: b"answer handled",
    point: b"point handled",
};

const REFUSED: Tone = Tone {
    left: b"answer refused left",
    right: b"answer refused",
    point: b"point refused",
};

fn tone_of(answer: &[u8]) -> Tone {
    if answer.starts_with(b"handle") {
        return HANDLED;
    }
    if answer.starts_with(b"refused") || answer == b"full".as_slice() {
        return REFUSED;
    }
    PLAIN
}
