//! Where a drawing has its lanes and rows.

use crate::cutting::columns;
use crate::flows::CORES;
use crate::run::{Actor, ChartRow, RowKind, Run};
use std::alloc::Global;

/// The width of a letter.
pub(crate) const LETTER: u32 = 6;
/// The height of a row.
pub(crate) const ROW: u32 = 18;
/// Where the lanes begin, under their names.
pub(crate) const TOP: u32 = 62;
// Where a line's text begins, behind its number of up to four digits.
const TEXT: u32 = 36;
// The same behind a number of up to seven.
const FAR_TEXT: u32 = 54;
/// The most letters of a line's text that are shown.
const MOST_OF_LINE: usize = 40;
/// Where there are comments, they have room for so many letters at least.
const LEAST_OF_COMMENT: usize = 40;
/// The most letters for which an answer that tells a handled call makes room.
const MOST_OF_HANDLED: usize = 32;
/// The same for all other answers.
const MOST_OF_ANSWER: usize = 20;
/// The most letters of a dispatcher's name that are shown.
pub(crate) const MOST_OF_NAME: usize = 16;
// What stays free around a label.
const AIR: u32 = 14;
// What stays free between a line's text and an answer behind it.
const BETWEEN: u32 = 2 * LETTER;
// The least way between two lanes.
const LEAST_GAP: u32 = 96;
// The legend's width.
const LEAST_WIDTH: u32 = 480;

/// A lane: who acts in it, on which core.
#[derive(Clone, Copy)]
pub(crate) struct Lane<'a> {
    pub actor: Actor,
    pub core: u32,
    pub name: &'a [u8],
    /// How many dots stand above the first row, left of the lane and right of it.
    pub left_above: u32,
    pub right_above: u32,
}

/// On which side of its lane an answer stands. Where arrows are on both, it is raised on the side to which
/// the second goes, since that goes down.
#[derive(Clone, Copy)]
pub(crate) enum LabelSide {
    Left,
    Right,
    RaisedLeft,
    RaisedRight,
}

/// The places of a drawing.
#[derive(Drop)]
pub(crate) struct Layout<'a> {
    pub lanes: Vec<Lane<'a>>,
    /// The lane of each dispatcher.
    dispatcher_lanes: Vec<usize>,
    /// The lane of each core's monitor, if it has one.
    monitor_lanes: Vec<Option<usize>>,
    /// The ways left of each lane, and right of the last. The first way has the lines' texts, too.
    gaps: Vec<u32>,
    /// Where the lines' texts begin.
    pub text: u32,
    /// Whether memory was never refused.
    pub is_whole: bool,
}

// A number of columns, as pixels.
fn pixels(columns: usize) -> u32 {
    let columns = u32::try_from(columns).unwrap_or(u32::MAX);
    columns.saturating_mul(LETTER)
}

impl<'a> Layout<'a> {
    /// The places for these rows of a run; some are missing where memory was refused.
    pub(crate) fn new(alloc: Global, run: &Run<'a>, rows: &[ChartRow<'a>]) -> Layout<'a> {
        let mut layout = Layout {
            lanes: Vec::new(alloc),
            dispatcher_lanes: Vec::new(alloc),
            monitor_lanes: Vec::new(alloc),
            gaps: Vec::new(alloc),
            text: text_x(rows),
            is_whole: true,
        };
        for _dispatcher in &run.dispatchers {
            let is_kept = layout.dispatcher_lanes.push(0).is_ok();
            layout.is_whole = layout.is_whole && is_kept;
        }
        for core in 0..CORES {
            layout.make_dispatchers(run, core);
            layout.make_monitor(run, core);
        }
        layout.make_gaps();
        for row in rows {
            layout.make_room(row);
        }
        layout
    }

    // Adds a lane behind all others, and says which it is.
    fn add(&mut self, lane: Lane<'a>) -> usize {
        let place = self.lanes.len();
        let is_kept = self.lanes.push(lane).is_ok();
        self.is_whole = self.is_whole && is_kept;
        place
    }

    // The lanes of a core's dispatchers.
    fn make_dispatchers(&mut self, run: &Run<'a>, core: u32) {
        for (place, dispatcher) in run.dispatchers.iter().enumerate() {
            if dispatcher.core == core {
                let added = self.add(Lane {
                    actor: Actor::Dispatcher(place),
                    core,
                    name: dispatcher.name,
                    left_above: 0,
                    right_above: 0,
                });
                if let Some(lane) = self.dispatcher_lanes.get_mut(place) {
                    *lane = added;
                }
            }
        }
    }

    // The lane of a core's monitor, where a link leads to it.
    fn make_monitor(&mut self, run: &Run<'a>, core: u32) {
        let mut lane = None;
        if run.linked.contains(&core) {
            lane = Some(self.add(Lane {
                actor: Actor::Monitor(core),
                core,
                name: b"monitor",
                left_above: 0,
                right_above: 0,
            }));
        }
        let is_kept = self.monitor_lanes.push(lane).is_ok();
        self.is_whole = self.is_whole && is_kept;
    }

    fn make_gaps(&mut self) {
        let mut before = 0;
        for lane in &self.lanes {
            let name = columns(lane.name).min(MOST_OF_NAME);
            let half = (pixels(name) / 2).saturating_add(AIR / 2);
            let gap = half.saturating_add(before).max(LEAST_GAP);
            let is_kept = self.gaps.push(gap).is_ok();
            self.is_whole = self.is_whole && is_kept;
            before = half;
        }
        let is_kept = self.gaps.push(before.max(2 * AIR)).is_ok();
        self.is_whole = self.is_whole && is_kept;
    }

    // Makes room for a row's text and answer.
    fn make_room(&mut self, row: &ChartRow<'a>) {
        let text = pixels(shown_columns(row)).saturating_add(AIR);
        self.widen(0, text);
        if let RowKind::Line = row.kind {
            let most = if row.answer.starts_with(b"handle") {
                MOST_OF_HANDLED
            } else {
                MOST_OF_ANSWER
            };
            let answer = pixels(columns(row.answer).min(most)).saturating_add(AIR);
            let gap = self.label_gap(row);
            self.widen(gap, answer.saturating_add(taken_before(gap, row)));
        }
    }

    fn widen(&mut self, gap: usize, wanted: u32) {
        if let Some(gap) = self.gaps.get_mut(gap) {
            *gap = (*gap).max(wanted);
        }
    }

    // The gap in which a row's answer stands.
    fn label_gap(&self, row: &ChartRow<'a>) -> usize {
        let Some(lane) = self.row_lane(row) else {
            return 0;
        };
        match self.label_side(row) {
            LabelSide::Left | LabelSide::RaisedLeft => lane,
            LabelSide::Right | LabelSide::RaisedRight => lane.saturating_add(1),
        }
    }

    /// The letters that a row's answer has room for.
    pub(crate) fn label_columns(&self, row: &ChartRow<'a>) -> usize {
        let gap = self.label_gap(row);
        let whole = self.gaps.get(gap).copied().unwrap_or(0);
        let free = whole
            .saturating_sub(AIR)
            .saturating_sub(taken_before(gap, row));
        (free / LETTER) as usize
    }

    /// The letters that a row's text has room for: it may go on to the first lane where no answer is before that.
    pub(crate) fn text_columns(&self, row: &ChartRow<'a>) -> usize {
        let is_alone = match row.kind {
            RowKind::Comment => true,
            RowKind::Line => self.label_gap(row) > 0,
        };
        if !is_alone {
            return MOST_OF_LINE;
        }
        let whole = self.gaps.first().copied().unwrap_or(0);
        (whole.saturating_sub(AIR) / LETTER) as usize
    }

    /// Where an answer stands in whose row nobody acts: behind the line's text.
    pub(crate) fn behind_text(&self, row: &ChartRow<'a>) -> u32 {
        taken_before(0, row).saturating_add(self.text)
    }

    /// Where an answer stands: away from the row's arrows, and from those between the lanes where it can.
    pub(crate) fn label_side(&self, row: &ChartRow<'a>) -> LabelSide {
        let Some(lane) = self.row_lane(row) else {
            return LabelSide::Right;
        };
        let source = self.lane_of(row.source);
        let goal = self.lane_of(row.goal);
        let left = is_before(source, lane) || is_before(goal, lane);
        let right = is_behind(source, lane) || is_behind(goal, lane);
        let is_last = lane.saturating_add(1) == self.lanes.len();
        match (left, right) {
            (true, true) => {
                if is_before(goal, lane) {
                    LabelSide::RaisedLeft
                } else {
                    LabelSide::RaisedRight
                }
            }
            (true, false) => LabelSide::Right,
            (false, true) => LabelSide::Left,
            (false, false) => {
                if lane == 0 && !is_last {
                    LabelSide::Left
                } else {
                    LabelSide::Right
                }
            }
        }
    }

    /// The lane of an actor.
    pub(crate) fn lane(&self, actor: Actor) -> Option<usize> {
        match actor {
            Actor::Dispatcher(place) => self.dispatcher_lanes.get(place).copied(),
            Actor::Monitor(core) => *self.monitor_lanes.get(core as usize)?,
        }
    }

    fn lane_of(&self, actor: Option<Actor>) -> Option<usize> {
        self.lane(actor?)
    }

    /// The lane of a row, if anyone acts in it.
    pub(crate) fn row_lane(&self, row: &ChartRow<'a>) -> Option<usize> {
        self.lane_of(row.actor)
    }

    /// Counts the dot of a fragment that stands above the first row.
    pub(crate) fn add_above(&mut self, from: Actor, toward: Actor) {
        let (Some(from), Some(to)) = (self.lane(from), self.lane(toward)) else {
            return;
        };
        if let Some(lane) = self.lanes.get_mut(from) {
            if to < from {
                lane.left_above = lane.left_above.saturating_add(1);
            } else {
                lane.right_above = lane.right_above.saturating_add(1);
            }
        }
    }

    /// Where a lane is, from the left.
    pub(crate) fn lane_x(&self, lane: usize) -> u32 {
        let mut x = self.text;
        for (place, gap) in self.gaps.iter().enumerate() {
            if place <= lane {
                x = x.saturating_add(*gap);
            }
        }
        x
    }

    /// The drawing's width; the legend has room.
    pub(crate) fn width(&self) -> u32 {
        let lanes = self.lane_x(self.lanes.len()).saturating_add(8);
        lanes.max(LEAST_WIDTH)
    }
}

fn is_before(other: Option<usize>, lane: usize) -> bool {
    match other {
        Some(other) => other < lane,
        None => false,
    }
}

fn is_behind(other: Option<usize>, lane: usize) -> bool {
    match other {
        Some(other) => lane <= other,
        None => false,
    }
}

// The letters for which a row's text makes room.
fn shown_columns(row: &ChartRow<'_>) -> usize {
    match row.kind {
        RowKind::Comment => columns(row.text).min(LEAST_OF_COMMENT),
        RowKind::Line => columns(row.text).min(MOST_OF_LINE),
    }
}

// What a row's text takes of the way in which its answer stands, with what stays free between the two.
fn taken_before(gap: usize, row: &ChartRow<'_>) -> u32 {
    if gap > 0 {
        return 0;
    }
    pixels(shown_columns(row)).saturating_add(BETWEEN)
}

// Where the texts of these rows begin.
fn text_x(rows: &[ChartRow<'_>]) -> u32 {
    match rows.last() {
        Some(row) if row.number > 9_999 => FAR_TEXT,
        _ => TEXT,
    }
}

/// The middle of a row, from the top.
pub(crate) fn row_y(place: usize) -> u32 {
    let place = u32::try_from(place).unwrap_or(u32::MAX);
    place.saturating_mul(ROW).saturating_add(TOP + ROW / 2)
}
