//! How a drawing's parts look, and the legend that tells it.

use crate::canvas::{Canvas, Placed};
use flounder_svg::{Attribute, Tag};

/// The height of what stands under the last row: the lanes' names, and the legend.
pub(crate) const LEGEND_HEIGHT: u32 = 70;

/// The looks of all classes. Fragments differ by stroke as well as by colour.
pub(crate) const STYLE: &[u8] = b"
.chart{max-width:100%;height:auto}
text{font:10px ui-monospace,Menlo,Consolas,DejaVu Sans Mono,monospace;fill:#222}
.ground{fill:#fff}
.band{fill:#f6f6f6}
.core{fill:#e6e6e6;stroke:#999}
.name{text-anchor:middle;font-weight:bold}
.lane{stroke:#999}
.number{text-anchor:end;fill:#666}
.comment{fill:#595959;font-style:italic}
.answer{fill:#444;paint-order:stroke;stroke:#fafafa;stroke-width:8px;stroke-opacity:.8;stroke-linejoin:round}
.left{text-anchor:end}
.handled{fill:#000;font-weight:bold}
.answer.refused{fill:#b00020;text-decoration:underline}
.point{fill:#555}
.point.handled{fill:#000}
.point.refused{fill:#fff;stroke:#b00020;stroke-width:2}
.arrow{fill:none;stroke-width:1.5}
.call{stroke:#0b4f9e}
.ack{stroke:#2f7d32}
.monitor{stroke:#b35900}
.arrow.call{marker-end:url(#call)}
.arrow.ack{marker-end:url(#ack);stroke-dasharray:2 3}
.arrow.monitor{marker-end:url(#monitor);stroke-dasharray:7 3}
.head{stroke:none}
.head.call,.stands.call{fill:#0b4f9e}
.head.ack,.stands.ack{fill:#2f7d32}
.head.monitor,.stands.monitor{fill:#b35900}
.later{fill:#fff;stroke-width:1.5}
";

/// The arrows' heads, one for each colour, which arrows name.
pub(crate) fn draw_heads(canvas: &mut Canvas) {
    canvas.begin(Tag::Defs, &[], &[]);
    draw_head(canvas, b"call", b"head call");
    draw_head(canvas, b"ack", b"head ack");
    draw_head(canvas, b"monitor", b"head monitor");
    canvas.close();
}

fn draw_head(canvas: &mut Canvas, id: &'static [u8], class: &'static [u8]) {
    canvas.begin(
        Tag::Marker,
        &[
            (Attribute::Id, id),
            (Attribute::ViewBox, b"0 0 8 8"),
            (Attribute::Orient, b"auto"),
        ],
        &[
            (Attribute::RefX, 7),
            (Attribute::RefY, 4),
            (Attribute::MarkerWidth, 6),
            (Attribute::MarkerHeight, 6),
        ],
    );
    canvas.put(
        Tag::Path,
        &[(Attribute::Class, class), (Attribute::D, b"M0 0L8 4L0 8z")],
        &[],
    );
    canvas.close();
}

/// The legend, under the lanes' names.
pub(crate) fn draw_legend(canvas: &mut Canvas, bottom: u32) {
    canvas.open_group(b"group", b"legend");
    let y = bottom.saturating_add(36);
    draw_sample(canvas, b"arrow call", 12, y, b"call");
    draw_sample(canvas, b"arrow ack", 80, y, b"acknowledgement");
    draw_sample(canvas, b"arrow monitor", 214, y, b"monitor's message");
    let y = bottom.saturating_add(56);
    draw_mark(canvas, b"stands call", 32, y, b"left in a queue");
    draw_mark(canvas, b"later call", 162, y, b"taken by a later line");
    draw_mark(canvas, b"point refused", 328, y, b"refused or full");
    canvas.close();
}

// A dot with the looks of a kind of dot, and the kind's name.
fn draw_mark(canvas: &mut Canvas, class: &[u8], x: u32, y: u32, name: &[u8]) {
    canvas.dot(class, (x, y), 4);
    let at = Placed {
        class: b"line",
        x: x.saturating_add(12),
        y: y.saturating_add(4),
    };
    canvas.label(at, name, 24);
}

// A line with the looks of a kind of arrow, and the kind's name.
fn draw_sample(canvas: &mut Canvas, class: &[u8], x: u32, y: u32, name: &[u8]) {
    canvas.line(class, (x, y), (x.saturating_add(26), y));
    let at = Placed {
        class: b"line",
        x: x.saturating_add(32),
        y: y.saturating_add(4),
    };
    canvas.label(at, name, 20);
}
