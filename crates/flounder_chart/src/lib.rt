//! A drawing of a script's run, as SVG.
//!
//! Contract for the program: [`chart_script`] gives a well-formed document (`specs/Xml.antt` of
//! `flounder_svg`), and says when not.
//!
//! - `chart.rt`: [`chart_script`]; `chosen.rt`: which lines; `fault.rt`: why there is no drawing
//! - `reading.rt`, `tracing.rt`, `flows.rt`, `run.rt`: what happened, told by the script's lines and answers
//! - `layout.rt`, `cutting.rt`: where lanes, rows and texts are
//! - `drawing.rt`, `passages.rt`, `marks.rt`: what is drawn; `canvas.rt`: on what
#![tactic(auto)]

mod canvas;
mod chart;
mod chosen;
mod cutting;
mod drawing;
mod fault;
mod flows;
mod layout;
mod marks;
mod passages;
mod reading;
mod run;
mod tracing;

pub use chart::{MAX_ROWS, chart_script};
pub use chosen::Lines;
pub use fault::ChartFault;
