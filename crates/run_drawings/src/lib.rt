//! A run as a drawing: a line of life for each rank, an arrow for each way of a datagram, and what was called and
//! answered beside them.
//!
//! A picture is kept as data. Two writers lay it out: one as SVG, for a browser, and one in characters, for a terminal.
#![tactic(auto)]

mod arrows;
mod cells;
mod columns;
mod elements;
mod labels;
mod layout;
mod lives;
mod notes;
mod picture;
mod svg;
mod terminal;
mod waits;

pub use picture::{
    Arrival, Arrow, Change, CycleWait, Delivery, Emission, Note, Picture, Row, Tone,
};
pub use svg::svg_of;
pub use terminal::text_of;
