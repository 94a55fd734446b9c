//! What the launchers of sites say to a rank that they started, and what ranks tell one another through them: the words
//! of their lines, a rank's place as a text, and by which way a process has its place.
#![tactic(auto)]

mod answer;
mod cut;
mod lengths;
mod place;
mod ports;
mod records;
mod way;
mod words;

pub use answer::{Answer, Wire, answer_in, is_version};
pub use lengths::record_length;
pub use place::{ToldPlace, place_text, read_place};
pub use ports::{PortRange, port_range};
pub use records::{ToldPlaceRecord, WayRecord, put};
pub use way::{Fault, LauncherPlace, Way, way_of};
pub use words::value_of;
