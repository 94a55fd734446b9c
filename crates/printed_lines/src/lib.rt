//! The texts of answers and of datagrams that went out, and the lines that scripts print.
//!
//! A value that is written lends what it tells of, and each text is stated byte by byte. The texts are this project's
//! own.
#![tactic(auto)]

mod answers;
mod communicators;
mod emissions;
mod lines;
mod outcomes;
mod statuses;

pub use answers::AnswerText;
pub use communicators::{CommunicatorText, ComparisonText, MembersText, PositionText};
pub use emissions::{EmissionText, EndpointText, FrameKind, LoadText, RouteText};
pub use lines::{
    comparison_line, count_line, elements_line, error_line, error_lines, members_line, none_line,
    pending_line, position_line, status_line, words_line,
};
pub use outcomes::{ElementsText, OutcomeText, OutcomesText};
pub use statuses::{CountText, MessageText, SourceText, StatusText, TagText};
