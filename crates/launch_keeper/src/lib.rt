//! What the launcher and its keepers share: words, a keeper's words, what it
//! does after its program has ended, what it reports and what it tells, and the outputs of the ranks as one text.
#![tactic(auto)]

mod ending;
mod error_lines;
mod joined;
mod keeper;
mod report;
mod role;
mod word;
mod words;

pub use ending::{ProgramEnding, launch_status};
pub use error_lines::{EndingLine, LostKeeperLine, TakenPortsLine, UnstartedKeeperLine};
pub use joined::{join, join_from};
pub use keeper::{After, Keeper};
pub use report::Report;
pub use role::{KeeperRole, keeper_words, kept_rank};
pub use word::Word;
pub use words::Words;
