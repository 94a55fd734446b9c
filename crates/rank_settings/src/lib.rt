//! The words of the rank program, and the settings that they give.
#![tactic(auto)]

mod faults;
mod place;
mod program;
mod refusal;
mod settings;
mod words;

pub use faults::{Wanted, WordFault, asks_for_help, fault_in};
pub use place::settings_in;
pub use refusal::SettingsRefusal;
pub use settings::Settings;
pub use words::settings_of;
