//! The words by which users of other MPIs start ranks, as the words that `run_plan` and `launch_plan` read: options in
//! front, each by one name, and behind them sets that begin with `-n`.
#![tactic(auto)]

mod fault;
mod nearest;
mod pieces;
mod reading;
mod steps;
mod symbol;
mod variables;

pub use fault::{Trouble, WordFault};
pub use nearest::nearest_option;
pub use reading::{
    Asked, arguments_stay, exported_places, idle_places, option_words, own_words, read_words,
    set_words,
};
pub use variables::Variable;
