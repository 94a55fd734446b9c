//! What a rank is to the machine: its calls, its requests, and the messages that it has and wants.
//!
//! A core knows frames as values, ranks and endpoints; it knows no number of a frame, no byte of a datagram and no
//! clock.
//! Each event is looked at first, which finds the rule that it breaks; then what it needs is made ready, which may want
//! memory; and then it is done, which cannot fail. Until it is done the core stays as it was.
#![tactic(auto)]

mod answering_frames;
mod arrivals;
mod looks;
mod message_receives;
mod news_preparation;
mod payload_transfers;
mod probes;
mod rank;
mod receives;
mod rules;
mod sends;
mod waits;

pub use point_to_point_calls::{
    AddressedSend, HandedBack, MessageReceive, News, PreparedNews, Refusal, RoutedProbe,
    RoutedReceive, RoutedSend, SoughtProbe, SoughtReceive, address, show_widths,
};
pub use rank::Core;
pub use rules::{faults_are_cut, rule_of_probe, rule_of_receive, rule_of_region};
