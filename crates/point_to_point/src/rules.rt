//! Which rules calls break by what they hand in, and the law that joins them with the other faults.

ghost use Rattle.std.specs.Prelude.{◌≡◌};
ghost use Rattle.point_to_point.specs.Calls.{IsCutFault};
ghost use Rattle.point_to_point.specs.CoreState.{CoreState};
ghost use Rattle.point_to_point.specs.Messages.{probe_rule, region_rule};
ghost use Rattle.point_to_point.specs.Receives.{receive_rule};
ghost use Rattle.point_to_point_calls.specs.CoreCalls.{RoutedCall};

use point_to_point_calls::{Refusal, RoutedReceive, is_source_beyond, is_tag_above};
use requests::Region;
use vocabulary::Source;

/// A law of all calls: a call meets its faults by requests, by what it hands in, and by limits in this order. So whoever
/// has rules of its own that stand between them may ask for each, and where none finds a fault, a call may be made
/// ready.
#[tactic(auto, using(crate::proofs::Cuts::cut))]
pub fn faults_are_cut()
    ensures { (c : CoreState) (call : RoutedCall) → IsCutFault c call }
{}

/// The first rule that a receive breaks by what it hands in, among `size` ranks of world: 2 (buffer and layout are of
/// different basic types, or a place is named twice), 1 (the buffer is too short), 3 (the tag is above the greatest) and
/// 5 (no such rank of world). It takes no memory (MPI 3.1, 3.2.2 and 4.1.11).
#[tactic(auto, unfolding(crate::specs::Receives::receive_rule))]
pub fn rule_of_receive(size: u16, routed: &RoutedReceive) -> Option<Refusal>
    ensures { result ≡ receive_rule size routed.now }
{
    let receive = &routed.receive;
    if receive.into.is_unfit_to_receive() {
        return Some(Refusal::WrongType);
    }
    if receive.into.is_too_short() {
        return Some(Refusal::Count);
    }
    if is_tag_above(receive.tag) {
        return Some(Refusal::Tag);
    }
    if is_source_beyond(size, routed.route.named) {
        return Some(Refusal::Rank);
    }
    None
}

/// The first rule that a probe breaks by what it names, among `size` ranks of world: 3 (the tag is above the greatest)
/// and 5 (no such rank of world). It takes no memory.
#[tactic(auto, unfolding(crate::specs::Messages::probe_rule))]
pub fn rule_of_probe(size: u16, source: Source, tag: Option<u32>) -> Option<Refusal>
    ensures { result ≡ probe_rule size source tag }
{
    if is_tag_above(tag) {
        return Some(Refusal::Tag);
    }
    if is_source_beyond(size, source) {
        return Some(Refusal::Rank);
    }
    None
}

/// The first rule that the receive of a message breaks by where its data go: 2 (buffer and layout are of different basic
/// types, or a place is named twice) and 1 (the buffer is too short). It takes no memory.
#[tactic(auto, unfolding(crate::specs::Messages::region_rule))]
pub fn rule_of_region(into: &Region) -> Option<Refusal>
    ensures { result ≡ region_rule into.now }
{
    if into.is_unfit_to_receive() {
        return Some(Refusal::WrongType);
    }
    if into.is_too_short() {
        return Some(Refusal::Count);
    }
    None
}
