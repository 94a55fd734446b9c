//! Links between endpoints, whatever their frames are.
//!
//! `specs/` says what a link holds and what an event does to it (`Links`). The pure network speaks of links that carry
//! frames with their meaning, and the truth of datagrams of links that carry frames as texts: both by these
//! definitions.
#![tactic(auto)]
