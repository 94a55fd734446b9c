//! A request stands under the key with which it was given, as long as it stands.
#![tactic(auto)]

mod law;

pub use law::requests_keep_their_keys;
