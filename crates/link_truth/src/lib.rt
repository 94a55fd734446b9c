//! What datagrams and sessions tell of the links between endpoints: to be read and believed, since the headline's words
//! stand on it.
#![tactic(auto)]
