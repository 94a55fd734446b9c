//! What the machine sees of engines: to be read and believed, since the headline's words stand on it.
#![tactic(auto)]
