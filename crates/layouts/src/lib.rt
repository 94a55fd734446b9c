//! Layouts: which places of a buffer hold the data of a message, in definitions, and laws that hold them together.
//!
//! Both the machine of perfect queues and the functions that pack and unpack buffers stand on these definitions.
#![tactic(auto)]

mod laws;

pub use laws::layouts_hold_together;
