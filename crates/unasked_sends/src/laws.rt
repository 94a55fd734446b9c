//! The law of what waits.

ghost use Rattle.unasked_sends.specs.Pairs.{WhatWaitsStaysWithin};

/// States that no more than the bound waits: in whatever order a rank sends to another one, that one takes the first
/// message of the queue between them, and the sender learns of the end of an announced one that was taken, what waits in
/// the queue of sends that are at their ends counts no more bytes than the bound. It does nothing when it is called.
pub fn what_waits_stays_within_the_bound()
    ensures { WhatWaitsStaysWithin }
{}
