//! Laws of what is known and judged.

ghost use Rattle.incarnation.specs.Lessons.{KnownNeverFalls, StaleSourcesStayStale, WhatIsHandledIsKnown};

/// States that over every list of learns the incarnation at which a rank is known never falls. Its
/// contract is the law; the function does nothing.
pub fn known_never_falls()
    ensures { KnownNeverFalls }
{}

/// States that a datagram from a former incarnation of its source is refused as that for good,
/// whatever is learnt. Its contract is the law; the function does nothing.
pub fn stale_sources_stay_stale()
    ensures { StaleSourcesStayStale }
{}

/// States that a datagram that is not refused, once what it teaches is learnt, has its source known
/// at the incarnation in its header, and teaches nothing more. Its contract is the law; the
/// function does nothing.
pub fn what_is_handled_is_known()
    ensures { WhatIsHandledIsKnown }
{}
