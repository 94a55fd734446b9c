//! The law of keys.

ghost use Rattle.proof_request_keys.specs.Keys.{CallsKeepKeys, GivenAreNamed, DatagramsKeepKeys, TicksKeepKeys};
ghost use Rattle.proof_request_keys.specs.Keys.{NamedAreOwn};

/// States that a request which an engine gave, of an operation that it started or of a message that it took out of
/// matching, stands in its table under the key with which it was given, as long as it stands there, whatever calls and
/// datagrams the engine takes and however its clock ticks; and that such a request is no other engine's. It does
/// nothing when it is called.
///
/// That a request has a key beside its serial is this project's own.
pub fn requests_keep_their_keys()
    ensures calls { CallsKeepKeys }
    ensures given { GivenAreNamed }
    ensures datagrams { DatagramsKeepKeys }
    ensures ticks { TicksKeepKeys }
    ensures own { NamedAreOwn }
{}
