//! No context is given twice.

ghost use Rattle.context_agreement.specs.GivenOnce.{NoneTwice, NoneOfTwo, NoneOfTheFirst, DrawsAreAsked};

/// Over every list of calls on a rank's contexts: each context that was given has a serial above
/// all that were given before, so none was given twice; two creators never give the same one; and
/// the contexts of `world` and of the `self` communicators are never given. To draw several contexts
/// is to ask for as many, one after another.
pub fn contexts_are_given_once()
    ensures none_twice { NoneTwice }
    ensures none_of_two { NoneOfTwo }
    ensures none_of_the_first { NoneOfTheFirst }
    ensures draws_are_asked { DrawsAreAsked }
{}
