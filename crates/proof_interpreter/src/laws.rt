//! Laws of the interpreter of statements.

ghost use Rattle.proof_interpreter.specs.StatementCalls.{StatementsAsk};
ghost use Rattle.proof_interpreter.specs.Answers.{AnswersAreKept};
ghost use Rattle.proof_interpreter.specs.Refusals.{RefusedStatementsChangeNothing};

/// States what statements ask of the machine: a send hands it the elements of its buffer, or those at the places of its
/// layout, and a receive the buffer itself, which is lent from then on; waits, tests and cancels name the requests that
/// their names stand for, in order; collectives hand in the elements of their buffers. It does nothing when it is
/// called.
pub fn statements_ask_the_machine()
    ensures { StatementsAsk }
{}

/// States what names stand for once the machine has answered: the request that was started, or the message that was
/// taken out, under the name of its statement; behind an outcome the null request, and in the buffer with which the
/// operation was started what the machine hands back, for one operation, for one of several, and for all of them; the
/// elements and the communicator that a collective gave; and the status of the last receive or probe. Every other name
/// stands for what it stood for. It does nothing when it is called.
pub fn answers_are_kept()
    ensures { AnswersAreKept }
{}

/// States that a statement whose call is refused, or which is refused without one, leaves every name as it was: a
/// buffer that it lent is back, and is what it was. It does nothing when it is called.
pub fn refused_statements_change_nothing()
    ensures { RefusedStatementsChangeNothing }
{}
