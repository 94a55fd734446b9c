//! The forms of statements.

use tokens::{Token, is};

/// Each verb with the form of its statement; that of a `type` is chosen by its third word.
pub(crate) const FORMS: [(&str, &str); 32] = [
    ("on", "on R .."),
    ("buf", "buf B TYPE V .."),
    ("type", "type L contiguous N OLD"),
    ("send", "send COMM DEST TAG B [as L N]"),
    ("recv", "recv COMM SRC TAG B [as L N]"),
    ("isend", "isend Q COMM DEST TAG B [as L N]"),
    ("issend", "issend Q COMM DEST TAG B [as L N]"),
    ("irecv", "irecv Q COMM SRC TAG B [as L N]"),
    ("wait", "wait Q"),
    ("test", "test Q"),
    ("waitany", "waitany Q .."),
    ("waitall", "waitall Q .."),
    ("cancel", "cancel Q"),
    ("iprobe", "iprobe COMM SRC TAG"),
    ("improbe", "improbe M COMM SRC TAG"),
    ("mrecv", "mrecv M B [as L N]"),
    ("status", "status"),
    ("count", "count L"),
    ("barrier", "barrier COMM"),
    ("bcast", "bcast COMM ROOT B"),
    ("gather", "gather COMM ROOT B INTO"),
    ("scatter", "scatter COMM ROOT B INTO"),
    ("reduce", "reduce COMM ROOT OP B INTO"),
    ("allreduce", "allreduce COMM OP B INTO"),
    ("dup", "dup NEW COMM"),
    ("split", "split NEW COMM COLOUR KEY"),
    ("who", "who COMM"),
    ("members", "members COMM"),
    ("compare", "compare COMM COMM"),
    ("print", "print B"),
    ("say", "say WORD .."),
    ("fail", "fail"),
];

/// The form of a `type`, by the word behind the layout's name.
fn layout_form(constructor: &[u8]) -> &'static str {
    if is(constructor, b"vector") {
        "type L vector C N S OLD"
    } else if is(constructor, b"indexed") {
        "type L indexed LEN:DISP .. OLD"
    } else {
        "type L contiguous N OLD"
    }
}

/// The form of the statement that these words are to be, as docs/SCRIPTS.md has it: words in capitals are filled in,
/// what stands in brackets may be left out, and `..` says that more of the same may follow. None where the first word
/// is no statement's.
pub fn form_of(words: &[Token]) -> Option<&'static str> {
    let verb = words.first()?.as_bytes();
    if is(verb, b"type") {
        return Some(match words.get(2) {
            Some(constructor) => layout_form(constructor.as_bytes()),
            None => layout_form(b""),
        });
    }
    for (name, form) in &FORMS {
        if is(verb, name.as_bytes()) {
            return Some(*form);
        }
    }
    None
}
