//! Why a line is faulty.

use tokens::Name;

/// Why a line is faulty.
#[derive(Drop)]
pub enum LineFault {
    /// Its first byte that is none from space to `~` is above 127.
    NotAscii,
    /// Its first byte that is none from space to `~` is a control byte of ASCII.
    NotPrintable,
    /// Its first word is no statement's verb.
    NoStatement,
    /// One of its values is a number that its type doesn't hold.
    OutsideType,
    /// Its words don't fit the statement.
    UnfitWords,
    /// This name, which it uses, isn't set.
    Unset(Name),
    /// The buffer of this name, which it uses or sets, is lent to a receive until the receive's outcome.
    Lent(Name),
}
