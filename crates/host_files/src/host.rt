//! A host, as a line of the file tells it.

/// A host.
#[derive(Clone, Copy, Debug)]
pub struct Host<'a> {
    /// Its name or address: letters of ASCII, digits, `.`, `-` and `_`; it doesn't begin with `-`.
    pub name: &'a [u8],
    /// How many ranks it takes, 1 to 1,024, where the line says so; else as many as it takes at most, or one.
    pub slots: Option<u16>,
    /// How many ranks it takes at most, 1 to 1,024, where the line says so.
    pub most: Option<u16>,
    /// Whether the launcher's own machine has this address, as the line says or the name `localhost` or 127.0.0.1 does:
    /// its ranks start without help.
    pub is_local: bool,
}
