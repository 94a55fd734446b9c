//! Ports, and ranges of ports.

ghost use Rattle.std.specs.Prelude.{◌≡◌, ℕ, ◌≤◌, IfSome, Some};
ghost use Rattle.std.specs.Fmt.{decimal};
ghost use Rattle.launcher_words.specs.Ports.{IsRange, range_text};

use crate::cut::around;
use numerals::number_between;

/// Ports from one to another one.
#[derive(Clone, Copy)]
pub struct PortRange {
    /// The first of them, from 1 on.
    pub first: u16,
    /// The last of them.
    pub last: u16,
}

/// The port that a text writes.
pub(crate) fn port_in(text: &[u8]) -> Option<u16>
    ensures written { IfSome result (λ port. (1 ≤ port) × (port ≤ 65535) × (text.now ≡ decimal port)) }
    ensures read { (port : ℕ) → 1 ≤ port → port ≤ 65535 → text.now ≡ decimal port → result ≡ Some port }
{
    match number_between(text, 1, 65_535) {
        Some(port) => Some(port as u16),
        None => None,
    }
}

/// The ports that a text tells. It tells some just where it is two numbers with a `-` between them, in decimal digits
/// without leading zeros, from 1 to 65,535, of which the first one isn't the greater one. It takes no memory.
pub fn port_range(text: &[u8]) -> Option<PortRange>
    ensures written { IfSome result (λ range. IsRange range × (text.now ≡ range_text range)) }
    ensures read { (range : PortRange) → IsRange range → text.now ≡ range_text range → result ≡ Some range }
{
    let Some((first, last)) = around(text, b'-') else {
        return None;
    };
    match (port_in(first), port_in(last)) {
        (Some(first), Some(last)) if first <= last => Some(PortRange { first, last }),
        _ => None,
    }
}
