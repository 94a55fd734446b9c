//! Words that differ by a slip of the pen.

/// How many bytes are the same at the front of both.
fn same_at_front(one: &[u8], other: &[u8]) -> usize {
    one.iter()
        .zip(other.iter())
        .take_while(|(a, b)| **a == **b)
        .count()
}

/// How many bytes are the same at the back of both.
fn same_at_back(one: &[u8], other: &[u8]) -> usize {
    one.iter()
        .rev()
        .zip(other.iter().rev())
        .take_while(|(a, b)| **a == **b)
        .count()
}

/// Whether two bytes that follow each other have changed places.
fn is_swapped(one: &[u8], other: &[u8], front: usize) -> bool {
    let (a, b) = (one.get(front), one.get(front.saturating_add(1)));
    let (c, d) = (other.get(front), other.get(front.saturating_add(1)));
    a.is_some() && b.is_some() && a == d && b == c
}

/// Whether the two differ by one byte that is wrong, missing or too many, or by two that have changed places; one byte
/// alone is like no other.
pub(crate) fn is_slip(one: &[u8], other: &[u8]) -> bool {
    let (most, least) = (one.len().max(other.len()), one.len().min(other.len()));
    if least < 2 || most.saturating_sub(least) > 1 {
        return false;
    }
    let front = same_at_front(one, other);
    let back = same_at_back(one, other);
    if front == most {
        return false;
    }
    if front.saturating_add(back).saturating_add(1) >= most {
        return true;
    }
    most == least
        && front.saturating_add(back).saturating_add(2) >= most
        && is_swapped(one, other, front)
}
