//! How an engine stands.

use engine::Engine;
use seen_sums::Sum;

/// The sum with how a session of an engine stands.
fn with_session(sum: Sum, engine: &Engine, rank: u16) -> Sum {
    match engine.session(rank) {
        Some(session) => sum
            .with(1)
            .with(u64::from(session.incarnation))
            .with(u64::from(session.idle)),
        None => sum.with(0),
    }
}

/// How an engine of three ranks stands: its sessions, and whether it is idle.
pub fn standing(engine: &Engine) -> Sum {
    let zero = with_session(Sum::new(), engine, 0);
    let one = with_session(zero, engine, 1);
    let two = with_session(one, engine, 2);
    two.with(u64::from(engine.is_idle()))
}
