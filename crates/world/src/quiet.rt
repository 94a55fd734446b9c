//! Whether anything is still on its way between the ranks of a world.

ghost use Rattle.std.specs.Prelude.{◌↔◌, All, IsTrue};
ghost use Rattle.world.specs.Quiet.{AreQuietIfOthers, IsQuietIfOther};

use engine::Engine;

/// Whether an engine's session with another one holds no frame, or one of them does not know the other as it is now.
fn is_quiet_towards(engine: &Engine, other: &Engine) -> bool
    ensures { IsTrue result ↔ IsQuietIfOther engine.now other.now }
{
    let own = engine.place().endpoint;
    let there = other.place().endpoint;
    match (engine.session(there.rank), other.session(own.rank)) {
        (Some(session), Some(back)) => {
            session.idle
                || session.incarnation != there.incarnation
                || back.incarnation != own.incarnation
        }
        _ => true,
    }
}

/// Whether an engine is quiet towards each of these. One that holds no frame at all is quiet towards each, and no
/// session of it is looked at.
fn is_quiet_with(engine: &Engine, engines: &[Engine]) -> bool
    ensures { IsTrue result ↔ All (IsQuietIfOther engine.now) engines.now }
{
    engine.is_idle() || engines.iter().all(|other| is_quiet_towards(engine, other))
}

/// Whether each of these engines is quiet towards each of them.
pub fn are_quiet(engines: &[Engine]) -> bool
    ensures { IsTrue result ↔ AreQuietIfOthers engines.now }
{
    engines.iter().all(|engine| is_quiet_with(engine, engines))
}
