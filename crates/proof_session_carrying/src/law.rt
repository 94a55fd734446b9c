//! What sessions carry goes on to stand for what the network's carry.

ghost use Rattle.proof_session_carrying.specs.CarryLaws.{OutIsCarried, NextStands, HandedIsCarried, StillIsStill};
ghost use Rattle.proof_session_carrying.specs.CarryLaws.{MessagesArrive, NoticesArrive};

/// States laws of the texts that a session between two engines carries, each of which stands for a frame of messages or
/// for a notice of a collective:
///
/// - texts that go out stand for what goes out in the network, once all that is large is announced;
/// - the next text that is handed up stands for the next of what the network's session carries, and all else goes on
/// standing;
/// - where no text is under way, nothing is;
/// - the bytes of a notice's message, whether an eager frame brings them or data did, are read as what it says, and the
/// note of
///   that stands for the notice; nothing but want of memory keeps it from being one.
///
/// It does nothing when it is called. That messages and collectives go over one session is this project's own; they
/// never meet (MPI 3.1, 5.12).
pub fn sessions_carry()
    ensures out { OutIsCarried }
    ensures next { NextStands }
    ensures handed { HandedIsCarried }
    ensures still { StillIsStill }
    ensures messages { MessagesArrive }
    ensures arrive { NoticesArrive }
{}
