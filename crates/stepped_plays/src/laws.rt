//! Laws of plays that stand alike.

ghost use Rattle.stepped_plays.specs.Standings.{AlikePlayersAreTheSame};

/// States that players which stand alike in two plays of the same scripts, however each went, are the same, where
/// neither limits nor want of memory came in: the lines that are left to a rank are the last of its script's, so
/// that how many they are tells which. It does nothing when it is called.
pub fn alike_players_are_the_same()
    ensures { AlikePlayersAreTheSame }
{}
