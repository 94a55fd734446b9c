//! Laws of plays.

ghost use Rattle.script_plays.specs.Alike.{AnswersAreAlike, CallsAreAlike, EndsAreAlike, LinesAreAlike};
ghost use Rattle.script_plays.specs.Events.{HistoriesAreOfSchedules, WorldsHaveHistories};
ghost use Rattle.script_plays.specs.PlayLaws.{PlaysAreTheMeaning};

/// States that the history of a play has the schedule's events, in order and no others, but those that were refused;
/// and that it is one of the machine's. It does nothing when it is called.
pub fn histories_are_of_schedules()
    ensures events { HistoriesAreOfSchedules }
    ensures machine { WorldsHaveHistories }
{}

/// States that a runner that plays and its process, which plays over the machine, stay alike with every step. It does
/// nothing when it is called.
pub fn players_stay_alike()
    ensures lines { LinesAreAlike }
    ensures ends { EndsAreAlike }
    ensures calls { CallsAreAlike }
    ensures answers { AnswersAreAlike }
{}

/// States that covered scripts, in whose one meaning no two records of a collective differ, play that meaning in a
/// world whatever the schedule: each rank's lines are a beginning of its lines there, and all of them once its script
/// has ended, where no call was refused for a limit or for want of memory. It does nothing when it is called.
pub fn plays_are_the_meaning()
    ensures { PlaysAreTheMeaning }
{}
