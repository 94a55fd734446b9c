//! Laws of scripts.

ghost use Rattle.proof_script_processes.specs.ProcessViews.{RunnersFollow, StartsFollow};
ghost use Rattle.proof_script_processes.specs.PlainRequestLaws.{KeysAreNoMatter, RequestsAreHandedOn};
ghost use Rattle.proof_script_processes.specs.ReplyViews.{RepliesAreHeard};
ghost use Rattle.proof_script_processes.specs.ScriptLaws.{ScriptsComeToTheirMeaning, ScriptsPlayTheirMeaning};

/// States that a script's runner hands its requests and messages on and looks into none: with others in their place it
/// does the same with those. So what it does next, what it prints and what it calls is the same whatever keys they
/// have: only their serials matter.
/// It does nothing when it is called.
pub fn keys_are_no_matter()
    ensures any { RequestsAreHandedOn }
    ensures keys { KeysAreNoMatter }
{}

/// States that scripts come to their one meaning; and that those that are covered, in whose one meaning no two records
/// of a collective differ, play it over whatever has the machine's histories: each rank's lines are a beginning of its
/// lines there, and all of them once its script has ended. It does nothing when it is called.
pub fn scripts_play_their_meaning()
    ensures there { ScriptsComeToTheirMeaning }
    ensures play { ScriptsPlayTheirMeaning }
{}

/// States that a runner goes on alike whether its engine's reply is told to it, or what the machine tells of that
/// reply. It does nothing when it is called.
pub fn replies_are_heard()
    ensures { RepliesAreHeard }
{}

/// States that a runner follows its script's process: it does the same, step for step, as long as each is told what the
/// other is told. It does nothing when it is called.
pub fn runners_follow()
    ensures start { StartsFollow }
    ensures on { RunnersFollow }
{}
