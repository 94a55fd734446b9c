//! The laws of receives that are posted late.

ghost use Rattle.proof_late_posting.specs.Example.{ExampleIsExplored};
ghost use Rattle.proof_late_posting.specs.Explored.{ExploredRunsAreRuns, HappeningsAreFollowed};
ghost use Rattle.proof_late_posting.specs.Explored.{PostingLateChangesNothing, RunsHaveNumbers};
ghost use Rattle.proof_late_posting.specs.Written.{RowsKeepTheRules};

/// States that posting late changes nothing: to each run in which receives are kept back, and an engine is told of them
/// later, with their sources named, there is a run in which each is posted where its program began it, with its own
/// source. Its history is what the programs hear, and it ends as that one does, by whatever numbers say which requests
/// stand for which (`nothing`); there are always such numbers (`numbers`). The same of each thing that happens,
/// wherever both worlds are alike (`each`). What the engines are asked is a run, too (`runs`). An example keeps to the
/// rules: a receive of any source that was begun first is posted last, and takes rank 2's message though rank 1's is
/// there (`example`). It does nothing when it is called.
pub fn posting_late_changes_nothing()
    ensures nothing { PostingLateChangesNothing }
    ensures each { HappeningsAreFollowed }
    ensures numbers { RunsHaveNumbers }
    ensures runs { ExploredRunsAreRuns }
    ensures example { ExampleIsExplored }
{}

/// States that what `late_receives` answers of its row keeps to the rules under which posting late changes nothing. It
/// does nothing when it is called.
pub fn late_rows_keep_the_rules()
    ensures { RowsKeepTheRules }
{}
