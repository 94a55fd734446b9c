//! What the launcher's words ask for beside a launch.

ghost use Rattle.std.specs.Prelude.{◌≡◌, ◌∷◌, ◌≢◌};
ghost use Rattle.launch_decisions.specs.Requests.{IsRequest, is_abort};

use launch_keeper::Word;

/// The first word of a launch that a failure ends.
const ABORT: &[u8] = b"-abort";

/// What the launcher's words ask for.
#[derive(Clone, Copy)]
pub struct LaunchRequest<'a> {
    /// Whether the ranks that are left are ended once one has failed for good.
    pub aborts: bool,
    /// The words of the launch.
    pub words: &'a [Word],
}

fn is_abort(word: &[u8]) -> bool
    ensures { result ≡ is_abort word.now }
{
    word == ABORT
}

/// What these words ask for: `-abort` stands in front of all others, or isn't there. It takes no memory.
pub fn request_of(words: &[Word]) -> LaunchRequest<'_>
    ensures { IsRequest words.now result }
{
    if let Some((first, rest)) = words.split_first() {
        if is_abort(first.as_bytes()) {
            return LaunchRequest {
                aborts: true,
                words: rest,
            };
        }
    }
    LaunchRequest {
        aborts: false,
        words,
    }
}
