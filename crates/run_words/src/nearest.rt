//! The option that may be meant by a word that is none.

ghost use Rattle.std.specs.Prelude.{IfOk, IfSome, IsTrue};
ghost use Rattle.run_words.specs.Symbols.{is_known};

use crate::symbol::is_known;
use std::alloc::{AllocError, Global};
use strsim::osa_distance;

/// The names that are told.
const NAMES: [&str; 46] = [
    "-np",
    "-hostfile",
    "-machinefile",
    "-host",
    "-hosts",
    "-ppn",
    "-perhost",
    "-npernode",
    "-wdir",
    "-wd",
    "-env",
    "-genv",
    "-prefix",
    "-tag-output",
    "-prepend-rank",
    "-keep-going",
    "-launcher",
    "-job",
    "-baseport",
    "-restart",
    "-patience",
    "-timeout",
    "-frame",
    "-configfile",
    "-verbose",
    "-help",
    "-version",
    "-abort",
    "-oversubscribe",
    "-allow-run-as-root",
    "-report-bindings",
    "-quiet",
    "-envall",
    "-genvall",
    "-bind-to",
    "-map-by",
    "-rank-by",
    "-mca",
    "-gmca",
    "-n",
    "-c",
    "-x",
    "-l",
    "-f",
    "-v",
    "-q",
];

/// The known option whose name is nearest to this word, by bytes that are wrong, missing, too many or swapped: as many
/// at most as a third of its name has bytes. Only want of memory is an error.
pub fn nearest_option(alloc: Global, word: &str) -> Result<Option<&'static str>, AllocError>
    ensures { IfOk result (λ found. IfSome found (λ name. IsTrue (is_known name.now))) }
{
    let mut nearest = None;
    let mut least = usize::MAX;
    for name in &NAMES {
        let distance = osa_distance(alloc, word, name)?;
        if distance < least && distance <= name.len() / 3 && is_known(name.as_bytes()) {
            nearest = Some(*name);
            least = distance;
        }
    }
    Ok(nearest)
}
