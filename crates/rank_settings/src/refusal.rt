//! Why the words of the rank program can't be followed.

ghost use Rattle.std.specs.Prelude.{◌≡◌};
ghost use Rattle.rank_settings.specs.declared.refusal.SettingsRefusal.TheVariants.{OutOfMemory};
ghost use Rattle.rank_settings.specs.Settings.{number_of};

use std::alloc::AllocError;
use thiserror::Error;

/// Why words were refused.
#[derive(Clone, Copy, Debug, PartialEq, Eq, Error)]
pub enum SettingsRefusal {
    /// A growth was refused: 14.
    #[error("out of memory")]
    OutOfMemory,
    /// The words are not those of the program, or a value is out of its range: 64.
    #[error("the words of the program are wrong")]
    Words,
}

impl From<AllocError> for SettingsRefusal {
    ghost from_gives = { λ _ e. e ≡ OutOfMemory };

    fn from(_e: AllocError) -> SettingsRefusal {
        SettingsRefusal::OutOfMemory
    }
}

impl SettingsRefusal {
    /// The number of this refusal: 14 or 64.
    pub fn number(self) -> u8
        ensures { result ≡ number_of self }
    {
        match self {
            SettingsRefusal::OutOfMemory => 14,
            SettingsRefusal::Words => 64,
        }
    }
}
