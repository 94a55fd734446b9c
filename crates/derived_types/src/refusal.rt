//! Why a call was refused.

ghost use Rattle.std.specs.Prelude.{◌≡◌};
ghost use Rattle.derived_types.specs.Refusals.{number_of_refusal};

use std::alloc::AllocError;
use thiserror::Error;

/// Why a call was refused. The first rule in this order that is broken is the one that is named.
#[derive(Clone, Copy, Debug, PartialEq, Eq, Error)]
pub enum LayoutRefusal {
    /// The basic types differ, or an offset occurs twice in a layout that is used to receive.
    #[error("the types do not fit")]
    WrongType,
    /// The buffer is too short for the layout and the number of copies.
    #[error("the buffer is too short")]
    TooShort,
    /// The operation is not defined on the type.
    #[error("the operation is not defined on the type")]
    NotDefined,
    /// A limit of a layout is passed.
    #[error("a limit is passed")]
    Limit,
    /// Memory was refused.
    #[error("out of memory")]
    OutOfMemory,
}

impl LayoutRefusal {
    /// The number that stands for this refusal.
    pub fn number(self) -> u8
        ensures { result ≡ number_of_refusal self }
    {
        match self {
            LayoutRefusal::TooShort => 1,
            LayoutRefusal::WrongType => 2,
            LayoutRefusal::NotDefined => 9,
            LayoutRefusal::Limit => 13,
            LayoutRefusal::OutOfMemory => 14,
        }
    }
}

impl From<AllocError> for LayoutRefusal {
    ghost use Rattle.std.specs.Prelude.{◌≡◌};
    ghost use Rattle.derived_types.specs.declared.refusal.LayoutRefusal.TheVariants.{OutOfMemory};

    ghost from_gives = { λ _ refusal. refusal ≡ OutOfMemory };

    fn from(_refused: AllocError) -> LayoutRefusal {
        LayoutRefusal::OutOfMemory
    }
}
