//! The launcher's own options, as far as they were given.

ghost use Rattle.std.specs.Prelude.{◌≡◌};
ghost use Rattle.launch_plan.specs.Options.{is_given, with_value, nothing_given};
ghost use Rattle.launch_plan.specs.Results.{GivesExactly};

use crate::refusal::LaunchRefusal;
use crate::symbol::OwnOption;
use numerals::number_between;

/// The port of rank 0 where none is given.
pub(crate) const BASE_PORT: u16 = 47_000;

/// The values of the own options that were given.
#[derive(Clone, Copy)]
pub(crate) struct GivenOptions {
    /// The number of the job, of `-job`.
    pub(crate) job: Option<u64>,
    /// The port of rank 0, of `-baseport`; that of rank r is r above it.
    pub(crate) base_port: Option<u16>,
    /// How often a rank may be started again, of `-restart`.
    pub(crate) restarts: Option<u16>,
    /// How long the ranks wait, in milliseconds, of `-patience`.
    pub(crate) patience: Option<u32>,
}

impl GivenOptions {
    /// No option was given.
    pub(crate) fn none() -> GivenOptions
        ensures { result ≡ nothing_given }
    {
        GivenOptions {
            job: None,
            base_port: None,
            restarts: None,
            patience: None,
        }
    }

    /// Whether this option was given.
    pub(crate) fn has(&self, option: OwnOption) -> bool
        ensures { result ≡ is_given option self.now }
    {
        match option {
            OwnOption::Job => self.job.is_some(),
            OwnOption::BasePort => self.base_port.is_some(),
            OwnOption::Restart => self.restarts.is_some(),
            OwnOption::Patience => self.patience.is_some(),
        }
    }

    /// With this value of the option, which the word has to spell within the option's range.
    #[tactic(auto, unfolding(crate::specs::Options::with_value))]
    pub(crate) fn with(self, option: OwnOption, word: &[u8]) -> Result<GivenOptions, LaunchRefusal>
        ensures { GivesExactly (λ given. given) result (with_value option self word.now) }
    {
        let Some(number) = number_between(word, option.least(), option.greatest()) else {
            return Err(LaunchRefusal::WrongValue);
        };
        Ok(match option {
            OwnOption::Job => GivenOptions {
                job: Some(number),
                ..self
            },
            OwnOption::BasePort => GivenOptions {
                base_port: Some(number as u16),
                ..self
            },
            OwnOption::Restart => GivenOptions {
                restarts: Some(number as u16),
                ..self
            },
            OwnOption::Patience => GivenOptions {
                patience: Some(number as u32),
                ..self
            },
        })
    }
}
