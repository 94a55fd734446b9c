//! What the environment says of the rank's place.

use rank_environment::{EnvironmentTexts, FoundPlace, place_in};
use std::env;
use std::rt::Env;

/// The value of a variable of the environment, where it is there and is text.
fn value_of<R: Env + AllocGlobal>(rt: &R, name: &str) -> Option<String> {
    env::var(rt, name).ok()
}

/// A value as it is read.
fn text_of(value: &Option<String>) -> Option<&str> {
    match value {
        Some(text) => Some(text.as_str()),
        None => None,
    }
}

/// The values of the variables that tell the rank its place, where they are there.
pub(crate) struct FoundTexts {
    rank: Option<String>,
    size: Option<String>,
    incarnation: Option<String>,
    job: Option<String>,
    base_port: Option<String>,
    patience: Option<String>,
    hosts: Option<String>,
}

/// A drop of its own is one step where they are dropped.
impl Drop for FoundTexts {
    fn drop(self) {
        let FoundTexts {
            rank,
            size,
            incarnation,
            job,
            base_port,
            patience,
            hosts,
        } = self;
        drop(rank);
        drop(size);
        drop(incarnation);
        drop(job);
        drop(base_port);
        drop(patience);
        drop(hosts);
    }
}

impl FoundTexts {
    /// What the environment has of them.
    pub(crate) fn new<R: Env + AllocGlobal>(rt: &R) -> FoundTexts {
        FoundTexts {
            rank: value_of(rt, "KOMBAZILY_RANK"),
            size: value_of(rt, "KOMBAZILY_SIZE"),
            incarnation: value_of(rt, "KOMBAZILY_INCARNATION"),
            job: value_of(rt, "KOMBAZILY_JOB"),
            base_port: value_of(rt, "KOMBAZILY_PORT"),
            patience: value_of(rt, "KOMBAZILY_PATIENCE"),
            hosts: value_of(rt, "KOMBAZILY_HOSTS"),
        }
    }

    /// The place that they tell, as `mpirun` sets them.
    pub(crate) fn place(&self) -> FoundPlace<'_> {
        place_in(&EnvironmentTexts {
            rank: text_of(&self.rank),
            size: text_of(&self.size),
            incarnation: text_of(&self.incarnation),
            job: text_of(&self.job),
            base_port: text_of(&self.base_port),
            patience: text_of(&self.patience),
            hosts: text_of(&self.hosts),
        })
    }
}
