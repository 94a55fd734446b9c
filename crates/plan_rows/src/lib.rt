//! The plan of a member of a collective, as a row of records of numbers: what C carries out.
#![tactic(auto)]

mod form;
mod kind;
mod records;
mod rows;

pub use form::{Known, PlanForm, which_plan};
pub use kind::PlanKind;
pub use records::{PlanRecord, SlotRecord, StepRecord};
pub use rows::{plan_of, put_plan};
