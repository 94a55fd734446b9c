//! That the definitions of layouts hold together.

ghost use Rattle.layouts.specs.Laws.{
  ElementsStandInOrder,
  CopiesDontMeet,
  BasicTypeTakesFirstPlaces,
  ShorterMessageWritesItsPlaces,
  WhatWasSentIsReceived,
  ExamplesStand,
};

/// States laws of layouts, which follow from their definitions in `specs/`. It does nothing when it is called.
///
/// Places are those of MPI 3.1, 4.1.2; what a shorter message leaves as it was, 3.2.4.
pub fn layouts_hold_together()
    ensures in_order { ElementsStandInOrder }
    ensures copies_dont_meet { CopiesDontMeet }
    ensures basic_type { BasicTypeTakesFirstPlaces }
    ensures shorter_message { ShorterMessageWritesItsPlaces }
    ensures round { WhatWasSentIsReceived }
    ensures examples { ExamplesStand }
{}
