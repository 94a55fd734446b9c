//! The laws of floats: order, and text.

ghost use Rattle.proof_floats.specs.Dependence.{EachOperationIsToldApart};
ghost use Rattle.proof_floats.specs.ReadingBack.{TextsReadBack};

/// States that a sum and a product of floats depend on the order of their terms, by three terms each, and so that an
/// operation is taken for associative on a type exactly where it is. It does nothing when it is called.
pub fn floats_depend_on_order()
    ensures { EachOperationIsToldApart }
{}

/// States that the text of a float reads back as the same number, by the reader of scripts and files of events: a zero
/// with its sign, a NaN as a NaN. It does nothing when it is called.
pub fn texts_read_back()
    ensures { TextsReadBack }
{}
