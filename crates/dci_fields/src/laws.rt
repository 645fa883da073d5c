//! What holds of all field values that are asked for: a law over the definitions that the contract of `pack` names, as the
//! contract of a function with nothing to do.
ghost use Rattle.dci_fields.specs.FirstFieldFault.{FindsFieldFault};

/// The first fault of field values, as a function, is what is wrong first.
pub fn finds_field_fault()
    ensures { FindsFieldFault }
{}
