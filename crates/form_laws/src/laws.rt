//! What holds of the form of each op.

ghost use Rattle.form_laws.specs.Laws.{OperandsFit, ResultsFit};

/// In the module of an accepted source each op has the regions, operands and result of its form.
pub fn every_op_has_its_form()
    ensures operands { OperandsFit }
    ensures results { ResultsFit }
{}
