//! What holds of every text of a module.

ghost use Rattle.text_laws.specs.Laws.{ATextStandsForOneModule};

/// Two modules that break no rule have the same text only where it shows the same of both.
pub fn a_text_stands_for_one_module()
    ensures { ATextStandsForOneModule }
{}
