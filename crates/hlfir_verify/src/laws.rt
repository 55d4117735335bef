//! What the two answers of a check say of a module.

ghost use Rattle.hlfir_verify.specs.Laws.{SitesAreInOrder, KeepsOrBreaks, KeptHasNoBroken, HasOneFirstBroken};

/// The rules judge each op of a module once, in printed order.
pub fn ops_are_judged_in_printed_order()
    ensures { SitesAreInOrder }
{}

/// A module keeps the rules, or has one op that is the first to break one, with one least rule, and never both.
pub fn each_module_has_one_answer()
    ensures any { KeepsOrBreaks }
    ensures apart { KeptHasNoBroken }
    ensures one { HasOneFirstBroken }
{}
