//! What holds of every tree that is parsed.

ghost use Rattle.tree_laws.specs.Laws.{EveryTreeIsGrammatical};

/// A tree that the grammar gives for some tokens is one that it can give.
pub fn every_tree_is_grammatical()
    ensures { EveryTreeIsGrammatical }
{}
