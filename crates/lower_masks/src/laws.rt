//! What holds of the module of every accepted source.

ghost use Rattle.lower_masks.specs.Laws.{EveryModuleKeepsTheRules, ProgramsMean};

/// The module of an accepted source keeps all twelve rules.
pub fn every_module_keeps_the_rules()
    ensures { EveryModuleKeepsTheRules }
{}

/// Over any data the module of an accepted source means what the source means: its run has the same end and the same entries of regions.
pub fn every_module_means_its_source()
    ensures { ProgramsMean }
{}
