//! Laws, each the contract of a function that does nothing.

ghost use Rattle.act_lower.specs.Sections.{SectionLaw};
ghost use Rattle.act_lower.specs.Fits.{SoundLaw};
ghost use Rattle.act_lower.specs.Leads.{LeadsLaw};
ghost use Rattle.act_lower.specs.Standing.{ValueLaw};
ghost use Rattle.act_lower.specs.Walked.{ElementalStays, WalkLaw};

/// The ops of a value stop at its fault or leave its values in a register.
pub fn value_law()
    ensures { ValueLaw }
{}

/// The ops of a section load its elements.
pub fn section_law()
    ensures { SectionLaw }
{}

/// What stage 1 left of a value is told by the ops of its module.
pub fn leads_law()
    ensures { LeadsLaw }
{}

/// A walk through a region leaves each value as its op has made it, and an elemental is the same over what the walk leaves.
pub fn walk_law()
    ensures walk { WalkLaw }
    ensures elementals { ElementalStays }
{}

/// The ops of a value are plain, over words, and name earlier registers.
pub fn sound_law()
    ensures { SoundLaw }
{}
