//! What holds of each op of the module of every program that is accepted.

ghost use Rattle.yield_laws.specs.Laws.{YieldsAreOfTheirForms, SidesAgree, ReallocsAreOfWholes, DeclaresFit};

/// Regions yield what their forms want.
pub fn each_region_yields_its_form()
    ensures yields { YieldsAreOfTheirForms }
{}

/// The sides of assignments agree, and `realloc` stands where the left side is a whole allocatable outside where and forall.
pub fn each_assignment_keeps_its_sides()
    ensures sides { SidesAgree }
    ensures reallocs { ReallocsAreOfWholes }
{}

/// Declares stand first with different names, and what an allocatable holds is reached by its box.
pub fn each_declare_keeps_its_place()
    ensures declares { DeclaresFit }
{}
