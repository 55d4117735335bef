//! Laws of cells that stand for a state, each the contract of a function that does nothing.

ghost use Rattle.storage_owner.specs.Laws.{MatterLaw, RoomLaw, UnownedLaw, FrameLaw, EffectsLaw, OthersLaw, UpdateLaw, ReplaceLaw, PackLaw, UnpackLaw};

/// Which variables matter, by the numbers of their declares.
pub fn matter_law()
    ensures { MatterLaw }
{}

/// A layout has room for the variables for which it was made.
pub fn room_law()
    ensures { RoomLaw }
{}

/// No variable owns a cell of the slots, the temporaries or the marks.
pub fn unowned_law()
    ensures { UnownedLaw }
{}

/// What changes cells that no variable owns leaves the cells standing for the same state.
pub fn frame_law()
    ensures { FrameLaw }
{}

/// Effects on cells that no variable owns leave the cells standing for the same state.
pub fn effects_law()
    ensures { EffectsLaw }
{}

/// What changes cells of one variable leaves all others standing.
pub fn others_law()
    ensures { OthersLaw }
{}

/// Where the cells of one variable then stand for a new state of it, they stand for the state with that one.
pub fn update_law()
    ensures { UpdateLaw }
{}

/// What a step stores at its targets, all at once, is replacement in the variable.
pub fn replace_law()
    ensures { ReplaceLaw }
{}

/// Copied into another layout for some of the variables, the cells stand there for these.
pub fn pack_law()
    ensures { PackLaw }
{}

/// Copied back, the cells stand for a state that has these variables as the packed cells have them, and all others as before.
pub fn unpack_law()
    ensures { UnpackLaw }
{}
