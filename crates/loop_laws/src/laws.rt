//! Laws of loops, each the contract of a function that does nothing.

ghost use Rattle.loop_laws.specs.Laws.{BridgeLaw, JoinLaw, RowsLaw, ChunkLaw, FreeLaw, LoopKeyLaw, CellLaw, DirectLaw};
ghost use Rattle.loop_laws.specs.Sets.{SetLaw};

/// Whole maps, one move after another over all places, fail at the first move that fails anywhere, and there at the least place. Else
/// they leave the places that no test lets go, with all their values.
pub fn bridge_law()
    ensures { BridgeLaw }
{}

/// Whole maps of two lists of moves are those of the first, and then those of the second.
pub fn join_law()
    ensures { JoinLaw }
{}

/// Targets and values of rows stand in one order: the k-th of both are those of one row, and each row's stand somewhere together.
pub fn rows_law()
    ensures { RowsLaw }
{}

/// Whatever the chunk, a loop does what its iterations do in order.
pub fn chunk_law()
    ensures { ChunkLaw }
{}

/// A loop whose iterations are apart is free of races.
pub fn free_law()
    ensures { FreeLaw }
{}

/// The key of a loop is that of its whole maps: of the first move that fails anywhere, at the least iteration at which it fails.
pub fn loop_key_law()
    ensures { LoopKeyLaw }
{}

/// A cell that one iteration alone touches has what this iteration leaves there, and a cell that none touches stays.
pub fn cell_law()
    ensures { CellLaw }
{}

/// A direct loop replaces all targets at once, or has the key of its first fault, and no iteration races with another.
pub fn direct_law()
    ensures { DirectLaw }
{}

/// A Set does what its one strand does.
pub fn set_law()
    ensures { SetLaw }
{}
