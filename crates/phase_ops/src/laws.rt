//! Laws of phases, each the contract of a function that does nothing.

ghost use Rattle.phase_ops.specs.Laws.{FrameLaw, StrandLaw, RaceLaw, KeyLaw};

/// What a unit does depends on the cells that it reads, and on those of the count, alone.
pub fn frame_law()
    ensures { FrameLaw }
{}

/// Whatever other strands have done, in whatever order, a strand does what it does at the start of its phase.
pub fn strand_law()
    ensures { StrandLaw }
{}

/// Where the strands of a phase are apart, its units are.
pub fn race_law()
    ensures { RaceLaw }
{}

/// A phase's least key is that of the first operation that fails anywhere, at the least element at which it fails.
pub fn key_law()
    ensures { KeyLaw }
{}
