//! The law of a run of ops inside an act, as the contract of a function that does nothing.

ghost use Rattle.segment_laws.specs.Segments.{SegmentLaw};

/// The ops of an act, from a run of them that stores nothing on: what the run loads and divides by, and then the other ops with all its
/// registers, the rest behind the act where a gate is shut, or the fault of the run's op.
pub fn segment_law()
    ensures { SegmentLaw }
{}
