//! What is counted of a statement, and the counting.

ghost use Rattle.std.specs.Prelude.{◌≡◌, List, [], ◌∷◌};
ghost use Rattle.ws_counts.specs.declared.tally.Piece.{Piece};
ghost use Rattle.ws_counts.specs.Counts.{steps_from};
ghost use Rattle.ws_counts.specs.Tallies as tallies;

/// What is counted of a statement: an operator, call, call argument, constructor item, subscript or header index; a reduction;
/// a vector subscript that is evaluated whole, in a mask or elsewhere; a mask; an assignment, which ends its step.
#[derive(Clone, Copy)]
pub enum Piece {
    Part,
    Reduction,
    Whole { mask: bool },
    Mask,
    Assigned,
}

/// The counts of the steps so far, as far as a `u32` goes: the parts, the phases, and the greatest number of temporaries of a
/// step. `held` are the temporaries of the masks so far, `pending` those that the step that is begun adds to them.
#[derive(Clone, Copy)]
pub struct Tally {
    pub parts: u32,
    pub phases: u32,
    pub temporaries: u32,
    pub held: u32,
    pub pending: u32,
    pub begun: bool,
}

/// What the steps of a statement count, as far as a `u32` goes: their parts and phases, and the greatest number of temporaries
/// of one of them.
#[derive(Clone, Copy)]
pub struct Total {
    pub parts: u32,
    pub phases: u32,
    pub temporaries: u32,
}

/// What several statements count: the sum of their phases, and the greatest number of temporaries.
#[derive(Clone, Copy)]
pub struct Sum {
    pub phases: u32,
    pub temporaries: u32,
}

pub const NO_SUM: Sum = Sum {
    phases: 0,
    temporaries: 0,
};

pub const NOTHING: Tally = Tally {
    parts: 0,
    phases: 0,
    temporaries: 0,
    held: 0,
    pending: 0,
    begun: false,
};

/// Counts a piece: an assignment adds 6 phases, a mask 1, a reduction 3 and a vector subscript that is evaluated whole 2.
#[tactic(auto, unfolding(crate::specs::Tallies::tallied))]
pub fn count(tally: &mut Tally, piece: Piece)
    ensures { tally.new ≡ tallies.tallied tally.old (piece ∷ []) }
{
    tally.begun = true;
    match piece {
        Piece::Part => tally.parts = tally.parts.saturating_add(1),
        Piece::Reduction => {
            tally.phases = tally.phases.saturating_add(3);
            tally.pending = tally.pending.saturating_add(1);
        }
        Piece::Whole { mask } => {
            tally.phases = tally.phases.saturating_add(2);
            if mask {
                tally.held = tally.held.saturating_add(1);
            } else {
                tally.pending = tally.pending.saturating_add(1);
            }
        }
        Piece::Mask => {
            tally.phases = tally.phases.saturating_add(1);
            tally.held = tally.held.saturating_add(1);
        }
        Piece::Assigned => end_step(tally),
    }
}

/// A step has 2 temporaries, those of the masks so far, and its own.
fn end_step(tally: &mut Tally)
    ensures { tally.new ≡ tallies.counted tally.old Piece.Assigned }
{
    let step = tally.held.saturating_add(tally.pending).saturating_add(2);
    tally.phases = tally.phases.saturating_add(6);
    tally.temporaries = tally.temporaries.max(step);
    tally.pending = 0;
    tally.begun = false;
}

/// What stands after the last assignment is a step of its own.
#[tactic(auto, unfolding(crate::specs::Tallies::ended))]
fn end(tally: &mut Tally)
    ensures { tally.new ≡ tallies.ended tally.old }
{
    if tally.begun {
        end_step(tally);
    }
}

/// What was counted, once the statement is at its end.
pub fn finish(tally: Tally) -> Total
    ensures { (ps : List Piece) → tally ≡ tallies.tallied tallies.nothing ps → result ≡ tallies.total_of (steps_from [] ps) }
{
    let mut tally = tally;
    end(&mut tally);
    Total {
        parts: tally.parts,
        phases: tally.phases,
        temporaries: tally.temporaries,
    }
}

/// Adds what one more statement counts.
#[tactic(auto, unfolding(crate::specs::Tallies::all_summed))]
pub fn add(sum: &mut Sum, total: Total)
    ensures { (ss : List (List Piece)) → total ≡ tallies.total_of ss → sum.new ≡ tallies.all_summed sum.old (ss ∷ []) }
{
    sum.phases = sum.phases.saturating_add(total.phases);
    sum.temporaries = sum.temporaries.max(total.temporaries);
}
