//! A strand that is tried over a copy of the cells.

ghost use Rattle.std.specs.Prelude.{◌≡◌, ◌-◌, ◌<◌, ◌≤◌, length, slice_index, ◌∷◌, List};
ghost use lib.ListN.{get_elem?};
ghost use Rattle.phase_ops.specs.declared.effect.Effect.{Effect};
ghost use Rattle.phase_ops.specs.Phases.{each_from, over, strands, strand_effects};
ghost use Rattle.phase_ops.specs.Free.{In};
ghost use Rattle.act_eval.specs.Sites.{Small};
ghost use Rattle.team_core.specs.Machines.{as_option};
ghost use Rattle.team_core.specs.Scratches.{openings, InRounds, IsFresh, CanTry, IsReached, search_of};

use crate::scratch::Scratch;
use act_eval::{Chunks, Site, run_strand};
use phase_ops::{Effect, Phase};
use std::marker::{Brand, PhantomData};

/// The strand that is tried, and the effect that is looked for, as proofs know them.
pub trait Searched {
    ghost use Rattle.team_core.specs.Scratches.{Search};

    ghost search: { Search };
}

impl Searched for Brand {
    ghost use Rattle.std.specs.Prelude.{[]};

    ghost search = { record { effects = []; may = []; opening = []; wanted = 0 } };
}

/// Loads come from the copy, and effects go to it.
#[derive(Drop)]
struct Rehearsal<K> {
    of: PhantomData<K>,
}

impl<K: Searched> Site<Scratch> for Rehearsal<K> {
    ghost use Rattle.std.specs.Prelude.{drop};
    ghost use Rattle.team_core.specs.Scratches.{seen_cells, IsSearching};

    ghost view = { λ site hand. record { left = drop hand.seen K.search.effects; cells = seen_cells hand; may = K.search.may } };

    ghost belongs = { λ site hand. IsSearching K.search hand };

    fn look(&self, hand: &mut Scratch, cell: u64) -> u64 {
        hand.value(cell)
    }

    fn act(&self, hand: &mut Scratch, effect: Effect) {
        hand.act(effect);
    }
}

/// Tries a strand over the cells at the start of the phase.
fn try_strand<K: Searched>(
    scratch: &mut Scratch,
    phase: &Phase,
    chunks: Chunks,
    strand: u32,
    registers: &mut [i64],
)
    requires search { K.search ≡ search_of phase.now scratch.old.cells chunks.chunk strand scratch.old.wanted }
    requires can { CanTry phase.now scratch.old.cells chunks.chunk chunks.count (length registers.old) }
    requires rounds { InRounds scratch.old.cells scratch.old.round }
    requires fresh { IsFresh scratch.old scratch.old.wanted }
    requires there { strand < strands phase.now (openings scratch.old.cells) chunks.chunk }
    ensures seen { scratch.new.seen ≡ length (strand_effects phase.now (openings scratch.old.cells) chunks.chunk strand) }
    ensures found { as_option scratch.new.found ≡ get_elem? (strand_effects phase.now (openings scratch.old.cells) chunks.chunk strand) scratch.old.wanted }
    ensures opening { openings scratch.new.cells ≡ openings scratch.old.cells }
    ensures rounds { InRounds scratch.new.cells scratch.new.round }
    ensures long { length registers.new ≡ length registers.old }
{
    let site: Rehearsal<K> = Rehearsal { of: PhantomData };
    run_strand(&site, scratch, phase, chunks, strand, registers);
}

/// An effect, the strand that makes it, and how many effects the strands before that one make.
#[derive(Clone, Copy)]
pub struct Found {
    pub effect: Option<Effect>,
    pub strand: u32,
    pub before: u64,
}

/// The effect of the number `done` among those of the strands from `first` on and before `end`.
pub fn find_effect(
    scratch: &mut Scratch,
    phase: &Phase,
    chunks: Chunks,
    first: u32,
    end: u32,
    done: u64,
    registers: &mut [i64],
) -> Found
    requires can { CanTry phase.now scratch.old.cells chunks.chunk chunks.count (length registers.old) }
    requires rounds { InRounds scratch.old.cells scratch.old.round }
    requires there { (first ≤ end) × (end ≤ strands phase.now (openings scratch.old.cells) chunks.chunk) }
    ensures value { as_option result.effect ≡ get_elem? (each_from (strand_effects phase.now (openings scratch.old.cells) chunks.chunk) first (end - first)) done }
    ensures place { IsReached (strand_effects phase.now (openings scratch.old.cells) chunks.chunk) first end result.strand result.before }
    ensures few { result.before ≤ done }
    ensures opening { openings scratch.new.cells ≡ openings scratch.old.cells }
    ensures rounds { InRounds scratch.new.cells scratch.new.round }
    ensures long { length registers.new ≡ length registers.old }
{
    let mut left = done;
    for strand in first..end {
        scratch.begin(left);
        try_strand::<Brand>(scratch, phase, chunks, strand, registers);
        if scratch.found.is_some() {
            return Found {
                effect: scratch.found,
                strand,
                before: done - left,
            };
        }
        left -= scratch.seen;
    }
    Found {
        effect: None,
        strand: end,
        before: done - left,
    }
}
