//! The strands of a phase: an iteration of a Loop, a unit of a Part, the whole of a Set or a Join.

ghost use Rattle.std.specs.Prelude.{◌≡◌, ℕ, ◌+◌, ◌≤◌, ◌<◌, IsTrue, List, [], length};
ghost use Rattle.phase_ops.specs.declared.effect.Effect.{Effect};
ghost use Rattle.phase_ops.specs.Partials.{is_reduction};
ghost use Rattle.act_eval.specs.Sites.{Led};
ghost use Rattle.phase_ops.specs.Phases.{Cells, natural, units, first_strand, strand_count};
ghost use Rattle.phase_ops.specs.Free.{count_value};
ghost use Rattle.act_eval.specs.Strands.{AreChunks, Begins, HasRoom, HasStrand, PartBegins, JoinBegins, UnitBegins};

use crate::acts::run_acts;
use crate::chunks::Chunks;
use crate::joins::run_join;
use crate::parts::run_part;
use crate::site::Site;
use phase_ops::{Act, Phase};
use scan_parts::{
    AllPart, AnyPart, CountPart, MaxvalPart, Merge, MinvalPart, ProductPart, SumPart,
};
use ws_base::CallWord;

/// The number of the phase's units.
pub fn units_of(phase: &Phase, chunks: Chunks) -> u64
    requires { AreChunks chunks.chunk chunks.count }
    ensures { (m : Cells) → chunks.count ≡ natural (count_value phase.now m) → result ≡ units phase.now m chunks.chunk }
{
    match phase {
        Phase::Set { .. } | Phase::Join { .. } => 1,
        Phase::Loop { .. } | Phase::Part { .. } => u64::from(chunks.units()),
    }
}

/// The first strand of a unit, and how many it has.
pub fn strands_of(phase: &Phase, chunks: Chunks, unit: u32) -> (u32, u32)
    requires chunks { AreChunks chunks.chunk chunks.count }
    requires there { (m : Cells) × (chunks.count ≡ natural (count_value phase.now m)) × (unit < units phase.now m chunks.chunk) }
    ensures { (m : Cells) → chunks.count ≡ natural (count_value phase.now m) → (result.0 ≡ first_strand phase.now chunks.chunk unit) × (result.1 ≡ strand_count phase.now m chunks.chunk unit) }
{
    match phase {
        Phase::Loop { .. } => (chunks.start(unit), chunks.size(unit)),
        _ => (unit, 1),
    }
}

/// A part whose cell is stored is done with.
fn done_with<M: Merge>(_part: M) {}

/// The run over the partials of the reduction that the word names.
macro_rules! of_each {
    ($kind:expr, $run:expr) => {
        match $kind {
            CallWord::Sum => done_with::<SumPart>($run),
            CallWord::Product => done_with::<ProductPart>($run),
            CallWord::Minval => done_with::<MinvalPart>($run),
            CallWord::Maxval => done_with::<MaxvalPart>($run),
            CallWord::Count => done_with::<CountPart>($run),
            CallWord::Any => done_with::<AnyPart>($run),
            CallWord::All => done_with::<AllPart>($run),
            _ => {}
        }
    };
}

/// A unit of a Part of any reduction.
fn run_part_of<H, S: Site<H>>(
    site: &S,
    hand: &mut H,
    kind: CallWord,
    act: &Act,
    from: u32,
    count: u32,
    cell: u64,
    registers: &mut [i64],
)
    requires belongs { S.belongs site.now hand.old }
    requires kind { IsTrue (is_reduction kind) }
    requires limits { (from + count ≤ 65536) × (length act.now.ops ≤ 1048576) }
    requires room { length act.now.ops ≤ length registers.old }
    requires begins { (more : List Effect) × PartBegins (S.view site.now hand.old) kind act.now from count cell more }
    ensures led { Led (S.view site.now hand.old) (S.view site.now hand.new) }
    ensures left { (more : List Effect) → PartBegins (S.view site.now hand.old) kind act.now from count cell more → (S.view site.now hand.new).left ≡ more }
    ensures long { length registers.new ≡ length registers.old }
    ensures belongs { S.belongs site.now hand.new }
{
    of_each!(
        kind,
        run_part(site, hand, act, from, count, cell, registers)
    );
}

/// A Join of any reduction.
fn run_join_of<H, S: Site<H>>(
    site: &S,
    hand: &mut H,
    kind: CallWord,
    first: u32,
    count: u32,
    slot: u32,
)
    requires belongs { S.belongs site.now hand.old }
    requires kind { IsTrue (is_reduction kind) }
    requires begins { (more : List Effect) × JoinBegins (S.view site.now hand.old) kind first count slot more }
    ensures led { Led (S.view site.now hand.old) (S.view site.now hand.new) }
    ensures left { (more : List Effect) → JoinBegins (S.view site.now hand.old) kind first count slot more → (S.view site.now hand.new).left ≡ more }
    ensures belongs { S.belongs site.now hand.new }
{
    of_each!(kind, run_join(site, hand, first, count, slot));
}

/// One strand of a phase over what is there: its effects are done, and no other.
pub fn run_strand<H, S: Site<H>>(
    site: &S,
    hand: &mut H,
    phase: &Phase,
    chunks: Chunks,
    strand: u32,
    registers: &mut [i64],
)
    requires belongs { S.belongs site.now hand.old }
    requires room { HasRoom phase.now (length registers.old) }
    requires strand { HasStrand phase.now (S.view site.now hand.old).cells chunks.chunk chunks.count strand }
    requires begins { (more : List Effect) × Begins (S.view site.now hand.old) phase.now chunks.chunk strand more }
    ensures led { Led (S.view site.now hand.old) (S.view site.now hand.new) }
    ensures left { (more : List Effect) → Begins (S.view site.now hand.old) phase.now chunks.chunk strand more → (S.view site.now hand.new).left ≡ more }
    ensures long { length registers.new ≡ length registers.old }
    ensures belongs { S.belongs site.now hand.new }
{
    match phase {
        Phase::Set { acts, .. } => run_acts(site, hand, acts.as_slice(), 0, registers),
        Phase::Loop { acts, .. } => run_acts(site, hand, acts.as_slice(), strand, registers),
        Phase::Part {
            act,
            kind,
            first,
            ..
        } => {
            let from = chunks.start(strand);
            let size = chunks.size(strand);
            let cell = u64::from(*first) + u64::from(strand);
            run_part_of(site, hand, *kind, act, from, size, cell, registers);
        }
        Phase::Join {
            kind,
            first,
            slot,
            ..
        } => {
            let units = chunks.units();
            run_join_of(site, hand, *kind, *first, units, *slot);
        }
    }
}

/// The strands of a unit, one after the other: their effects are done, and no other.
pub fn run_strands<H, S: Site<H>>(
    site: &S,
    hand: &mut H,
    phase: &Phase,
    chunks: Chunks,
    unit: u32,
    registers: &mut [i64],
)
    requires belongs { S.belongs site.now hand.old }
    requires room { HasRoom phase.now (length registers.old) }
    requires begins { UnitBegins (S.view site.now hand.old) phase.now chunks.chunk chunks.count unit }
    ensures done { (S.view site.now hand.new).left ≡ [] }
    ensures long { length registers.new ≡ length registers.old }
    ensures belongs { S.belongs site.now hand.new }
{
    let (first, count) = strands_of(phase, chunks, unit);
    let end = first + count;
    'strands: for strand in first..end {
        run_strand(site, hand, phase, chunks, strand, registers);
    }
}
