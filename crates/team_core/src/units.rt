//! The units of a list of phases, as the work of a team.

ghost use Rattle.std.specs.Prelude.{◌≡◌, ℕ, ◌<◌, ◌≤◌, length, IfOk, slice_index_or};
ghost use Rattle.phase_ops.specs.declared.phase.Act.{Act as SpecAct};
ghost use Rattle.phase_ops.specs.Phases.{natural, source as source_value};
ghost use Rattle.phase_ops.specs.Free.{In, count_value};
ghost use Rattle.team_core.specs.Laws.{MayStart, phase_at};
ghost use Rattle.team_core.specs.Units.{HasCount, HasNumber, IsMadeFor, IsPlaceOf, AreShort, nowhere};

use crate::machine::UnitWork;
use crate::rehearsal::find_effect;
use crate::scratch::Scratch;
use crate::state::CellList;
use act_eval::{Chunks, strands_of, units_of};
use phase_ops::{Act, Effect, Phase, PhaseList, Source};
use sqlite_items::Items;
use std::alloc::{AllocError, Global};

/// The length of the longest of these acts, or `least` where that is greater.
fn longest_of(acts: &[Act], least: usize) -> usize
    ensures all { (a : SpecAct) → In a acts.now → length a.ops ≤ result }
    ensures least { least ≤ result }
{
    let mut longest = least;
    for act in acts {
        longest = longest.max(act.ops.len());
    }
    longest
}

fn longest_in(phase: &Phase, least: usize) -> usize
    ensures all { AreShort phase.now result }
    ensures least { least ≤ result }
{
    match phase {
        Phase::Set { acts, .. } => longest_of(acts.as_slice(), least),
        Phase::Loop { acts, .. } => longest_of(acts.as_slice(), least),
        Phase::Part { act, .. } => least.max(act.ops.len()),
        Phase::Join { .. } => least,
    }
}

/// The number of registers that each act of the phases can run with.
pub fn longest(phases: &[Phase]) -> usize
    ensures { (t : ℕ) → t < length phases.now → AreShort (phase_at phases.now t) result }
{
    let mut longest = 0;
    for at in 0..phases.len() {
        longest = longest_in(&phases[at], longest);
    }
    longest
}

fn number_at(cells: &[u64], source: Source) -> u32
    requires { HasNumber cells.now source }
    ensures { result ≡ natural (source_value cells.now source) }
{
    match source {
        Source::Fixed(value) => value as u32,
        Source::Cell(cell) => cells[cell as usize].cast_signed() as u32,
    }
}

/// The phase's count; that of a Set is 1.
pub fn count_of(phase: &Phase, cells: &[u64]) -> u32
    requires { HasCount phase.now cells.now }
    ensures value { result ≡ natural (count_value phase.now cells.now) }
    ensures few { result ≤ 65536 }
{
    match phase {
        Phase::Set { .. } => 1,
        Phase::Loop { count, .. } => number_at(cells, *count),
        Phase::Part { count, .. } => number_at(cells, *count),
        Phase::Join { count, .. } => number_at(cells, *count),
    }
}

/// How far the effects of a unit were looked through: the strands of the unit before this one make so many.
#[derive(Clone, Copy)]
pub struct Place {
    pub phase: u64,
    pub unit: u64,
    pub strand: u32,
    pub before: u64,
}

pub type PlaceList = Items<Place>;

/// The units of the phase that was entered. The effects of a unit are those of its strands over the cells at the phase's
/// start, whatever the team has done since.
#[derive(Drop)]
pub struct PhaseUnits {
    /// The cells at the start of the first phase, and the team, for what is said of the whole run.
    pub opening: CellList,
    pub team: u32,
    pub chunk: u32,
    pub phase: u64,
    pub count: u32,
    pub scratch: Scratch,
    pub registers: Vec<i64>,
    /// For each member, where the effect was that it was told last.
    pub places: PlaceList,
}

impl PhaseUnits {
    pub fn new(
        alloc: Global,
        phases: &PhaseList,
        opening: &CellList,
        team: u32,
        chunk: u32,
    ) -> Result<PhaseUnits, AllocError>
        requires { MayStart phases.now opening.now team chunk }
        ensures made { IfOk result (λ w. IsMadeFor w phases.now) }
        ensures parts { IfOk result (λ w. (w.opening ≡ opening.now) × (w.team ≡ team) × (w.chunk ≡ chunk)) }
    {
        let registers = vec![in alloc; 0; longest(phases.as_slice())]?;
        let scratch = Scratch::new(alloc, opening.len())?;
        let nowhere = Place {
            phase: 0,
            unit: 0,
            strand: 0,
            before: 0,
        };
        let places = PlaceList::from_vec(vec![in alloc; nowhere; team as usize]?);
        let opening = CellList::from_slice(alloc, opening.as_slice())?;
        Ok(PhaseUnits {
            opening,
            team,
            chunk,
            phase: 0,
            count: 0,
            scratch,
            registers,
            places,
        })
    }

    fn chunks(&self) -> Chunks
        ensures { (result.chunk ≡ self.now.chunk) × (result.count ≡ self.now.count) }
    {
        Chunks {
            count: self.count,
            chunk: self.chunk,
        }
    }

    /// Where to look for an effect of the member's unit, whose first strand is this: where the last one was, if it was of this
    /// unit and none behind it is looked for.
    fn place_of(&self, member: usize, unit: u64, done: u64, first: u32) -> Place
        requires { member < length self.now.places }
        ensures { IsPlaceOf (slice_index_or self.now.places member nowhere) self.now.phase unit done first result }
    {
        let last = self.places.as_slice()[member];
        if last.phase == self.phase && last.unit == unit && last.before <= done {
            return last;
        }
        Place {
            phase: self.phase,
            unit,
            strand: first,
            before: 0,
        }
    }
}

impl UnitWork<PhaseList> for PhaseUnits {
    ghost use Rattle.phase_ops.specs.Course.{course as phase_course};
    ghost use Rattle.team_core.specs.Units.{IsMadeFor, IsEntered};

    ghost course = { λ w ps. phase_course ps w.opening w.chunk w.team };

    ghost entered = { λ w. w.phase };

    ghost made_for = { λ w ps. IsMadeFor w ps };

    ghost ready = { λ w ps. IsEntered w ps };

    ghost stays_made = { λ w ps r. r.made };

    fn enter(&mut self, phases: &PhaseList, phase: u64, cells: &[u64]) {
        self.scratch.open(cells);
        self.phase = phase;
        self.count = count_of(&phases.as_slice()[phase as usize], cells);
    }

    fn units(&self, phases: &PhaseList) -> u64 {
        units_of(&phases.as_slice()[self.phase as usize], self.chunks())
    }

    fn effect(
        &mut self,
        phases: &PhaseList,
        member: usize,
        unit: u64,
        done: u64,
    ) -> Option<Effect> {
        let phase = &phases.as_slice()[self.phase as usize];
        let chunks = self.chunks();
        let (first, count) = strands_of(phase, chunks, unit as u32);
        let last = self.place_of(member, unit, done, first);
        let found = find_effect(
            &mut self.scratch,
            phase,
            chunks,
            last.strand,
            first + count,
            done - last.before,
            self.registers.as_mut_slice(),
        );
        let place = Place {
            phase: self.phase,
            unit,
            strand: found.strand,
            before: last.before + found.before,
        };
        self.places.set(member, place);
        found.effect
    }
}
