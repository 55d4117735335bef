//! A phase, run as one unit of all its iterations.

ghost use Rattle.std.specs.Prelude.{◌≡◌, ◌<◌, ◌^◌, length, MatchResult};
ghost use Rattle.phase_ops.specs.Phases.{natural, units, effects, lay, least_key, none_yet, after_phase, key as key_of};
ghost use Rattle.phase_ops.specs.Free.{count_value, Free};
ghost use Rattle.phase_ops.specs.Faults.{IsFaultOf};
ghost use Rattle.act_eval.specs.Strands.{AreChunks};
ghost use Rattle.serial_run.specs.Hands.{order_of};

use crate::hand::Hand;
use crate::site::{Runs, SerialSite};
use act_eval::{Chunks, run_strands, units_of};
use phase_board::Memory;
use phase_ops::{Phase, fault_of};
use std::marker::{Brand, PhantomData};
use team_core::count_of;
use ws_base::Fault;

/// No phase has more iterations, so that all of them are one unit.
const CHUNK: u32 = 65_536;

/// The unit of all iterations, where there are any.
fn do_unit<K: Runs>(hand: &mut Hand, phase: &Phase, chunks: Chunks, registers: &mut [i64])
    requires order { K.order ≡ order_of phase.now hand.old.cells }
    requires start { (hand.old.done ≡ 0) × (hand.old.key ≡ none_yet) }
    requires free { Free phase.now hand.old.cells }
    requires chunks { (chunks.chunk ≡ 65536) × AreChunks chunks.chunk chunks.count }
    requires count { chunks.count ≡ natural (count_value phase.now hand.old.cells) }
    requires there { 0 < units phase.now hand.old.cells 65536 }
    requires few { length hand.old.cells < 2 ^ 32 }
    requires room { length registers.old ≡ 1048576 }
    ensures cells { hand.new.cells ≡ lay hand.old.cells (effects phase.now hand.old.cells 65536 0) }
    ensures key { hand.new.key ≡ least_key (effects phase.now hand.old.cells 65536 0) }
{
    let site: SerialSite<K> = SerialSite { of: PhantomData };
    run_strands(&site, hand, phase, chunks, 0, registers);
}

fn do_phase(hand: &mut Hand, phase: &Phase, registers: &mut [i64])
    requires start { (hand.old.done ≡ 0) × (hand.old.key ≡ none_yet) }
    requires free { Free phase.now hand.old.cells }
    requires few { length hand.old.cells < 2 ^ 32 }
    requires room { length registers.old ≡ 1048576 }
    ensures cells { hand.new.cells ≡ after_phase phase.now hand.old.cells 65536 }
    ensures key { hand.new.key ≡ key_of phase.now hand.old.cells 65536 }
    ensures count { length hand.new.cells ≡ length hand.old.cells }
{
    let chunks = Chunks {
        count: count_of(phase, hand.cells.as_slice()),
        chunk: CHUNK,
    };
    if units_of(phase, chunks) > 0 {
        do_unit::<Brand>(hand, phase, chunks, registers);
    }
}

/// Runs a phase in order: its effects are done, also those of the iterations behind one that fails, and its fault is that of
/// the least key. Takes no memory.
pub fn run_phase(memory: &mut Memory, phase: &Phase) -> Result<(), Fault>
    requires free { Free phase.now memory.old.cells }
    ensures cells { memory.new.cells ≡ after_phase phase.now memory.old.cells 65536 }
    ensures counts { (memory.new.regions ≡ memory.old.regions) × (memory.new.units ≡ memory.old.units) }
    ensures fault { MatchResult result (λ _. key_of phase.now memory.old.cells 65536 ≡ none_yet) (λ f. (key_of phase.now memory.old.cells 65536 < none_yet) × IsFaultOf phase.now (key_of phase.now memory.old.cells 65536) f) }
{
    let mut hand = Hand {
        cells: memory.take_cells(),
        key: u64::MAX,
        done: 0,
    };
    do_phase(&mut hand, phase, memory.registers());
    let Hand {
        cells,
        key,
        done: _,
    } = hand;
    memory.give_cells(cells);
    if key < u64::MAX {
        return Err(fault_of(phase, key));
    }
    Ok(())
}
