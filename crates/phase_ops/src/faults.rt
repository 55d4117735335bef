//! Faults from keys.
ghost use Rattle.std.specs.Prelude.{◌≡◌, ℕ, ◌<◌, ◌/◌, ◌%◌, length, slice_index_or};
ghost use Rattle.ws_base.specs.declared.fault.FaultName.{FaultName};
ghost use Rattle.ws_base.specs.Words.{fault_number};
ghost use Rattle.phase_ops.specs.Faults.{act_lines, lines, IsKey, HasKey, fault_at};

use crate::phase::{Act, Phase};
use ws_base::{Fault, FaultName};

/// The line of an act.
fn line_in(acts: &[Act], at: u64) -> u32
    requires { at < length (lines acts.now) }
    ensures { result ≡ slice_index_or (lines acts.now) at 0 }
{
    acts[at as usize].line
}

fn act_line(phase: &Phase, at: u64) -> u32
    requires { at < length (act_lines phase.now) }
    ensures { result ≡ slice_index_or (act_lines phase.now) at 0 }
{
    match phase {
        Phase::Set { acts, .. } => line_in(acts.as_slice(), at),
        Phase::Loop { acts, .. } => line_in(acts.as_slice(), at),
        Phase::Part { act, .. } => act.line,
        Phase::Join { line, .. } => *line,
    }
}

fn name_of(number: u64) -> FaultName
    ensures { (name : FaultName) → number ≡ fault_number name → result ≡ name }
{
    match number {
        1 => FaultName::Bounds,
        2 => FaultName::Shape,
        3 => FaultName::Overflow,
        4 => FaultName::DivideByZero,
        5 => FaultName::ZeroStride,
        6 => FaultName::ManyOne,
        7 => FaultName::Unallocated,
        8 => FaultName::Allocated,
        9 => FaultName::TooLarge,
        10 => FaultName::DataEnd,
        11 => FaultName::DataBad,
        _ => FaultName::Steps,
    }
}

/// The fault that a key of the phase stands for: the line of its act, the fault's name, and the element that the key holds,
/// which is the number of the iteration from 1, or 0 for the whole statement. A key is
/// `((act * 2^20 + op) * 2^20 + element) * 16 + name`, so that the least key is that of the first operation that fails.
pub fn fault_of(phase: &Phase, key: u64) -> Fault
    requires { HasKey phase.now key }
    ensures { (act op element : ℕ) (name : FaultName) → IsKey phase.now key act op element name → result ≡ fault_at phase.now act element name }
{
    Fault {
        line: act_line(phase, key / 17_592_186_044_416),
        name: name_of(key % 16),
        element: (key / 16 % 1_048_576) as u32,
    }
}
