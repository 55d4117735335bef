//! Where a fault comes: its line, and the number of its element.

ghost use Rattle.std.specs.Prelude.{◌≡◌, ◌<◌, ◌^◌, suc, slice_index};
ghost use Rattle.std.specs.List.{All};
ghost use Rattle.ws_space.specs.Faults.{fault_line};
ghost use Rattle.step_eval.specs.Halts.{halt_at, halt_among};

use crate::halt::Halt;
use term_eval::Stop;
use ws_base::{Fault, FaultName};

fn fault_line_of(line: u32, shape_line: u32, name: FaultName) -> u32
    ensures { result ≡ fault_line line shape_line name }
{
    match name {
        FaultName::Shape => shape_line,
        _ => line,
    }
}

/// A fault of an operation that has one value for its whole step. `shape_line` is the line of the step's Shape.
pub fn at_lines(line: u32, shape_line: u32, stop: Stop) -> Halt
    ensures { result ≡ halt_at line shape_line stop }
{
    match stop {
        Stop::Memory => Halt::Memory,
        Stop::Failed(trouble) => Halt::Faulted(Fault {
            line: fault_line_of(line, shape_line, trouble.name),
            name: trouble.name,
            element: trouble.element,
        }),
    }
}

fn number_at(places: &[u32], at: u32) -> u32
    requires { All (λ place. place < 2 ^ 31) places.now }
    ensures { result ≡ suc (slice_index places.now at) }
{
    match places.get(at as usize) {
        Some(place) => *place + 1,
        None => 1,
    }
}

/// A fault of operations over a list of places: the element at a place has the number after it.
pub fn among(line: u32, places: &[u32], stop: Stop) -> Halt
    requires { All (λ place. place < 2 ^ 31) places.now }
    ensures { result ≡ halt_among line places.now stop }
{
    match stop {
        Stop::Memory => Halt::Memory,
        Stop::Failed(trouble) => Halt::Faulted(Fault {
            line,
            name: trouble.name,
            element: number_at(places, trouble.element),
        }),
    }
}
