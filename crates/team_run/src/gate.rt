//! What a member meets between the claim of a unit and its run.

use std::sync::atomic::{AtomicBool, AtomicU64, Ordering};

/// It is met by each member after it has claimed a unit and before it runs that unit.
pub trait Gate {
    fn pass(&self, member: u32, phase: u32, unit: u64);
}

/// A gate that holds a unit of a phase until another unit of that phase has passed, or for so many turns.
#[derive(Drop)]
pub struct HoldGate {
    phase: u32,
    unit: u64,
    turns: u64,
    passed: AtomicBool,
    gave_up: AtomicBool,
}

impl HoldGate {
    pub fn new(phase: u32, unit: u64, turns: u64) -> HoldGate {
        HoldGate {
            phase,
            unit,
            turns,
            passed: AtomicBool::new(false),
            gave_up: AtomicBool::new(false),
        }
    }

    /// Whether the turns were over before another unit passed.
    pub fn gave_up(&self) -> bool {
        self.gave_up.load(Ordering::SeqCst)
    }

    fn hold(&self) {
        for _ in 0..self.turns {
            if self.passed.load(Ordering::SeqCst) {
                return;
            }
        }
        self.gave_up.store(true, Ordering::SeqCst);
    }
}

impl Gate for HoldGate {
    fn pass(&self, _member: u32, phase: u32, unit: u64) {
        if phase != self.phase {
            return;
        }
        if unit == self.unit {
            self.hold();
        } else {
            self.passed.store(true, Ordering::SeqCst);
        }
    }
}

/// A gate that counts how often it is met.
#[derive(Drop)]
pub struct CountGate {
    count: AtomicU64,
}

impl CountGate {
    pub fn new() -> CountGate {
        CountGate {
            count: AtomicU64::new(0),
        }
    }

    pub fn count(&self) -> u64 {
        self.count.load(Ordering::SeqCst)
    }
}

impl Gate for CountGate {
    fn pass(&self, _member: u32, _phase: u32, _unit: u64) {
        self.count.fetch_add(1, Ordering::SeqCst);
    }
}
