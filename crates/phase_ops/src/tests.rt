//! A key and its fault, by hand.

use crate::*;
use std::alloc::Global;
use std::test::Fail;
use ws_base::{Fault, FaultName};

/// An act of no ops.
fn empty(alloc: Global, line: u32) -> Act {
    Act {
        line,
        ops: MicroList::new(alloc),
        whole: false,
    }
}

#[test]
fn a_division_in_the_second_act(rt: HostRuntime) -> Result<(), Fail> {
    let alloc = rt.alloc();
    let phase = Phase::Loop {
        line: 4,
        label: Label::Stage,
        count: Source::Fixed(3),
        acts: ActList::from_vec(vec![in alloc; empty(alloc, 4), empty(alloc, 6)]?),
    };
    // The act 1, its operation 3, the element 2, and 4 for the division by zero.
    let fault = fault_of(&phase, ((1_048_576 + 3) * 1_048_576 + 2) * 16 + 4);
    let expected = Fault {
        line: 6,
        name: FaultName::DivideByZero,
        element: 2,
    };
    assert_eq!(rt; fault, expected);
    Ok(())
}
