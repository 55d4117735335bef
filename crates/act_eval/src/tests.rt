//! Scalar operations, by hand.

use crate::*;
use phase_ops::{OneOp, ScalarOp};
use std::test::Fail;
use ws_base::FaultName;

#[test]
fn operations_on_registers(rt: HostRuntime) -> Result<(), Fail> {
    assert_eq!(rt;
        unary_value(OneOp::Minus, -2_147_483_648),
        Err(FaultName::Overflow)
    );
    assert_eq!(rt; unary_value(OneOp::Abs, -7), Ok(7));
    assert_eq!(rt; binary_value(ScalarOp::Div, -7, 2), Ok(-3));
    assert_eq!(rt;
        binary_value(ScalarOp::Mod, -7, 0),
        Err(FaultName::DivideByZero)
    );
    assert_eq!(rt; binary_value(ScalarOp::Modulo, -7, 3), Ok(2));
    assert_eq!(rt; binary_value(ScalarOp::Pow, -1, 4_294_967_297), Ok(-1));
    assert_eq!(rt;
        binary_value(ScalarOp::Pow, 2, 31),
        Err(FaultName::Overflow)
    );
    assert_eq!(rt; binary_value(ScalarOp::Pow, 2, -1), Ok(0));
    assert_eq!(rt; binary_value(ScalarOp::Max, 3, 5), Ok(5));
    Ok(())
}
