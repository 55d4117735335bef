use super::*;
use std::test::Fail;
use value_ops::{binary_value, call_value, reduction, unary_value};
use ws_base::{BinOp, CallWord, FaultName, UnOp};

const LEAST: i64 = -2_147_483_648;

const GREATEST: i64 = 2_147_483_647;

#[test]
fn values_are_exact_or_overflow(rt: HostRuntime) {
    assert_eq!(rt; unary_value(UnOp::Minus, LEAST), Err(FaultName::Overflow));
    assert_eq!(rt; unary_value(UnOp::Not, 0), Ok(1));
    assert_eq!(rt; binary_value(BinOp::Mul, -65_536, 32_768), Ok(LEAST));
    assert_eq!(rt;
        binary_value(BinOp::Div, LEAST, -1),
        Err(FaultName::Overflow)
    );
    assert_eq!(rt; binary_value(BinOp::Pow, -1, GREATEST), Ok(-1));
    assert_eq!(rt; binary_value(BinOp::Pow, -2, 31), Ok(LEAST));
    assert_eq!(rt;
        binary_value(BinOp::Pow, 0, -1),
        Err(FaultName::DivideByZero)
    );
    assert_eq!(rt; binary_value(BinOp::Ge, 3, 4), Ok(0));
}

// The remainders are those of the standard (Fortran 2018, 16.9.132 and 16.9.133).
#[test]
fn calls_take_their_arguments_in_order(rt: HostRuntime) {
    assert_eq!(rt; call_value(CallWord::Mod, &[-8, 5]), Ok(-3));
    assert_eq!(rt; call_value(CallWord::Modulo, &[8, -5]), Ok(-2));
    assert_eq!(rt;
        call_value(CallWord::Abs, &[LEAST]),
        Err(FaultName::Overflow)
    );
    assert_eq!(rt; call_value(CallWord::Max, &[1, 7, -9]), Ok(7));
    assert_eq!(rt; call_value(CallWord::Merge, &[1, 2, 0]), Ok(2));
}

#[test]
fn reductions_are_exact(rt: HostRuntime) {
    assert_eq!(rt; reduction(CallWord::Sum, &[GREATEST, 1, -1]), Ok(GREATEST));
    assert_eq!(rt; reduction(CallWord::Product, &[]), Ok(1));
    assert_eq!(rt;
        reduction(CallWord::Product, &[LEAST, LEAST, LEAST, LEAST, LEAST, 0]),
        Ok(0)
    );
    assert_eq!(rt;
        reduction(CallWord::Product, &[65_536, 65_536]),
        Err(FaultName::Overflow)
    );
    assert_eq!(rt; reduction(CallWord::Minval, &[]), Ok(GREATEST));
    assert_eq!(rt; reduction(CallWord::Maxval, &[-4, -3]), Ok(-3));
    assert_eq!(rt; reduction(CallWord::Count, &[1, 0, 1]), Ok(2));
    assert_eq!(rt; reduction(CallWord::Any, &[0, 0]), Ok(0));
    assert_eq!(rt; reduction(CallWord::All, &[]), Ok(1));
}

#[test]
fn operations_are_maps_over_places(rt: HostRuntime) -> Result<(), Fail> {
    let alloc = rt.alloc();
    let places = [4, 9];
    let minus = unary_map(alloc, UnOp::Minus, &[1, -2])?;
    assert_eq!(rt; minus.as_slice(), [-1, 2].as_slice());
    let sums = binary_map(alloc, BinOp::Add, &places, &[1, 2], &[30, 40])?;
    assert_eq!(rt; sums.as_slice(), [31, 42].as_slice());
    assert_eq!(rt;
        everywhere(alloc, Ok(5), &places)?.as_slice(),
        [5, 5].as_slice()
    );
    Ok(())
}
