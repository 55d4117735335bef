use super::*;
use std::test::Fail;

const LEAST: i32 = -2_147_483_648;

#[test]
fn results_are_exact_or_overflow(rt: HostRuntime) {
    assert_eq!(rt; add32(2_147_483_647, 1), Err(FaultName::Overflow));
    assert_eq!(rt; sub32(LEAST, 1), Err(FaultName::Overflow));
    assert_eq!(rt; mul32(-65_536, 32_768), Ok(LEAST));
    assert_eq!(rt; neg32(LEAST), Err(FaultName::Overflow));
    assert_eq!(rt; abs32(-7), Ok(7));
    assert_eq!(rt; pow32(-2, 31), Ok(LEAST));
    assert_eq!(rt; pow32(-1, -3), Ok(-1));
    assert_eq!(rt; pow32(0, -1), Err(FaultName::DivideByZero));
}

// The remainders for 8 and 5 are those of the standard (Fortran 2018, 16.9).
#[test]
fn remainders_have_the_standards_signs(rt: HostRuntime) {
    assert_eq!(rt; div32(LEAST, -1), Err(FaultName::Overflow));
    assert_eq!(rt; mod32(-8, 5), Ok(-3));
    assert_eq!(rt; mod32(8, -5), Ok(3));
    assert_eq!(rt; modulo32(-8, 5), Ok(2));
    assert_eq!(rt; modulo32(8, -5), Ok(-2));
}

#[test]
fn names_are_their_texts(rt: HostRuntime) -> Result<(), Fail> {
    let name = Name::from_bytes(rt.alloc(), b"jacobi_2")?;
    assert_eq!(rt; name.as_str(), "jacobi_2");
    assert!(rt; name == name.copy(rt.alloc())?);
    assert!(rt; name != Name::from_str(rt.alloc(), "jacobi_3")?);
    assert_eq!(rt; FaultName::Steps.word(), "Steps");
    assert_eq!(rt; FaultName::Steps.number(), 12);
    assert_eq!(rt; RefusalKind::OverLimit.word(), "OverLimit");
    assert_eq!(rt; RefusalKind::OverLimit.number(), 10);
    Ok(())
}
