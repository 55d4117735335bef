//! Partials, by hand.

use crate::*;
use std::test::Fail;
use ws_base::FaultName;

#[test]
fn a_product_too_large_is_zero_after_a_zero(rt: HostRuntime) -> Result<(), Fail> {
    let large = ProductPart::of(2_147_483_647).merge(ProductPart::of(-2));
    assert_eq!(rt; large.total(), Err(FaultName::Overflow));
    assert_eq!(rt; ProductPart::of(0).merge(large).total(), Ok(0));
    assert_eq!(rt; ProductPart::unit().total(), Ok(1));
    Ok(())
}

#[test]
fn partials_go_through_cells(rt: HostRuntime) -> Result<(), Fail> {
    let sum = SumPart::of(2_147_483_647).merge(SumPart::of(5));
    let stored = SumPart::of_cell(sum.cell());
    assert_eq!(rt; stored.total(), Err(FaultName::Overflow));
    assert_eq!(rt; stored.merge(SumPart::of(-5)).total(), Ok(2_147_483_647));
    assert_eq!(rt; CountPart::of(7).merge(CountPart::unit()).total(), Ok(1));
    assert_eq!(rt; MinvalPart::of(3).merge(MinvalPart::of(-4)).total(), Ok(-4));
    assert_eq!(rt; MaxvalPart::unit().merge(MaxvalPart::of(3)).total(), Ok(3));
    assert_eq!(rt; AnyPart::of(0).merge(AnyPart::of(1)).total(), Ok(1));
    assert_eq!(rt; AllPart::of(0).merge(AllPart::unit()).total(), Ok(0));
    Ok(())
}
