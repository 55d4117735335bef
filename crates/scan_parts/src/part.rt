//! The partials of the seven reductions.

ghost use Rattle.std.specs.Prelude.{◌≡◌, ◌*ℤ◌};
ghost use Rattle.ws_base.specs.Numbers.{default_half, exact as spec_exact, truth as spec_truth};
ghost use Rattle.ws_base.specs.declared.op.CallWord.TheVariants as word;
ghost use Rattle.phase_ops.specs.Partials.{clamp};

use crate::merge::Merge;
use ws_base::FaultName;

/// The farthest that a product is kept out of the range, on either side.
const PAST: i64 = 2_147_483_649;

fn truth(holds: bool) -> i64
    ensures { result ≡ spec_truth holds }
{
    if holds { 1 } else { 0 }
}

fn exact(value: i64) -> Result<i64, FaultName>
    ensures { result ≡ spec_exact default_half value }
{
    if -2_147_483_648 <= value && value <= 2_147_483_647 {
        Ok(value)
    } else {
        Err(FaultName::Overflow)
    }
}

fn clamped(value: i128) -> i64
    ensures { result ≡ clamp default_half value }
{
    if i128::from(PAST) <= value {
        PAST
    } else if value <= i128::from(-PAST) {
        -PAST
    } else {
        value as i64
    }
}

fn clamped_product(a: i64, b: i64) -> i64
    ensures { result ≡ clamp default_half (a *ℤ b) }
{
    clamped(i128::from(a) * i128::from(b))
}

/// A partial of SUM.
#[derive(Clone, Copy, Debug, PartialEq, Eq)]
pub struct SumPart {
    sum: i64,
}

impl Merge for SumPart {
    ghost kind = { word.Sum };

    ghost part = { λ p. p.sum };

    fn unit() -> Self {
        SumPart { sum: 0 }
    }

    fn of(value: i64) -> Self {
        SumPart { sum: value }
    }

    fn merge(self, later: Self) -> Self {
        let sum = self.sum + later.sum;
        SumPart { sum }
    }

    fn total(self) -> Result<i64, FaultName> {
        exact(self.sum)
    }

    fn cell(self) -> u64 {
        self.sum.cast_unsigned()
    }

    fn of_cell(cell: u64) -> Self {
        SumPart {
            sum: cell.cast_signed(),
        }
    }
}

/// A partial of PRODUCT.
#[derive(Clone, Copy, Debug, PartialEq, Eq)]
pub struct ProductPart {
    product: i64,
}

impl Merge for ProductPart {
    ghost kind = { word.Product };

    ghost part = { λ p. p.product };

    fn unit() -> Self {
        ProductPart { product: 1 }
    }

    fn of(value: i64) -> Self {
        let product = clamped(i128::from(value));
        ProductPart { product }
    }

    fn merge(self, later: Self) -> Self {
        let product = clamped_product(self.product, later.product);
        ProductPart { product }
    }

    fn total(self) -> Result<i64, FaultName> {
        exact(self.product)
    }

    fn cell(self) -> u64 {
        self.product.cast_unsigned()
    }

    fn of_cell(cell: u64) -> Self {
        ProductPart {
            product: cell.cast_signed(),
        }
    }
}

/// A partial of MINVAL.
#[derive(Clone, Copy, Debug, PartialEq, Eq)]
pub struct MinvalPart {
    least: i64,
}

impl Merge for MinvalPart {
    ghost kind = { word.Minval };

    ghost part = { λ p. p.least };

    fn unit() -> Self {
        MinvalPart {
            least: 2_147_483_647,
        }
    }

    fn of(value: i64) -> Self {
        MinvalPart { least: value }
    }

    fn merge(self, later: Self) -> Self {
        let least = if self.least <= later.least {
            self.least
        } else {
            later.least
        };
        MinvalPart { least }
    }

    fn total(self) -> Result<i64, FaultName> {
        Ok(self.least)
    }

    fn cell(self) -> u64 {
        self.least.cast_unsigned()
    }

    fn of_cell(cell: u64) -> Self {
        MinvalPart {
            least: cell.cast_signed(),
        }
    }
}

/// A partial of MAXVAL.
#[derive(Clone, Copy, Debug, PartialEq, Eq)]
pub struct MaxvalPart {
    greatest: i64,
}

impl Merge for MaxvalPart {
    ghost kind = { word.Maxval };

    ghost part = { λ p. p.greatest };

    fn unit() -> Self {
        MaxvalPart {
            greatest: -2_147_483_648,
        }
    }

    fn of(value: i64) -> Self {
        MaxvalPart { greatest: value }
    }

    fn merge(self, later: Self) -> Self {
        let greatest = if self.greatest <= later.greatest {
            later.greatest
        } else {
            self.greatest
        };
        MaxvalPart { greatest }
    }

    fn total(self) -> Result<i64, FaultName> {
        Ok(self.greatest)
    }

    fn cell(self) -> u64 {
        self.greatest.cast_unsigned()
    }

    fn of_cell(cell: u64) -> Self {
        MaxvalPart {
            greatest: cell.cast_signed(),
        }
    }
}

/// A partial of COUNT.
#[derive(Clone, Copy, Debug, PartialEq, Eq)]
pub struct CountPart {
    count: i64,
}

impl Merge for CountPart {
    ghost kind = { word.Count };

    ghost part = { λ p. p.count };

    fn unit() -> Self {
        CountPart { count: 0 }
    }

    fn of(value: i64) -> Self {
        let count = truth(value != 0);
        CountPart { count }
    }

    fn merge(self, later: Self) -> Self {
        let count = self.count + later.count;
        CountPart { count }
    }

    fn total(self) -> Result<i64, FaultName> {
        Ok(self.count)
    }

    fn cell(self) -> u64 {
        self.count.cast_unsigned()
    }

    fn of_cell(cell: u64) -> Self {
        CountPart {
            count: cell.cast_signed(),
        }
    }
}

/// A partial of ANY.
#[derive(Clone, Copy, Debug, PartialEq, Eq)]
pub struct AnyPart {
    any: i64,
}

impl Merge for AnyPart {
    ghost kind = { word.Any };

    ghost part = { λ p. p.any };

    fn unit() -> Self {
        AnyPart { any: 0 }
    }

    fn of(value: i64) -> Self {
        let any = truth(value != 0);
        AnyPart { any }
    }

    fn merge(self, later: Self) -> Self {
        let any = truth(self.any != 0 || later.any != 0);
        AnyPart { any }
    }

    fn total(self) -> Result<i64, FaultName> {
        Ok(self.any)
    }

    fn cell(self) -> u64 {
        self.any.cast_unsigned()
    }

    fn of_cell(cell: u64) -> Self {
        AnyPart {
            any: cell.cast_signed(),
        }
    }
}

/// A partial of ALL.
#[derive(Clone, Copy, Debug, PartialEq, Eq)]
pub struct AllPart {
    all: i64,
}

impl Merge for AllPart {
    ghost kind = { word.All };

    ghost part = { λ p. p.all };

    fn unit() -> Self {
        AllPart { all: 1 }
    }

    fn of(value: i64) -> Self {
        let all = truth(value != 0);
        AllPart { all }
    }

    fn merge(self, later: Self) -> Self {
        let all = truth(self.all != 0 && later.all != 0);
        AllPart { all }
    }

    fn total(self) -> Result<i64, FaultName> {
        Ok(self.all)
    }

    fn cell(self) -> u64 {
        self.all.cast_unsigned()
    }

    fn of_cell(cell: u64) -> Self {
        AllPart {
            all: cell.cast_signed(),
        }
    }
}
