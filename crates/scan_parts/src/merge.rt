//! What the partials of each reduction offer.

ghost use Rattle.std.specs.Prelude.{◌≡◌};
ghost use Rattle.std.specs.Int.{w64, cast_signed};
ghost use Rattle.ws_base.specs.Numbers.{default_half};
ghost use Rattle.phase_ops.specs.Partials.{unit_part, part_of, merge as spec_merge, total as spec_total};
ghost use Rattle.phase_ops.specs.Phases.{word};
ghost use Rattle.scan_parts.specs.Laws.{MayMerge};

use ws_base::FaultName;

/// The partial of some values of one reduction: an exact integer. A product that passes the range is kept as one past it, with
/// its sign, until a zero makes it 0. No call takes memory.
pub trait Merge: Copy {
    ghost use Rattle.std.specs.Prelude.{ℤ};
    ghost use Rattle.ws_base.specs.declared.op.CallWord.{CallWord};

    ghost kind: { CallWord };

    ghost part: { Self → ℤ };

    /// The partial of no value.
    fn unit() -> Self
        ensures { part result ≡ unit_part default_half kind };

    /// The partial of one value.
    fn of(value: i64) -> Self
        ensures { part result ≡ part_of default_half kind value };

    /// The partial of the values of both.
    fn merge(self, later: Self) -> Self
        requires { MayMerge kind (part self) (part later) }
        ensures { part result ≡ spec_merge default_half kind (part self) (part later) };

    /// The reduction, or Overflow where a sum or product is out of range.
    fn total(self) -> Result<i64, FaultName>
        ensures { result ≡ spec_total default_half kind (part self) };

    /// The word that a unit stores.
    fn cell(self) -> u64
        ensures { result ≡ word (part self) };

    /// The partial that a word holds.
    fn of_cell(cell: u64) -> Self
        ensures { part result ≡ cast_signed w64 cell };
}
