//! A walk over the ops of a module in printed order.

ghost use Rattle.std.specs.Prelude.{◌≡◌, ◌+◌, [], ◌∷◌, ◌++◌, length, OnOk};
ghost use Rattle.hlfir_ops.specs.declared.op.Op.{out-Op};
ghost use Rattle.hlfir_ops.specs.declared.op.Region.{out-Region};
ghost use Rattle.hlfir_ops.specs.Numbers.{names_in, own_numbers, numbers_of, numbers_in};
ghost use Rattle.hlfir_ops.specs.RulesPlaces as places;
ghost use Rattle.rule_limits.specs.Arounds.{around_seen};
ghost use Rattle.hlfir_verify.specs.Looks.{facts_seen};
ghost use Rattle.hlfir_verify.specs.Verdicts.{judged, verdict, verdicts, Tells};

use crate::broken::least_broken;
use crate::ending::VerifyEnd;
use crate::going::{Walk, define_names, define_own, go_past, leave};
use crate::look::Look;
use hlfir_ops::{Op, Region, What};
use rule_limits::{Around, around_in};
use rule_tests::names_at;

/// Judges an op, whose place is that of the walk, and goes past it.
fn judge(
    look: &Look,
    walk: &mut Walk,
    around: Around,
    before: &[Op],
    op: &Op,
) -> Result<(), VerifyEnd>
    ensures verdict { Tells result walk.new.place (judged walk.old.place (verdict (facts_seen look.now) (record { place = record { around = around_seen around; before = before.now; number = walk.old.number; defined = walk.old.defined.items }; op = op.now }) ∷ [])) }
    ensures number { OnOk result (walk.new.number ≡ own_numbers (out-Op op.now).kind + walk.old.number) }
    ensures defined { OnOk result (walk.new.defined.items ≡ walk.old.defined.items) }
{
    let broken = least_broken(
        look,
        around,
        before,
        walk.number,
        walk.defined.as_slice(),
        op,
    );
    match broken {
        Err(_) => Err(VerifyEnd::Memory),
        Ok(Some(rule)) => Err(VerifyEnd::BadOp {
            op: walk.place,
            rule,
        }),
        Ok(None) => match go_past(walk, op.kind) {
            Ok(()) => Ok(()),
            Err(_) => Err(VerifyEnd::Memory),
        },
    }
}

/// Judges the ops inside these regions of an op.
#[cycle(walking)]
fn walk_regions(
    regions: &[Region],
    look: &Look,
    walk: &mut Walk,
    around: Around,
    what: &What,
) -> Result<(), VerifyEnd>
    ensures verdict { Tells result walk.new.place (judged walk.old.place (verdicts (facts_seen look.now) (places.sites_in (around_seen around) what.now 0 walk.old.number walk.old.defined.items regions.now))) }
    ensures number { OnOk result (walk.new.number ≡ numbers_in what.now 0 regions.now + walk.old.number) }
    ensures defined { OnOk result (walk.new.defined.items ≡ walk.old.defined.items) }
{
    'each: for k in 0..regions.len() {
        walk_region(&regions[k], look, walk, around, what, k)?;
    }
    Ok(())
}

/// Judges the ops of the region of this number.
#[cycle(walking)]
fn walk_region(
    region: &Region,
    look: &Look,
    walk: &mut Walk,
    around: Around,
    what: &What,
    k: usize,
) -> Result<(), VerifyEnd>
    ensures verdict { Tells result walk.new.place (judged walk.old.place (verdicts (facts_seen look.now) (places.sites_of (places.around_in (around_seen around) what.now k) [] (length (names_in what.now k) + walk.old.number) (walk.old.defined.items ++ places.from_number walk.old.number (names_in what.now k)) (out-Region region.now).ops))) }
    ensures number { OnOk result (walk.new.number ≡ (length (names_in what.now k) + numbers_of (out-Region region.now).ops) + walk.old.number) }
    ensures defined { OnOk result (walk.new.defined.items ≡ walk.old.defined.items) }
{
    let len = walk.defined.len();
    let Some(inner) = around_in(around, what, k) else {
        return Err(VerifyEnd::Memory);
    };
    let Ok(()) = define_names(walk, names_at(what, k)) else {
        return Err(VerifyEnd::Memory);
    };
    walk_ops(region.ops.as_slice(), look, walk, inner)?;
    leave(walk, len);
    Ok(())
}

/// Judges the ops of a list.
#[cycle(walking)]
pub fn walk_ops(ops: &[Op], look: &Look, walk: &mut Walk, around: Around) -> Result<(), VerifyEnd>
    ensures verdict { Tells result walk.new.place (judged walk.old.place (verdicts (facts_seen look.now) (places.sites_of (around_seen around) [] walk.old.number walk.old.defined.items ops.now))) }
    ensures number { OnOk result (walk.new.number ≡ numbers_of ops.now + walk.old.number) }
    ensures defined { OnOk result (walk.new.defined.items ≡ walk.old.defined.items) }
{
    let len = walk.defined.len();
    'each: for i in 0..ops.len() {
        let number = walk.number;
        let op = &ops[i];
        judge(look, walk, around, &ops[..i], op)?;
        walk_regions(op.regions.as_slice(), look, walk, around, &op.what)?;
        let Ok(()) = define_own(walk, number, op.kind) else {
            return Err(VerifyEnd::Memory);
        };
    }
    leave(walk, len);
    Ok(())
}
