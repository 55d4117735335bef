//! Building a module op by op.

ghost use Rattle.std.specs.Prelude.{◌≡◌, ◌<◌, ◌+◌, ◌^◌, ◌++◌, [], ◌∷◌, length, vec_len, vec_capacity, MatchResult, OnOk, OnErr, IfOk, IfSome};
ghost use Rattle.hlfir_ops.specs.declared.op.Op.{out-Op};
ghost use Rattle.hlfir_ops.specs.Trees.{region_of, with_region};
ghost use Rattle.hlfir_ops.specs.Numbers.{names_in, own_numbers};
ghost use Rattle.hlfir_ops.specs.Built.{begun, appended, left, taken, Enters, HasNoRegions, index_around, masked_around, line_around};

use crate::around::{index_of, is_masked, line_of};
use crate::entered::Entered;
use crate::kinds::ValueKind;
use crate::op::{Module, Op, Region, ValueId};
use crate::what::What;
use sqlite_items::Items;
use std::alloc::{AllocError, Global};
use std::marker::Model;
use std::mem;
use ws_base::Name;

/// A module of which some regions are entered and not left. The ops come in printed order.
#[derive(Debug, Drop)]
pub struct Builder {
    alloc: Global,
    name: Name,
    around: Vec<Entered>,
    ops: Vec<Op>,
    next: u32,
}

impl Model for Builder {
    ghost use Rattle.std.specs.Prelude.{◌≡◌, reverse};
    ghost use Rattle.std.specs.Coded.{codes};
    ghost use Rattle.hlfir_ops.specs.contracts.op.Op as op;
    ghost use Rattle.hlfir_ops.specs.contracts.op.Region as region;
    ghost use Rattle.hlfir_ops.specs.Built.{Built, taken};

    ghost Value = { Built };

    ghost coded = { Prim.hlevel (codes, op.the_row.coded, region.the_row.coded) };

    ghost use Rattle.hlfir_ops.specs.Kept.{places, AreNumbered};

    ghost view = { λ b. record { name = b.name; around = places b.around.items; ops = b.ops.items } };

    ghost invariant = { λ b. (b.next ≡ taken (record { name = b.name; around = places b.around.items; ops = b.ops.items })) × AreNumbered (reverse b.around.items) };
}

/// The number after so many more. Past the last number that an id holds there is none, which counts as want of memory.
fn number_after(number: u32, more: usize) -> Option<u32>
    ensures { IfSome result (λ after. (after ≡ number + more) × (after < 2 ^ 32)) }
{
    let more = u32::try_from(more).ok()?;
    number.checked_add(more)
}

/// How many values it gives.
fn value_count(kind: &Option<ValueKind>) -> usize
    ensures { result ≡ own_numbers kind.now }
{
    match kind {
        Some(_) => 1,
        None => 0,
    }
}

/// How many index names the region of this number brings.
fn names_count(what: &What, region: usize) -> usize
    ensures { result ≡ length (names_in what.now region) }
{
    match what {
        What::Forall(names) => { if region == 1 { names.len() } else { 0 } }
        _ => 0,
    }
}

/// The op to where there is room for it.
fn put_back(ops: &mut Vec<Op>, op: Op)
    requires { vec_len ops.old < vec_capacity ops.old }
    ensures { ops.new.items ≡ ops.old.items ++ op ∷ [] }
{
    match ops.push(op) {
        Ok(()) => {}
        Err(_) => unreachable!(),
    }
}

/// The place to where there is room for it.
fn put_around(around: &mut Vec<Entered>, entered: Entered)
    requires { vec_len around.old < vec_capacity around.old }
    ensures { around.new.items ≡ around.old.items ++ entered ∷ [] }
{
    match around.push(entered) {
        Ok(()) => {}
        Err(_) => unreachable!(),
    }
}

/// The op with one more region, which is empty.
fn with_empty_region(alloc: Global, op: Op) -> Result<Op, Op>
    ensures { MatchResult result (λ with. with ≡ with_region op (region_of [])) (λ back. back ≡ op) }
{
    let Op {
        what,
        line,
        operands,
        kind,
        mut regions,
    } = op;
    let pushed = regions.push(Region {
        ops: Items::new(alloc),
    });
    let op = Op {
        what,
        line,
        operands,
        kind,
        regions,
    };
    match pushed {
        Ok(()) => Ok(op),
        Err(_) => Err(op),
    }
}

/// Makes room for one more place. Gives the op with a region that stands for the one that is entered, and the number after the index
/// names of that.
fn holder(alloc: Global, next: u32, around: &mut Vec<Entered>, op: Op) -> Result<(Op, u32), Op>
    ensures same { around.new.items ≡ around.old.items }
    ensures room { OnOk result (vec_len around.new < vec_capacity around.new) }
    ensures op { MatchResult result (λ held. held.0 ≡ with_region op (region_of [])) (λ back. back ≡ op) }
    ensures after { IfOk result (λ held. held.1 ≡ next + length (names_in (out-Op op).what (length (out-Op op).regions))) }
    ensures fits { IfOk result (λ held. held.1 < 2 ^ 32) }
{
    let Some(after) = number_after(next, names_count(&op.what, op.regions.len())) else {
        return Err(op);
    };
    if around.reserve(1).is_err() {
        return Err(op);
    }
    match with_empty_region(alloc, op) {
        Ok(op) => Ok((op, after)),
        Err(op) => Err(op),
    }
}

impl Builder {
    /// A module without ops.
    pub fn new(alloc: Global, name: Name) -> Builder
        ensures { result ≡ begun name }
    {
        Builder {
            alloc,
            name,
            around: Vec::new(alloc),
            ops: Vec::new(alloc),
            next: 0,
        }
    }

    /// Appends the op, which has no regions yet, to the region that was entered last and not left, or to the module. Gives the number
    /// of its value, or the next free number where it gives none. Only for want of memory the op comes back.
    pub fn push(&mut self, op: Op) -> Result<ValueId, Op>
        requires { HasNoRegions op }
        ensures { MatchResult result (λ id. (id.number ≡ taken self.old) × (self.new ≡ appended self.old op)) (λ back. (back ≡ op) × (self.new ≡ self.old)) }
    {
        let number = self.next;
        let Some(next) = number_after(number, value_count(&op.kind)) else {
            return Err(op);
        };
        match self.ops.push(op) {
            Ok(()) => {
                self.next = next;
                Ok(ValueId { number })
            }
            Err(failed) => Err(failed.value),
        }
    }

    /// Enters the next region of the op that was appended last at this place.
    pub fn enter_region(&mut self) -> Result<(), AllocError>
        requires { 0 < length self.old.ops }
        ensures entered { OnOk result (Enters self.old self.new) }
        ensures unchanged { OnErr result (self.new ≡ self.old) }
    {
        let Some(op) = self.ops.pop() else {
            unreachable!()
        };
        match holder(self.alloc, self.next, &mut self.around, op) {
            Err(op) => {
                put_back(&mut self.ops, op);
                Err(AllocError)
            }
            Ok((op, after)) => {
                let Op {
                    what,
                    line,
                    operands,
                    kind,
                    regions,
                } = op;
                let before = mem::replace(&mut self.ops, Vec::new(self.alloc));
                put_around(
                    &mut self.around,
                    Entered {
                        before,
                        what,
                        line,
                        operands,
                        kind,
                        regions,
                        first: self.next,
                    },
                );
                self.next = after;
                Ok(())
            }
        }
    }

    /// Leaves the region that was entered last.
    pub fn leave_region(&mut self)
        requires { 0 < length self.old.around }
        ensures { self.new ≡ left self.old }
    {
        let Some(entered) = self.around.pop() else {
            unreachable!()
        };
        let Entered {
            before,
            what,
            line,
            operands,
            kind,
            mut regions,
            ..
        } = entered;
        let ops = mem::replace(&mut self.ops, before);
        let last = regions.len() - 1;
        regions.set(
            last,
            Region {
                ops: Items::from_vec(ops),
            },
        );
        put_back(
            &mut self.ops,
            Op {
                what,
                line,
                operands,
                kind,
                regions,
            },
        );
    }

    /// The number of the index name, the greatest where there are several. None where no body of a FORALL that has it is entered.
    pub fn index(&self, name: &Name) -> Option<ValueId>
        ensures { result ≡ index_around name.now self.now.around }
    {
        index_of(self.around.as_slice(), name)
    }

    /// A region of a WHERE is entered.
    pub fn masked(&self) -> bool
        ensures { result ≡ masked_around self.now.around }
    {
        is_masked(self.around.as_slice())
    }

    /// The line of an op here that has none of its own.
    pub fn line(&self) -> u32
        ensures { result ≡ line_around self.now.around }
    {
        line_of(self.around.as_slice())
    }

    /// The module, where no region is entered.
    pub fn finish(self) -> Module
        requires { self.around ≡ [] }
        ensures { result ≡ record { name = self.name; ops = self.ops } }
    {
        let Builder { name, ops, .. } = self;
        Module {
            name,
            ops: Items::from_vec(ops),
        }
    }
}
