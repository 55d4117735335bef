//! Operands in registers.

ghost use Rattle.std.specs.Prelude.{◌≡◌, [], ◌∷◌, ◌++◌, length, IfOk};
ghost use Rattle.act_laws.specs.Fetches as fetches;
ghost use Rattle.act_laws.specs.Seats as seats;
ghost use Rattle.act_lower.specs.Code as code;

use act_laws::{Seat, Seated};
use hlfir_ops::ValueId;
use phase_ops::{Address, Micro, MicroList, Source, Term, TermList};
use std::alloc::{AllocError, Global};

/// Appends the op, and gives its register. A number of registers past 32 bits counts as want of memory.
pub fn appended(ops: &mut MicroList, op: Micro) -> Result<u32, AllocError>
    ensures ops { IfOk result (λ r. ops.new ≡ ops.old ++ op ∷ []) }
    ensures register { IfOk result (λ r. r ≡ length ops.old) }
{
    let Ok(k) = u32::try_from(ops.len()) else {
        return Err(AllocError);
    };
    ops.push(op)?;
    Ok(k)
}

fn cell_address(alloc: Global, cell: u32) -> Address
    ensures { result ≡ fetches.cell_address cell }
{
    Address {
        base: Source::Fixed(i64::from(cell)),
        terms: TermList::new(alloc),
    }
}

fn indexed_address(alloc: Global, first: u32, reg: u32) -> Result<Address, AllocError>
    ensures { IfOk result (λ address. address ≡ fetches.indexed_address first reg) }
{
    let term = Term {
        reg,
        step: Source::Fixed(1),
    };
    Ok(Address {
        base: Source::Fixed(i64::from(first)),
        terms: TermList::from_slice(alloc, &[term])?,
    })
}

/// Appends what brings the value in a register, and gives that register.
pub fn fetch(alloc: Global, place: u32, seat: Seat, ops: &mut MicroList) -> Result<u32, AllocError>
    ensures ops { IfOk result (λ r. ops.new ≡ ops.old ++ (fetches.fetched place (length ops.old) seat).ops) }
    ensures register { IfOk result (λ r. r ≡ (fetches.fetched place (length ops.old) seat).reg) }
{
    match seat {
        Seat::Fixed(z) => appended(ops, Micro::Fixed(z)),
        Seat::Cell(cell) => appended(ops, Micro::Load(cell_address(alloc, cell))),
        Seat::Cells(first) => {
            let address = indexed_address(alloc, first, place)?;
            appended(ops, Micro::Load(address))
        }
        Seat::Register(r) => Ok(r),
    }
}

/// The seat of a value: the last one of its number.
pub fn seat_in(table: &[Seated], number: u32) -> Option<Seat>
    ensures { result ≡ seats.seats_of table.now number }
{
    let mut found = None;
    'each: for e in table {
        if e.number == number {
            found = Some(e.seat);
        }
    }
    found
}

/// A value without a seat counts as 0.
pub fn seat_of(table: &[Seated], v: ValueId) -> Seat
    ensures { result ≡ code.seat_of (seats.seats_of table.now) v }
{
    match seat_in(table, v.number) {
        Some(seat) => seat,
        None => Seat::Fixed(0),
    }
}

/// Appends what brings the operands in registers, and gives these.
pub fn fetch_all(
    alloc: Global,
    place: u32,
    table: &[Seated],
    os: &[ValueId],
    ops: &mut MicroList,
) -> Result<Vec<u32>, AllocError>
    ensures ops { IfOk result (λ regs. ops.new ≡ ops.old ++ (code.operands place (length ops.old) (seats.seats_of table.now) os.now).ops) }
    ensures registers { IfOk result (λ regs. regs.items ≡ (code.operands place (length ops.old) (seats.seats_of table.now) os.now).regs) }
{
    let mut regs = Vec::new(alloc);
    'each: for v in os {
        let seat = seat_of(table, *v);
        let reg = fetch(alloc, place, seat, ops)?;
        regs.push(reg)?;
    }
    Ok(regs)
}
