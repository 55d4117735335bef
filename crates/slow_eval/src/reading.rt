//! The values that READ takes (Fortran 2018, 13.10.3).

ghost use Rattle.std.specs.Prelude.{◌≡◌, ℕ, suc, ◌≤◌, length, IfOk, Err, ℤ};
ghost use Rattle.std.specs.List.{All};
ghost use Rattle.list_io.specs.Items as items;
ghost use Rattle.list_io.specs.Spelled.{EndsWithin};
ghost use Rattle.term_eval.specs.Limits.{IsInteger};
ghost use Rattle.term_eval.specs.Made.{Gives, Stops};

use list_io::{Item, next_item};
use sqlite_items::Items;
use std::alloc::Global;
use term_eval::Stop;
use ws_base::{FaultName, Trouble};

/// An item as a value of the wanted type, and the place after it.
fn typed(truth: bool, item: Item) -> Result<(i64, usize), FaultName>
    ensures value { result ≡ items.typed truth item }
    ensures within { (n : ℕ) → EndsWithin n item → IfOk result (λ r. r.1 ≤ n) }
{
    match item {
        Item::Truth { value, end } if truth => Ok((if value { 1 } else { 0 }, end)),
        Item::Number { value, end } if !truth => Ok((i64::from(value), end)),
        Item::End => Err(FaultName::DataEnd),
        _ => Err(FaultName::DataBad),
    }
}

/// The fault of the value after so many others. No data file has values enough for a number past 32 bits.
fn bad_value(taken: usize, name: FaultName) -> Stop
    ensures { Stops {A = ℤ × ℕ} result (items.numbered (suc taken) (Err name)) }
{
    if taken >= 4_294_967_295 {
        return Stop::Memory;
    }
    Stop::Failed(Trouble {
        element: taken as u32 + 1,
        name,
    })
}

/// The next values of a READ that has taken some before, and the place after them. A fault's element is the number of the value.
pub fn take_values(
    alloc: Global,
    input: &[u8],
    truth: bool,
    before: usize,
    count: usize,
    at: usize,
) -> Result<(Items<i64>, usize), Stop>
    requires within { at ≤ length input.now }
    ensures value { Gives result (items.take_values input.now truth before count at) }
    ensures within { IfOk result (λ r. r.1 ≤ length input.now) }
    ensures integers { IfOk result (λ r. All IsInteger r.0) }
{
    let mut made = Items::new(alloc);
    let mut place = at;
    for k in 0..count {
        // No data file has as many values.
        let Some(taken) = before.checked_add(k) else {
            return Err(Stop::Memory);
        };
        let item = next_item(input, place, taken == 0);
        match typed(truth, item) {
            Ok((value, end)) => {
                made.push(value)?;
                place = end;
            }
            Err(name) => return Err(bad_value(taken, name)),
        }
    }
    Ok((made, place))
}
