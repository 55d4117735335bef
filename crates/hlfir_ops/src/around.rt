//! What is entered around a place.

ghost use Rattle.std.specs.Prelude.{◌≡◌, ◌+◌, ◌-◌, ◌^◌, ◌<◌, length, reverse};
ghost use Rattle.hlfir_ops.specs.Numbers.{names_in};
ghost use Rattle.hlfir_ops.specs.Built.{index_here, index_around, masked_around, line_around};
ghost use Rattle.hlfir_ops.specs.Kept.{places, AreNumbered};

use crate::entered::Entered;
use crate::op::ValueId;
use crate::sorts::is_where;
use crate::what::What;
use ws_base::Name;

/// The index names that the region which is entered brings.
fn names_at(entered: &Entered) -> &[Name]
    ensures { result.now ≡ names_in entered.now.what (length entered.now.regions - 1) }
{
    match &entered.what {
        What::Forall(names) => {
            if entered.regions.len() == 2 {
                names.as_slice()
            } else {
                &[]
            }
        }
        _ => &[],
    }
}

/// The number of the last of these names that is this name, or what was found before.
fn index_in(first: u32, names: &[Name], name: &Name, before: Option<ValueId>) -> Option<ValueId>
    requires { first + length names.now < 2 ^ 32 }
    ensures { result ≡ index_here name.now first names.now before }
{
    let mut found = before;
    let mut number = first;
    'names: for x in names {
        if x == name {
            found = Some(ValueId { number });
        }
        number += 1;
    }
    found
}

/// The greatest number of the index name.
pub fn index_of(around: &[Entered], name: &Name) -> Option<ValueId>
    requires { AreNumbered (reverse around.now) }
    ensures { result ≡ index_around name.now (places around.now) }
{
    let mut found = None;
    'each: for entered in around {
        found = index_in(entered.first, names_at(entered), name, found);
    }
    found
}

/// A region of a WHERE is entered.
pub fn is_masked(around: &[Entered]) -> bool
    ensures { result ≡ masked_around (places around.now) }
{
    let mut masked = false;
    'each: for entered in around {
        masked = is_where(&entered.what) || masked;
    }
    masked
}

/// The line of the nearest op around that has one.
pub fn line_of(around: &[Entered]) -> u32
    ensures { result ≡ line_around (places around.now) }
{
    let mut line = 0;
    'each: for entered in around {
        if entered.what.has_line() {
            line = entered.line;
        }
    }
    line
}
