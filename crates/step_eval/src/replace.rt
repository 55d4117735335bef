//! The replacement of elements (Fortran 2018, 10.2.1.3).

ghost use Rattle.std.specs.Prelude.{◌≡◌, ◌<◌, replicate, slice_set, false, IfOk};
ghost use Rattle.std.specs.List.{All};
ghost use Rattle.ws_space.specs.Values as space;

use sqlite_items::Items;
use std::alloc::{AllocError, Global};

/// A number above all of these.
fn above(targets: &[u32]) -> usize
    ensures { All (λ target. target < result) targets.now }
{
    let mut number = 0;
    for target in targets {
        if number <= *target as usize {
            number = *target as usize + 1;
        }
    }
    number
}

/// A mark for each place, and none of them set.
fn no_marks(alloc: Global, size: usize) -> Result<Vec<bool>, AllocError>
    ensures { IfOk result (λ marks. marks.items ≡ replicate size false) }
{
    vec![in alloc; false; size]
}

/// The least place in the list whose target stands earlier.
pub fn first_repeat(alloc: Global, targets: &[u32]) -> Result<Option<usize>, AllocError>
    ensures { IfOk result (λ place. place ≡ space.first_repeat targets.now) }
{
    let mut seen = no_marks(alloc, above(targets))?;
    for (i, target) in targets.iter().enumerate() {
        let place = *target as usize;
        if seen[place] {
            return Ok(Some(i));
        }
        seen[place] = true;
    }
    Ok(None)
}

/// Replaces the element at a place, where there is one.
fn replace_at(values: &mut Items<i64>, place: usize, value: i64)
    ensures { values.new ≡ slice_set values.old place value }
{
    if place < values.len() {
        values.set(place, value);
    }
}

/// Replaces all targets at once. Of equal targets the first counts, so the last one is stored first.
pub fn store(values: &mut Items<i64>, targets: &[u32], new: &[i64])
    ensures { values.new ≡ space.stored values.old targets.now new.now }
{
    let count = targets.len().min(new.len());
    'targets: for i in (0..count).rev() {
        replace_at(values, targets[i] as usize, new[i]);
    }
}
