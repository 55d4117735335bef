//! The use of names.

ghost use Rattle.std.specs.Prelude.{◌≡◌, IsTrue};
ghost use Rattle.ws_types.specs.Kinds.{least_from};
ghost use Rattle.ws_types.specs.Names as names;

use crate::least::note;
use crate::types::{Entry, Row, Standing, Typed};
use ws_base::{Name, Refusal, RefusalKind};

/// What a name stands for.
pub fn standing_of(table: &[Row], name: &Name) -> Option<Standing>
    ensures { result ≡ names.standing_of table.now name.now }
{
    for row in table {
        if row.name == *name {
            return Some(row.standing);
        }
    }
    None
}

fn entry_type(entry: Entry) -> Typed
    ensures { result ≡ names.entry_type entry }
{
    Typed {
        truth: entry.truth,
        rank: entry.rank,
    }
}

/// Type and rank of a name, where no rule refuses its use.
pub fn name_type(standing: Option<Standing>) -> Option<Typed>
    ensures { result ≡ names.name_type standing }
{
    match standing {
        None => None,
        Some(Standing::Declared(entry)) => Some(entry_type(entry)),
        Some(Standing::Active(entry)) => Some(entry_type(entry)),
        Some(Standing::Index) => Some(Typed {
            truth: false,
            rank: 0,
        }),
        Some(Standing::Barred) => None,
    }
}

fn is_undeclared(standing: Option<Standing>) -> bool
    ensures { result ≡ names.is_undeclared standing }
{
    match standing {
        None => true,
        Some(_) => false,
    }
}

fn is_barred(standing: Option<Standing>) -> bool
    ensures { result ≡ names.is_barred standing }
{
    match standing {
        Some(Standing::Barred) => true,
        _ => false,
    }
}

pub fn is_constant(standing: Option<Standing>) -> bool
    ensures { result ≡ names.is_constant standing }
{
    match standing {
        Some(Standing::Declared(entry)) => entry.constant,
        _ => false,
    }
}

pub fn is_active(standing: Option<Standing>) -> bool
    ensures { result ≡ names.is_active standing }
{
    match standing {
        Some(Standing::Active(_)) => true,
        Some(Standing::Index) => true,
        _ => false,
    }
}

/// A name that is declared and is not that of an allocatable.
pub fn is_no_allocatable(standing: Option<Standing>) -> bool
    ensures { result ≡ names.is_no_allocatable standing }
{
    match standing {
        Some(Standing::Declared(entry)) => !entry.allocatable,
        Some(Standing::Active(entry)) => !entry.allocatable,
        Some(Standing::Index) => true,
        _ => false,
    }
}

/// A name that is used: Undeclared, or an index name in a bound of its own header.
#[tactic(auto, using(crate::proofs::Appended::least_rules), unfolding(crate::specs::Names::name_faults))]
pub fn check_name(found: &mut Option<Refusal>, line: u32, standing: Option<Standing>)
    ensures { found.new ≡ least_from found.old (names.name_faults line standing) }
{
    note(
        found,
        is_undeclared(standing),
        line,
        RefusalKind::Undeclared,
    );
    note(found, is_barred(standing), line, RefusalKind::DoVariable);
}

/// A variable that is assigned or read: no named constant, no active DO variable and no index name.
#[tactic(auto, using(crate::proofs::Appended::least_rules), unfolding(crate::specs::Names::target_faults))]
pub fn check_target(found: &mut Option<Refusal>, line: u32, standing: Option<Standing>)
    ensures { found.new ≡ least_from found.old (names.target_faults line standing) }
{
    note(found, is_constant(standing), line, RefusalKind::TypeWrong);
    note(found, is_active(standing), line, RefusalKind::DoVariable);
}

/// Type and rank of a variable that is assigned, where no rule refuses it.
pub fn target_type(standing: Option<Standing>, selected: Option<Typed>) -> Option<Typed>
    ensures { result ≡ names.target_type standing selected }
{
    if is_constant(standing) || is_active(standing) {
        None
    } else {
        selected
    }
}
