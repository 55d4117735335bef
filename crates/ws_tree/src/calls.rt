//! The arguments that the word of a call takes (Fortran 2018, 16.9).

ghost use Rattle.std.specs.Prelude.{◌≡◌};
ghost use Rattle.ws_tree.specs.Calls as calls;

use crate::expr::Expr;
use ws_base::CallWord;

fn is_name(e: &Expr) -> bool
    ensures { result ≡ calls.is_name e.now }
{
    matches!(e, Expr::Named(_))
}

fn is_digits(e: &Expr) -> bool
    ensures { result ≡ calls.is_digits e.now }
{
    matches!(e, Expr::Number(_) | Expr::TooWide)
}

fn is_one_name(arguments: &[Expr]) -> bool
    ensures { result ≡ calls.is_one_name arguments.now }
{
    match arguments {
        [x] => is_name(x),
        _ => false,
    }
}

fn is_with_dimension(arguments: &[Expr]) -> bool
    ensures { result ≡ calls.is_with_dimension arguments.now }
{
    match arguments {
        [x, dimension] => is_name(x) && is_digits(dimension),
        _ => false,
    }
}

/// The call takes these arguments: as many as it wants, with a name and a digit string where it wants these.
#[tactic(auto, unfolding(crate::specs::Calls::takes))]
pub fn takes(word: CallWord, arguments: &[Expr]) -> bool
    ensures { result ≡ calls.takes word arguments.now }
{
    match word {
        CallWord::Abs => arguments.len() == 1,
        CallWord::Mod | CallWord::Modulo => arguments.len() == 2,
        CallWord::Min | CallWord::Max => 2 <= arguments.len(),
        CallWord::Merge => arguments.len() == 3,
        CallWord::Sum
        | CallWord::Product
        | CallWord::Minval
        | CallWord::Maxval
        | CallWord::Count
        | CallWord::Any
        | CallWord::All => arguments.len() == 1,
        CallWord::Size => is_one_name(arguments) || is_with_dimension(arguments),
        CallWord::Lbound | CallWord::Ubound => is_with_dimension(arguments),
        CallWord::Allocated => is_one_name(arguments),
    }
}
