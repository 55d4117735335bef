//! The words of calls (Fortran 2018, 16.9).
ghost use Rattle.std.specs.Prelude.{◌≡◌, Option};
ghost use Rattle.ws_expr.specs.Readings as readings;

use ws_base::{CallWord, Name};
use ws_tree::is_other_call;

/// What a word in front of `(` calls: an intrinsic function of the listed ones, or one that is left out.
#[derive(Clone, Copy, Debug, PartialEq, Eq)]
pub enum Callee {
    Listed(CallWord),
    LeftOut,
}

fn call_word(name: &Name) -> Option<CallWord>
    ensures { result ≡ readings.call_word name.now }
{
    match name.as_str() {
        "abs" => Some(CallWord::Abs),
        "mod" => Some(CallWord::Mod),
        "modulo" => Some(CallWord::Modulo),
        "min" => Some(CallWord::Min),
        "max" => Some(CallWord::Max),
        "merge" => Some(CallWord::Merge),
        "sum" => Some(CallWord::Sum),
        "product" => Some(CallWord::Product),
        "minval" => Some(CallWord::Minval),
        "maxval" => Some(CallWord::Maxval),
        "count" => Some(CallWord::Count),
        "any" => Some(CallWord::Any),
        "all" => Some(CallWord::All),
        "size" => Some(CallWord::Size),
        "lbound" => Some(CallWord::Lbound),
        "ubound" => Some(CallWord::Ubound),
        "allocated" => Some(CallWord::Allocated),
        _ => None,
    }
}

/// The callee that a word names, if it is a word of calls.
pub fn callee_of(name: &Name) -> Option<Callee>
    ensures { result ≡ readings.callee name.now }
{
    match call_word(name) {
        Some(word) => Some(Callee::Listed(word)),
        None => {
            if is_other_call(name.as_str().as_bytes()) {
                Some(Callee::LeftOut)
            } else {
                None
            }
        }
    }
}
