//! Laws of the definitions, which show a reader that they say what the source form says. The functions do nothing: their clauses are the laws.

ghost use Rattle.std.specs.Prelude.{List, ℕ};
ghost use Rattle.ws_lex.specs.Rows.{Hold, before_rows, directive_rows, line_rows, statement_rows, token_rows};
ghost use Rattle.ws_lex.specs.Spells.{IsLongest, IsNothing, IsSpelled};

/// The token taken at the front of a text is the longest: no longer front spells one.
pub fn the_longest_token_is_taken()
    ensures { (text : List ℕ) → IsLongest text }
{}

/// The token taken at the front of a text is spelled there, and is of the shape that is given.
pub fn the_token_taken_is_spelled()
    ensures { (text : List ℕ) → IsSpelled text }
{}

/// Where no token is taken none is spelled, but for a name of more than 63 bytes.
pub fn nothing_is_passed_over()
    ensures { (text : List ℕ) → IsNothing text }
{}

/// The definitions give small sources the answers that were worked by hand from the source form.
pub fn worked_rows_hold()
    ensures lines { Hold line_rows }
    ensures statements { Hold statement_rows }
    ensures directives { Hold directive_rows }
    ensures tokens { Hold token_rows }
    ensures before { Hold before_rows }
{}
