//! The keywords, by their use.
ghost use Rattle.std.specs.Prelude.{◌≡◌};
ghost use Rattle.std.specs.List.{list_any};
ghost use Rattle.std.specs.Str.{bytes_eq};
ghost use Rattle.ws_tree.specs.Words as words;

/// The words of statements.
pub const STATEMENT_WORDS: [&str; 20] = [
    "program",
    "end",
    "endprogram",
    "implicit",
    "none",
    "integer",
    "logical",
    "parameter",
    "dimension",
    "allocatable",
    "allocate",
    "deallocate",
    "read",
    "do",
    "enddo",
    "where",
    "elsewhere",
    "endwhere",
    "forall",
    "endforall",
];

/// The words of the calls that a program may make.
pub const CALL_WORDS: [&str; 17] = [
    "abs",
    "mod",
    "modulo",
    "min",
    "max",
    "merge",
    "sum",
    "product",
    "minval",
    "maxval",
    "count",
    "any",
    "all",
    "size",
    "lbound",
    "ubound",
    "allocated",
];

/// The words of calls that are not supported.
pub const OTHER_CALL_WORDS: [&str; 22] = [
    "transpose",
    "cshift",
    "spread",
    "matmul",
    "eoshift",
    "reshape",
    "pack",
    "unpack",
    "dot_product",
    "minloc",
    "maxloc",
    "findloc",
    "sign",
    "iand",
    "ior",
    "ieor",
    "not",
    "shape",
    "int",
    "real",
    "kind",
    "huge",
];

/// The words of statements that are not supported.
pub const OTHER_STATEMENT_WORDS: [&str; 52] = [
    "if",
    "else",
    "elseif",
    "endif",
    "select",
    "endselect",
    "case",
    "call",
    "print",
    "write",
    "stop",
    "return",
    "exit",
    "cycle",
    "continue",
    "goto",
    "go",
    "subroutine",
    "function",
    "module",
    "submodule",
    "use",
    "contains",
    "complex",
    "character",
    "type",
    "class",
    "double",
    "data",
    "save",
    "common",
    "equivalence",
    "open",
    "close",
    "block",
    "associate",
    "critical",
    "interface",
    "external",
    "intrinsic",
    "target",
    "pointer",
    "nullify",
    "format",
    "namelist",
    "error",
    "inquire",
    "rewind",
    "procedure",
    "private",
    "public",
    "real",
];

fn is_one_of(table: &[&str], word: &[u8]) -> bool
    ensures { result ≡ list_any (λ entry. bytes_eq word.now entry.now) table.now }
{
    table.iter().any(|entry| word == entry.as_bytes())
}

/// A call of this word is not supported.
#[tactic(auto, unfolding(crate::specs::Words::is_other_call))]
pub fn is_other_call(word: &[u8]) -> bool
    ensures { result ≡ words.is_other_call word.now }
{
    is_one_of(&OTHER_CALL_WORDS, word)
}

/// A statement that begins with this word is not supported.
#[tactic(auto, unfolding(crate::specs::Words::is_other_statement))]
pub fn is_other_statement(word: &[u8]) -> bool
    ensures { result ≡ words.is_other_statement word.now }
{
    is_one_of(&OTHER_STATEMENT_WORDS, word)
}

/// No variable has this name.
#[tactic(auto, unfolding(crate::specs::Words::is_keyword))]
pub fn is_keyword(word: &[u8]) -> bool
    ensures { result ≡ words.is_keyword word.now }
{
    is_one_of(&STATEMENT_WORDS, word)
        || is_one_of(&CALL_WORDS, word)
        || is_other_call(word)
        || is_other_statement(word)
}
