use super::*;
use std::alloc::{AllocError, Global};
use std::test::Fail;
use ws_lex::{LexEnd, tokens};

/// The line of a refusal of kind Syntax; 0 where the tokens have a tree.
fn syntax_line(alloc: Global, source: &[u8]) -> Result<u32, AllocError> {
    match tokens(alloc, source) {
        Ok(list) => match parse(alloc, &list) {
            Ok(_) => Ok(0),
            Err(ParseEnd::Refused(refusal)) => Ok(refusal.line),
            Err(ParseEnd::Memory) => Err(AllocError),
        },
        Err(LexEnd::Syntax { line, before }) => Ok(parse_front(alloc, &before)?.unwrap_or(line)),
        Err(LexEnd::Memory) => Err(AllocError),
    }
}

/// Sources, each with the line of its first bad statement, or 0.
const SOURCES: [(&str, u32); 30] = [
    // No form says a statement.
    ("logical :: t\nt = .not. .not. t\nend\n", 2),
    ("integer, pointer :: p\nend\n", 1),
    ("integer :: n\n10 continue\nend\n", 2),
    ("integer :: n\nx: do n = 1, 2\nend do\nend\n", 2),
    ("implicit integer (a-z)\nend\n", 1),
    ("integer :: n\nread 10, n\nend\n", 2),
    ("integer function f(x)\nend\n", 1),
    (
        "integer, allocatable :: p(:)\nallocate (p(3), stat=i)\nend\n",
        2,
    ),
    ("integer :: a(1)\na = [integer :: 1]\nend\n", 2),
    ("integer :: n\nn = m\nn = *\nend\n", 3),
    // Words that are names, or left out.
    ("integer :: n\nn = sum + 1\nend\n", 0),
    ("integer :: n\nread = 5\nwhere(3) = 1\nend\n", 0),
    ("integer :: n\nelse n = 1\nend\n", 0),
    ("integer :: while\ndo while = 1, 3\nend do\nend\n", 0),
    ("integer :: n\nn = sum()\nn = sin(1)\nend\n", 0),
    ("logical(4) :: t\nend\n", 0),
    ("integer, dimension(2), dimension(3) :: a, b(2)\nend\n", 0),
    ("print *, 1\ninteger :: n\nend\n", 0),
    // A statement is out of place.
    ("integer :: a(3)\na = 1\n", 3),
    ("!$omp parallel\ninteger :: n\n!$omp end parallel\nend\n", 2),
    (
        "integer :: i\n!$omp parallel\ndo i = 1, 2\n!$omp workshare\n!$omp end workshare\nend do\n!$omp end parallel\nend\n",
        4,
    ),
    (
        "integer :: a(2)\n!$omp parallel workshare\nwhere (a > 0)\n!$omp parallel workshare\n!$omp end parallel workshare\nend where\n!$omp end parallel workshare\nend\n",
        4,
    ),
    ("integer :: i\ndo i = 1, 2\nend\n", 3),
    ("integer :: n\nn = *\n?\nend\n", 2),
    ("integer :: n\nn = 1\n?\nend\n", 3),
    // A block is left out.
    ("integer :: n\nend\ndo while (n < 1)\n", 0),
    ("integer :: n\nend do 'x'\nend\n", 0),
    (
        "integer :: i\n!$omp parallel do\ndo i = 1, 2\nend do\nend\n",
        0,
    ),
    (
        "integer :: a(2)\nwhere (a > 0)\n!$omp barrier\nend where\nend\n",
        0,
    ),
    (
        "integer :: a(2)\n!$omp parallel workshare\na=7 ! x\n!$omp end parallel workshare\nend program\n",
        0,
    ),
];

#[test]
fn each_source_has_a_tree_or_a_bad_line(rt: HostRuntime) -> Result<(), Fail> {
    for (source, line) in SOURCES {
        assert_eq!(rt;
            syntax_line(rt.alloc(), source.as_bytes())?,
            line,
            "{source}"
        );
    }
    Ok(())
}
