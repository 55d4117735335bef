//! The sentences of the source form, each with a text that keeps it and one that breaks it; and what the tokens of a text are.

use crate::laws::{
    nothing_is_passed_over, the_longest_token_is_taken, the_token_taken_is_spelled,
    worked_rows_hold,
};
use crate::lex::tokens;
use crate::token::{LexEnd, TokenKind, TokenList};
use std::alloc::{AllocError, Global};
use std::test::Fail;

/// A rule, a source that keeps it, one that breaks it, and the line where it does.
const SENTENCES: [(&str, &str, &str, u32); 24] = [
    (
        "lines end with LF, and a CR before it is dropped",
        "n = 1\r\nend\r\n",
        "n = 1\nend\r",
        2,
    ),
    ("a last line without LF counts", "end\nn = 1", "end\n?", 2),
    ("lines are numbered from 1", "\n\nn = 1\n", "\n\n?\n", 3),
    ("a tab is a blank", "n\t=\t1\n", "n\x0b= 1\n", 1),
    (
        "132 bytes stand before a comment",
        "                                                                                                                                    ! c\n",
        "                                                                                                                                     ! c\n",
        1,
    ),
    (
        "`!` outside quotes begins a comment of any bytes",
        "n = 1 ! ?~\0\n",
        "n = 1 ? ! c\n",
        1,
    ),
    (
        "`!` inside quotes begins none",
        "print *, '! a'\n",
        "print *, '! a\n",
        1,
    ),
    (
        "letter case is irrelevant",
        "T = A .EQ. B\n",
        "T = A .EG. B\n",
        1,
    ),
    ("a name begins with a letter", "n_1 = 1\n", "_n = 1\n", 1),
    (
        "a name has at most 63 bytes",
        "nnnnnnnnnnnnnnnnnnnnnnnnnnnnnnnnnnnnnnnnnnnnnnnnnnnnnnnnnnnnnnn\n",
        "nnnnnnnnnnnnnnnnnnnnnnnnnnnnnnnnnnnnnnnnnnnnnnnnnnnnnnnnnnnnnnnn\n",
        1,
    ),
    (
        "`;` separates statements",
        ";n = 1;;\n",
        "!$omp barrier;\n",
        1,
    ),
    (
        "`&` at the end goes on past blank lines and comments",
        "n = 1 &\n\n! c\n+ 2\n",
        "n = 1 & + 2\n",
        1,
    ),
    (
        "the text goes on after a leading `&`",
        "n = 12&\n  &34\n",
        "n = 12\n  &34\n",
        2,
    ),
    (
        "a line holds more than `&`",
        "n = 1 &\n& &\n& + 1\n",
        "n = 1 &\n &\n+ 1\n",
        2,
    ),
    (
        "a line follows an `&`",
        "end\nn = 3 &\n+ 1",
        "end\nn = 3 &\n! c\n",
        2,
    ),
    (
        "a directive stands in no continued statement",
        "n = 1\n!$omp barrier\n",
        "n = 1 &\n!$omp barrier\n+ 1\n",
        2,
    ),
    (
        "`!$omp` and a blank begin a directive",
        "  !$omp\tbarrier ! ?\n!$ompx ?\n",
        "!$omp ?\n",
        1,
    ),
    (
        "a line that begins `!$` and a blank obeys the width alone",
        "!$ n = ?\n",
        "!$ nnnnnnnnnnnnnnnnnnnnnnnnnnnnnnnnnnnnnnnnnnnnnnnnnnnnnnnnnnnnnnnnnnnnnnnnnnnnnnnnnnnnnnnnnnnnnnnnnnnnnnnnnnnnnnnnnnnnnnnnnnnnnnnnnn\n",
        1,
    ),
    (
        "the tokens",
        ".true. .false. ** * / + - == /= < <= > >= .not. .and. .or. .eqv. .neqv.\n",
        ".xor.\n",
        1,
    ),
    (
        "the dot forms and marks",
        ".eq. .ne. .lt. .le. .gt. .ge. ( ) [ ] (/ /) , : :: =\n",
        "{ }\n",
        1,
    ),
    (
        "the longest token is taken",
        "a(1::2) = (/1/)\n",
        "a = 1..\n",
        1,
    ),
    (
        "after digits a dot operator stays whole",
        "t = 1.eq.2\n",
        "t = 1.true.\n",
        1,
    ),
    (
        "foreign tokens are read",
        "1. .5 1.5e-3 2d0 'a' \"b\" % => // 1_4\n",
        "1.5.\n",
        1,
    ),
    (
        "quoted text is closed on its line",
        "print *, 'it''s; &'\n",
        "n = 1\nprint *, 'a &\n&b'\n",
        2,
    ),
];

/// The first line that breaks the source form, if any does.
fn broken_line(alloc: Global, source: &str) -> Result<Option<u32>, AllocError> {
    match tokens(alloc, source.as_bytes()) {
        Ok(_) => Ok(None),
        Err(LexEnd::Syntax { line, .. }) => Ok(Some(line)),
        Err(LexEnd::Memory) => Err(AllocError),
    }
}

#[test]
fn each_sentence_is_kept_and_broken(rt: HostRuntime) -> Result<(), Fail> {
    for (rule, kept, broken, line) in SENTENCES {
        assert_eq!(rt; broken_line(rt.alloc(), kept)?, None, "{rule}");
        assert_eq!(rt; broken_line(rt.alloc(), broken)?, Some(line), "{rule}");
    }
    Ok(())
}

/// Each token as text: its line, its bytes or kind, and `;` after the last of a statement.
fn listed(alloc: Global, tokens: &TokenList) -> Result<String, AllocError> {
    let mut text = String::new(alloc);
    for token in tokens.as_slice() {
        let line = token.line;
        match &token.what {
            TokenKind::Word(name) | TokenKind::Digits(name) => {
                text.push_str(format!(in alloc; "{line}:{}", name.as_str())?.as_str())?;
            }
            what => text.push_str(format!(in alloc; "{line}:{what:?}")?.as_str())?,
        }
        text.push_str(if token.ends { "; " } else { " " })?;
    }
    Ok(text)
}

#[test]
fn a_list_has_the_tokens_of_each_statement(rt: HostRuntime) -> Result<(), Fail> {
    let source = b"INTEGER :: A_1; &\nA_1 = 2&\n  &3 ! c\n!$omp barrier\n";
    let list = tokens(rt.alloc(), source)?;
    assert_eq!(rt;
        listed(rt.alloc(), &list)?.as_str(),
        "1:integer 1:Sign(DoubleColon) 1:a_1; 2:a_1 2:Sign(Becomes) 2:23; 4:Directive 4:barrier; 5:End "
    );
    Ok(())
}

#[test]
fn a_refusal_keeps_the_statements_before_its_line(rt: HostRuntime) -> Result<(), Fail> {
    let Err(LexEnd::Syntax { line, before }) = tokens(rt.alloc(), b"a = 1\nb = 2; c = &\n?\n")
    else {
        return Err(Fail::from("no refusal"));
    };
    assert_eq!(rt; line, 3);
    assert_eq!(rt;
        listed(rt.alloc(), &before)?.as_str(),
        "1:a 1:Sign(Becomes) 1:1; 2:b 2:Sign(Becomes) 2:2; "
    );
    Ok(())
}

#[test]
fn the_laws_do_nothing() {
    nothing_is_passed_over();
    the_longest_token_is_taken();
    the_token_taken_is_spelled();
    worked_rows_hold();
}
