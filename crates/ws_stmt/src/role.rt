//! What a statement is by its first words, its tokens and its brackets, before it is read.
ghost use Rattle.std.specs.Prelude.{◌≡◌, ◌<◌, Option};
ghost use Rattle.ws_stmt.specs.Roles as roles;

use ws_lex::{Sign, Token, TokenKind};
use ws_tree::is_other_statement;

/// The sorts of block.
#[derive(Clone, Copy, Debug, PartialEq, Eq)]
pub enum Block {
    Do,
    Where,
    Forall,
    ParallelWorkshare,
    Parallel,
    Workshare,
}

/// What the first words say of a statement that is left out.
#[derive(Clone, Copy, Debug, PartialEq, Eq)]
pub enum Role {
    Alone,
    Opens(Block),
    GoesOn,
    Closes(Block),
    ClosesUnit,
    NamesUnit,
}

pub fn is_word(word: &[u8], what: &TokenKind) -> bool
    ensures { result ≡ roles.is_word word.now what.now }
{
    match what {
        TokenKind::Word(name) => name.as_str().as_bytes() == word,
        _ => false,
    }
}

fn is_left_out_word(what: &TokenKind) -> bool
    ensures { result ≡ roles.is_left_out_word what.now }
{
    match what {
        TokenKind::Word(name) => is_other_statement(name.as_str().as_bytes()),
        _ => false,
    }
}

fn is_becomes(what: &TokenKind) -> bool
    ensures { result ≡ roles.is_becomes what.now }
{
    matches!(what, TokenKind::Sign(Sign::Becomes))
}

fn is_foreign(what: &TokenKind) -> bool
    ensures { result ≡ roles.is_foreign what.now }
{
    matches!(what, TokenKind::Foreign)
}

pub fn begins_word(word: &[u8], tokens: &[Token]) -> bool
    ensures { result ≡ roles.begins_word word.now tokens.now }
{
    match tokens.first() {
        None => false,
        Some(first) => is_word(word, &first.what),
    }
}

fn begins_left_out(tokens: &[Token]) -> bool
    ensures { result ≡ roles.begins_left_out tokens.now }
{
    match tokens.first() {
        None => false,
        Some(first) => is_left_out_word(&first.what),
    }
}

pub fn begins_becomes(tokens: &[Token]) -> bool
    ensures { result ≡ roles.begins_becomes tokens.now }
{
    match tokens.first() {
        None => false,
        Some(first) => is_becomes(&first.what),
    }
}

/// A token that no statement of the grammar has.
pub fn has_foreign(tokens: &[Token]) -> bool
    ensures { result ≡ roles.has_foreign tokens.now }
{
    for token in tokens {
        if is_foreign(&token.what) {
            return true;
        }
    }
    false
}

/// The words after END.
fn end_role(tokens: &[Token]) -> Role
    ensures { result ≡ roles.end_role tokens.now }
{
    if begins_word(b"do", tokens) {
        Role::Closes(Block::Do)
    } else if begins_word(b"where", tokens) {
        Role::Closes(Block::Where)
    } else if begins_word(b"forall", tokens) {
        Role::Closes(Block::Forall)
    } else {
        Role::ClosesUnit
    }
}

/// How many brackets are open after a token, where `count` are before it.
fn change_of(what: &TokenKind, count: usize) -> usize
    requires { count < usize.MAX }
    ensures { result ≡ roles.change_of what.now count }
{
    match what {
        TokenKind::Sign(Sign::Open | Sign::OpenSquare | Sign::OpenSlash) => count + 1,
        TokenKind::Sign(Sign::Close | Sign::CloseSquare | Sign::CloseSlash) => {
            count.saturating_sub(1)
        }
        _ => count,
    }
}

/// More than 256 brackets are open at some place of the statement.
pub fn is_crowded(tokens: &[Token]) -> bool
    ensures { result ≡ roles.is_crowded 0 tokens.now }
{
    let mut count = 0;
    for token in tokens {
        if 256 < count {
            return true;
        }
        count = change_of(&token.what, count);
    }
    256 < count
}

/// The bracket that is open closes with the last token.
fn closes_at_end(tokens: &[Token]) -> bool
    ensures { result ≡ roles.closes_at_end 1 tokens.now }
{
    let mut count = 1;
    for token in tokens {
        if count == 0 {
            return false;
        }
        count = change_of(&token.what, count);
    }
    count == 0
}

pub fn is_open(what: &TokenKind) -> bool
    ensures { result ≡ roles.is_open what.now }
{
    matches!(what, TokenKind::Sign(Sign::Open))
}

/// What follows the bracket that closes the open one.
fn after_bracket(tokens: &[Token]) -> &[Token]
    ensures { result.now ≡ roles.skip 1 tokens.now }
{
    let mut count = 1;
    for (at, token) in tokens.iter().enumerate() {
        if count == 0 {
            return &tokens[at..];
        }
        count = change_of(&token.what, count);
    }
    &tokens[tokens.len()..]
}

/// A `(` begins, and its `)` ends the statement.
fn spans(tokens: &[Token]) -> bool
    ensures { result ≡ roles.spans tokens.now }
{
    match tokens.split_first() {
        None => false,
        Some((first, rest)) => is_open(&first.what) && closes_at_end(rest),
    }
}

/// What follows the name of a left side: brackets, if it has subscripts, and `=`.
pub fn assigns(tokens: &[Token]) -> bool
    ensures { result ≡ roles.assigns tokens.now }
{
    match tokens.split_first() {
        None => false,
        Some((first, rest)) => {
            is_becomes(&first.what) || (is_open(&first.what) && begins_becomes(after_bracket(rest)))
        }
    }
}

fn is_combined(tokens: &[Token]) -> bool
    ensures { result ≡ roles.is_combined tokens.now }
{
    begins_word(b"do", tokens)
        || begins_word(b"sections", tokens)
        || begins_word(b"loop", tokens)
        || begins_word(b"masked", tokens)
        || begins_word(b"master", tokens)
}

/// The block that the words of a directive name.
fn region_of(tokens: &[Token]) -> Option<Block>
    ensures { result ≡ roles.region_of tokens.now }
{
    let (_, rest) = tokens.split_first()?;
    if begins_word(b"workshare", tokens) {
        Some(Block::Workshare)
    } else if begins_word(b"parallel", tokens) {
        if is_combined(rest) {
            None
        } else if begins_word(b"workshare", rest) {
            Some(Block::ParallelWorkshare)
        } else {
            Some(Block::Parallel)
        }
    } else {
        None
    }
}

/// What a directive says (OpenMP 5.2, 11.4): the words after `!$omp` decide.
pub fn directive_role(tokens: &[Token]) -> Role
    ensures { result ≡ roles.directive_role tokens.now }
{
    let Some((_, rest)) = tokens.split_first() else {
        return Role::Alone;
    };
    if begins_word(b"end", tokens) {
        match region_of(rest) {
            Some(block) => Role::Closes(block),
            None => Role::Alone,
        }
    } else {
        match region_of(tokens) {
            Some(block) => Role::Opens(block),
            None => Role::Alone,
        }
    }
}

/// DO alone, DO WHILE and DO CONCURRENT, but for a variable of that name.
fn is_other_loop(tokens: &[Token]) -> bool
    ensures { result ≡ roles.is_other_loop tokens.now }
{
    match tokens.split_first() {
        None => true,
        Some((_, rest)) => {
            (begins_word(b"while", tokens) || begins_word(b"concurrent", tokens))
                && !begins_becomes(rest)
        }
    }
}

fn role_if(test: bool, role: Role) -> Role
    ensures { result ≡ roles.role_if test role }
{
    if test { role } else { Role::Alone }
}

/// The role that the words of a statement say, where it is no directive. An assignment may begin with any word.
fn word_role(first: &TokenKind, rest: &[Token]) -> Role
    ensures { result ≡ roles.word_role first.now rest.now }
{
    if assigns(rest) {
        Role::Alone
    } else if is_word(b"end", first) {
        if begins_left_out(rest) {
            Role::Alone
        } else {
            end_role(rest)
        }
    } else if is_word(b"enddo", first) {
        Role::Closes(Block::Do)
    } else if is_word(b"endwhere", first) {
        Role::Closes(Block::Where)
    } else if is_word(b"endforall", first) {
        Role::Closes(Block::Forall)
    } else if is_word(b"endprogram", first) {
        Role::ClosesUnit
    } else if is_word(b"do", first) {
        Role::Opens(Block::Do)
    } else if is_word(b"where", first) {
        role_if(spans(rest), Role::Opens(Block::Where))
    } else if is_word(b"forall", first) {
        role_if(spans(rest), Role::Opens(Block::Forall))
    } else if is_word(b"elsewhere", first) {
        role_if(rest.is_empty() || spans(rest), Role::GoesOn)
    } else if is_word(b"else", first) {
        role_if(begins_word(b"where", rest), Role::GoesOn)
    } else if is_word(b"program", first) {
        Role::NamesUnit
    } else {
        Role::Alone
    }
}

/// The part that a statement plays in the blocks by its first words.
pub fn role_of(run: &[Token]) -> Role
    ensures { result ≡ roles.role_of run.now }
{
    match run.split_first() {
        None => Role::Alone,
        Some((first, rest)) => match &first.what {
            TokenKind::Directive => directive_role(rest),
            other => word_role(other, rest),
        },
    }
}

/// A statement that is left out by its first words: a word of the table of such words, END or ELSE before one, ELSE alone,
/// a DO of another sort, or a directive of no workshare region.
pub fn is_left_out_by_words(run: &[Token]) -> bool
    ensures { result ≡ roles.is_left_out_by_words run.now }
{
    let Some((first, rest)) = run.split_first() else {
        return false;
    };
    match &first.what {
        TokenKind::Directive => directive_role(rest) == Role::Alone,
        what => {
            if is_word(b"else", what) {
                !begins_word(b"where", rest)
            } else if is_left_out_word(what) {
                true
            } else if is_word(b"end", what) {
                begins_left_out(rest)
            } else {
                is_word(b"do", what) && is_other_loop(rest)
            }
        }
    }
}

/// A statement that is not read further.
pub fn is_left_out(run: &[Token]) -> bool
    ensures { result ≡ roles.is_left_out run.now }
{
    is_left_out_by_words(run) || has_foreign(run) || is_crowded(run)
}
