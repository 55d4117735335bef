//! From the bytes of a source to its accepted tree.

ghost use Rattle.std.specs.Prelude.{◌≡◌, ℕ, List, IfOk, IfErr};
ghost use Rattle.ws_lex.specs.Tokens.{IsBroken};
ghost use Rattle.ws_driver.specs.Sources.{IsTree, IsSource, IsSourceEnd, IsBrokenAt};

use crate::source::SourceEnd;
use std::alloc::{AllocError, Global};
use tree_laws::every_tree_is_grammatical;
use ws_base::{Refusal, RefusalKind};
use ws_lex::{LexEnd, TokenList, tokens};
use ws_parse::{ParseEnd, parse, parse_front};
use ws_sema::{CheckEnd, Checked, check};
use ws_tree::Tree;

/// The first line that breaks the source form or the grammar, of a source that breaks its form at a line.
fn first_line(alloc: Global, broken: u32, before: &TokenList) -> Result<u32, AllocError>
    ensures { IfOk result (λ line. (bytes : List ℕ) → IsBroken bytes broken before.now → IsBrokenAt bytes line) }
{
    match parse_front(alloc, before)? {
        Some(line) => Ok(line),
        None => Ok(broken),
    }
}

/// The tree of a source, or the first line that is not of the language.
fn tree_of(alloc: Global, source: &[u8]) -> Result<Tree, SourceEnd>
    ensures tree { IfOk result (IsTree source.now) }
    ensures err { IfErr result (IsSourceEnd source.now) }
{
    let tokens = match tokens(alloc, source) {
        Ok(tokens) => tokens,
        Err(LexEnd::Memory) => return Err(SourceEnd::Memory),
        Err(LexEnd::Syntax { line, before }) => {
            let line = first_line(alloc, line, &before)?;
            return Err(SourceEnd::Refused(Refusal {
                line,
                kind: RefusalKind::Syntax,
            }));
        }
    };
    match parse(alloc, &tokens) {
        Ok(tree) => Ok(tree),
        Err(ParseEnd::Refused(refusal)) => Err(SourceEnd::Refused(refusal)),
        Err(ParseEnd::Memory) => Err(SourceEnd::Memory),
    }
}

/// An accepted source, or the first line that is at fault and there the least kind.
pub fn accepted(alloc: Global, source: &[u8]) -> Result<Checked, SourceEnd>
    ensures tree { IfOk result (λ checked. IsSource source.now checked) }
    ensures err { IfErr result (IsSourceEnd source.now) }
{
    let tree = tree_of(alloc, source)?;
    every_tree_is_grammatical();
    match check(alloc, tree) {
        Ok(checked) => Ok(checked),
        Err(CheckEnd::Refused(refusal)) => Err(SourceEnd::Refused(refusal)),
        Err(CheckEnd::Memory) => Err(SourceEnd::Memory),
    }
}
