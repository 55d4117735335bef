//! Small modules by their ops. A word begins an op, and `{` and `}` stand around each of its regions; `%3` is an operand, `%-1` the value
//! given last before it, `:a1i` the kind and `@4` the line. `[9` and `]` stand around words that are read nine times, and a `*` in the
//! place of a number is the number of the whole text. `consts=9` and `declares=9` are so many constants and INTEGERs.

use crate::{Rule, VerifyEnd, verify};
use hlfir_ops::{
    BoundWord, Elem, Module, NameList, Op, Reduction, Region, SubKind, SubKindList, ValueBinary,
    ValueId, ValueKind, ValueUnary, What,
};
use sqlite_items::Items;
use std::alloc::{AllocError, Global};
use std::mem;
use std::test::Fail;
use ws_base::Name;
use ws_space::{Dim, Shape};

/// The ops so far of the innermost region and of those around it, the number of the next value, and what a `*` stands for.
#[derive(Drop)]
struct Reading {
    alloc: Global,
    around: Vec<Vec<Op>>,
    ops: Vec<Op>,
    next: u32,
    star: u32,
}

/// A name for each letter.
fn names(alloc: Global, letters: &str) -> Result<NameList, Fail> {
    let mut names = Items::new(alloc);
    for letter in letters.chars() {
        let mut text = String::new(alloc);
        text.push(letter)?;
        names.push(Name::from_str(alloc, text.as_str())?)?;
    }
    Ok(names)
}

/// `1`, `r` or `v` for each dimension.
fn subs(alloc: Global, letters: &str) -> Result<SubKindList, AllocError> {
    let mut subs = Items::new(alloc);
    for letter in letters.chars() {
        subs.push(match letter {
            'r' => SubKind::Range,
            'v' => SubKind::Vector,
            _ => SubKind::One,
        })?;
    }
    Ok(subs)
}

fn unary(word: &str) -> Option<ValueUnary> {
    Some(match word {
        "neg" => ValueUnary::Neg,
        "abs" => ValueUnary::Abs,
        "not" => ValueUnary::Not,
        _ => return None,
    })
}

fn binary(word: &str) -> Option<ValueBinary> {
    Some(match word {
        "add" => ValueBinary::Add,
        "sub" => ValueBinary::Sub,
        "mul" => ValueBinary::Mul,
        "div" => ValueBinary::Div,
        "min" => ValueBinary::Min,
        "max" => ValueBinary::Max,
        "pow" => ValueBinary::Pow,
        "mod" => ValueBinary::Mod,
        "modulo" => ValueBinary::Modulo,
        "eq" => ValueBinary::Eq,
        "ne" => ValueBinary::Ne,
        "lt" => ValueBinary::Lt,
        "le" => ValueBinary::Le,
        "gt" => ValueBinary::Gt,
        "ge" => ValueBinary::Ge,
        "and" => ValueBinary::And,
        "or" => ValueBinary::Or,
        "eqv" => ValueBinary::Eqv,
        "neqv" => ValueBinary::Neqv,
        _ => return None,
    })
}

fn bound(word: &str) -> Option<BoundWord> {
    Some(match word {
        "lower" => BoundWord::Lower,
        "upper" => BoundWord::Upper,
        "lbound" => BoundWord::Lbound,
        "ubound" => BoundWord::Ubound,
        "extent" => BoundWord::Extent,
        _ => return None,
    })
}

fn reduction(word: &str) -> Option<Reduction> {
    Some(match word {
        "sum" => Reduction::Sum,
        "product" => Reduction::Product,
        "minval" => Reduction::Minval,
        "maxval" => Reduction::Maxval,
        "count" => Reduction::Count,
        "any" => Reduction::Any,
        "all" => Reduction::All,
        _ => return None,
    })
}

/// An op with words of its own after it.
fn operation(word: &str, more: &str) -> Result<What, Fail> {
    if let Some(op) = unary(word) {
        return Ok(What::Unary(op));
    }
    if let Some(op) = binary(word) {
        return Ok(What::Binary(op));
    }
    if let Some(word) = bound(word) {
        return Ok(What::Bound {
            word,
            dim: more.parse()?,
        });
    }
    Ok(What::Reduce(reduction(word).ok_or("no such op")?))
}

fn what_of(alloc: Global, word: &str, more: &str) -> Result<What, Fail> {
    Ok(match word {
        "declare" => What::Declare(Name::from_str(alloc, more)?),
        "assign" => What::Assign {
            realloc: more == "realloc",
        },
        "where" => What::Masked,
        "elsewhere" => What::Elsewhere,
        "forall" => What::Forall(names(alloc, more)?),
        "forall_mask" => What::ForallMask,
        "workshare" => What::Workshare,
        "do" => What::DoLoop,
        "allocmem" => What::Allocmem {
            also: more == "also",
        },
        "freemem" => What::Freemem {
            also: more == "also",
        },
        "read" => What::Read {
            also: more == "also",
        },
        "yield" => What::Yield,
        "yield_element" => What::YieldElement,
        "const" => What::Constant(more.parse()?),
        "select" => What::Select,
        "load" => What::Load,
        "box" => What::Boxed,
        "size" => What::Size,
        "allocated" => What::Allocated,
        "designate" => What::Designate(subs(alloc, more)?),
        "vector" => What::Vector,
        "as_expr" => What::AsExpr,
        "elemental" => What::Elemental,
        "apply" => What::Apply,
        _ => operation(word, more)?,
    })
}

fn dim(extent: &str) -> Result<Dim, Fail> {
    Ok(Dim {
        lower: 1,
        extent: extent.parse()?,
    })
}

/// The first of these extents, and those after it.
fn split(extents: &str) -> (&str, &str) {
    extents.split_once('x').unwrap_or((extents, "1"))
}

/// `5x2` as a shape.
fn shape(extents: &str) -> Result<Shape, Fail> {
    let mut rank: u32 = 1;
    for letter in extents.chars() {
        if letter == 'x' {
            rank = rank.saturating_add(1);
        }
    }
    let (first, more) = split(extents);
    let (second, more) = split(more);
    let (third, _) = split(more);
    Ok(Shape {
        rank,
        d1: dim(first)?,
        d2: dim(second)?,
        d3: dim(third)?,
    })
}

/// `r` as a place; `d5x2`, `p1`, `s1` and `a1` as a declared array, an allocatable, a section and an array value.
fn kind_of(elem: Elem, form: &str) -> Result<ValueKind, Fail> {
    if let Some(extents) = form.strip_prefix('d') {
        let shape = shape(extents)?;
        return Ok(ValueKind::Declared { elem, shape });
    }
    if let Some(rank) = form.strip_prefix('p') {
        let rank = rank.parse()?;
        return Ok(ValueKind::Allocatable { elem, rank });
    }
    if let Some(rank) = form.strip_prefix('s') {
        let rank = rank.parse()?;
        return Ok(ValueKind::Section { elem, rank });
    }
    if let Some(rank) = form.strip_prefix('a') {
        let rank = rank.parse()?;
        return Ok(ValueKind::Array { elem, rank });
    }
    Ok(match form {
        "r" => ValueKind::Place(elem),
        _ => ValueKind::Scalar(elem),
    })
}

/// A kind ends in `i` or `l`.
fn kind(word: &str) -> Result<ValueKind, Fail> {
    match word.split_once('i') {
        Some((form, _)) => kind_of(Elem::I32, form),
        None => {
            let (form, _) = word.split_once('l').ok_or("no kind")?;
            kind_of(Elem::I1, form)
        }
    }
}

impl Reading {
    fn push(&mut self, what: What, kind: Option<ValueKind>) -> Result<(), Fail> {
        self.ops.push(Op {
            what,
            line: 0,
            operands: Items::new(self.alloc),
            kind,
            regions: Items::new(self.alloc),
        })?;
        Ok(())
    }

    /// An op that gives a value.
    fn give(&mut self, what: What, kind: ValueKind) -> Result<(), Fail> {
        self.next = self.next.saturating_add(1);
        self.push(what, Some(kind))
    }

    fn number(&self, text: &str) -> Result<u32, Fail> {
        Ok(if text == "*" {
            self.star
        } else {
            text.parse()?
        })
    }

    fn constants(&mut self, count: &str) -> Result<(), Fail> {
        for _ in 0..self.number(count)? {
            self.give(What::Constant(1), ValueKind::Scalar(Elem::I32))?;
        }
        Ok(())
    }

    fn declares(&mut self, count: &str) -> Result<(), Fail> {
        for k in 0..self.number(count)? {
            let text = format!(in self.alloc; "v{k}")?;
            let name = Name::from_str(self.alloc, text.as_str())?;
            self.give(What::Declare(name), ValueKind::Place(Elem::I32))?;
        }
        Ok(())
    }

    /// The body of a forall brings its index names.
    fn enter(&mut self) -> Result<(), Fail> {
        let op = self.ops.last().ok_or("no op before a region")?;
        if let What::Forall(names) = &op.what
            && op.regions.len() == 1
        {
            let count = u32::try_from(names.len())?;
            self.next = self.next.saturating_add(count);
        }
        let ops = mem::replace(&mut self.ops, Vec::new(self.alloc));
        self.around.push(ops)?;
        Ok(())
    }

    fn leave(&mut self) -> Result<(), Fail> {
        let around = self.around.pop().ok_or("no region to leave")?;
        let ops = Items::from_vec(mem::replace(&mut self.ops, around));
        let mut op = self.ops.pop().ok_or("no op before a region")?;
        op.regions.push(Region { ops })?;
        self.ops.push(op)?;
        Ok(())
    }

    fn operand(&self, word: &str) -> Result<ValueId, Fail> {
        let number = match word.strip_prefix('-') {
            Some(back) => self.next.saturating_sub(back.parse()?),
            None => word.parse()?,
        };
        Ok(ValueId { number })
    }

    /// Adds an operand, the kind or the line to an op.
    fn complete(&mut self, op: &mut Op, word: &str) -> Result<(), Fail> {
        if let Some(word) = word.strip_prefix('%') {
            op.operands.push(self.operand(word)?)?;
        } else if let Some(word) = word.strip_prefix(':') {
            op.kind = Some(kind(word)?);
            self.next = self.next.saturating_add(1);
        } else {
            let (_, line) = word.split_once('@').ok_or("no such word")?;
            op.line = line.parse()?;
        }
        Ok(())
    }

    fn add(&mut self, word: &str) -> Result<(), Fail> {
        let mut op = self.ops.pop().ok_or("no op before a word")?;
        self.complete(&mut op, word)?;
        self.ops.push(op)?;
        Ok(())
    }

    fn read_op(&mut self, word: &str) -> Result<(), Fail> {
        let (word, more) = word.split_once('=').unwrap_or((word, ""));
        match word {
            "consts" => self.constants(more),
            "declares" => self.declares(more),
            _ => {
                let what = what_of(self.alloc, word, more)?;
                self.push(what, None)
            }
        }
    }

    fn read_words(&mut self, text: &str) -> Result<(), Fail> {
        for word in text.split_whitespace() {
            match word.as_bytes() {
                [b'{', ..] => self.enter()?,
                [b'}', ..] => self.leave()?,
                [b'%' | b':' | b'@', ..] => self.add(word)?,
                _ => self.read_op(word)?,
            }
        }
        Ok(())
    }

    fn read(&mut self, text: &str) -> Result<(), Fail> {
        let mut rest = text;
        for _ in 0..text.len() {
            let Some((before, more)) = rest.split_once('[') else {
                break;
            };
            self.read_words(before)?;
            let (group, after) = more.split_once(']').ok_or("no end of a group")?;
            let (count, words) = group.split_once(' ').ok_or("no words in a group")?;
            for _ in 0..self.number(count)? {
                self.read_words(words)?;
            }
            rest = after;
        }
        self.read_words(rest)
    }
}

/// The module of these texts, one after the other.
fn module_of(alloc: Global, texts: &[&str], star: u32) -> Result<Module, Fail> {
    let mut reading = Reading {
        alloc,
        around: Vec::new(alloc),
        ops: Vec::new(alloc),
        next: 0,
        star,
    };
    for text in texts {
        reading.read(text)?;
    }
    let Reading { ops, .. } = reading;
    Ok(Module {
        name: Name::from_str(alloc, "main")?,
        ops: Items::from_vec(ops),
    })
}

/// The first op that breaks a rule, and the least one that it breaks, in texts with a `*`.
pub fn fault_with(alloc: Global, texts: &[&str], star: u32) -> Result<Option<(u32, Rule)>, Fail> {
    match verify(alloc, module_of(alloc, texts, star)?) {
        Ok(_) => Ok(None),
        Err(VerifyEnd::BadOp { op, rule }) => Ok(Some((op, rule))),
        Err(VerifyEnd::Memory) => Err(Fail::from(AllocError)),
    }
}

pub fn fault(alloc: Global, texts: &[&str]) -> Result<Option<(u32, Rule)>, Fail> {
    fault_with(alloc, texts, 0)
}
