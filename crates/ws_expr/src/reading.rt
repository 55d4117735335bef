//! What is read of an expression.
ghost use Rattle.std.specs.Prelude.{◌≡◌, ◌≤◌, ◌∷◌, ◌++◌, IfOk, OnOk, Option};
ghost use Rattle.ws_expr.specs.Readings as readings;
ghost use Rattle.ws_tree.specs.declared.expr.Expr.{Expr};
ghost use Rattle.ws_tree.specs.declared.expr.Sub.{Sub};

use crate::calls::Callee;
use sqlite_items::{Boxed, Items};
use std::alloc::{AllocError, Global};
use ws_base::{BinOp, Name, UnOp};
use ws_tree::{Expr, Sub, takes};

/// An expression or a subscript that was read, with its depth, which is counted to 65. The tree of an expression deeper than 64 is `TooDeep`.
/// It is odd where it has a call that the grammar has and that is left out, at no more than that depth; such a tree is of no use.
#[derive(Drop)]
pub struct Reading<T> {
    pub tree: T,
    pub depth: u8,
    pub odd: bool,
}

/// The parts of a list that were read, in order, with the greatest of their depths, and whether any is odd.
#[derive(Drop)]
pub struct Gathered<T> {
    pub trees: Items<T>,
    pub depth: u8,
    pub odd: bool,
}

impl<T: Drop> Gathered<T> {
    /// No part yet.
    pub fn new(alloc: Global) -> Gathered<T>
        ensures { result ≡ readings.empty }
    {
        Gathered {
            trees: Items::new(alloc),
            depth: 0,
            odd: false,
        }
    }

    /// One more part.
    pub fn push(&mut self, part: Reading<T>) -> Result<(), AllocError>
        ensures { OnOk result (self.new ≡ readings.with_one self.old part) }
    {
        let Reading { tree, depth, odd } = part;
        self.trees.push(tree)?;
        self.depth = self.depth.max(depth);
        self.odd = self.odd || odd;
        Ok(())
    }
}

/// What is one deeper than its parts, of that greatest depth.
pub fn node(depth: u8, odd: bool, tree: Expr) -> Reading<Expr>
    ensures { result ≡ readings.node depth odd tree }
{
    if depth < 64 {
        Reading {
            tree,
            depth: depth + 1,
            odd,
        }
    } else {
        Reading {
            tree: Expr::TooDeep,
            depth: 65,
            odd: false,
        }
    }
}

/// An expression without parts.
pub fn leaf(tree: Expr) -> Reading<Expr>
    ensures { result ≡ readings.leaf tree }
{
    Reading {
        tree,
        depth: 1,
        odd: false,
    }
}

/// An operator with its operand.
pub fn unary(alloc: Global, op: UnOp, a: Reading<Expr>) -> Result<Reading<Expr>, AllocError>
    ensures { IfOk result (λ e. e ≡ readings.unary op a) }
{
    let Reading { tree, depth, odd } = a;
    Ok(node(depth, odd, Expr::Unary(op, Boxed::new(alloc, tree)?)))
}

/// An operator between its operands.
pub fn binary(
    alloc: Global,
    op: BinOp,
    a: Reading<Expr>,
    b: Reading<Expr>,
) -> Result<Reading<Expr>, AllocError>
    ensures { IfOk result (λ e. e ≡ readings.binary op a b) }
{
    let left = Boxed::new(alloc, a.tree)?;
    let right = Boxed::new(alloc, b.tree)?;
    Ok(node(
        a.depth.max(b.depth),
        a.odd || b.odd,
        Expr::Binary(op, left, right),
    ))
}

/// An expression in parentheses.
pub fn paren(alloc: Global, a: Reading<Expr>) -> Result<Reading<Expr>, AllocError>
    ensures { IfOk result (λ e. e ≡ readings.paren a) }
{
    let Reading { tree, depth, odd } = a;
    Ok(node(depth, odd, Expr::Paren(Boxed::new(alloc, tree)?)))
}

/// The power of these bases over the last exponent, from right to left (Fortran 2018, 10.1.2.3).
pub fn raised(
    alloc: Global,
    mut bases: Items<Reading<Expr>>,
    exponent: Reading<Expr>,
) -> Result<Reading<Expr>, AllocError>
    ensures { IfOk result (λ e. e ≡ readings.raised bases exponent) }
{
    let mut power = exponent;
    'bases: while let Some(base) = bases.pop() {
        power = binary(alloc, BinOp::Pow, base, power)?;
    }
    Ok(power)
}

/// A constructor of these items.
pub fn vector(items: Gathered<Expr>) -> Reading<Expr>
    ensures { result ≡ readings.vector items }
{
    let Gathered { trees, depth, odd } = items;
    node(depth, odd, Expr::Vector(trees))
}

/// A name with these subscripts.
pub fn part(name: Name, subs: Gathered<Sub>) -> Reading<Expr>
    ensures { result ≡ readings.part name subs }
{
    let Gathered { trees, depth, odd } = subs;
    node(depth, odd, Expr::Part(name, trees))
}

/// A call with these arguments. Of one that is left out only the arguments are kept.
pub fn call(callee: Callee, arguments: Gathered<Expr>) -> Reading<Expr>
    ensures { result ≡ readings.call callee arguments }
{
    let Gathered { trees, depth, odd } = arguments;
    match callee {
        Callee::Listed(word) => {
            let fits = takes(word, trees.as_slice());
            node(depth, odd || !fits, Expr::Call(word, trees))
        }
        Callee::LeftOut => node(depth, true, Expr::Vector(trees)),
    }
}

/// A subscript that is no triplet.
pub fn one(e: Reading<Expr>) -> Reading<Sub>
    ensures { result ≡ readings.one e }
{
    let Reading { tree, depth, odd } = e;
    Reading {
        tree: Sub::One(tree),
        depth,
        odd,
    }
}

fn optional(part: Option<Reading<Expr>>) -> (Option<Expr>, u8, bool)
    ensures tree { result.0 ≡ readings.tree_of part }
    ensures depth { result.1 ≡ readings.depth_of part }
    ensures odd { result.2 ≡ readings.odd_of part }
{
    match part {
        Some(Reading { tree, depth, odd }) => (Some(tree), depth, odd),
        None => (None, 0, false),
    }
}

/// A triplet of these parts.
pub fn range(
    l: Option<Reading<Expr>>,
    u: Option<Reading<Expr>>,
    s: Option<Reading<Expr>>,
) -> Reading<Sub>
    ensures { result ≡ readings.range l u s }
{
    let (l, l_depth, l_odd) = optional(l);
    let (u, u_depth, u_odd) = optional(u);
    let (s, s_depth, s_odd) = optional(s);
    Reading {
        tree: Sub::Range { l, u, s },
        depth: l_depth.max(u_depth).max(s_depth),
        odd: l_odd || u_odd || s_odd,
    }
}

/// A digit string: its value, or `TooWide` above 2147483647.
pub fn number_of(digits: &Name) -> Reading<Expr>
    ensures { result ≡ readings.number_of digits.now }
{
    let value = value_of(digits.as_str().as_bytes());
    leaf(if value < 2_147_483_648 {
        Expr::Number(value as u32)
    } else {
        Expr::TooWide
    })
}

fn value_of(digits: &[u8]) -> u64
    ensures { result ≡ readings.value_from 0 digits.now }
{
    let mut value: u64 = 0;
    for d in digits {
        value = (10 * value + u64::from(d.saturating_sub(48))).min(2_147_483_648);
    }
    value
}
