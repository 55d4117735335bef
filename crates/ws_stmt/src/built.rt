//! Parts and forms of statements from what was read of them.
ghost use Rattle.std.specs.Prelude.{◌≡◌, ◌∷◌, ◌||◌, ℕ, [], IfOk, Option, false};
ghost use Rattle.ws_tree.specs.declared.expr.Expr.{Expr};
ghost use Rattle.ws_tree.specs.declared.stmt.Bound.TheVariants as bound;
ghost use Rattle.ws_tree.specs.declared.stmt.Body.TheVariants as body;
ghost use Rattle.ws_expr.specs.Readings as readings;
ghost use Rattle.ws_stmt.specs.declared.form.Form.TheVariants as form;
ghost use Rattle.ws_stmt.specs.Statements as statements;
ghost use Rattle.ws_stmt.specs.Parsing as parsing;

use crate::attributes::Attributes;
use crate::form::{Form, Said};
use sqlite_items::Items;
use std::alloc::{AllocError, Global};
use ws_base::Name;
use ws_expr::{Gathered, Reading, node};
use ws_tree::{Body, Bound, BoundList, Decl, Expr, Index, Part, Stmt, Sub, is_other_call};

fn part_of<T>(tree: T, odd: bool) -> Reading<T>
    ensures { result ≡ statements.part_of tree odd }
{
    Reading {
        tree,
        depth: 0,
        odd,
    }
}

/// An element or a section of the array. One of a word of calls that are left out is left out.
pub fn element(array: Name, subs: Gathered<Sub>) -> Reading<Expr>
    ensures { result ≡ statements.element array subs }
{
    let Gathered { trees, depth, odd } = subs;
    let odd = odd || is_other_call(array.as_str().as_bytes());
    node(depth, odd, Expr::Part(array, trees))
}

/// A variable without subscripts.
pub fn variable(name: Name) -> Reading<Expr>
    ensures { result ≡ readings.leaf (Expr.Named name) }
{
    Reading {
        tree: Expr::Named(name),
        depth: 1,
        odd: false,
    }
}

pub fn deferred() -> Reading<Bound>
    ensures { result ≡ statements.part_of bound.Deferred false }
{
    part_of(Bound::Deferred, false)
}

pub fn upper(u: Reading<Expr>) -> Reading<Bound>
    ensures { result ≡ statements.part_of (bound.Upper u.tree) u.odd }
{
    let Reading { tree, odd, .. } = u;
    part_of(Bound::Upper(tree), odd)
}

pub fn both(l: Reading<Expr>, u: Reading<Expr>) -> Reading<Bound>
    ensures { result ≡ statements.part_of (bound.Both l.tree u.tree) (l.odd || u.odd) }
{
    let Reading { tree, odd, .. } = l;
    let Reading {
        tree: u_tree,
        odd: u_odd,
        ..
    } = u;
    part_of(Bound::Both(tree, u_tree), odd || u_odd)
}

fn optional(part: Option<Reading<Expr>>) -> (Option<Expr>, bool)
    ensures tree { result.0 ≡ readings.tree_of part }
    ensures odd { result.1 ≡ readings.odd_of part }
{
    match part {
        Some(Reading { tree, odd, .. }) => (Some(tree), odd),
        None => (None, false),
    }
}

/// An index of FORALL, or the variable of DO.
pub fn index_of(
    name: Name,
    l: Reading<Expr>,
    u: Reading<Expr>,
    s: Option<Reading<Expr>>,
) -> Reading<Index>
    ensures { result ≡ statements.index_of name l u s }
{
    let Reading { tree, odd, .. } = l;
    let Reading {
        tree: u_tree,
        odd: u_odd,
        ..
    } = u;
    let (s, s_odd) = optional(s);
    part_of(
        Index {
            name,
            l: tree,
            u: u_tree,
            s,
        },
        odd || u_odd || s_odd,
    )
}

pub fn allocation(name: Name, shape: Gathered<Bound>) -> Reading<Part>
    ensures { result ≡ statements.allocation_of name shape }
{
    let Gathered { trees, odd, .. } = shape;
    let odd = odd || is_other_call(name.as_str().as_bytes());
    part_of(Part { name, shape: trees }, odd)
}

pub fn listed(name: Name) -> Reading<Name>
    ensures { result ≡ statements.part_of name false }
{
    part_of(name, false)
}

/// A declared entity.
pub fn declared(
    line: u32,
    truth: bool,
    attributes: &Attributes,
    name: Name,
    shape: BoundList,
    odd: bool,
    value: Option<Reading<Expr>>,
) -> Reading<Decl>
    ensures { result ≡ statements.entity_of line truth (parsing.seen attributes.now) name shape odd value }
{
    let (constant, value_odd) = optional(value);
    part_of(
        Decl {
            line,
            truth,
            constant,
            allocatable: attributes.allocatable,
            name,
            shape,
        },
        odd || value_odd,
    )
}

/// An assignment.
pub fn assignment(left: Reading<Expr>, right: Reading<Expr>) -> Reading<Body>
    ensures { result ≡ statements.assignment_of left right }
{
    let Reading { tree, odd, .. } = left;
    let Reading {
        tree: value,
        odd: value_odd,
        ..
    } = right;
    part_of(
        Body::Assign {
            left: tree,
            right: value,
        },
        odd || value_odd,
    )
}

pub fn said(form: Form, odd: bool) -> Said
    ensures { result ≡ statements.said form odd }
{
    Said { form, odd }
}

/// A statement that is whole in itself.
pub fn acts(body: Reading<Body>) -> Said
    ensures { result ≡ statements.said (form.Acts body.tree) body.odd }
{
    let Reading { tree, odd, .. } = body;
    said(Form::Acts(tree), odd)
}

fn one_statement(alloc: Global, line: u32, body: Reading<Body>) -> Result<Items<Stmt>, AllocError>
    ensures { IfOk result (λ ss. ss ≡ statements.one_statement line body.tree) }
{
    let Reading { tree: body, .. } = body;
    let mut block = Items::new(alloc);
    block.push(Stmt { line, body })?;
    Ok(block)
}

/// A WHERE of one assignment.
pub fn masked(
    alloc: Global,
    line: u32,
    mask: Reading<Expr>,
    body: Reading<Body>,
) -> Result<Said, AllocError>
    ensures { IfOk result (λ s. s ≡ statements.masked_said line mask body) }
{
    let Reading { tree, odd, .. } = mask;
    let act_odd = body.odd;
    let block = one_statement(alloc, line, body)?;
    Ok(said(
        Form::Acts(Body::Masked {
            mask: tree,
            block,
            rest: Items::new(alloc),
        }),
        odd || act_odd,
    ))
}

pub fn opens_where(mask: Reading<Expr>) -> Said
    ensures { result ≡ statements.said (form.OpensWhere mask.tree) mask.odd }
{
    let Reading { tree, odd, .. } = mask;
    said(Form::OpensWhere(tree), odd)
}

pub fn opens_do(index: Reading<Index>) -> Said
    ensures { result ≡ statements.said (form.OpensDo index.tree) index.odd }
{
    let Reading { tree, odd, .. } = index;
    said(Form::OpensDo(tree), odd)
}

pub fn opens_else(mask: Reading<Expr>) -> Said
    ensures { result ≡ statements.said (form.OpensElse (Option.Some mask.tree)) mask.odd }
{
    let Reading { tree, odd, .. } = mask;
    said(Form::OpensElse(Some(tree)), odd)
}

/// A FORALL of one assignment.
pub fn over(
    alloc: Global,
    line: u32,
    indexes: Gathered<Index>,
    mask: Option<Reading<Expr>>,
    body: Reading<Body>,
) -> Result<Said, AllocError>
    ensures { IfOk result (λ s. s ≡ statements.over_said line indexes mask body) }
{
    let Gathered { trees, odd, .. } = indexes;
    let act_odd = body.odd;
    let block = one_statement(alloc, line, body)?;
    let (mask, mask_odd) = optional(mask);
    Ok(said(
        Form::Acts(Body::Forall {
            indexes: trees,
            mask,
            block,
        }),
        odd || mask_odd || act_odd,
    ))
}

pub fn opens_forall(indexes: Gathered<Index>, mask: Option<Reading<Expr>>) -> Said
    ensures { result ≡ statements.spanning_said indexes mask }
{
    let Gathered { trees, odd, .. } = indexes;
    let (mask, mask_odd) = optional(mask);
    said(Form::OpensForall(trees, mask), odd || mask_odd)
}

pub fn allocates(parts: Gathered<Part>) -> Said
    ensures { result ≡ statements.said (form.Acts (body.Allocate parts.trees)) parts.odd }
{
    let Gathered { trees, odd, .. } = parts;
    said(Form::Acts(Body::Allocate(trees)), odd)
}

pub fn deallocates(names: Gathered<Name>) -> Said
    ensures { result ≡ statements.said (form.Acts (body.Deallocate names.trees)) names.odd }
{
    let Gathered { trees, odd, .. } = names;
    said(Form::Acts(Body::Deallocate(trees)), odd)
}

pub fn reads(items: Gathered<Expr>) -> Said
    ensures { result ≡ statements.said (form.Acts (body.Read items.trees)) items.odd }
{
    let Gathered { trees, odd, .. } = items;
    said(Form::Acts(Body::Read(trees)), odd)
}

pub fn declares(odd: bool, decls: Gathered<Decl>) -> Said
    ensures { result ≡ statements.said (form.Declares decls.trees) (odd || decls.odd) }
{
    let Gathered {
        trees,
        odd: decls_odd,
        ..
    } = decls;
    said(Form::Declares(trees), odd || decls_odd)
}
