//! How two designators lie to one another.

ghost use Rattle.std.specs.Prelude.{◌≡◌, length};
ghost use Rattle.std.specs.List.{All};
ghost use Rattle.alias_test.specs.Relations as relations;
ghost use Rattle.alias_test.specs.Relations.{relation, HasStride, HasStrides};

use crate::designator::{Designator, Form, Relation, Sym};
use crate::listing::{run_of, same_range};
use crate::meeting::meets;

fn same_symbol(s: &Sym, t: &Sym) -> bool
    ensures { result ≡ relations.same_symbol s.now t.now }
{
    match s {
        Sym::Other => false,
        _ => s == t,
    }
}

fn same_tree(s: &[Sym], t: &[Sym]) -> bool
    ensures { result ≡ relations.same_tree s.now t.now }
{
    if s.len() != t.len() {
        return false;
    }
    'each: for k in 0..s.len() {
        if !same_symbol(&s[k], &t[k]) {
            return false;
        }
    }
    true
}

/// Both are constant, and select no subscript in common.
fn apart(f: &Form, g: &Form) -> bool
    requires f_stride { HasStride f.now }
    requires g_stride { HasStride g.now }
    ensures { result ≡ relations.apart f.now g.now }
{
    let Some(p) = run_of(f) else { return false };
    let Some(q) = run_of(g) else { return false };
    !meets(p, q)
}

/// Both select the same subscripts in the same order, whatever the run brings.
fn alike(f: &Form, g: &Form) -> bool
    requires f_stride { HasStride f.now }
    requires g_stride { HasStride g.now }
    ensures { result ≡ relations.alike f.now g.now }
{
    match f {
        Form::Index(i) => match g {
            Form::Index(j) => i == j,
            _ => false,
        },
        Form::Range(t) => match g {
            Form::Range(u) => same_range(t, u),
            _ => false,
        },
        Form::OpaqueIndex(s) => match g {
            Form::OpaqueIndex(t) => same_tree(s.as_slice(), t.as_slice()),
            _ => false,
        },
        Form::OpaqueRange(s) => match g {
            Form::OpaqueRange(t) => same_tree(s.as_slice(), t.as_slice()),
            _ => false,
        },
        Form::Vector => false,
    }
}

fn some_apart(fs: &[Form], gs: &[Form]) -> bool
    requires same { length fs.now ≡ length gs.now }
    requires f_strides { All HasStride fs.now }
    requires g_strides { All HasStride gs.now }
    ensures { result ≡ relations.some_apart fs.now gs.now }
{
    'each: for k in 0..fs.len() {
        if apart(&fs[k], &gs[k]) {
            return true;
        }
    }
    false
}

fn all_alike(fs: &[Form], gs: &[Form]) -> bool
    requires same { length fs.now ≡ length gs.now }
    requires f_strides { All HasStride fs.now }
    requires g_strides { All HasStride gs.now }
    ensures { result ≡ relations.all_alike fs.now gs.now }
{
    'each: for k in 0..fs.len() {
        if !alike(&fs[k], &gs[k]) {
            return false;
        }
    }
    true
}

/// How two designators lie to one another. Disjoint is tried first, so two empty sections of one variable are Disjoint.
pub fn relate(a: &Designator, b: &Designator) -> Relation
    requires a_strides { HasStrides a.now }
    requires b_strides { HasStrides b.now }
    requires dimensions { a.now.var ≡ b.now.var → length a.now.forms ≡ length b.now.forms }
    ensures { result ≡ relation a.now b.now }
{
    if a.var != b.var {
        return Relation::Disjoint;
    }
    if some_apart(a.forms.as_slice(), b.forms.as_slice()) {
        Relation::Disjoint
    } else if all_alike(a.forms.as_slice(), b.forms.as_slice()) {
        Relation::Same
    } else {
        Relation::May
    }
}
