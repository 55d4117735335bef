//! Ops that steps are made of, and what is around them.

use hlfir_ops::Op;

/// The index names of a FORALL: so many, which are numbered from `first` on.
#[derive(Clone, Copy, Debug)]
pub struct Header {
    pub first: u32,
    pub count: u32,
}

/// What is around an op: whether a where or forall is, the place after the innermost of these, and the index names of a forall. Places count
/// from 0 in printed order.
#[derive(Clone, Copy, Debug)]
pub struct Around {
    pub inside: bool,
    pub until: u32,
    pub header: Option<Header>,
}

/// A mask, an assignment or a FORALL, and its place. `begins` says that it is an outermost statement, `until` is the place after the innermost
/// where or forall, the op itself counted.
#[derive(Clone, Copy, Debug)]
pub struct Item<'a> {
    pub op: &'a Op,
    pub place: u32,
    pub begins: bool,
    pub until: u32,
    pub header: Option<Header>,
}
