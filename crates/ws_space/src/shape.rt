//! Shapes, subscripts and triplets.

/// The most elements that an array may have.
pub const ELEMENT_LIMIT: u64 = 65_536;

/// One dimension of an array: its lower bound and its extent. A scalar's and each unused dimension has lower bound 1 and extent 1.
#[derive(Clone, Copy, Debug, PartialEq, Eq)]
pub struct Dim {
    pub lower: i32,
    pub extent: u64,
}

/// The rank, from 0 to 3, and the dimensions of an array.
#[derive(Clone, Copy, Debug, PartialEq, Eq)]
pub struct Shape {
    pub rank: u32,
    pub d1: Dim,
    pub d2: Dim,
    pub d3: Dim,
}

/// The subscripts of one element, as many as the rank. Each unused one is 1.
#[derive(Clone, Copy, Debug, PartialEq, Eq)]
pub struct Subs {
    pub rank: u32,
    pub s1: i32,
    pub s2: i32,
    pub s3: i32,
}

/// A subscript triplet `l:u:s` (Fortran 2018, 9.5.3.3.1).
#[derive(Clone, Copy, Debug, PartialEq, Eq)]
pub struct Triplet {
    pub l: i32,
    pub u: i32,
    pub s: i32,
}
