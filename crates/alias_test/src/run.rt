//! Subscripts in rising order.

ghost use Rattle.std.specs.Prelude.{◌<◌};

/// The numbers `first`, `first + step` and so on, as many as `count` says.
#[derive(Clone, Copy)]
pub struct Run {
    pub first: i32,
    pub step: u32,
    pub count: u64,
    ghost rises: { 0 < step },
}
