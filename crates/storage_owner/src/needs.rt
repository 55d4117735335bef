//! What one region needs beside its variables.

/// How many temporaries and slots, and whether targets are checked for elements that are named twice.
#[derive(Clone, Copy, Debug, PartialEq, Eq)]
pub struct Needs {
    pub temps: u32,
    pub slots: u32,
    pub marks: bool,
}
