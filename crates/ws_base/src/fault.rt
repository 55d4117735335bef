//! What ends a run.

ghost use Rattle.std.specs.Prelude.{◌≡◌};
ghost use Rattle.ws_base.specs.Words.{fault_name, fault_number};

/// The kinds of fault, in the order of their numbers.
#[derive(Clone, Copy, Debug, PartialEq, Eq)]
pub enum FaultName {
    Bounds = 1,
    Shape,
    Overflow,
    DivideByZero,
    ZeroStride,
    ManyOne,
    Unallocated,
    Allocated,
    TooLarge,
    DataEnd,
    DataBad,
    Steps,
}

impl FaultName {
    /// The number of this fault, from 1 to 12.
    pub fn number(self) -> u8
        ensures { result ≡ fault_number self }
    {
        self as u8
    }

    /// The word for this fault in a report.
    pub fn word(self) -> &'static str
        ensures { result.now ≡ fault_name self }
    {
        match self {
            FaultName::Bounds => "Bounds",
            FaultName::Shape => "Shape",
            FaultName::Overflow => "Overflow",
            FaultName::DivideByZero => "DivideByZero",
            FaultName::ZeroStride => "ZeroStride",
            FaultName::ManyOne => "ManyOne",
            FaultName::Unallocated => "Unallocated",
            FaultName::Allocated => "Allocated",
            FaultName::TooLarge => "TooLarge",
            FaultName::DataEnd => "DataEnd",
            FaultName::DataBad => "DataBad",
            FaultName::Steps => "Steps",
        }
    }
}

/// A fault, with the line of its statement and the element at which it came, 0 for the whole statement.
#[derive(Clone, Copy, Debug, PartialEq, Eq)]
pub struct Fault {
    pub line: u32,
    pub name: FaultName,
    pub element: u32,
}

/// A fault whose line is not known yet. Where it comes from a list of values, its element is the place in that list, from 0.
#[derive(Clone, Copy, Debug, PartialEq, Eq)]
pub struct Trouble {
    pub element: u32,
    pub name: FaultName,
}
