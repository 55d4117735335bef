//! Laws of lists of phases, each the contract of a function that does nothing.

ghost use Rattle.list_laws.specs.Laws.{JoinsLaw, ListLaw};

/// Where each Join stands directly behind its Part in each of two lists, it does in both together.
pub fn joins_law()
    ensures { JoinsLaw }
{}

/// Two lists in a row are free of races where the first is, and the second from what the first leaves. They end as the second ends from
/// there, or with the fault of the first.
pub fn list_law()
    ensures { ListLaw }
{}
