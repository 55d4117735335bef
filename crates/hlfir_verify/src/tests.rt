mod answers;
mod forms;
mod limits;
mod reading;
mod regions;
mod statements;

use crate::Rule;
use reading::fault;
use std::alloc::Global;
use std::process::Abort;
use std::test::Fail;

/// Ops 0 to 5, which are values 0 to 5: an INTEGER, an INTEGER array of rank 1 and one of rank 2, a LOGICAL array, an INTEGER allocatable,
/// and a LOGICAL.
const HEAD: &str =
    "declare=n :ri declare=a :d5i declare=c :d2x2i declare=m :d5l declare=p :p1i declare=l :rl";

/// What stands before and after the text of a row.
type Frame = (&'static str, &'static str);

/// Statements after the head, from op 6 and value 6 on.
const STATEMENTS: Frame = ("", "");

/// Value ops, from op 9 and value 8 on. Value 6 is an INTEGER, and value 7 a LOGICAL.
const VALUES: Frame = ("assign { const=1 :i const=1 :l", "yield %6 } { yield %0 }");

/// The body of a forall whose index name is value 7, from op 9 and value 8 on.
const FORALL_BODY: Frame = ("forall=i { const=1 :i yield %6 %6 %6 } {", "}");

/// A line of a table is a row, unless it is empty or says after `#` what the rows below it are about.
fn is_row(line: &str) -> bool {
    !line.is_empty() && !line.starts_with('#')
}

/// What the rules say of a text in its frame, after the head.
fn fault_in<'a>(
    alloc: Global,
    before: &'a str,
    text: &'a str,
    after: &'a str,
) -> Result<Option<(u32, Rule)>, Fail> {
    fault(alloc, &[HEAD, before, text, after])
}

/// A row is an op, a text of which that op is the first one that breaks the rule of the table, and a text close to it that breaks none.
fn check_row(
    rt: &impl Abort,
    alloc: Global,
    rule: Rule,
    frame: Frame,
    row: &str,
) -> Result<(), Fail> {
    let (before, after) = frame;
    let (op, texts) = row.split_once(':').ok_or("no op")?;
    let (broken, kept) = texts.split_once('|').ok_or("no second text")?;
    let found = fault_in(alloc, before, broken, after)?;
    assert_eq!(rt; found, Some((op.parse()?, rule)), "{broken}");
    let found = fault_in(alloc, before, kept, after)?;
    assert_eq!(rt; found, None, "{kept}");
    Ok(())
}

fn each_row(
    rt: &impl Abort,
    alloc: Global,
    rule: Rule,
    frame: Frame,
    table: &str,
) -> Result<(), Fail> {
    for line in table.lines() {
        if is_row(line) {
            check_row(rt, alloc, rule, frame, line)?;
        }
    }
    Ok(())
}
