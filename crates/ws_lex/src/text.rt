//! The text of a source: its statements without comments, continued lines joined.
ghost use Rattle.std.specs.Prelude.{◌≡◌, ◌<◌, ◌≤◌, ◌+◌, ℕ, suc, [], ◌∷◌, ◌++◌, length, map, IfOk, OnOk};
ghost use Rattle.ws_lex.specs.Lines as lines;
ghost use Rattle.ws_lex.specs.Text as text;

use crate::line::{code_part, directive_part, drop_blanks, first_line, is_broken, kind};
use crate::piece::{Cell, Front, LineKind, Text};
use sqlite_items::Items;
use std::alloc::{AllocError, Global};

fn put(out: &mut Items<Cell>, line: u32, bytes: &[u8]) -> Result<(), AllocError>
    ensures { OnOk result (out.new ≡ out.old ++ text.on_line line bytes.now) }
{
    for byte in bytes {
        out.push(Cell { byte: *byte, line })?;
    }
    Ok(())
}

fn no_separator(byte: u8) -> u8
    ensures { result ≡ text.no_separator byte }
{
    if byte == b';' { 0 } else { byte }
}

fn put_directive(out: &mut Items<Cell>, line: u32, bytes: &[u8]) -> Result<(), AllocError>
    ensures { OnOk result (out.new ≡ out.old ++ text.on_line line (map text.no_separator bytes.now)) }
{
    for byte in bytes {
        out.push(Cell {
            byte: no_separator(*byte),
            line,
        })?;
    }
    Ok(())
}

fn ends_in_ampersand(part: &[u8]) -> bool
    ensures { result ≡ text.ends_in_ampersand part.now }
{
    match part.split_last() {
        Some((last, _)) => *last == b'&',
        None => false,
    }
}

fn but_last(part: &[u8]) -> &[u8]
    ensures { result.now ≡ text.but_last part.now }
{
    match part.split_last() {
        Some((_, front)) => front,
        None => part,
    }
}

fn put_part(
    out: &mut Items<Cell>,
    line: u32,
    waits: Option<u32>,
    part: &[u8],
) -> Result<(), AllocError>
    ensures { OnOk result (out.new ≡ out.old ++ text.on_line line (text.part_after waits part.now)) }
{
    if waits.is_none() {
        return put(out, line, part);
    }
    match drop_blanks(part).split_first() {
        Some((byte, rest)) => {
            if *byte == b'&' {
                put(out, line, rest)
            } else {
                put(out, line, b" ")?;
                put(out, line, part)
            }
        }
        None => {
            put(out, line, b" ")?;
            put(out, line, part)
        }
    }
}

fn add_directive(out: &mut Items<Cell>, line: u32, part: &[u8]) -> Result<(), AllocError>
    ensures { OnOk result (out.new ≡ out.old ++ text.directive line part.now) }
{
    put(out, line, b"!")?;
    if ends_in_ampersand(part) {
        put_directive(out, line, but_last(part))?;
        put_directive(out, line, b"%")?;
    } else {
        put_directive(out, line, part)?;
    }
    put(out, line, b";")
}

fn interrupt(out: &mut Items<Cell>, line: u32, waits: Option<u32>) -> Result<(), AllocError>
    ensures { OnOk result (out.new ≡ out.old ++ text.interrupted line waits) }
{
    match waits {
        Some(_) => put(out, line, b"\0;"),
        None => Ok(()),
    }
}

fn leave_over(out: &mut Items<Cell>, waits: Option<u32>) -> Result<(), AllocError>
    ensures { OnOk result (out.new ≡ out.old ++ text.left_over waits) }
{
    match waits {
        Some(line) => put(out, line, b"&;"),
        None => Ok(()),
    }
}

fn nothing(alloc: Global) -> Front
    ensures { result ≡ text.nothing }
{
    Front {
        text: Items::new(alloc),
        waits: None,
    }
}

fn add_code(
    alloc: Global,
    out: &mut Items<Cell>,
    front: Front,
    line: u32,
    part: &[u8],
) -> Result<Front, AllocError>
    ensures out { OnOk result (out.new ≡ out.old ++ text.adds_code line front part.now) }
    ensures front { IfOk result (λ f. f ≡ text.front_of_code line front part.now) }
{
    let Front {
        text: mut begun,
        waits,
    } = front;
    if ends_in_ampersand(part) {
        put_part(&mut begun, line, waits, but_last(part))?;
        Ok(Front {
            text: begun,
            waits: Some(line),
        })
    } else {
        out.append(begun)?;
        put_part(out, line, waits, part)?;
        put(out, line, b";")?;
        Ok(nothing(alloc))
    }
}

fn mark(out: &mut Items<Cell>, number: u32, line: &[u8]) -> Result<(), AllocError>
    ensures { OnOk result (out.new ≡ out.old ++ text.mark number line.now) }
{
    if is_broken(line) {
        put(out, number, b"\0;")
    } else {
        Ok(())
    }
}

fn interrupting(
    out: &mut Items<Cell>,
    front: Front,
    number: u32,
    part: &[u8],
) -> Result<(), AllocError>
    ensures { OnOk result (out.new ≡ out.old ++ (front.text ++ (text.interrupted number front.waits ++ text.directive number part.now))) }
{
    let Front { text: begun, waits } = front;
    out.append(begun)?;
    interrupt(out, number, waits)?;
    add_directive(out, number, part)
}

fn add(
    alloc: Global,
    out: &mut Items<Cell>,
    front: Front,
    number: u32,
    line: &[u8],
) -> Result<Front, AllocError>
    ensures out { OnOk result (out.new ≡ out.old ++ text.adds number front (lines.kind line.now) line.now) }
    ensures front { IfOk result (λ f. f ≡ text.front_after number front (lines.kind line.now) line.now) }
{
    match kind(line) {
        LineKind::Blank => Ok(front),
        LineKind::Conditional => {
            put(out, number, b"%;")?;
            Ok(front)
        }
        LineKind::Directive => {
            interrupting(out, front, number, directive_part(line))?;
            Ok(nothing(alloc))
        }
        LineKind::Code => add_code(alloc, out, front, number, code_part(line)),
    }
}

fn add_line(
    alloc: Global,
    out: &mut Items<Cell>,
    front: Front,
    number: u32,
    line: &[u8],
) -> Result<Front, AllocError>
    ensures out { OnOk result (out.new ≡ out.old ++ (text.mark number line.now ++ text.adds number front (lines.kind line.now) line.now)) }
    ensures front { IfOk result (λ f. f ≡ text.front_after number front (lines.kind line.now) line.now) }
{
    mark(out, number, line)?;
    add(alloc, out, front, number, line)
}

/// The number of the next line. A number that a `u32` cannot hold counts as want of memory.
fn next_number(number: u32) -> Result<u32, AllocError>
    ensures { IfOk result (λ next. next ≡ suc number) }
{
    match number.checked_add(1) {
        Some(next) => Ok(next),
        None => Err(AllocError),
    }
}

/// The text of the lines, and the line after the last. A statement whose last byte is `&` goes on in the next line of code (Fortran 2018, 6.3.2.4).
pub fn text(alloc: Global, bytes: &[u8]) -> Result<Text, AllocError>
    ensures cells { IfOk result (λ t. t.cells ≡ text.text (lines.lines bytes.now)) }
    ensures end { IfOk result (λ t. t.end ≡ suc (length (lines.lines bytes.now))) }
{
    let mut out = Items::new(alloc);
    let mut front = nothing(alloc);
    let mut number: u32 = 1;
    let mut rest = bytes;
    'lines: while !rest.is_empty() {
        let (line, more) = first_line(rest);
        front = add_line(alloc, &mut out, front, number, line)?;
        number = next_number(number)?;
        rest = more;
    }
    let Front { text: begun, waits } = front;
    out.append(begun)?;
    leave_over(&mut out, waits)?;
    Ok(Text {
        cells: out,
        end: number,
    })
}
