//! Lines, their kinds, and their parts before a comment.
ghost use Rattle.std.specs.Prelude.{◌≡◌, ◌≢◌, ◌<◌, ◌≤◌, ◌+◌, ℕ, IfOk, [], ◌∷◌, length, map, drop};
ghost use Rattle.ws_lex.specs.Lines as lines;

use crate::piece::LineKind;
use std::alloc::{AllocError, Global};

pub fn plain(byte: u8) -> u8
    ensures { result ≡ lines.plain byte }
{
    if byte == b'\t' {
        b' '
    } else if b'A' <= byte && byte <= b'Z' {
        byte + 32
    } else {
        byte
    }
}

/// The source with its tabs as blanks and in lower case.
pub fn plain_text(alloc: Global, source: &[u8]) -> Result<Vec<u8>, AllocError>
    ensures { IfOk result (λ bytes. bytes.items ≡ map lines.plain source.now) }
{
    source.iter().map(|byte| plain(*byte)).collect(alloc)
}

fn without_return(line: &[u8]) -> &[u8]
    ensures { result.now ≡ lines.without_return line.now }
{
    match line.split_last() {
        Some((last, front)) => { if *last == b'\r' { front } else { line } }
        None => line,
    }
}

/// The first line, and what stands after its LF.
pub fn first_line(bytes: &[u8]) -> (&[u8], &[u8])
    requires { 0 < length bytes.now }
    ensures lines { lines.lines bytes.now ≡ result.0.now ∷ lines.lines result.1.now }
    ensures shorter { length result.1.now < length bytes.now }
{
    for (i, byte) in bytes.iter().enumerate() {
        if *byte == b'\n' {
            return (without_return(&bytes[..i]), &bytes[i + 1..]);
        }
    }
    (bytes, &bytes[bytes.len()..])
}

fn quote_after(quote: u8, byte: u8) -> u8
    ensures { result ≡ lines.quote_after quote byte }
{
    if quote == 0 {
        if byte == b'"' || byte == b'\'' {
            byte
        } else {
            0
        }
    } else if quote == byte {
        0
    } else {
        quote
    }
}

/// What stands before the first `!` outside quotes (Fortran 2018, 6.3.2.3).
pub fn before_comment(line: &[u8]) -> &[u8]
    ensures { result.now ≡ lines.before_comment 0 line.now }
{
    let mut quote: u8 = 0;
    for (i, byte) in line.iter().enumerate() {
        if quote == 0 && *byte == b'!' {
            return &line[..i];
        }
        quote = quote_after(quote, *byte);
    }
    line
}

fn open_quote(part: &[u8]) -> u8
    ensures { result ≡ lines.open_quote 0 part.now }
{
    let mut quote: u8 = 0;
    for byte in part {
        quote = quote_after(quote, *byte);
    }
    quote
}

pub fn drop_blanks(line: &[u8]) -> &[u8]
    ensures value { result.now ≡ lines.drop_blanks line.now }
    ensures shorter { length result.now ≤ length line.now }
{
    for (i, byte) in line.iter().enumerate() {
        if *byte != b' ' {
            return &line[i..];
        }
    }
    &line[line.len()..]
}

fn all_blank(part: &[u8]) -> bool
    ensures { result ≡ lines.all_blank part.now }
{
    for byte in part {
        if *byte != b' ' {
            return false;
        }
    }
    true
}

/// Without the blanks at the end.
pub fn trim(part: &[u8]) -> &[u8]
    ensures { result.now ≡ lines.trim part.now }
{
    let mut size = part.len();
    while 0 < size && part[size - 1] == b' ' {
        size -= 1;
    }
    &part[..size]
}

fn begins_blank(bytes: &[u8]) -> bool
    ensures { result ≡ lines.begins_blank bytes.now }
{
    match bytes.first() {
        Some(byte) => *byte == b' ',
        None => true,
    }
}

/// What stands after the first `count` bytes.
pub fn after(bytes: &[u8], count: usize) -> &[u8]
    ensures { result.now ≡ drop count bytes.now }
{
    if count <= bytes.len() {
        &bytes[count..]
    } else {
        &bytes[bytes.len()..]
    }
}

fn is_directive(lead: &[u8]) -> bool
    ensures { result ≡ lines.is_directive lead.now }
{
    lead.starts_with(b"!$omp") && begins_blank(after(lead, 5))
}

fn is_conditional(lead: &[u8]) -> bool
    ensures { result ≡ lines.is_conditional lead.now }
{
    lead.starts_with(b"!$ ")
}

pub fn kind(line: &[u8]) -> LineKind
    ensures { result ≡ lines.kind line.now }
{
    let lead = drop_blanks(line);
    if is_directive(lead) {
        LineKind::Directive
    } else if is_conditional(lead) {
        LineKind::Conditional
    } else if all_blank(before_comment(line)) {
        LineKind::Blank
    } else {
        LineKind::Code
    }
}

pub fn directive_part(line: &[u8]) -> &[u8]
    ensures { result.now ≡ lines.directive_part line.now }
{
    trim(before_comment(after(drop_blanks(line), 5)))
}

pub fn code_part(line: &[u8]) -> &[u8]
    ensures { result.now ≡ lines.code_part line.now }
{
    trim(before_comment(line))
}

fn marked_width(line: &[u8]) -> usize
    ensures { result ≡ lines.marked_width line.now }
{
    let lead = drop_blanks(line);
    line.len() - lead.len() + 1 + before_comment(after(lead, 1)).len()
}

fn width(kind: LineKind, line: &[u8]) -> usize
    ensures { result ≡ lines.width_of kind line.now }
{
    match kind {
        LineKind::Blank | LineKind::Code => before_comment(line).len(),
        LineKind::Conditional | LineKind::Directive => marked_width(line),
    }
}

fn leaves_open(part: &[u8]) -> bool
    ensures { result ≡ lines.leaves_open part.now }
{
    open_quote(part) != 0
}

fn is_part_broken(kind: LineKind, line: &[u8]) -> bool
    ensures { result ≡ lines.is_part_broken kind line.now }
{
    match kind {
        LineKind::Blank | LineKind::Conditional => false,
        LineKind::Directive => leaves_open(directive_part(line)),
        LineKind::Code => leaves_open(code_part(line))
            || drop_blanks(code_part(line)) == b"&".as_slice(),
    }
}

/// The line by itself breaks the source form.
pub fn is_broken(line: &[u8]) -> bool
    ensures { result ≡ lines.is_broken line.now }
{
    let kind = kind(line);
    132 < width(kind, line) || is_part_broken(kind, line)
}
