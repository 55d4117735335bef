//! The longest token at the front of a text.
ghost use Rattle.std.specs.Prelude.{◌≡◌, ◌<◌, ◌≤◌, ◌+◌, ◌^◌, ℕ, [], ◌∷◌, ◌++◌, length, drop};
ghost use Rattle.ws_lex.specs.Within.{IsWithin};
ghost use Rattle.ws_lex.specs.Spelling as spelling;

use crate::line::after;
use crate::piece::{Shape, Spelled};
use crate::token::Sign;

fn is_letter(byte: u8) -> bool
    ensures { result ≡ spelling.is_letter byte }
{
    b'a' <= byte && byte <= b'z'
}

fn is_digit(byte: u8) -> bool
    ensures { result ≡ spelling.is_digit byte }
{
    b'0' <= byte && byte <= b'9'
}

fn is_word_byte(byte: u8) -> bool
    ensures { result ≡ spelling.is_word_byte byte }
{
    is_letter(byte) || is_digit(byte) || byte == b'_'
}

fn digit_run(bytes: &[u8]) -> usize
    ensures value { result ≡ spelling.digit_run bytes.now }
    ensures within { result ≤ length bytes.now }
{
    for (i, byte) in bytes.iter().enumerate() {
        if !is_digit(*byte) {
            return i;
        }
    }
    bytes.len()
}

fn word_run(bytes: &[u8]) -> usize
    ensures value { result ≡ spelling.word_run bytes.now }
    ensures within { result ≤ length bytes.now }
{
    for (i, byte) in bytes.iter().enumerate() {
        if !is_word_byte(*byte) {
            return i;
        }
    }
    bytes.len()
}

fn first(bytes: &[u8]) -> u8
    ensures { result ≡ spelling.first bytes.now }
{
    match bytes.first() {
        Some(byte) => *byte,
        None => 0,
    }
}

fn begins_dot_operator(bytes: &[u8]) -> bool
    ensures { result ≡ spelling.begins_dot_operator bytes.now }
{
    bytes.starts_with(b".eq.")
        || bytes.starts_with(b".ne.")
        || bytes.starts_with(b".lt.")
        || bytes.starts_with(b".le.")
        || bytes.starts_with(b".gt.")
        || bytes.starts_with(b".ge.")
        || bytes.starts_with(b".not.")
        || bytes.starts_with(b".and.")
        || bytes.starts_with(b".or.")
        || bytes.starts_with(b".eqv.")
        || bytes.starts_with(b".neqv.")
}

/// `.` and digits, where the `.` begins no dot operator.
fn fraction(bytes: &[u8]) -> usize
    ensures value { result ≡ spelling.fraction bytes.now }
    ensures within { result ≤ length bytes.now }
{
    if first(bytes) == b'.' && !begins_dot_operator(bytes) {
        1 + digit_run(after(bytes, 1))
    } else {
        0
    }
}

fn exponent_of(front: usize, digits: usize) -> usize
    requires { front + digits < 2 ^ 64 }
    ensures { result ≡ spelling.exponent_of front digits }
{
    if digits == 0 { 0 } else { front + digits }
}

fn is_sign(byte: u8) -> bool
    ensures { result ≡ spelling.is_sign byte }
{
    byte == b'+' || byte == b'-'
}

fn is_exponent_letter(byte: u8) -> bool
    ensures { result ≡ spelling.is_exponent_letter byte }
{
    byte == b'e' || byte == b'd'
}

fn exponent(bytes: &[u8]) -> usize
    ensures value { result ≡ spelling.exponent bytes.now }
    ensures within { result ≤ length bytes.now }
{
    if is_exponent_letter(first(bytes)) {
        if is_sign(first(after(bytes, 1))) {
            exponent_of(2, digit_run(after(bytes, 2)))
        } else {
            exponent_of(1, digit_run(after(bytes, 1)))
        }
    } else {
        0
    }
}

fn kind_suffix(bytes: &[u8]) -> usize
    ensures value { result ≡ spelling.kind_suffix bytes.now }
    ensures within { result ≤ length bytes.now }
{
    if first(bytes) == b'_' {
        word_run(bytes)
    } else {
        0
    }
}

/// The length of a number with its fraction, exponent and kind.
fn number_length(bytes: &[u8]) -> usize
    ensures value { result ≡ spelling.number_length bytes.now }
    ensures within { result ≤ length bytes.now }
{
    let digits = digit_run(bytes);
    let plain = digits + fraction(after(bytes, digits));
    let real = plain + exponent(after(bytes, plain));
    real + kind_suffix(after(bytes, real))
}

fn shape_of_number(digits: usize, size: usize) -> Shape
    ensures { result ≡ spelling.shape_of_number digits size }
{
    if digits == size {
        Shape::Digits
    } else {
        Shape::Foreign
    }
}

fn spelled(size: usize, shape: Shape) -> Spelled
    ensures { result ≡ spelling.spelled size shape }
{
    Spelled { size, shape }
}

fn before_quote(quote: u8, bytes: &[u8]) -> usize
    ensures value { result ≡ spelling.before_quote quote bytes.now }
    ensures within { result ≤ length bytes.now }
{
    for (i, byte) in bytes.iter().enumerate() {
        if quote == *byte {
            return i;
        }
    }
    bytes.len()
}

fn quoted(quote: u8, rest: &[u8]) -> Spelled
    requires { length rest.now < 2 ^ 63 }
    ensures value { result ≡ spelling.quoted quote rest.now }
    ensures within { result.size ≤ 1 + length rest.now }
    ensures some { 1 ≤ result.size }
{
    let size = before_quote(quote, rest);
    if size < rest.len() {
        spelled(size + 2, Shape::Foreign)
    } else {
        spelled(1, Shape::Broken)
    }
}

fn single(bytes: &[u8]) -> Spelled
    requires { 0 < length bytes.now }
    ensures value { result ≡ spelling.fixed spelling.singles bytes.now }
    ensures one { result.size ≡ 1 }
{
    match first(bytes) {
        b' ' => spelled(1, Shape::Blank),
        b';' => spelled(1, Shape::Separator),
        b'!' => spelled(1, Shape::Directive),
        b'%' => spelled(1, Shape::Foreign),
        b'+' => spelled(1, Shape::Sign(Sign::Plus)),
        b'-' => spelled(1, Shape::Sign(Sign::Minus)),
        b'*' => spelled(1, Shape::Sign(Sign::Star)),
        b'/' => spelled(1, Shape::Sign(Sign::Slash)),
        b'<' => spelled(1, Shape::Sign(Sign::Less)),
        b'>' => spelled(1, Shape::Sign(Sign::Greater)),
        b'(' => spelled(1, Shape::Sign(Sign::Open)),
        b')' => spelled(1, Shape::Sign(Sign::Close)),
        b'[' => spelled(1, Shape::Sign(Sign::OpenSquare)),
        b']' => spelled(1, Shape::Sign(Sign::CloseSquare)),
        b',' => spelled(1, Shape::Sign(Sign::Comma)),
        b':' => spelled(1, Shape::Sign(Sign::Colon)),
        b'=' => spelled(1, Shape::Sign(Sign::Becomes)),
        _ => spelled(1, Shape::Broken),
    }
}

fn pair(bytes: &[u8]) -> Spelled
    requires { 0 < length bytes.now }
    ensures value { result ≡ spelling.fixed (spelling.pairs ++ spelling.singles) bytes.now }
    ensures within { IsWithin result bytes.now }
{
    if bytes.starts_with(b"**") {
        spelled(2, Shape::Sign(Sign::Power))
    } else if bytes.starts_with(b"==") {
        spelled(2, Shape::Sign(Sign::Equal))
    } else if bytes.starts_with(b"/=") {
        spelled(2, Shape::Sign(Sign::NotEqual))
    } else if bytes.starts_with(b"<=") {
        spelled(2, Shape::Sign(Sign::LessEqual))
    } else if bytes.starts_with(b">=") {
        spelled(2, Shape::Sign(Sign::GreaterEqual))
    } else if bytes.starts_with(b"(/") {
        spelled(2, Shape::Sign(Sign::OpenSlash))
    } else if bytes.starts_with(b"/)") {
        spelled(2, Shape::Sign(Sign::CloseSlash))
    } else if bytes.starts_with(b"::") {
        spelled(2, Shape::Sign(Sign::DoubleColon))
    } else if bytes.starts_with(b"//") {
        spelled(2, Shape::Foreign)
    } else if bytes.starts_with(b"=>") {
        spelled(2, Shape::Foreign)
    } else {
        single(bytes)
    }
}

fn dotted(bytes: &[u8]) -> Spelled
    requires { 0 < length bytes.now }
    ensures value { result ≡ spelling.fixed (spelling.dot_operators ++ spelling.truth_values) bytes.now }
    ensures within { IsWithin result bytes.now }
{
    if bytes.starts_with(b".eq.") {
        spelled(4, Shape::Sign(Sign::Equal))
    } else if bytes.starts_with(b".ne.") {
        spelled(4, Shape::Sign(Sign::NotEqual))
    } else if bytes.starts_with(b".lt.") {
        spelled(4, Shape::Sign(Sign::Less))
    } else if bytes.starts_with(b".le.") {
        spelled(4, Shape::Sign(Sign::LessEqual))
    } else if bytes.starts_with(b".gt.") {
        spelled(4, Shape::Sign(Sign::Greater))
    } else if bytes.starts_with(b".ge.") {
        spelled(4, Shape::Sign(Sign::GreaterEqual))
    } else if bytes.starts_with(b".not.") {
        spelled(5, Shape::Sign(Sign::Not))
    } else if bytes.starts_with(b".and.") {
        spelled(5, Shape::Sign(Sign::And))
    } else if bytes.starts_with(b".or.") {
        spelled(4, Shape::Sign(Sign::Or))
    } else if bytes.starts_with(b".eqv.") {
        spelled(5, Shape::Sign(Sign::Eqv))
    } else if bytes.starts_with(b".neqv.") {
        spelled(6, Shape::Sign(Sign::Neqv))
    } else if bytes.starts_with(b".true.") {
        spelled(6, Shape::Sign(Sign::True))
    } else if bytes.starts_with(b".false.") {
        spelled(7, Shape::Sign(Sign::False))
    } else {
        spelled(1, Shape::Broken)
    }
}

fn word_of(size: usize) -> Spelled
    ensures value { result ≡ spelling.word_of size }
    ensures size { result.size ≡ size }
{
    if size <= 63 {
        spelled(size, Shape::Word)
    } else {
        spelled(size, Shape::Broken)
    }
}

fn begins_number(bytes: &[u8]) -> bool
    ensures { result ≡ spelling.begins_number bytes.now }
{
    is_digit(first(bytes)) || first(bytes) == b'.' && is_digit(first(after(bytes, 1)))
}

/// The longest token at the front of a text, or a blank.
pub fn spell(bytes: &[u8]) -> Spelled
    requires some { 0 < length bytes.now }
    requires few { length bytes.now < 2 ^ 63 }
    ensures value { result ≡ spelling.spell bytes.now }
    ensures within { IsWithin result bytes.now }
{
    let byte = first(bytes);
    if is_letter(byte) {
        word_of(word_run(bytes))
    } else if begins_number(bytes) {
        let size = number_length(bytes);
        spelled(size, shape_of_number(digit_run(bytes), size))
    } else if byte == b'"' || byte == b'\'' {
        quoted(byte, after(bytes, 1))
    } else if byte == b'.' {
        dotted(bytes)
    } else {
        pair(bytes)
    }
}
