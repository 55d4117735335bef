//! The items that READ takes from the data (Fortran 2018, 13.10.3).

ghost use Rattle.std.specs.Prelude.{◌≡◌, ◌≤◌, ◌<◌, ◌+◌, length, map, bytes_eq};
ghost use Rattle.list_io.specs.Items as items;
ghost use Rattle.list_io.specs.Spelled.{up_to_limit, of_the_kind, EndsWithin};

use crate::item::Item;

/// The greatest magnitude of a default integer, which only a negative one has.
const GREATEST_SIZE: u64 = 2_147_483_648;

fn is_space(byte: u8) -> bool
    ensures { result ≡ items.is_space byte }
{
    byte == b' ' || byte == b'\t' || byte == b'\r' || byte == b'\n'
}

fn is_comma(byte: u8) -> bool
    ensures { result ≡ items.is_comma byte }
{
    byte == b','
}

fn after_spaces(text: &[u8]) -> &[u8]
    ensures value { result.now ≡ items.after_spaces text.now }
    ensures shorter { length result.now ≤ length text.now }
{
    for (i, byte) in text.iter().enumerate() {
        if !is_space(*byte) {
            return &text[i..];
        }
    }
    &text[text.len()..]
}

fn after_comma(text: &[u8]) -> &[u8]
    ensures value { result.now ≡ items.after_comma text.now }
    ensures shorter { length result.now ≤ length text.now }
{
    match text.split_first() {
        Some((byte, rest)) => { if is_comma(*byte) { rest } else { text } }
        None => text,
    }
}

/// The text from the next item on. `first` is true for the first value of a READ.
fn item_from(first: bool, text: &[u8]) -> &[u8]
    ensures value { result.now ≡ items.item_from first text.now }
    ensures shorter { length result.now ≤ length text.now }
{
    if first {
        after_spaces(text)
    } else {
        after_spaces(after_comma(after_spaces(text)))
    }
}

/// The bytes of the item that stands first.
fn item_bytes(text: &[u8]) -> &[u8]
    ensures value { result.now ≡ items.item_bytes text.now }
    ensures shorter { length result.now ≤ length text.now }
{
    for (i, byte) in text.iter().enumerate() {
        if is_space(*byte) || is_comma(*byte) {
            return &text[..i];
        }
    }
    text
}

fn is_digit(byte: u8) -> bool
    ensures { result ≡ items.is_digit byte }
{
    b'0' <= byte && byte <= b'9'
}

/// The number that the digits spell, or None also where it is no magnitude of a default integer.
fn digits_value(digits: &[u8]) -> Option<u64>
    ensures { result ≡ up_to_limit (items.digits_value 0 digits.now) }
{
    let mut value: u64 = 0;
    for byte in digits {
        if !is_digit(*byte) {
            return None;
        }
        value = 10 * value + u64::from(*byte - b'0');
        if value > GREATEST_SIZE {
            return None;
        }
    }
    Some(value)
}

fn natural(digits: &[u8]) -> Option<u64>
    ensures { result ≡ up_to_limit (items.natural digits.now) }
{
    if digits.is_empty() {
        return None;
    }
    digits_value(digits)
}

fn signed(negative: bool, size: Option<u64>) -> Option<i32>
    ensures { result ≡ of_the_kind (items.signed negative size) }
{
    let size = i64::try_from(size?).ok()?;
    let value = if negative { -size } else { size };
    i32::try_from(value).ok()
}

fn integer(word: &[u8]) -> Option<i32>
    ensures { result ≡ of_the_kind (items.integer word.now) }
{
    match word.split_first() {
        None => None,
        Some((sign, digits)) => {
            if *sign == b'+' {
                signed(false, natural(digits))
            } else if *sign == b'-' {
                signed(true, natural(digits))
            } else {
                signed(false, natural(word))
            }
        }
    }
}

fn lower_case(byte: u8) -> u8
    ensures { result ≡ items.lower_case byte }
{
    if b'A' <= byte && byte <= b'Z' {
        byte + 32
    } else {
        byte
    }
}

/// Whether the word has these letters, in any case.
fn has_letters(word: &[u8], letters: &[u8]) -> bool
    ensures { result ≡ bytes_eq letters.now (map items.lower_case word.now) }
{
    if word.len() != letters.len() {
        return false;
    }
    for (i, letter) in letters.iter().enumerate() {
        if lower_case(word[i]) != *letter {
            return false;
        }
    }
    true
}

fn truth_word(word: &[u8]) -> Option<bool>
    ensures { result ≡ items.truth_word (map items.lower_case word.now) }
{
    if has_letters(word, b"t")
        || has_letters(word, b"true")
        || has_letters(word, b".t.")
        || has_letters(word, b".true.")
    {
        Some(true)
    } else if has_letters(word, b"f")
        || has_letters(word, b"false")
        || has_letters(word, b".f.")
        || has_letters(word, b".false.")
    {
        Some(false)
    } else {
        None
    }
}

fn spelled(word: &[u8], end: usize) -> Item
    ensures value { result ≡ items.spelled word.now end }
    ensures within { EndsWithin end result }
{
    if let Some(value) = truth_word(word) {
        return Item::Truth { value, end };
    }
    match integer(word) {
        Some(value) => Item::Number { value, end },
        None => Item::Bad,
    }
}

/// The item that stands next in the data, from the byte with number `at` on, counted from 0. Blanks, tabs and line ends before it are
/// skipped, and one comma where it is not the first value of its READ. It ends before a blank, a tab, a line end or a comma, and
/// spells a default integer, or `T`, `TRUE`, `.T.`, `.TRUE.` or the like for false in any case of letters; any other is Bad. End
/// where no item stands there (Fortran 2018, 13.10.3, without repeat counts, empty values and `/`).
pub fn next_item(bytes: &[u8], at: usize, first: bool) -> Item
    requires { at ≤ length bytes.now }
    ensures value { result ≡ items.next_item bytes.now at first }
    ensures within { EndsWithin (length bytes.now) result }
{
    let rest = item_from(first, &bytes[at..]);
    if rest.is_empty() {
        return Item::End;
    }
    let word = item_bytes(rest);
    spelled(word, bytes.len() - rest.len() + word.len())
}

fn after_line(text: &[u8]) -> &[u8]
    ensures value { result.now ≡ items.after_line text.now }
    ensures shorter { length result.now ≤ length text.now }
{
    for (i, byte) in text.iter().enumerate() {
        if *byte == b'\n' {
            return &text[i + 1..];
        }
    }
    &text[text.len()..]
}

/// The number of the first byte after the line that the byte with number `at` stands on, or of the end where that is the last line
/// (Fortran 2018, 12.6.4.5).
pub fn next_line(bytes: &[u8], at: usize) -> usize
    requires { at ≤ length bytes.now }
    ensures value { result ≡ items.next_line bytes.now at }
    ensures within { result ≤ length bytes.now }
{
    bytes.len() - after_line(&bytes[at..]).len()
}
