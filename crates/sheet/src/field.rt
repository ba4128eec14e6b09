// The fields of a line: numbers, letters and marks, justified to the right and filled with spaces.
ghost use Rattle.std.specs.Prelude.{◌≡◌, ℕ, ◌-◌, ◌<◌, ◌≤◌, true, false, length, Some, MatchOption};
ghost use Rattle.sheet.specs.Fields.{Shows, digit, digits, unspaced, number_in, letter_in, place_in, flag, blank, lone};

use crate::record::{Letter, Place};

// The digit that a byte stands for.
fn digit_of(byte: u8) -> Option<u32>
    ensures { MatchOption result (digit byte ≡ false) (λ d. (digit byte ≡ true) × (d ≡ byte - 48) × (d < 10)) }
{
    char::from(byte).to_digit(10)
}

// The number that digits alone spell. A `for`, since the closure of a fold would know no bound on the number so far.
fn digits_of(bytes: &[u8]) -> Option<u32>
    requires { length bytes.now ≤ 9 }
    ensures { result ≡ digits 0 bytes.now }
{
    let mut value = 0;
    for b in bytes {
        value = value * 10 + digit_of(*b)?;
    }
    Some(value)
}

// What is left after the spaces in front.
fn trimmed(field: &[u8]) -> &[u8]
    ensures value { result.now ≡ unspaced field.now }
    ensures bound { length result.now ≤ length field.now }
{
    let mut rest = field;
    while let [b' ', more @ ..] = rest {
        rest = more;
    }
    rest
}

// The number that a field shows: spaces, and then its decimal digits with no leading zero, at most nine bytes in all.
pub fn number(field: &[u8]) -> Option<u32>
    ensures value { result ≡ number_in field.now }
    ensures words { (n : ℕ) → (result ≡ Some n → Shows field.now n) × (Shows field.now n → result ≡ Some n) }
{
    if field.len() > 9 {
        return None;
    }
    match trimmed(field) {
        [] | [b'0', _, ..] => None,
        digits => digits_of(digits),
    }
}

// The byte of a field that has just one.
fn lone_byte(field: &[u8]) -> Option<u8>
    ensures { result ≡ lone (unspaced field.now) }
{
    match trimmed(field) {
        [byte] => Some(*byte),
        _ => None,
    }
}

// The letter in a field. Form, here and at the marks below: by char cases, as the formats name them.
pub(crate) fn letter_in(field: &[u8]) -> Option<Letter>
    ensures { result ≡ letter_in field.now }
{
    match char::from(lone_byte(field)?) {
        'M' => Some(Letter::M),
        'P' => Some(Letter::P),
        'D' => Some(Letter::D),
        _ => None,
    }
}

// The column or the height that an action starts from: a number, or S for outside.
pub(crate) fn from_place(field: &[u8]) -> Option<Place>
    ensures { result ≡ place_in 83 field.now }
{
    match lone_byte(field).map(char::from) {
        Some('S') => Some(Place::Outside),
        _ => number(field).map(Place::At),
    }
}

// The column or the height that an action leads to: a number, or E for outside.
pub(crate) fn to_place(field: &[u8]) -> Option<Place>
    ensures { result ≡ place_in 69 field.now }
{
    match lone_byte(field).map(char::from) {
        Some('E') => Some(Place::Outside),
        _ => number(field).map(Place::At),
    }
}

// Whether a robot carries a block: 1, or 0 for none.
pub(crate) fn carry_in(field: &[u8]) -> Option<bool>
    ensures { result ≡ flag (number_in field.now) }
{
    match number(field)? {
        0 => Some(false),
        1 => Some(true),
        _ => None,
    }
}

// Whether all bytes are spaces.
pub(crate) fn is_blank(bytes: &[u8]) -> bool
    ensures { result ≡ blank bytes.now }
{
    bytes.iter().all(|b| *b == b' ')
}
