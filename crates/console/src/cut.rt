// A script, cut into lines and the sheets below them.
ghost use Rattle.std.specs.Prelude.{◌≡◌, false, ◌==◌, ◌<◌, ◌≤◌, [], ◌∷◌, ◌++◌, length, take, drop, MatchOption};
ghost use Rattle.std.specs.List.{concat, position_or_len};
ghost use Rattle.console.specs.Lines.{below, entries_in, is_play, lines, said, sheet_lines};
ghost use Rattle.console.specs.Printed.{too_long};
ghost use Rattle.console.specs.View.{entry_of};

use crate::entry::Entry;
use crate::script::Script;
use crate::words::Words;

// How many bytes stand before the first that is this one.
pub(crate) fn place_of(bytes: &[u8], byte: u8) -> usize
    ensures value { result ≡ position_or_len (λ b. b == byte) bytes.now }
    ensures bound { result ≤ length bytes.now }
{
    bytes.iter().position(|b| *b == byte).unwrap_or(bytes.len())
}

// The first line of a text with its newline, and what is behind it.
fn cut_line(text: &[u8]) -> (&[u8], &[u8])
    requires { 0 < length text.now }
    ensures lines { lines text.now ≡ result.0.now ∷ lines result.1.now }
    ensures all { text.now ≡ result.0.now ++ result.1.now }
    ensures shorter { length result.1.now < length text.now }
    ensures within { length result.0.now ≤ length text.now }
{
    let end = place_of(text, b'\n') + 1;
    text.split_at(end.min(text.len()))
}

// A sheet that was cut off a text, how many lines it has, and what is behind it.
#[derive(Drop)]
struct Cut<'a> {
    sheet: &'a [u8],
    count: usize,
    rest: &'a [u8],
}

// The sheet that a text begins with: up to and with the first line that begins with END and a space.
fn cut_sheet(text: &[u8]) -> Cut<'_>
    ensures sheet { result.sheet.now ≡ concat (take (sheet_lines (lines text.now)) (lines text.now)) }
    ensures count { result.count ≡ sheet_lines (lines text.now) }
    ensures rest { lines result.rest.now ≡ drop (sheet_lines (lines text.now)) (lines text.now) }
    ensures within { length result.rest.now ≤ length text.now }
{
    let mut rest = text;
    let mut count = 0;
    let mut ended = false;
    while !ended && !rest.is_empty() {
        let (line, more) = cut_line(rest);
        ended = line.starts_with(b"END ");
        count += 1;
        rest = more;
    }
    let (sheet, _) = text.split_at(text.len() - rest.len());
    Cut { sheet, count, rest }
}

// The words of a line; a remark has none.
fn said(line: &[u8]) -> Words<'_>
    requires { length line.now ≤ 65536 }
    ensures { result ≡ said line.now }
{
    match line {
        [b'#', ..] => Words::of(&[]),
        _ => Words::of(line),
    }
}

// Whether a line asks to play the sheet below it.
fn is_play(line: &[u8]) -> bool
    requires { length line.now ≤ 65536 }
    ensures { result ≡ is_play (said line.now) }
{
    matches!(said(line).next_word(), Some(b"play"))
}

// The sheet below a line, at the front of what is behind it; without a play it is empty.
fn cut_below<'a>(line: &[u8], behind: &'a [u8]) -> Cut<'a>
    requires { length line.now ≤ 65536 }
    ensures sheet { result.sheet.now ≡ concat (take (below (said line.now) (lines behind.now)) (lines behind.now)) }
    ensures count { result.count ≡ below (said line.now) (lines behind.now) }
    ensures rest { lines result.rest.now ≡ drop (below (said line.now) (lines behind.now)) (lines behind.now) }
    ensures within { length result.rest.now ≤ length behind.now }
{
    if is_play(line) {
        return cut_sheet(behind);
    }
    Cut {
        sheet: &[],
        count: 0,
        rest: behind,
    }
}

impl<'a> Entry<'a> {
    // Its words.
    pub(crate) fn words(&self) -> Words<'a>
        ensures { result ≡ said self.now.text.now }
    {
        said(self.text)
    }
}

impl<'a> Script<'a> {
    // The lines of a script that is not too long.
    pub(crate) fn of(script: &'a [u8]) -> Script<'a>
        requires { too_long script.now ≡ false }
        ensures value { result ≡ entries_in script.now }
        ensures few { length result ≤ 8193 }
    {
        Script {
            rest: script,
            line: 1,
        }
    }

    // The next line that is answered, with the sheet below it.
    pub(crate) fn next_entry(&mut self) -> Option<Entry<'a>>
        ensures { MatchOption result ((self.old ≡ []) × (self.new ≡ [])) (λ e. self.old ≡ entry_of e ∷ self.new) }
    {
        if self.rest.is_empty() {
            return None;
        }
        let line = self.line;
        let (text, behind) = cut_line(self.rest);
        let Cut { sheet, count, rest } = cut_below(text, behind);
        self.rest = rest;
        self.line = line + 1 + count;
        Some(Entry { line, text, sheet })
    }
}
