// Reading the words of a line.
ghost use Rattle.std.specs.Prelude.{◌≡◌};
ghost use Rattle.console.specs.Commands.{behind, asked, block_in, column_in, command_in, enter_in, first_column, one_column, times_in, two_columns, verb_in};

use crate::command::{Command, Verb};
use crate::usage::Usage;
use crate::words::Words;
use gate::Call;
use sheet::number;

// The column number that a word is.
pub(crate) fn column_in(word: &[u8]) -> Option<u16>
    ensures { result ≡ column_in word.now }
{
    u16::try_from(number(word)?).ok()
}

// The column number that the next word is.
pub(crate) fn next_column(words: &mut Words<'_>) -> Option<u16>
    ensures value { result ≡ first_column words.old }
    ensures after { words.new ≡ behind words.old }
{
    column_in(words.next_word()?)
}

// The column that the words are.
fn one_column(words: &mut Words<'_>) -> Option<u16>
    ensures { result ≡ one_column words.old }
{
    let column = next_column(words)?;
    words.is_done().then_some(column)
}

// The two columns that the words are.
fn two_columns(words: &mut Words<'_>) -> Option<(u16, u16)>
    ensures { result ≡ two_columns words.old }
{
    let from = next_column(words)?;
    let to = next_column(words)?;
    words.is_done().then_some((from, to))
}

// Whether a block is brought in.
fn block_in(words: &mut Words<'_>) -> Option<bool>
    ensures { result ≡ block_in words.old }
{
    match words.next_word() {
        None => Some(false),
        Some(b"block") => words.is_done().then_some(true),
        Some(_) => None,
    }
}

// An enter.
fn enter_in(words: &mut Words<'_>) -> Option<Call>
    ensures { result ≡ enter_in words.old }
{
    let column = next_column(words)?;
    let block = block_in(words)?;
    Some(Call::Enter { column, block })
}

// How many ticks are asked for.
fn times_in(words: &mut Words<'_>) -> Option<u32>
    ensures { result ≡ times_in words.old }
{
    let Some(word) = words.next_word() else {
        return Some(1);
    };
    let times = number(word)?;
    ((1..=999_999).contains(&times) && words.is_done()).then_some(times)
}

// What a first word is.
fn verb_in(word: &[u8]) -> Option<Verb>
    ensures { result ≡ verb_in word.now }
{
    match word {
        b"enter" => Some(Verb::Enter),
        b"move" => Some(Verb::Move),
        b"lay" => Some(Verb::Lay),
        b"lift" => Some(Verb::Lift),
        b"leave" => Some(Verb::Leave),
        b"tick" => Some(Verb::Tick),
        b"recall" => Some(Verb::Recall),
        b"clear" => Some(Verb::Clear),
        b"look" => Some(Verb::Look),
        b"play" => Some(Verb::Play),
        _ => None,
    }
}

// What a first word and those behind it ask, if they are well formed.
fn asked(verb: Verb, words: &mut Words<'_>) -> Option<Command>
    ensures { result ≡ asked verb words.old }
{
    match verb {
        Verb::Enter => enter_in(words).map(Command::Makes),
        Verb::Move => two_columns(words).map(|(from, to)| Command::Makes(Call::Move { from, to })),
        Verb::Lay => two_columns(words).map(|(from, to)| Command::Makes(Call::Lay { from, to })),
        Verb::Lift => two_columns(words).map(|(from, to)| Command::Makes(Call::Lift { from, to })),
        Verb::Leave => one_column(words).map(|column| Command::Makes(Call::Leave { column })),
        Verb::Tick => times_in(words).map(Command::Ticks),
        Verb::Recall => words.is_done().then_some(Command::Makes(Call::Recall)),
        Verb::Clear => words.is_done().then_some(Command::Clear),
        Verb::Look => words.is_done().then_some(Command::Look),
        Verb::Play => words.is_done().then_some(Command::Play),
    }
}

// What the words of a line ask of an open site, or what is expected in their place.
pub(crate) fn command_in(words: &mut Words<'_>) -> Result<Command, Usage>
    ensures { result ≡ command_in words.old }
{
    let verb = words.next_word().and_then(verb_in).ok_or(Usage::Other)?;
    asked(verb, words).ok_or(Usage::Form(verb))
}
