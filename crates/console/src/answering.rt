// Answering a script, line by line.
ghost use Rattle.std.specs.Prelude.{◌≡◌, ℕ, ◌+◌, ◌*◌, ◌<◌, ◌≤◌, List, ◌++◌, length, IfOk, vec_len};
ghost use Rattle.terms.specs.Refusals.{Answers};
ghost use Rattle.terms.specs.View.{room_of, settings_of};
ghost use Rattle.console.specs.Halls.{printed};
ghost use Rattle.console.specs.Lines.{entries_in};
ghost use Rattle.console.specs.Openings.{numbers_refusal, numbers_settings, opening_in, opening_refusal};
ghost use Rattle.console.specs.Printed.{answered, behind_opening, entry_opens, entry_text, first_part, first_text, found, opens, too_long};
ghost use Rattle.console.specs.Sessions.{Answered};
ghost use Rattle.console.specs.View.{MadeBy, Makes, entry_of, made_hall, opening_of};

use crate::desk::Desk;
use crate::entry::Entry;
use crate::hall::Hall;
use crate::lists::Lists;
use crate::made::Made;
use crate::opening::{Numbers, Opening};
use crate::page::Page;
use crate::script::Script;
use crate::serving::serve;
use crate::usage::Usage;
use crate::words::Words;
use gate::{Plot, Site};
use ground::{Ground, Listed, Square};
use judge::Room;
use std::alloc::{AllocError, Global};
use terms::{Refusal, Reserve, Settings};

// The most sheets that are judged in a script.
const MOST_SHEETS: usize = 16;

impl Desk {
    // Room for the longest script.
    pub fn new(heap: Global) -> Result<Desk, AllocError>
        ensures { IfOk result (λ desk. 24579000 ≤ room_of desk.text) }
    {
        let plot = Plot::new(heap)?;
        let mut sheets = Vec::with_capacity(heap, MOST_SHEETS)?;
        for _sheet in 0..MOST_SHEETS {
            sheets.push_reserved(Room::new(heap)?);
        }
        let lists = Lists::new(heap)?;
        let text = Reserve::new(heap)?;
        Ok(Desk {
            plot,
            sheets,
            lists,
            text,
        })
    }
}

// The settings of numbers.
fn settings(numbers: Numbers) -> Result<Settings, Refusal>
    ensures { Answers (numbers_refusal numbers) (λ s. settings_of s ≡ numbers_settings numbers) result }
{
    Settings::new(numbers.levels, numbers.robots, numbers.set)
}

// What an opening makes, with the border list and the links that were read.
fn make(opening: Opening, lists: &Lists) -> Result<Made, Refusal>
    ensures { Answers (opening_refusal (opening_of lists.now.border.items lists.now.links.items opening)) (Makes (opening_of lists.now.border.items lists.now.links.items opening)) result }
{
    match opening {
        Opening::Square { x, y, numbers } => Ok(Made::Square {
            ground: Square::new(x, y)?,
            settings: settings(numbers)?,
            width: y as u16,
        }),
        Opening::Listed { columns, numbers } => Ok(Made::Listed {
            ground: Listed::new(columns, &lists.border, &lists.links)?,
            settings: settings(numbers)?,
        }),
    }
}

// Whether a script has more than 65,536 bytes or more than 8,192 newlines.
fn is_too_long(script: &[u8]) -> bool
    ensures { result ≡ too_long script.now }
{
    script.len() > 65_536 || script.iter().filter(|b| **b == b'\n').count() > 8192
}

impl Made {
    // How many columns the ground has.
    fn columns(&self) -> u16
        ensures { result ≡ (made_hall self.now).scene.meaning.columns }
    {
        match self {
            Made::Square { ground, .. } => ground.columns(),
            Made::Listed { ground, .. } => ground.columns(),
        }
    }
}

// Opens the site that words ask for, and puts the answer onto a page.
fn open_site(words: &mut Words<'_>, lists: &mut Lists, page: &mut Page) -> Option<Made>
    requires { length page.old + 250 ≤ 24579000 }
    ensures page { page.new ≡ page.old ++ first_text (opening_in words.old) }
    ensures made { MadeBy (opens (opening_in words.old)) result }
    ensures bound { length page.new ≤ length page.old + 250 }
{
    let Some(opening) = lists.opening_in(words) else {
        page.put_expected(Usage::Open);
        return None;
    };
    match make(opening, lists) {
        Ok(made) => {
            page.put_named(b"open, ", made.columns().into());
            page.put(b" columns");
            Some(made)
        }
        Err(refusal) => {
            page.put_refusal(refusal);
            None
        }
    }
}

// Opens the site that a line asks for, and puts the answer onto a page; a line without words asks nothing.
fn open_entry(entry: &Entry<'_>, lists: &mut Lists, page: &mut Page) -> Option<Made>
    requires { length page.old + 3000 ≤ 24579000 }
    ensures page { page.new ≡ page.old ++ entry_text (entry_of entry.now) }
    ensures made { MadeBy (entry_opens (entry_of entry.now)) result }
    ensures bound { length page.new ≤ length page.old + 3000 }
{
    if entry.words().is_done() {
        return None;
    }
    page.put_label(entry.line);
    let made = open_site(&mut entry.words(), lists, page);
    page.put(b"\n");
    made
}

// Answers the lines of a script until one opens a site.
fn find_opening(script: &mut Script<'_>, lists: &mut Lists, page: &mut Page) -> Option<Made>
    requires { length page.old + 3000 * length script.old ≤ 24579000 }
    ensures page { page.new ≡ page.old ++ first_part script.old }
    ensures made { MadeBy (found script.old) result }
    ensures script { script.new ≡ behind_opening script.old }
    ensures room { length page.new + 3000 * length script.new ≤ 24579000 }
{
    while let Some(entry) = script.next_entry() {
        if let Some(made) = open_entry(&entry, lists, page) {
            return Some(made);
        }
    }
    None
}

// Answers the lines of a script by the site that is opened.
fn serve_made(made: Made, plot: Plot, sheets: Vec<Room>, script: &mut Script<'_>, page: &mut Page)
    requires { (vec_len sheets ≡ 16) × (0 < (made_hall made).width) × (length page.old + 3000 * length script.old ≤ 24579000) }
    ensures { page.new ≡ page.old ++ printed (made_hall made) script.old }
{
    match made {
        Made::Square {
            ground,
            settings,
            width,
        } => {
            let site = Site::open(plot, ground, settings);
            let mut hall = Hall {
                site,
                sheets,
                width,
            };
            serve(&mut hall, script, page);
        }
        Made::Listed { ground, settings } => {
            let site = Site::open(plot, ground, settings);
            let mut hall = Hall {
                site,
                sheets,
                width: 16,
            };
            serve(&mut hall, script, page);
        }
    }
}

// What a script prints: its calls are made of the site that it opens, in order, and each line is answered by one line.
#[tactic(auto, unfolding(crate::specs::Printed::answered))]
pub fn answer(script: &[u8], desk: Desk) -> Vec<u8>
    ensures value { result.items ≡ answered script.now }
    ensures words { Answered script.now result.items }
{
    let Desk {
        plot,
        sheets,
        mut lists,
        text,
    } = desk;
    let mut page = Page::new(text);
    if is_too_long(script) {
        page.put(b"a script has at most 65536 bytes and 8192 newlines\n");
        return page.into_vec();
    }
    let mut script = Script::of(script);
    if let Some(made) = find_opening(&mut script, &mut lists, &mut page) {
        serve_made(made, plot, sheets, &mut script, &mut page);
    }
    page.into_vec()
}
