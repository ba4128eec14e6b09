// Doing what a script asks of an open site, line by line.
ghost use Rattle.std.specs.Prelude.{◌≡◌, ◌+◌, ◌*◌, ◌≤◌, ◌++◌, length, Ok};
ghost use Rattle.gate.specs.Recall.{recall};
ghost use Rattle.gate.specs.View.{scene_of};
ghost use Rattle.gate.specs.Time.{settled};
ghost use Rattle.undertaking.specs.Obeying.{call_of};
ghost use Rattle.undertaking.specs.Runs.{reply_of};
ghost use Rattle.console.specs.Commands.{command_in};
ghost use Rattle.console.specs.Halls.{after_line, answer_text, cleared, hall_after, left, line_text, obeyed, played_reply, played_scene, printed};
ghost use Rattle.console.specs.View.{entry_of, hall_of};

use crate::command::Command;
use crate::entry::Entry;
use crate::hall::Hall;
use crate::page::Page;
use crate::reading::command_in;
use crate::script::Script;
use crate::usage::Usage;
use gate::{Call, Next, Order, Site};
use ground::Ground;
use judge::{Room, judge};
use service::Deed;
use undertaking::{Answer, Request};

// The call that an order names.
fn call_of(order: Order) -> Call
    ensures { result ≡ call_of order.column order.next }
{
    match order.next {
        Next::Leaves => Call::Leave {
            column: order.column,
        },
        Next::Moves { to } => Call::Move {
            from: order.column,
            to,
        },
    }
}

// Obeys recall once: makes the action that it names, if it names one, and ticks until nothing runs.
fn obey<G: Ground>(site: &mut Site<G>)
    ensures { scene_of site.new ≡ obeyed (scene_of site.old) (recall (scene_of site.old)) }
{
    if let Ok(order) = site.recall() {
        let _ = call_of(order).make(site);
        site.settle();
    }
}

// Ticks until nothing runs, and obeys recall as often as it says that actions are left; so many were made.
fn clear<G: Ground>(site: &mut Site<G>) -> u32
    ensures value { result ≡ left (recall (settled (scene_of site.old))) }
    ensures after { scene_of site.new ≡ cleared (scene_of site.old) }
{
    site.settle();
    let actions = site.recall().map_or(0, |order| order.left);
    for _action in 0..actions {
        obey(site);
    }
    actions
}

// Judges a sheet for a site, and plays it there if it is accepted.
fn play_sheet<G: Ground>(site: &mut Site<G>, sheet: &[u8], room: Room) -> Answer
    ensures answer { reply_of result ≡ played_reply (scene_of site.old) sheet.now }
    ensures after { scene_of site.new ≡ played_scene (scene_of site.old) sheet.now }
{
    let plan = judge(site.ground(), site.settings(), sheet, room)?;
    Deed::Play(plan).make(site)
}

// Does what a line asks of a hall, and puts the answer onto a page.
fn serve_command<G: Ground>(hall: &mut Hall<G>, command: Command, sheet: &[u8], page: &mut Page)
    requires { length page.old + 2950 ≤ 24579000 }
    ensures hall { hall_of hall.new ≡ hall_after (hall_of hall.old) sheet.now (Ok command) }
    ensures page { page.new ≡ page.old ++ answer_text (hall_of hall.old) sheet.now (Ok command) }
    ensures bound { length page.new ≤ length page.old + 2950 }
{
    match command {
        Command::Makes(call) => page.put_answer(call.make(&mut hall.site)),
        Command::Ticks(times) => {
            hall.site.wait(times);
            page.put(b"granted");
        }
        Command::Clear => {
            page.put_named(b"cleared, ", clear(&mut hall.site));
            page.put(b" actions");
        }
        Command::Look => {
            page.put_counts(&hall.site);
            page.put_drawing(&hall.site, hall.width);
        }
        Command::Play => match hall.sheets.pop() {
            Some(room) => page.put_answer(play_sheet(&mut hall.site, sheet, room)),
            None => page.put_expected(Usage::FewerSheets),
        },
    }
}

// Does what a line of a script asks of a hall, and puts the answer onto a page; a line without words asks nothing.
fn serve_entry<G: Ground>(hall: &mut Hall<G>, entry: &Entry<'_>, page: &mut Page)
    requires { length page.old + 3000 ≤ 24579000 }
    ensures hall { hall_of hall.new ≡ after_line (hall_of hall.old) (entry_of entry.now) }
    ensures page { page.new ≡ page.old ++ line_text (hall_of hall.old) (entry_of entry.now) }
    ensures bound { length page.new ≤ length page.old + 3000 }
{
    if entry.words().is_done() {
        return;
    }
    page.put_label(entry.line);
    match command_in(&mut entry.words()) {
        Ok(command) => serve_command(hall, command, entry.sheet, page),
        Err(usage) => page.put_expected(usage),
    }
    page.put(b"\n");
}

// Does what the lines of a script ask of a hall, and puts the answers onto a page.
pub(crate) fn serve<G: Ground>(hall: &mut Hall<G>, script: &mut Script<'_>, page: &mut Page)
    requires { length page.old + 3000 * length script.old ≤ 24579000 }
    ensures { page.new ≡ page.old ++ printed (hall_of hall.old) script.old }
{
    while let Some(entry) = script.next_entry() {
        serve_entry(hall, &entry, page);
    }
}
