// Reading a sheet.
ghost use Rattle.std.specs.Prelude.{◌≡◌, ◌+◌, ◌<◌, ◌≤◌, true, false, ◌++◌, ◌==◌, length, Some, IfOk, MatchOption, vec_len};
ghost use Rattle.std.specs.Simd.{first_chunks};
ghost use Rattle.terms.specs.Refusals.{Answers, Settles, first_of, or_else, refusal_in};
ghost use Rattle.terms.specs.View.{settings_of};
ghost use Rattle.sheet.specs.Kinds.{line_tests};
ghost use Rattle.sheet.specs.Lines.{record_in};
ghost use Rattle.sheet.specs.Reasons.{reading_reasons};
ghost use Rattle.sheet.specs.View.{sheet_of, records_in};
ghost use Rattle.sheet.specs.Gathered.{IsSheet};
ghost use Rattle.sheet.specs.Readable.{ReadsAsWritten};
ghost use Rattle.sheet.specs.Reading.{goal_fits, place_tests, goals_of, acts_of, Small, bad_sheet, lines_in, reading_refusal};

use crate::line::read_line;
use crate::reader::Reader;
use crate::record::Record;
use crate::{LINE_LENGTH, MOST_LINES, Room, Sheet, Target};
use ground::Ground;
use terms::{Refusal, Rule, Settings};

impl<'a, G: Ground> Reader<'a, G> {
    // Whether a target fits behind the targets and the actions so far.
    fn is_fit(&self, column: u32, height: u32) -> bool
        ensures { result ≡ goal_fits (G.Ground.meaning self.now.ground.now) (settings_of self.now.settings.now) self.now.targets.items (vec_len self.now.acts) column height }
    {
        let rises = self
            .targets
            .last()
            .is_none_or(|last| u32::from(last.column) < column);
        self.acts.is_empty()
            && rises
            && column < u32::from(self.ground.columns())
            && !self.ground.is_border(column as u16)
            && (1..u32::from(self.settings.levels())).contains(&height)
    }

    // That what the line of a number shows fits behind what was read, or why not.
    fn check(&self, number: u16, shown: Record) -> Result<(), Refusal>
        ensures { Answers (first_of (place_tests (G.Ground.meaning self.now.ground.now) (settings_of self.now.settings.now) number (number == self.now.total) self.now.targets.items (vec_len self.now.acts) (Some shown))) (λ _. Small shown) result }
    {
        let last = number == self.total;
        let rule = match shown {
            Record::Goal { column, height } if !self.is_fit(column, height) => Rule::GoalMisplaced,
            // By `as`: there is no `From` between a u32 and a usize.
            Record::End { count } if last && count as usize == self.acts.len() => return Ok(()),
            Record::End { .. } => Rule::EndMisplaced,
            _ if last => Rule::EndMisplaced,
            _ => return Ok(()),
        };
        Err(Refusal::at(rule, number, 0))
    }

    // Adds what the next line shows to the targets or to the actions.
    fn add(&mut self, shown: Record)
        requires more { self.old.lines < self.old.total }
        requires small { Small shown }
        ensures added { (self.new.targets.items ≡ self.old.targets.items ++ goals_of (Some shown)) × (self.new.acts.items ≡ self.old.acts.items ++ acts_of (Some shown)) }
        ensures lines { (self.new.lines ≡ self.old.lines + 1) × (self.new.total ≡ self.old.total) }
        ensures same { (self.new.ground.now ≡ self.old.ground.now) × (self.new.settings.now ≡ self.old.settings.now) }
    {
        self.lines += 1;
        match shown {
            Record::Goal { column, height } => self.targets.push_reserved(Target {
                column: column as u16,
                height: height as u8,
            }),
            Record::Act(act) => self.acts.push_reserved(act),
            Record::Note | Record::End { .. } => {}
        }
    }

    // Reads the next line and adds what it shows, or says why not.
    fn take_line(&mut self, bytes: &[u8; LINE_LENGTH]) -> Result<(), Refusal>
        requires more { self.old.lines < self.old.total }
        ensures value { let n = self.old.lines + 1 in let shown = record_in n bytes.now in Answers (or_else (first_of (line_tests n bytes.now)) (first_of (place_tests (G.Ground.meaning self.old.ground.now) (settings_of self.old.settings.now) n (n == self.old.total) self.old.targets.items (vec_len self.old.acts) shown))) (λ _. (self.new.targets.items ≡ self.old.targets.items ++ goals_of shown) × (self.new.acts.items ≡ self.old.acts.items ++ acts_of shown) × (self.new.lines ≡ n)) result }
        ensures total { self.new.total ≡ self.old.total }
        ensures same { (self.new.ground.now ≡ self.old.ground.now) × (self.new.settings.now ≡ self.old.settings.now) }
    {
        let number = self.lines + 1;
        let shown = read_line(bytes, number)?;
        self.check(number, shown)?;
        self.add(shown);
        Ok(())
    }
}

// The lines of a sheet, where it has some, all whole, and not too many.
fn lines_of(sheet: &[u8]) -> Option<&[[u8; LINE_LENGTH]]>
    ensures { MatchOption result (bad_sheet sheet.now ≡ true) (λ lines. (bad_sheet sheet.now ≡ false) × (lines.now ≡ first_chunks 35 (lines_in sheet.now) sheet.now) × (length lines.now ≡ lines_in sheet.now) × (length lines.now ≤ 1500)) }
{
    let (lines, rest) = sheet.as_chunks();
    let whole = rest.is_empty() && (1..=MOST_LINES).contains(&lines.len());
    whole.then_some(lines)
}

// Reads a sheet for a ground and settings: its records, or the earliest line's first broken rule.
pub fn read_sheet<G: Ground>(
    ground: &G,
    settings: &Settings,
    sheet: &[u8],
    room: Room,
) -> Result<Sheet, Refusal>
    ensures value { Answers (reading_refusal (G.Ground.meaning ground.now) (settings_of settings.now) sheet.now) (λ s. sheet_of s ≡ records_in sheet.now) result }
    ensures words { Settles (reading_reasons (G.Ground.meaning ground.now) (settings_of settings.now) sheet.now) (refusal_in result) }
    ensures shows { ReadsAsWritten }
    ensures gathers { IfOk result (λ s. IsSheet sheet.now (sheet_of s)) }
{
    let lines = lines_of(sheet).ok_or(Rule::SheetShape)?;
    let Room { targets, acts } = room;
    let mut reader = Reader {
        ground,
        settings,
        total: lines.len() as u16,
        lines: 0,
        targets: targets.into_vec(),
        acts: acts.into_vec(),
    };
    for line in lines {
        reader.take_line(line)?;
    }
    let Reader {
        targets,
        acts,
        lines,
        ..
    } = reader;
    Ok(Sheet {
        targets,
        acts,
        lines,
    })
}
