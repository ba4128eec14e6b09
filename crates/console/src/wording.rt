// Writing answers onto a page.
ghost use Rattle.std.specs.Prelude.{◌≡◌, ◌+◌, ◌≤◌, [], ◌∷◌, ◌++◌, length, decimal};
ghost use Rattle.terms.specs.Refusals.{number_of, told_of};
ghost use Rattle.undertaking.specs.Runs.{reply_of};
ghost use Rattle.draw.specs.Places.{justified};
ghost use Rattle.console.specs.Texts.{expected_text, form_text, next_text, order_text, refusal_text, reply_text, usage_text, words_at};

use crate::command::Verb;
use crate::page::{MOST_BYTES, Page};
use crate::usage::Usage;
use draw::justified;
use gate::{Next, Order};
use terms::{Refusal, Reserve, Rule};
use undertaking::Answer;

impl Page {
    // A page with nothing on it.
    pub(crate) fn new(room: Reserve<u8, MOST_BYTES>) -> Page
        ensures { result ≡ [] }
    {
        Page {
            text: room.into_vec(),
        }
    }

    // What is written.
    pub(crate) fn into_vec(self) -> Vec<u8>
        ensures { result.items ≡ self }
    {
        let Page { text } = self;
        text
    }

    // Adds bytes.
    pub(crate) fn put(&mut self, bytes: &[u8])
        requires { length self.old + length bytes.now ≤ 24579000 }
        ensures { self.new ≡ self.old ++ bytes.now }
    {
        self.text.extend_from_slice(bytes).unwrap();
    }

    // Adds a number in decimal.
    fn put_number(&mut self, n: u32)
        requires { length self.old + 10 ≤ 24579000 }
        ensures value { self.new ≡ self.old ++ decimal n }
        ensures bound { length self.new ≤ length self.old + 10 }
    {
        let mut buffer = itoa::Buffer::new();
        self.put(buffer.format(n).as_bytes());
    }

    // Adds some bytes and a number.
    pub(crate) fn put_named(&mut self, name: &[u8], n: u32)
        requires { length self.old + length name.now + 10 ≤ 24579000 }
        ensures value { self.new ≡ self.old ++ (name.now ++ decimal n) }
        ensures bound { length self.new ≤ length self.old + length name.now + 10 }
    {
        self.put(name);
        self.put_number(n);
    }

    // Adds a line's number, six wide, and two spaces.
    pub(crate) fn put_label(&mut self, line: usize)
        requires { length self.old + 8 ≤ 24579000 }
        ensures value { self.new ≡ self.old ++ (justified 6 line ++ (32 ∷ (32 ∷ []))) }
        ensures bound { length self.new ≡ length self.old + 8 }
    {
        // By `as`: there is no `From` between a usize and a u64.
        self.put(&justified::<6>(line as u64));
        self.put(b"  ");
    }

    // Adds a refusal.
    pub(crate) fn put_refusal(&mut self, refusal: Refusal)
        requires { length self.old + 200 ≤ 24579000 }
        ensures value { self.new ≡ self.old ++ refusal_text (told_of refusal) }
        ensures bound { length self.new ≤ length self.old + 200 }
    {
        let Refusal { rule, line, detail } = refusal;
        self.put_named(b"refused ", rule.number().into());
        self.put_named(b", line ", line.into());
        self.put_named(b", detail ", detail.into());
        self.put(b": ");
        self.put(words_of(rule));
    }

    // Adds what a robot does next.
    fn put_next(&mut self, next: Next)
        requires { length self.old + 20 ≤ 24579000 }
        ensures value { self.new ≡ self.old ++ next_text next }
        ensures bound { length self.new ≤ length self.old + 20 }
    {
        match next {
            Next::Leaves => self.put(b" leaves"),
            Next::Moves { to } => self.put_named(b" moves to ", to.into()),
        }
    }

    // Adds an order of recall.
    fn put_order(&mut self, order: Order)
        requires { length self.old + 60 ≤ 24579000 }
        ensures value { self.new ≡ self.old ++ order_text order }
        ensures bound { length self.new ≤ length self.old + 60 }
    {
        self.put_named(b"robot at ", order.column.into());
        self.put_next(order.next);
        self.put_named(b", ", order.left);
        self.put(b" left");
    }

    // Adds the answer to a request.
    pub(crate) fn put_answer(&mut self, answer: Answer)
        requires { length self.old + 200 ≤ 24579000 }
        ensures value { self.new ≡ self.old ++ reply_text (reply_of answer) }
        ensures bound { length self.new ≤ length self.old + 200 }
    {
        match answer {
            Ok(None) => self.put(b"granted"),
            Ok(Some(order)) => self.put_order(order),
            Err(refusal) => self.put_refusal(refusal),
        }
    }

    // Adds what is expected.
    pub(crate) fn put_expected(&mut self, usage: Usage)
        requires { length self.old + 200 ≤ 24579000 }
        ensures value { self.new ≡ self.old ++ expected_text usage }
        ensures bound { length self.new ≤ length self.old + 200 }
    {
        self.put(b"expected ");
        self.put(wording(usage));
    }
}

// A rule in words.
fn words_of(rule: Rule) -> &'static [u8]
    ensures value { result.now ≡ words_at (number_of rule) }
    ensures bound { length result.now ≤ 90 }
{
    match rule {
        Rule::SquareSize => b"a side is out of range",
        Rule::BorderList => b"the columns or the border list are out of range",
        Rule::LinkOrder => b"a link is out of order or off the ground",
        Rule::SeventhLink => b"a column has a seventh link",
        Rule::SettingsRange => b"levels, robots or duration set out of range",
        Rule::SheetShape => b"no whole lines, or too many",
        Rule::LineShape => b"no line of a sheet",
        Rule::FieldUnreadable => b"a field cannot be read",
        Rule::GoalMisplaced => b"a goal out of order or out of range",
        Rule::EndMisplaced => b"no end line, not the last, or a wrong count",
        Rule::MarksMixed => b"outside, letter and block do not go together",
        Rule::OffScale => b"a column or a height is off the site",
        Rule::NotConnected => b"no link, or no border, or a border",
        Rule::WrongDuration => b"the end is not start and duration",
        Rule::StartFalls => b"the start is below that of the action before",
        Rule::LeftStanding => b"a robot above is not carried on",
        Rule::WrongHeightsWritten => b"a height is not the one written, or does not fit",
        Rule::SpansCollide => b"a column is shared at one time",
        Rule::FromNowhere => b"the robot comes from nowhere",
        Rule::TooManySpans => b"too many robots at once",
        Rule::LeftBehind => b"a robot is left on the site",
        Rule::TargetMissed => b"a height is not the target",
        Rule::NoColumn => b"no such column",
        Rule::NoStandingRobot => b"no robot stands there",
        Rule::WrongLoad => b"a lay without a block, or a lift with one",
        Rule::NoLink =>
            b"no link, or a border where there must be none, or none where there must be one",
        Rule::ColumnHeld => b"the column is held",
        Rule::WrongHeights => b"the heights do not fit",
        Rule::SiteFull => b"as many robots as there may be",
        Rule::NoWayHome => b"a robot would have no way home",
        Rule::ActionRuns => b"an action runs",
        Rule::NoRobot => b"no robot",
        Rule::NotFresh => b"the site is not fresh",
        Rule::BufferShort => b"the buffer is too short",
    }
}

// How a line that begins with a word is written.
fn form(verb: Verb) -> &'static [u8]
    ensures value { result.now ≡ form_text verb }
    ensures bound { length result.now ≤ 120 }
{
    match verb {
        Verb::Enter => b"enter COLUMN or enter COLUMN block",
        Verb::Move => b"move FROM TO",
        Verb::Lay => b"lay FROM TO",
        Verb::Lift => b"lift FROM TO",
        Verb::Leave => b"leave COLUMN",
        Verb::Tick => b"tick or tick TIMES, 1 to 999999",
        Verb::Recall => b"recall",
        Verb::Clear => b"clear",
        Verb::Look => b"look",
        Verb::Play => b"play",
    }
}

// What is expected, in words.
fn wording(usage: Usage) -> &'static [u8]
    ensures value { result.now ≡ usage_text usage }
    ensures bound { length result.now ≤ 120 }
{
    match usage {
        Usage::Open =>
            b"open square X Y LEVELS ROBOTS SET or open listed COLUMNS LEVELS ROBOTS SET BORDER LINK ..",
        Usage::Other => b"enter, move, lay, lift, leave, tick, recall, clear, look or play",
        Usage::Form(verb) => form(verb),
        Usage::FewerSheets => b"at most 16 sheets in a script",
    }
}
