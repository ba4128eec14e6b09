// Refusals: the rule that refuses, the layer that checks it, and where.
ghost use Rattle.std.specs.Prelude.{◌≡◌};
ghost use Rattle.terms.specs.Refusals.{number_of, layer_of, told, told_of};

// The layer that checks a rule.
#[derive(Clone, Copy, PartialEq, Eq, Debug)]
pub enum Layer {
    Making,
    Sheet,
    Line,
    Judge,
    SheetEnd,
    Gate,
    Recall,
    Play,
    Drawing,
}

// Why something is refused, numbered from 1. docs/RULES.md has each rule in words, with its number.
#[derive(Clone, Copy, PartialEq, Eq, Debug)]
pub enum Rule {
    SquareSize = 1,
    BorderList,
    LinkOrder,
    SeventhLink,
    SettingsRange,
    SheetShape,
    LineShape,
    FieldUnreadable,
    GoalMisplaced,
    EndMisplaced,
    MarksMixed,
    OffScale,
    NotConnected,
    WrongDuration,
    StartFalls,
    LeftStanding,
    WrongHeightsWritten,
    SpansCollide,
    FromNowhere,
    TooManySpans,
    LeftBehind,
    TargetMissed,
    NoColumn,
    NoStandingRobot,
    WrongLoad,
    NoLink,
    ColumnHeld,
    WrongHeights,
    SiteFull,
    NoWayHome,
    ActionRuns,
    NoRobot,
    NotFresh,
    BufferShort,
}

impl Rule {
    // The number that a refusal by this rule is reported under.
    pub fn number(self) -> u16
        ensures { result ≡ number_of self }
    {
        self as u16
    }

    // The layer that checks this rule.
    pub fn layer(self) -> Layer
        ensures { result ≡ layer_of self }
    {
        match self {
            Rule::SquareSize | Rule::BorderList | Rule::LinkOrder => Layer::Making,
            Rule::SeventhLink | Rule::SettingsRange => Layer::Making,
            Rule::SheetShape | Rule::LineShape | Rule::FieldUnreadable => Layer::Sheet,
            Rule::GoalMisplaced | Rule::EndMisplaced => Layer::Sheet,
            Rule::MarksMixed | Rule::OffScale => Layer::Line,
            Rule::NotConnected | Rule::WrongDuration => Layer::Line,
            Rule::StartFalls | Rule::LeftStanding | Rule::WrongHeightsWritten => Layer::Judge,
            Rule::SpansCollide | Rule::FromNowhere | Rule::TooManySpans => Layer::Judge,
            Rule::LeftBehind | Rule::TargetMissed => Layer::SheetEnd,
            Rule::NoColumn | Rule::NoStandingRobot | Rule::WrongLoad | Rule::NoLink => Layer::Gate,
            Rule::ColumnHeld | Rule::WrongHeights | Rule::SiteFull | Rule::NoWayHome => Layer::Gate,
            Rule::ActionRuns | Rule::NoRobot => Layer::Recall,
            Rule::NotFresh => Layer::Play,
            Rule::BufferShort => Layer::Drawing,
        }
    }
}

// A refusal: its rule, the line of the sheet (0 where there is none) and a detail (0 unless the rule names one).
#[derive(Clone, Copy, PartialEq, Eq, Debug)]
pub struct Refusal {
    pub rule: Rule,
    pub line: u16,
    pub detail: u16,
}

impl Refusal {
    // A refusal that has to do with no line and names no detail.
    pub fn plain(rule: Rule) -> Refusal
        ensures { told_of result ≡ told rule 0 0 }
    {
        Refusal {
            rule,
            line: 0,
            detail: 0,
        }
    }

    // A refusal of a line of a sheet.
    pub fn at(rule: Rule, line: u16, detail: u16) -> Refusal
        ensures { told_of result ≡ told rule line detail }
    {
        Refusal { rule, line, detail }
    }
}

impl From<Rule> for Refusal {
    ghost from_gives = { λ rule refusal. told_of refusal ≡ told rule 0 0 };

    fn from(rule: Rule) -> Refusal {
        Refusal::plain(rule)
    }
}
