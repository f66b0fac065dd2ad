// A line of a file, byte by byte. Nothing is decided before its end: the numbers and the name are kept as they come.
ghost use Rattle.std.specs.Prelude.{◌≡◌, ◌+◌, ◌*◌, ◌<◌, MatchOption, take, slice_index};
ghost use Rattle.unicode_io.specs.Names.{number_found, name_number};
ghost use Rattle.unicode_io.specs.Grammar.{hex_value};
ghost use Rattle.unicode_io.specs.Line.{kind_of, kind_number, stages, stage_number, next_stage, with_digit, is_scalar, empty, at_stage, in_comment, with_low, with_high, with_name, in_name, with_byte, ranged, entry_of, entry_in};

use super::names::name_number;

// A hexadecimal number of so many digits.
#[derive(Clone, Copy)]
pub struct Number {
    pub value: usize,
    pub digits: usize,
}

// Where in a line the next byte stands: in a number or a word, or after it and its spaces.
#[derive(Clone, Copy, PartialEq, Eq, Debug)]
pub enum Stage {
    Start,
    Low,
    AfterLow,
    Dot,
    BeforeHigh,
    High,
    AfterHigh,
    BeforeWord,
    Word,
    AfterWord,
    OtherForm,
}

// What the stages tell apart in a byte.
#[derive(Clone, Copy, PartialEq, Eq, Debug)]
pub enum Kind {
    Space,
    Digit,
    Dot,
    Semicolon,
    Other,
}

#[derive(Clone, Copy)]
pub struct Line {
    // The number of a Stage. Above 10 it is none: a byte leads from there to Start, and a line that ends there is of another form.
    pub stage: u8,
    pub comment: bool,
    pub low: Number,
    pub high: Number,
    pub name: [u8; 32],
    pub count: usize,
}

// What a line is, at its end.
#[derive(Clone, Copy, PartialEq, Eq, Debug)]
pub enum Content {
    Nothing,
    Entry {
        low: usize,
        high: usize,
        name: usize,
    },
    OtherForm,
}

impl Kind {
    fn of(b: u8) -> Kind
        ensures { kind_number result ≡ kind_of b }
    {
        match b {
            b' ' => Kind::Space,
            b'0'..=b'9' | b'A'..=b'F' => Kind::Digit,
            b'.' => Kind::Dot,
            b';' => Kind::Semicolon,
            _ => Kind::Other,
        }
    }
}

fn hex_value(b: u8) -> usize
    ensures { result ≡ hex_value b }
{
    if b <= b'9' {
        return (b % 16) as usize;
    }
    (b % 16) as usize + 9
}

impl Stage {
    fn of(number: u8) -> Option<Stage>
        ensures { MatchOption result (10 < number) (λ stage. stage_number stage ≡ number) }
    {
        match number {
            0 => Some(Stage::Start),
            1 => Some(Stage::Low),
            2 => Some(Stage::AfterLow),
            3 => Some(Stage::Dot),
            4 => Some(Stage::BeforeHigh),
            5 => Some(Stage::High),
            6 => Some(Stage::AfterHigh),
            7 => Some(Stage::BeforeWord),
            8 => Some(Stage::Word),
            9 => Some(Stage::AfterWord),
            10 => Some(Stage::OtherForm),
            _ => None,
        }
    }

    fn after(self, kind: Kind) -> Stage
        ensures { stage_number result ≡ slice_index stages (stage_number self * 5 + kind_number kind) }
    {
        match (self, kind) {
            (Stage::Start, Kind::Space) => Stage::Start,
            (Stage::Start | Stage::Low, Kind::Digit) => Stage::Low,
            (Stage::Low | Stage::AfterLow, Kind::Space) => Stage::AfterLow,
            (Stage::Low | Stage::AfterLow, Kind::Dot) => Stage::Dot,
            (Stage::Dot, Kind::Dot) => Stage::BeforeHigh,
            (Stage::BeforeHigh, Kind::Space) => Stage::BeforeHigh,
            (Stage::BeforeHigh | Stage::High, Kind::Digit) => Stage::High,
            (Stage::High | Stage::AfterHigh, Kind::Space) => Stage::AfterHigh,
            (Stage::Start | Stage::Dot | Stage::BeforeHigh, Kind::Semicolon) => Stage::OtherForm,
            (Stage::OtherForm, _) => Stage::OtherForm,
            (_, Kind::Semicolon) => Stage::BeforeWord,
            (Stage::BeforeWord, Kind::Space) => Stage::BeforeWord,
            (Stage::Word | Stage::AfterWord, Kind::Space) => Stage::AfterWord,
            (Stage::BeforeWord | Stage::Word, _) => Stage::Word,
            _ => Stage::OtherForm,
        }
    }
}

impl Number {
    // Seven digits are too many, and no more are kept.
    fn with_digit(self, b: u8) -> Number
        ensures { result ≡ with_digit self b }
    {
        if self.digits < 7 && self.value <= 0xFFFFFF {
            return Number {
                value: self.value * 16 + hex_value(b),
                digits: self.digits + 1,
            };
        }
        self
    }

    fn is_scalar(self) -> bool
        ensures { result ≡ is_scalar self }
    {
        4 <= self.digits && (self.digits <= 6 && self.value <= 0x10FFFF)
    }
}

impl Line {
    // Nothing read yet.
    pub fn empty() -> Line
        ensures { result ≡ empty }
    {
        let none = Number {
            value: 0,
            digits: 0,
        };
        Line {
            stage: Stage::Start as u8,
            comment: false,
            low: none,
            high: none,
            name: [0; 32],
            count: 0,
        }
    }

    fn at_stage(self, stage: Stage) -> Line
        ensures { result ≡ at_stage self (stage_number stage) }
    {
        Line {
            stage: stage as u8,
            ..self
        }
    }

    fn in_comment(self) -> Line
        ensures { result ≡ in_comment self }
    {
        Line {
            comment: true,
            ..self
        }
    }

    fn with_low(self, b: u8) -> Line
        ensures { result ≡ with_low self b }
    {
        Line {
            stage: Stage::Low as u8,
            low: self.low.with_digit(b),
            ..self
        }
    }

    fn with_high(self, b: u8) -> Line
        ensures { result ≡ with_high self b }
    {
        Line {
            stage: Stage::High as u8,
            high: self.high.with_digit(b),
            ..self
        }
    }

    // One byte more of the name. No name has more than 32.
    fn with_name(self, stage: Stage, b: u8) -> Line
        ensures { result ≡ with_name self (stage_number stage) b }
    {
        let at = self.count;
        if at < 32 {
            let mut longer = self.at_stage(stage);
            longer.name[at] = b;
            longer.count = at + 1;
            return longer;
        }
        self.at_stage(Stage::OtherForm)
    }

    fn stage_after(self, b: u8) -> Stage
        ensures { stage_number result ≡ next_stage self.stage b }
    {
        match Stage::of(self.stage) {
            Some(stage) => stage.after(Kind::of(b)),
            None => Stage::Start,
        }
    }

    // A byte of the name: one of a word, or a `;` after the first.
    fn is_in_name(self, after: Stage, b: u8) -> bool
        ensures { result ≡ in_name self.stage (stage_number after) b }
    {
        match after {
            Stage::Word => true,
            Stage::BeforeWord => b == b';' && Stage::BeforeWord as u8 <= self.stage,
            _ => false,
        }
    }

    // One byte more, no newline.
    #[tactic(auto, unfolding(crate::specs::Line::with_byte))]
    pub fn with_byte(self, b: u8) -> Line
        ensures { result ≡ with_byte self b }
    {
        if self.comment {
            return self;
        }
        if b == b'#' {
            return self.in_comment();
        }
        let stage = self.stage_after(b);
        match stage {
            Stage::Low => self.with_low(b),
            Stage::High => self.with_high(b),
            _ if self.is_in_name(stage, b) => self.with_name(stage, b),
            _ => self.at_stage(stage),
        }
    }

    // The number of the name that was read.
    fn name_number(self, file: usize) -> Option<usize>
        ensures { result ≡ number_found (name_number file (take self.count self.name)) }
    {
        let n = self.count.min(32);
        name_number(file, &self.name[..n])
    }

    // What the line is, at its end.
    #[tactic(auto, unfolding(crate::specs::Line::entry_of))]
    pub fn content(self, file: usize) -> Content
        ensures { entry_in result ≡ entry_of file self }
    {
        match Stage::of(self.stage) {
            Some(Stage::Start) => Content::Nothing,
            Some(Stage::Word | Stage::AfterWord) => match self.name_number(file) {
                Some(name) => ranged(self.low, self.high, name),
                None => Content::OtherForm,
            },
            _ => Content::OtherForm,
        }
    }
}

#[tactic(auto, unfolding(crate::specs::Line::ranged))]
fn ranged(low: Number, high: Number, name: usize) -> Content
    ensures { entry_in result ≡ ranged low high name }
{
    if !low.is_scalar() {
        return Content::OtherForm;
    }
    if high.digits == 0 {
        return Content::Entry {
            low: low.value,
            high: low.value,
            name,
        };
    }
    if high.is_scalar() && low.value < high.value {
        return Content::Entry {
            low: low.value,
            high: high.value,
            name,
        };
    }
    Content::OtherForm
}
