// Style orders: the parameters after `ESC [`, and what the known ones say (ECMA-48, SGR, as document 01 cuts it).
ghost use Rattle.std.specs.Prelude.{◌≡◌, ◌≤◌, drop, fold, length};
ghost use Rattle.std.specs.List.{prefix_len};
ghost use Rattle.std.specs.Iterator.{YieldsFirst, item_count};
ghost use Rattle.spans.specs.Sgr.{digit, parameters, orders, known, meaning_of, coloured, meaning_after};
ghost use Rattle.spans.specs.Sgr.Contracts.{more, eights, Scanned, stand, beginning, numbers_left, GivesNumber, orders_left, orders_of, next_of, next_order};

#[derive(Clone, Copy, PartialEq, Eq, Debug)]
pub enum Color {
    Default,
    Palette(u8),
    Rgb(u8, u8, u8),
}

// What a parameter, or a group of them, says.
#[derive(Clone, Copy, PartialEq, Eq, Debug)]
pub enum Sgr {
    Reset,
    Intensity(u8),
    Underline(u8),
    Blink(u8),
    VerticalAlign(u8),
    Italic(bool),
    Inverse(bool),
    Invisible(bool),
    StrikeThrough(bool),
    Overline(bool),
    Foreground(Color),
    Background(Color),
    UnderlineColor(Color),
}

// Which colour a group after 38, 48 or 58 sets.
#[derive(Clone, Copy, PartialEq, Eq, Debug)]
pub enum Target {
    Foreground,
    Background,
    Underline,
}

// Where a reading stands: between orders, or inside a group with what was read of it.
#[derive(Clone, Copy, PartialEq, Eq, Debug)]
pub enum ColorState {
    Ready,
    WantKind(Target),
    WantIndex(Target),
    WantRed(Target),
    WantGreen(Target, u8),
    WantBlue(Target, u8, u8),
}

// What a parameter says after those before it: an order, a part of a group, or nothing known.
#[derive(Clone, Copy, PartialEq, Eq, Debug)]
pub enum Meaning {
    Order(Sgr),
    Group(ColorState),
    Unknown,
}

// The length of a run of parameters, and whether there are at most 32, each at most 65,535.
#[derive(Clone, Copy, PartialEq, Eq, Debug)]
pub struct Scan {
    pub len: usize,
    pub fine: bool,
}

// The numbers of a run of parameters, one after the other: the bytes from the place on where the reading stands, and whether a
// parameter begins there. A number stays as it is once it has passed 65,535.
#[derive(Clone, Copy)]
struct Parameters<'a> {
    rest: &'a [u8],
    further: bool,
}

// The orders that the parameters from a place on give, up to the first unknown parameter.
#[derive(Clone, Copy)]
pub struct Orders<'a> {
    parameters: Parameters<'a>,
}

fn is_digit(b: u8) -> bool
    ensures { result ≡ digit b }
{
    matches!(b, b'0'..=b'9')
}

// The number v with one digit more; past 65,535 it stays as it is.
#[tactic(auto, unfolding(crate::specs::Sgr::Contracts::more))]
fn with_digit(v: usize, b: u8) -> usize
    ensures { result ≡ more v b }
{
    if v <= 65535 {
        return v * 10 + (b % 16) as usize;
    }
    v
}

// The number of the digits in front.
fn digits_len(s: &[u8]) -> usize
    ensures digits { result ≡ prefix_len digit s.now }
    ensures inside { result ≤ length s.now }
{
    s.iter().take_while(|b| is_digit(**b)).count()
}

// The number that digits write.
fn number(digits: &[u8]) -> usize
    ensures { result ≡ fold more 0 digits.now }
{
    digits.iter().fold(0, |v, b| with_digit(v, *b))
}

// The parameters that the bytes begin with.
pub(crate) fn scan_parameters(s: &[u8]) -> Scan
    ensures { Scanned s.now result }
{
    let mut i = 0;
    let mut count: usize = 0;
    let mut fine = true;
    let mut v: usize = 0;
    'params: loop {
        'digits: loop {
            if s.len() <= i {
                break 'params;
            }
            let b = s[i];
            if is_digit(b) {
                v = with_digit(v, b);
                i += 1;
            } else {
                break 'digits;
            }
        }
        if s[i] != b';' {
            break 'params;
        }
        fine = fine & (v <= 65535);
        count += 1;
        v = 0;
        i += 1;
    }
    Scan {
        len: i,
        fine: fine & (v <= 65535) & (count < 32),
    }
}

#[tactic(auto, unfolding(crate::specs::Sgr::coloured))]
fn coloured(t: Target, c: Color) -> Sgr
    ensures { result ≡ coloured t c }
{
    match t {
        Target::Foreground => Sgr::Foreground(c),
        Target::Background => Sgr::Background(c),
        Target::Underline => Sgr::UnderlineColor(c),
    }
}

// The sixteen colours of the palette.
#[tactic(auto, unfolding(crate::specs::Sgr::meaning_of, crate::specs::Sgr::Contracts::eights))]
fn palette_order(p: usize) -> Meaning
    ensures { result ≡ meaning_of eights p }
{
    match p {
        30..=37 => Meaning::Order(Sgr::Foreground(Color::Palette((p - 30) as u8))),
        40..=47 => Meaning::Order(Sgr::Background(Color::Palette((p - 40) as u8))),
        90..=97 => Meaning::Order(Sgr::Foreground(Color::Palette((p - 82) as u8))),
        100..=107 => Meaning::Order(Sgr::Background(Color::Palette((p - 92) as u8))),
        _ => Meaning::Unknown,
    }
}

// What a parameter says that is in no group.
#[tactic(auto, unfolding(crate::specs::Sgr::meaning_of, crate::specs::Sgr::known))]
fn meaning_of(p: usize) -> Meaning
    ensures { result ≡ meaning_of known p }
{
    match p {
        0 => Meaning::Order(Sgr::Reset),
        1 => Meaning::Order(Sgr::Intensity(1)),
        2 => Meaning::Order(Sgr::Intensity(2)),
        3 => Meaning::Order(Sgr::Italic(true)),
        4 => Meaning::Order(Sgr::Underline(1)),
        5 => Meaning::Order(Sgr::Blink(1)),
        6 => Meaning::Order(Sgr::Blink(2)),
        7 => Meaning::Order(Sgr::Inverse(true)),
        8 => Meaning::Order(Sgr::Invisible(true)),
        9 => Meaning::Order(Sgr::StrikeThrough(true)),
        21 => Meaning::Order(Sgr::Underline(2)),
        22 => Meaning::Order(Sgr::Intensity(0)),
        23 => Meaning::Order(Sgr::Italic(false)),
        24 => Meaning::Order(Sgr::Underline(0)),
        25 => Meaning::Order(Sgr::Blink(0)),
        27 => Meaning::Order(Sgr::Inverse(false)),
        28 => Meaning::Order(Sgr::Invisible(false)),
        29 => Meaning::Order(Sgr::StrikeThrough(false)),
        38 => Meaning::Group(ColorState::WantKind(Target::Foreground)),
        39 => Meaning::Order(Sgr::Foreground(Color::Default)),
        48 => Meaning::Group(ColorState::WantKind(Target::Background)),
        49 => Meaning::Order(Sgr::Background(Color::Default)),
        53 => Meaning::Order(Sgr::Overline(true)),
        55 => Meaning::Order(Sgr::Overline(false)),
        58 => Meaning::Group(ColorState::WantKind(Target::Underline)),
        59 => Meaning::Order(Sgr::UnderlineColor(Color::Default)),
        73 => Meaning::Order(Sgr::VerticalAlign(1)),
        74 => Meaning::Order(Sgr::VerticalAlign(2)),
        75 => Meaning::Order(Sgr::VerticalAlign(0)),
        _ => palette_order(p),
    }
}

// What a parameter says after those before it.
#[tactic(auto, unfolding(crate::specs::Sgr::meaning_after))]
fn meaning_after(w: ColorState, p: usize) -> Meaning
    ensures { result ≡ meaning_after w p }
{
    match (w, p) {
        (ColorState::Ready, _) => meaning_of(p),
        (ColorState::WantKind(t), 5) => Meaning::Group(ColorState::WantIndex(t)),
        (ColorState::WantKind(t), 2) => Meaning::Group(ColorState::WantRed(t)),
        (ColorState::WantIndex(t), 0..=255) => Meaning::Order(coloured(t, Color::Palette(p as u8))),
        (ColorState::WantRed(t), 0..=255) => Meaning::Group(ColorState::WantGreen(t, p as u8)),
        (ColorState::WantGreen(t, r), 0..=255) => Meaning::Group(ColorState::WantBlue(
            t, r, p as u8,
        )),
        (ColorState::WantBlue(t, r, g), 0..=255) => Meaning::Order(coloured(
            t,
            Color::Rgb(r, g, p as u8),
        )),
        _ => Meaning::Unknown,
    }
}

// The bytes from a place on; none where the bytes end before it.
pub(crate) fn bytes_from(s: &[u8], at: usize) -> &[u8]
    ensures { result.now ≡ drop at s.now }
{
    s.get(at..).unwrap_or(&[])
}

impl<'a> Iterator for Parameters<'a> {
    type Item = usize;

    ghost next_gives = { GivesNumber };

    ghost remaining = { item_count numbers_left };

    fn next(&mut self) -> Option<usize> {
        if !self.further {
            return None;
        }
        let (digits, after) = self.rest.split_at(digits_len(self.rest));
        let next = after.strip_prefix(b";");
        self.further = next.is_some();
        self.rest = next.unwrap_or(after);
        Some(number(digits))
    }
}

impl<'a> Orders<'a> {
    // The orders of the parameters at a place.
    pub fn at(s: &'a [u8], at: usize) -> Orders<'a>
        ensures orders { orders_left result ≡ orders (parameters 0 (drop at s.now)) }
        ensures place { stand result ≡ beginning (drop at s.now) }
    {
        Orders {
            parameters: Parameters {
                rest: bytes_from(s, at),
                further: true,
            },
        }
    }

    // The bytes from the place on where the reading stands.
    pub fn rest(self) -> &'a [u8]
        ensures { result.now ≡ (stand self.entry).rest }
    {
        self.parameters.rest
    }

    // Does a parameter begin there?
    pub fn has_parameter(self) -> bool
        ensures { result ≡ (stand self.entry).further }
    {
        self.parameters.further
    }

    // The next order, and where the reading stands after it. The reading is left at an order and at the first unknown parameter, and
    // ends after the last one.
    pub fn next_order(self) -> Option<(Sgr, Orders<'a>)>
        ensures orders { orders_of result ≡ orders_left self.entry }
        ensures exact { next_of result ≡ next_order (stand self.entry) }
    {
        let mut parameters = self.parameters;
        let mut wait = ColorState::Ready;
        while let Some(p) = parameters.next() {
            match meaning_after(wait, p) {
                Meaning::Order(o) => return Some((o, Orders { parameters })),
                Meaning::Group(w) => wait = w,
                Meaning::Unknown => return None,
            }
        }
        None
    }
}

impl<'a> Iterator for Orders<'a> {
    type Item = Sgr;

    ghost next_gives = { YieldsFirst orders_left };

    ghost remaining = { item_count orders_left };

    fn next(&mut self) -> Option<Sgr> {
        let (order, after) = self.next_order()?;
        *self = after;
        Some(order)
    }
}
