// The kinds of spans, in the order of the source's Span and under its names.
ghost use Rattle.spans.specs.Spans.Kinds.{Names, number_of_kind};

#[derive(Clone, Copy, PartialEq, Eq, Debug)]
pub enum SpanKind {
    Text = 1,
    Match = 2,
    Control = 3,
    Invalid = 4,
    Unprintable = 5,
    SgrSequence = 6,
    Hyperlink = 7,
    LineDrawing = 8,
    Ignore = 9,
    Tab = 10,
    CrLf = 11,
    Lf = 12,
    EraseToEndOfLine = 13,
}

// A number that stands for no kind.
#[derive(Clone, Copy, PartialEq, Eq, Debug)]
pub struct UnknownKind(pub usize);

impl TryFrom<usize> for SpanKind {
    type Error = UnknownKind;

    ghost try_from_gives = { Names };

    fn try_from(number: usize) -> Result<SpanKind, UnknownKind> {
        match number {
            1 => Ok(SpanKind::Text),
            2 => Ok(SpanKind::Match),
            3 => Ok(SpanKind::Control),
            4 => Ok(SpanKind::Invalid),
            5 => Ok(SpanKind::Unprintable),
            6 => Ok(SpanKind::SgrSequence),
            7 => Ok(SpanKind::Hyperlink),
            8 => Ok(SpanKind::LineDrawing),
            9 => Ok(SpanKind::Ignore),
            10 => Ok(SpanKind::Tab),
            11 => Ok(SpanKind::CrLf),
            12 => Ok(SpanKind::Lf),
            13 => Ok(SpanKind::EraseToEndOfLine),
            _ => Err(UnknownKind(number)),
        }
    }
}
