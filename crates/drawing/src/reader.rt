// Readers of a drawing: the crew is named no URI.
ghost use Rattle.std.specs.Prelude.{◌≡◌};
ghost use Rattle.drawing.specs.Reader.HiddenUris.{uri_length};
ghost use Rattle.drawing.specs.Rendering.{Numbered, is_crew};

use text::Refusal;

#[derive(Clone, Copy, PartialEq, Eq, Debug)]
pub enum Reader {
    Bench = 0,
    Crew = 1,
}

impl TryFrom<usize> for Reader {
    type Error = Refusal;

    ghost try_from_gives = { Numbered };

    // Question 18.
    fn try_from(number: usize) -> Result<Self, Refusal> {
        match number {
            0 => Ok(Reader::Bench),
            1 => Ok(Reader::Crew),
            _ => Err(Refusal::NoSuchReader),
        }
    }
}

impl Reader {
    // The length of a URI as the reader is told it: to the crew there is none.
    pub(crate) fn uri_length(self, len: usize) -> usize
        ensures { result ≡ uri_length (is_crew self) len }
    {
        match self {
            Reader::Bench => len,
            Reader::Crew => 0,
        }
    }
}

// Who reads a drawing, and the current match.
#[derive(Clone, Copy)]
pub struct View {
    pub reader: Reader,
    pub current: Option<usize>,
}
