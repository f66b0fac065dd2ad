// A file, part by part: its lines go to the cells.
ghost use Rattle.std.specs.Prelude.{◌≡◌, ◌≤◌, false};
ghost use Rattle.unicode_io.specs.Cells.{Filled};
ghost use Rattle.unicode_io.specs.Generator.{refusal_of};
ghost use Rattle.unicode_io.specs.Grammar.{entry};
ghost use Rattle.unicode_io.specs.Line.{empty, entry_in};
ghost use Rattle.unicode_io.specs.Reading.{state_of, reading, fill_entry, taken_by_entry, with_entry, line_ended, byte_read, bytes_read, file_ended, number_of, refusal_number};

use super::cells::{bit_of, fill_range, next_file};
use super::line::{Content, Line};
use super::names::{property, value};

// What the files are refused for.
#[derive(Clone, Copy, PartialEq, Eq, Debug)]
pub enum Refusal {
    // A line of another form.
    OtherForm = 13,
    // Two entries of one property that overlap.
    Overlap = 14,
}

impl Refusal {
    pub fn number(self) -> usize
        ensures { result ≡ number_of self }
    {
        self as usize
    }
}

// The line so far, and what was found that is refused.
#[derive(Clone, Copy)]
pub struct Reading {
    pub line: Line,
    pub malformed: bool,
    pub overlap: bool,
}

#[tactic(auto, using(crate::specs::Reading::Laws::weight_fits, crate::specs::Reading::Laws::bit_above, crate::specs::Reading::Laws::property_small))]
fn fill_entry(cells: &mut [u32], file: usize, low: usize, high: usize, name: usize) -> bool
    requires { name ≤ 22 }
    ensures { Filled (fill_entry file (entry low high name) cells.old) (taken_by_entry file (entry low high name) cells.old) cells.new result }
{
    let bit = bit_of(property(file, name));
    let weight = bit + value(file, name);
    fill_range(cells, low, high, bit, weight)
}

impl Reading {
    pub fn begin() -> Reading
        ensures { result ≡ reading empty false false }
    {
        Reading {
            line: Line::empty(),
            malformed: false,
            overlap: false,
        }
    }

    #[tactic(auto, unfolding(crate::specs::Reading::with_entry))]
    fn with_entry(self, cells: &mut [u32], file: usize, content: Content) -> Reading
        requires { (entry_in content).name ≤ 22 }
        ensures { state_of result cells.new ≡ with_entry file (entry_in content) (state_of self cells.old) }
    {
        let line = Line::empty();
        match content {
            Content::Nothing => Reading { line, ..self },
            Content::OtherForm => Reading {
                line,
                malformed: true,
                ..self
            },
            Content::Entry { .. } if self.overlap => Reading { line, ..self },
            Content::Entry { low, high, name } => Reading {
                line,
                overlap: fill_entry(cells, file, low, high, name),
                ..self
            },
        }
    }

    #[tactic(auto, using(crate::specs::Reading::Laws::entry_few))]
    fn end_line(self, cells: &mut [u32], file: usize) -> Reading
        ensures { state_of result cells.new ≡ line_ended file (state_of self cells.old) }
    {
        self.with_entry(cells, file, self.line.content(file))
    }

    #[tactic(auto, unfolding(crate::specs::Reading::byte_read))]
    fn read_byte(self, cells: &mut [u32], file: usize, b: u8) -> Reading
        ensures { state_of result cells.new ≡ byte_read file (state_of self cells.old) b }
    {
        if b == b'\n' {
            return self.end_line(cells, file);
        }
        Reading {
            line: self.line.with_byte(b),
            ..self
        }
    }

    // Bytes more of a file.
    pub fn read_part(self, cells: &mut [u32], file: usize, part: &[u8]) -> Reading
        ensures { state_of result cells.new ≡ bytes_read file (state_of self cells.old) part.now }
    {
        let mut reading = self;
        for b in part {
            reading = reading.read_byte(cells, file, *b);
        }
        reading
    }

    // The end of a file.
    pub fn end_file(self, cells: &mut [u32], file: usize) -> Reading
        ensures { state_of result cells.new ≡ file_ended file (state_of self cells.old) }
    {
        let ended = self.end_line(cells, file);
        next_file(cells);
        ended
    }

    // After the last file: may a table be made?
    pub fn refusal(self) -> Result<(), Refusal>
        ensures { refusal_number result ≡ refusal_of self.malformed self.overlap }
    {
        if self.malformed {
            return Err(Refusal::OtherForm);
        }
        if self.overlap {
            return Err(Refusal::Overlap);
        }
        Ok(())
    }
}
