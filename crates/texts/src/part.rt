// The faulty line, as a part of the text that holds it.
ghost use Rattle.std.specs.Prelude.{◌≡◌, MatchOption};
ghost use Rattle.texts.specs.Parts.{PartOf, FaultyPart, fault_memory};

use crate::cut::first_line;
use crate::fault::{RunFault, TableFault};

// A line of a text without its line feed, with its number and the place of its first byte.
#[derive(Clone, Copy)]
pub struct Part<'a> {
    pub bytes: &'a [u8],
    pub line: u32,
    pub start: usize,
}

// The line of that number. Line 0 is the empty part at the start, a line past the end the empty one at the end.
pub fn part_of(text: &[u8], line: u32) -> Part<'_>
    ensures part { PartOf text.now line result.start result.bytes.now }
    ensures number { result.line ≡ line }
{
    if line == 0 {
        return Part {
            bytes: &text[0..0],
            line,
            start: 0,
        };
    }
    let mut rest = text;
    for number in 1..line {
        rest = first_line(rest).map_or(&[], |cut| cut.rest);
    }
    Part {
        bytes: first_line(rest).map_or(rest, |cut| cut.line),
        line,
        start: text.len() - rest.len(),
    }
}

impl RunFault {
    // The faulty line, as a part of the table text; none where only memory was wanting.
    pub fn part<'a>(&self, table: &'a [u8]) -> Option<Part<'a>>
        ensures { MatchOption result (self.now ≡ fault_memory) (λ p. FaultyPart table.now self.now p.line p.start p.bytes.now) }
    {
        match self {
            RunFault::Table(TableFault::Refused(fault)) => Some(part_of(table, fault.line)),
            RunFault::Table(TableFault::Memory) => None,
        }
    }
}
