// A table text, line by line.
ghost use Rattle.std.specs.Prelude.{MatchResult};
ghost use Rattle.by_lines.specs.Tables.{TableOf};
ghost use Rattle.by_lines.specs.Held.{lines_of, DraftOf, TableFaultOf, Begins, Adds, checks_of};

use plan::draft::Draft;
use std::alloc::Global;
use texts::fault::TableFault;
use texts::line::Line;
use texts::reader::{TableText, bus_draft, note, read};

// A table whose lines are all accepted: the lines, and the draft of what they say.
#[derive(Drop)]
pub struct Table {
    pub draft: Draft,
    pub lines: Vec<Line>,
}

impl TableText for Table {
    ghost begins = { Begins };

    ghost adds = { Adds };

    ghost checks = { checks_of };

    fn begun(heap: Global, bus: Line) -> Result<Table, TableFault> {
        Ok(Table {
            draft: bus_draft(heap, bus)?,
            lines: Vec::from_slice(heap, &[bus])?,
        })
    }

    fn add(&mut self, line: Line, number: u32) -> Result<(), TableFault> {
        note(&mut self.draft, line, number)?;
        self.lines.push(line)?;
        Ok(())
    }
}

// The table of a text. Lines are taken from the top: the first that is refused is the fault.
pub fn read_table(heap: Global, text: &[u8]) -> Result<Table, TableFault>
    ensures { MatchResult result (λ t. TableOf text.now (lines_of t) × DraftOf (lines_of t) t.draft) (TableFaultOf text.now) }
{
    read(heap, text)
}
