// A table of a text: its draft, how its messages are released, and where they stand.
ghost use Rattle.std.specs.Prelude.{MatchResult};
ghost use Rattle.texts.specs.Tables.{LineAdded, checks_of, BusRead, TableOf, FirstFault};

use crate::fault::TableFault;
use crate::line::Line;
use crate::reader::{TableText, bus_draft, note, read};
use books::periodic::PeriodicMessage;
use books::window::WindowMessage;
use plan::draft::Draft;
use std::alloc::Global;

// The line that a message stands in.
#[derive(Clone, Copy)]
pub struct Origin {
    pub message: u16,
    pub line: u32,
}

// A table whose lines are all accepted: its draft, and how its messages are released.
#[derive(Drop)]
pub struct Table {
    pub draft: Draft,
    pub periodic: Vec<PeriodicMessage>,
    pub window: Vec<WindowMessage>,
    // no map: a line's definition appends its message here, so a map would have to keep the order besides
    pub origins: Vec<Origin>,
}

impl TableText for Table {
    ghost begins = { BusRead };

    ghost adds = { LineAdded };

    ghost checks = { checks_of };

    fn begun(heap: Global, bus: Line) -> Result<Table, TableFault> {
        Ok(Table {
            draft: bus_draft(heap, bus)?,
            periodic: Vec::new(heap),
            window: Vec::new(heap),
            origins: Vec::new(heap),
        })
    }

    fn add(&mut self, line: Line, number: u32) -> Result<(), TableFault> {
        note(&mut self.draft, line, number)?;
        if let Some(message) = line.message() {
            self.origins.push(Origin {
                message: message.number,
                line: number,
            })?;
        }
        if let Some(message) = line.periodic() {
            self.periodic.push(message)?;
        }
        if let Some(message) = line.window() {
            self.window.push(message)?;
        }
        Ok(())
    }
}

// The table of a text. Lines are taken from the top: the first that is refused is the fault.
pub fn read_table(heap: Global, text: &[u8]) -> Result<Table, TableFault>
    ensures { MatchResult result (TableOf text.now) (FirstFault text.now) }
{
    read(heap, text)
}
