// The sheet of a table text, as text.
ghost use Rattle.std.specs.Prelude.{◌≡◌, ◌==◌, IfOk, string_bytes, MatchResult};
ghost use Rattle.std.specs.List.{find};
ghost use Rattle.std.specs.Option.{option_copied};
ghost use Rattle.plan.specs.declared.plan.Plan.{Plan};
ghost use Rattle.texts.specs.declared.fault.TableFault.{TableFault};
ghost use Rattle.texts.specs.Runs.{TableBook, SheetOfRead, NoSheetOfRead, PrintedOfRead};
ghost use Rattle.texts.specs.Plans.{BookOf, NotJoined, PlanOf, NoPlan, SheetOf, NoSheetOf, Printed};
ghost use Rattle.texts.specs.Sheets.{text_of_row, text_of_sheet, text_of_fault, fault_at_message, fault_of_making};

use crate::fault::{LineFault, RunFault, TableFault};
use crate::reader::{TableText, read};
use crate::table::{Origin, Table};
use books::joint::JointBook;
use books::periodic::{PeriodicBook, PeriodicMessage};
use books::window::{WindowBook, WindowMessage};
use delay::entry::Row;
use fields::refusal::{MakingFault, Refusal};
use plan::plan::Plan;
use std::alloc::{AllocError, Global};

// The book of a table: its P lines are periodic, its W lines have windows.
pub type TableBook = JointBook<PeriodicBook, WindowBook>;

// The origin of a message, where the table has it.
fn origin_of(origins: &[Origin], message: u32) -> Option<&Origin>
    ensures { option_copied result ≡ find (λ o. o.message == message) origins.now }
{
    origins
        .iter()
        .find(|origin| u32::from(origin.message) == message)
}

// A refusal that concerns a message, at that message's line; at line 0, the format's number for no line, where the table has
// no such message.
fn at_message(origins: &[Origin], refusal: Refusal) -> TableFault
    ensures { result ≡ fault_at_message origins.now refusal }
{
    TableFault::Refused(LineFault {
        reason: refusal.reason,
        line: origin_of(origins, refusal.concerns).map_or(0, |origin| origin.line),
    })
}

// A plan's fault. A table of lines has one of its own: what differs is where a message's line is looked up, and the call is all
// that a method for that would leave here.
fn made_fault(origins: &[Origin], fault: MakingFault) -> TableFault
    ensures { result ≡ fault_of_making origins.now fault }
{
    match fault {
        MakingFault::Refused(refusal) => at_message(origins, refusal),
        MakingFault::Memory => TableFault::Memory,
    }
}

// The book of these messages.
pub fn book_of(
    heap: Global,
    periodic: &[PeriodicMessage],
    window: &[WindowMessage],
) -> Result<TableBook, MakingFault>
    ensures { MatchResult result (BookOf periodic.now window.now) (NotJoined periodic.now window.now) }
{
    let left = PeriodicBook::new(heap, periodic)?;
    let right = WindowBook::new(heap, window)?;
    JointBook::new(left, right).map_err(|refused| MakingFault::Refused(refused.refusal))
}

// A table that a sheet is made of.
pub trait SheetText: TableText {
    // its plan, and why it has none
    ghost planned: { Self → Plan TableBook → Type 0 };

    ghost unplanned: { Self → TableFault → Type 0 };

    // The plan of a table whose lines were accepted.
    fn into_plan(self, heap: Global) -> Result<Plan<TableBook>, TableFault>
        ensures { MatchResult result (planned self) (unplanned self) };
}

impl SheetText for Table {
    ghost planned = { PlanOf };

    ghost unplanned = { NoPlan };

    fn into_plan(self, heap: Global) -> Result<Plan<TableBook>, TableFault> {
        let Table {
            draft,
            periodic,
            window,
            origins,
        } = self;
        let book = book_of(heap, periodic.as_slice(), window.as_slice()).map_err(|fault| made_fault(
            origins.as_slice(),
            fault,
        ))?;
        draft
            .into_plan(heap, book)
            .map_err(|refused| made_fault(origins.as_slice(), refused.fault))
    }
}

// A line of the sheet.
fn row_text(heap: Global, row: &Row) -> Result<String, AllocError>
    ensures { IfOk result (λ s. string_bytes s ≡ text_of_row row.now) }
{
    let number = row.entry.number;
    let frame = row.entry.frame;
    let delay = row.delay;
    let response = row.response;
    format!(in heap; "{number} {frame} {delay} {response}\n")
}

// The text of a sheet: its mark, then a line for each row. A `for`: a chain would
// collect a text for each row first.
pub fn text_of(heap: Global, rows: &[Row]) -> Result<String, AllocError>
    ensures { IfOk result (λ s. string_bytes s ≡ text_of_sheet rows.now) }
{
    let mut text = String::from_str(heap, "FDS 0001\n")?;
    for row in rows {
        let line = row_text(heap, row)?;
        text.push_str(line.as_str())?;
    }
    Ok(text)
}

// The line that tells a fault.
pub fn fault_text(heap: Global, fault: LineFault) -> Result<String, AllocError>
    ensures { IfOk result (λ s. string_bytes s ≡ text_of_fault fault) }
{
    let number = u8::from(fault.reason);
    let line = fault.line;
    format!(in heap; "E {number} {line}\n")
}

// The sheet of a text that is read to such a table, or the fault that it has none for.
pub fn run_of<T: SheetText>(heap: Global, text: &[u8]) -> Result<String, RunFault>
    ensures { MatchResult result (λ s. SheetOfRead T.begins T.adds T.planned text.now (string_bytes s)) (NoSheetOfRead T.begins T.adds T.checks T.unplanned text.now) }
{
    let table: T = read(heap, text)?;
    let plan = table.into_plan(heap)?;
    Ok(text_of(heap, plan.sheet())?)
}

// What is printed of such a text: the sheet, or only the line that tells the fault.
pub fn sheet_of<T: SheetText>(heap: Global, text: &[u8]) -> Result<String, AllocError>
    ensures { IfOk result (λ s. PrintedOfRead T.begins T.adds T.checks T.planned T.unplanned text.now (string_bytes s)) }
{
    run_of::<T>(heap, text).or_else(|fault| match fault {
        RunFault::Table(TableFault::Memory) => Err(AllocError),
        RunFault::Table(TableFault::Refused(fault)) => fault_text(heap, fault),
    })
}

// The sheet of a table text, or the fault that it has none for.
pub fn run(heap: Global, text: &[u8]) -> Result<String, RunFault>
    ensures { MatchResult result (λ s. SheetOf text.now (string_bytes s)) (NoSheetOf text.now) }
{
    run_of::<Table>(heap, text)
}

// What the sheet program prints: the sheet, or only the line that tells the fault.
pub fn sheet(heap: Global, text: &[u8]) -> Result<String, AllocError>
    ensures { IfOk result (λ s. Printed text.now (string_bytes s)) }
{
    sheet_of::<Table>(heap, text)
}
