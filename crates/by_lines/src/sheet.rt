// The sheet of a table text, as text.
ghost use Rattle.std.specs.Prelude.{◌≡◌, ◌≤◌, length, IfOk, string_bytes, MatchResult};
ghost use Rattle.std.specs.List.{position};
ghost use Rattle.std.specs.Option.{unwrap_or};
ghost use Rattle.by_lines.specs.Plans.{periodic_of, window_of, SheetPrinted, RunRefused, Printed, Planned, Unplanned};
ghost use Rattle.by_lines.specs.Sheets.{gives, line_of, fault_of_making};
ghost use Rattle.by_lines.specs.Tables.{longest_text};

use crate::table::Table;
use books::periodic::PeriodicMessage;
use books::window::WindowMessage;
use fields::refusal::MakingFault;
use plan::plan::Plan;
use std::alloc::{AllocError, Global};
use texts::fault::{LineFault, RunFault, TableFault};
use texts::line::Line;
use texts::sheet::{SheetText, TableBook, book_of, run_of, sheet_of};

// Whether the line gives the message of that number.
fn gives_message(line: &Line, number: u32) -> bool
    ensures { result ≡ gives number line.now }
{
    line.message()
        .is_some_and(|message| u32::from(message.number) == number)
}

// The place of the line that gives a message.
fn place_of(lines: &[Line], message: u32) -> Option<usize>
    ensures { result ≡ position (gives message) lines.now }
{
    lines.iter().position(|line| gives_message(line, message))
}

// The number of the line that gives a message. The mark is line 1.
fn line_of_message(lines: &[Line], message: u32) -> Option<u32>
    ensures { length lines.now ≤ longest_text → unwrap_or result 0 ≡ line_of lines.now message }
{
    let place = place_of(lines, message)?;
    u32::try_from(place.saturating_add(2)).ok()
}

// A plan's fault, at the line of the message that it concerns; at line 0, the format's number for no line, where no line gives it.
fn made_fault(lines: &[Line], fault: MakingFault) -> TableFault
    ensures { length lines.now ≤ longest_text → result ≡ fault_of_making lines.now fault }
{
    match fault {
        MakingFault::Refused(refusal) => TableFault::Refused(LineFault {
            reason: refusal.reason,
            line: line_of_message(lines, refusal.concerns).unwrap_or(0),
        }),
        MakingFault::Memory => TableFault::Memory,
    }
}

// The messages of the P lines. Those of the W lines have a type of their own: one function for both would take the method as a
// closure, and be longer than the chain.
fn periodic_messages(heap: Global, lines: &[Line]) -> Result<Vec<PeriodicMessage>, AllocError>
    ensures { IfOk result (λ v. v.items ≡ periodic_of lines.now) }
{
    lines.iter().flat_map(Line::periodic).collect(heap)
}

fn window_messages(heap: Global, lines: &[Line]) -> Result<Vec<WindowMessage>, AllocError>
    ensures { IfOk result (λ v. v.items ≡ window_of lines.now) }
{
    lines.iter().flat_map(Line::window).collect(heap)
}

// The same steps as for a table with origins, over other fields: what both share is the making of the book and of the plan.
impl SheetText for Table {
    ghost planned = { Planned };

    ghost unplanned = { Unplanned };

    // The book is never refused: each message is in range, and has a number of its own.
    fn into_plan(self, heap: Global) -> Result<Plan<TableBook>, TableFault> {
        let Table { draft, lines } = self;
        let periodic = periodic_messages(heap, lines.as_slice())?;
        let window = window_messages(heap, lines.as_slice())?;
        let book = book_of(heap, periodic.as_slice(), window.as_slice()).map_err(|fault| made_fault(
            lines.as_slice(),
            fault,
        ))?;
        draft
            .into_plan(heap, book)
            .map_err(|refused| made_fault(lines.as_slice(), refused.fault))
    }
}

// The sheet of a table text, or the fault that it has none for.
pub fn run(heap: Global, text: &[u8]) -> Result<String, RunFault>
    ensures { MatchResult result (λ s. SheetPrinted text.now (string_bytes s)) (RunRefused text.now) }
{
    run_of::<Table>(heap, text)
}

// What the sheet program prints: the sheet, or only the line that tells the fault.
pub fn sheet(heap: Global, text: &[u8]) -> Result<String, AllocError>
    ensures { IfOk result (λ s. Printed text.now (string_bytes s)) }
{
    sheet_of::<Table>(heap, text)
}
