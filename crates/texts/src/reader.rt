// Reading a table text line by line, whatever is kept of its lines.
ghost use Rattle.std.specs.Prelude.{◌≡◌, ℕ, List, None, MatchResult};
ghost use Rattle.fields.specs.Refusals.{Check, first_reason};
ghost use Rattle.plan.specs.declared.draft.Draft.{Draft};
ghost use Rattle.texts.specs.declared.line.Line.{Line};
ghost use Rattle.texts.specs.Readers.{Marked, Unmarked, RefusedAt, bus_line_checks, BusDrafted, noting_checks, Noted, TableOf, FirstFault};

use crate::cut::first_line;
use crate::fault::{LineFault, TableFault};
use crate::line::{Line, Phase, line_of};
use fields::refusal::{MakingFault, Reason};
use plan::draft::Draft;
use std::alloc::Global;

// The longest text, in bytes.
const LONGEST: usize = 16_384;

// What a reader keeps of the lines of a table.
pub trait TableText: Drop {
    // a table of the bus line, a table with one line more, and what that line is checked for
    ghost begins: { Line → Self → Type 0 };

    ghost adds: { Self → Self → Line → ℕ → Type 0 };

    ghost checks: { Self → Line → List Check };

    // A table of a bus line, with nothing else yet.
    fn begun(heap: Global, bus: Line) -> Result<Self, TableFault>
        ensures { MatchResult result (begins bus) (RefusedAt (bus_line_checks bus) 2) };

    // One line more, of the phases after the bus.
    fn add(&mut self, line: Line, number: u32) -> Result<(), TableFault>
        ensures { MatchResult result (λ _. adds self.old self.new line number) (RefusedAt (checks self.old line) number) };
}

// A fault of the line of that number.
pub fn at_line(reason: Reason, line: u32) -> TableFault
    ensures { result ≡ TableFault.Refused (record { reason = reason; line = line }) }
{
    TableFault::Refused(LineFault { reason, line })
}

// The draft of a bus line.
pub fn bus_draft(heap: Global, bus: Line) -> Result<Draft, TableFault>
    ensures { MatchResult result (λ d. (first_reason (bus_line_checks bus) ≡ None) × BusDrafted bus d) (RefusedAt (bus_line_checks bus) 2) }
{
    let Line::Bus(cycle, offset, minislot, minislots) = bus else {
        return Err(at_line(Reason::Malformed, 2));
    };
    Draft::new(heap, cycle, offset, minislot, minislots).map_err(|fault| match fault {
        MakingFault::Refused(refusal) => at_line(refusal.reason, 2),
        MakingFault::Memory => TableFault::Memory,
    })
}

// What a line after the bus line says, noted in a draft.
pub fn note(draft: &mut Draft, line: Line, number: u32) -> Result<(), TableFault>
    ensures { MatchResult result (λ _. (first_reason (noting_checks draft.old line) ≡ None) × Noted draft.old draft.new line) (RefusedAt (noting_checks draft.old line) number) }
{
    let noted = match line {
        Line::Bus(_, _, _, _) => return Err(at_line(Reason::Malformed, number)),
        Line::Node(node, latest) => draft.node(node, latest),
        Line::Periodic(message, _, _) | Line::Window(message, _, _) => draft.message(message),
    };
    noted.map_err(|refusal| at_line(refusal.reason, number))
}

// The text after its first line, where that is the right one.
fn after_mark(text: &[u8]) -> Result<&[u8], LineFault>
    ensures { MatchResult result (λ rest. Marked text.now rest.now) (Unmarked text.now) }
{
    if text.len() > LONGEST {
        return Err(LineFault {
            reason: Reason::TextTooLong,
            // the number that the format has for the whole text
            line: 0,
        });
    }
    text.strip_prefix(b"FDT 0001\n").ok_or(LineFault {
        reason: Reason::WrongFirstLine,
        line: 1,
    })
}

// The table of a text. Lines are taken from the top: the first that is refused is the fault.
pub fn read<T: TableText>(heap: Global, text: &[u8]) -> Result<T, TableFault>
    ensures { MatchResult result (TableOf T.begins T.adds text.now) (FirstFault T.begins T.adds T.checks text.now) }
{
    let mut rest = after_mark(text)?;
    let bus = first_line(rest).ok_or(at_line(Reason::Malformed, 2))?;
    let step = line_of(bus.line, Phase::Bus, 2)?;
    let mut table = T::begun(heap, step.line)?;
    let mut phase = step.next;
    rest = bus.rest;
    for number in 3..=u32::MAX {
        if rest.is_empty() {
            break;
        }
        let cut = first_line(rest).ok_or(at_line(Reason::Malformed, number))?;
        let step = line_of(cut.line, phase, number)?;
        table.add(step.line, number)?;
        phase = step.next;
        rest = cut.rest;
    }
    Ok(table)
}
