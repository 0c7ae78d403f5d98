// A table as text again.
ghost use Rattle.std.specs.Prelude.{◌≡◌, List, [], ◌∷◌, ◌++◌, IfOk, string_bytes, MatchResult};
ghost use Rattle.texts.specs.Forms.{decimal, fields};
ghost use Rattle.by_lines.specs.Held.{lines_of, TableFaultOf};
ghost use Rattle.texts.specs.Lines.{letter_of, values_of, values_of_message};
ghost use Rattle.by_lines.specs.Tables.{table_text};
ghost use Rattle.answers.specs.Answers.{OnlyTable};

use by_lines::table::{Table, read_table};
use plan::draft::Message;
use std::alloc::{AllocError, Global};
use texts::fault::TableFault;
use texts::line::Line;

// A number after a blank.
fn field_text(heap: Global, value: u64) -> Result<String, AllocError>
    ensures { IfOk result (λ s. string_bytes s ≡ 32 ∷ decimal value) }
{
    format!(in heap; " {value}")
}

// A line with its line feed: its letter, and its numbers after a blank each.
fn printed_line(heap: Global, letter: &str, values: &[u64]) -> Result<String, AllocError>
    ensures { IfOk result (λ s. string_bytes s ≡ letter.now ++ fields values.now (10 ∷ [])) }
{
    let mut text = String::from_str(heap, letter)?;
    // one number at a time: what one format of more than four numbers prints could not be proved
    for value in values {
        let field = field_text(heap, *value)?;
        text.push_str(field.as_str())?;
    }
    text.push_str("\n")?;
    Ok(text)
}

// The eight numbers of a line that gives a message: those of the message, and two more.
fn message_values(m: &Message, first: u32, second: u32) -> [u64; 8]
    ensures { result ≡ values_of_message m.now ++ (first ∷ second ∷ []) }
{
    [
        u64::from(m.number),
        u64::from(m.frame),
        u64::from(m.node),
        u64::from(m.priority),
        u64::from(m.size),
        u64::from(m.deadline),
        u64::from(first),
        u64::from(second),
    ]
}

fn line_text(heap: Global, line: &Line) -> Result<String, AllocError>
    ensures { IfOk result (λ s. string_bytes s ≡ letter_of line.now ∷ fields (values_of line.now) (10 ∷ [])) }
{
    match *line {
        Line::Bus(g, s, l, q) => {
            let values = [u64::from(g), u64::from(s), u64::from(l), u64::from(q)];
            printed_line(heap, "B", &values)
        }
        Line::Node(n, a) => printed_line(heap, "N", &[u64::from(n), u64::from(a)]),
        Line::Periodic(m, t, j) => printed_line(heap, "P", &message_values(&m, t, j)),
        Line::Window(m, n, w) => printed_line(heap, "W", &message_values(&m, u32::from(n), w)),
    }
}

// The text of a table: its mark, then its lines. No table of other lines has this text.
// As the text of a sheet, from which it differs in the text of an element.
pub fn print_table(heap: Global, table: &Table) -> Result<String, AllocError>
    ensures { IfOk result (λ s. OnlyTable (lines_of table.now) (string_bytes s)) }
{
    let mut text = String::from_str(heap, "FDT 0001\n")?;
    for line in table.lines.as_slice() {
        let next = line_text(heap, line)?;
        text.push_str(next.as_str())?;
    }
    Ok(text)
}

// A table text, read and printed: where it is read, it comes back to the byte.
pub fn reprint(heap: Global, text: &[u8]) -> Result<String, TableFault>
    ensures { MatchResult result (λ s. string_bytes s ≡ text.now) (TableFaultOf text.now) }
{
    let table = read_table(heap, text)?;
    Ok(print_table(heap, &table)?)
}
