// Each case is a table text and what is printed of it.
use std::process::Abort;
use std::test::Fail;
use texts::line::{Line, Phase, line_of};
use texts::reader::{TableText, bus_draft, note, read};
use texts::sheet::{SheetText, book_of, run, run_of, sheet, sheet_of};
use texts::table::Table;

struct Case {
    name: &'static str,
    table: &'static str,
    prints: &'static str,
}

const ACCEPTED: [Case; 4] = [
    Case {
        name: "the worked cluster",
        table: "FDT 0001\nB 100 40 2 25\nN 1 20\nN 2 18\nN 3 20\nP 1 1 1 1 5 400 400 0\nP 2 2 2 1 8 600 600 20\nW 3 2 2 2 3 700 2 500\nP 4 5 3 1 2 300 300 50\n",
        prints: "FDS 0001\n1 1 147 147\n2 2 147 167\n3 2 337 337\n4 5 133 183\n",
    },
    Case {
        name: "an earlier last start, and just the deadline that this leaves",
        table: "FDT 0001\nB 100 40 2 25\nN 1 20\nN 2 18\nN 3 19\nP 1 1 1 1 5 400 400 0\nP 2 2 2 1 8 600 600 20\nW 3 2 2 2 3 700 2 500\nP 4 5 3 1 2 281 300 50\n",
        prints: "FDS 0001\n1 1 147 147\n2 2 147 167\n3 2 337 337\n4 5 231 281\n",
    },
    Case {
        name: "a segment that ends with the cycle",
        table: "FDT 0001\nB 100 50 2 25\nN 1 20\nP 1 1 1 1 5 400 400 0\n",
        prints: "FDS 0001\n1 1 147 147\n",
    },
    Case {
        name: "no messages",
        table: "FDT 0001\nB 100 40 2 25\n",
        prints: "FDS 0001\n",
    },
];

const REFUSED: [Case; 10] = [
    Case {
        name: "one macrotick less than the response",
        table: "FDT 0001\nB 100 40 2 25\nN 1 20\nN 2 18\nN 3 19\nP 1 1 1 1 5 400 400 0\nP 2 2 2 1 8 600 600 20\nW 3 2 2 2 3 700 2 500\nP 4 5 3 1 2 280 300 50\n",
        prints: "E 13 9\n",
    },
    Case {
        name: "a size that just does not fit",
        table: "FDT 0001\nB 100 40 2 25\nN 1 20\nN 2 18\nN 3 20\nP 1 1 1 1 5 400 400 0\nP 2 2 2 1 9 600 600 20\n",
        prints: "E 10 7\n",
    },
    Case {
        name: "a segment longer than the cycle",
        table: "FDT 0001\nB 100 51 2 25\n",
        prints: "E 7 2\n",
    },
    Case {
        name: "an empty text",
        table: "",
        prints: "E 2 1\n",
    },
    Case {
        name: "only the first line",
        table: "FDT 0001\n",
        prints: "E 3 2\n",
    },
    Case {
        name: "no line feed at the end",
        table: "FDT 0001\nB 100 40 2 25\nN 1 20",
        prints: "E 3 3\n",
    },
    Case {
        name: "a leading zero",
        table: "FDT 0001\nB 100 040 2 25\n",
        prints: "E 3 2\n",
    },
    Case {
        name: "a doubled blank",
        table: "FDT 0001\nB 100  40 2 25\n",
        prints: "E 3 2\n",
    },
    Case {
        name: "a number of thirty digits",
        table: "FDT 0001\nB 100 40 2 25\nN 1 123456789012345678901234567890\n",
        prints: "E 4 3\n",
    },
    Case {
        name: "a node after a message, out of range too",
        table: "FDT 0001\nB 100 40 2 25\nN 1 20\nP 1 1 1 1 5 400 400 0\nN 65 20\n",
        prints: "E 3 5\n",
    },
];

fn holds(rt: &(impl Abort + AllocGlobal), cases: &[Case]) -> Result<(), Fail> {
    for case in cases {
        let printed = sheet(rt.alloc(), case.table.as_bytes())?;
        assert_eq!(rt; printed.as_str(), case.prints, "{}", case.name);
    }
    Ok(())
}

#[test]
fn accepted_tables(rt: HostRuntime) -> Result<(), Fail> {
    holds(&rt, &ACCEPTED)
}

#[test]
fn refused_tables(rt: HostRuntime) -> Result<(), Fail> {
    holds(&rt, &REFUSED)
}

// The faulty line is a part of the text: none before the first line, an inner line, and one that is due past the end.
#[test]
fn faulty_lines(rt: HostRuntime) -> Result<(), Fail> {
    let parts = [
        ("", "", 0),
        ("FDT 0001\nB 100 51 2 25\nN 1 20\n", "B 100 51 2 25", 9),
        ("FDT 0001\n", "", 9),
    ];
    for (text, line, start) in parts {
        let Err(fault) = run(rt.alloc(), text.as_bytes()) else {
            return Err(Fail::new("not refused"));
        };
        let part = fault.part(text.as_bytes()).ok_or("no part")?;
        assert_eq!(rt; part.bytes, line.as_bytes());
        assert_eq!(rt; part.start, start);
    }
    Ok(())
}

// The steps of a run, each by itself.
#[test]
fn steps_of_a_run(rt: HostRuntime) -> Result<(), Fail> {
    let case = &ACCEPTED[0];
    let text = case.table.as_bytes();
    let table: Table = read(rt.alloc(), text).ok().ok_or("not read")?;
    assert_eq!(rt; table.periodic.len(), 3);
    assert_eq!(rt; table.window.len(), 1);
    let plan = table.into_plan(rt.alloc()).ok().ok_or("no plan")?;
    assert_eq!(rt; plan.sheet().len(), 4);
    let run = run_of::<Table>(rt.alloc(), text).ok().ok_or("no sheet")?;
    assert_eq!(rt; run.as_str(), case.prints);
    let printed = sheet_of::<Table>(rt.alloc(), text)?;
    assert_eq!(rt; printed.as_str(), case.prints);
    Ok(())
}

// A bus line begins a draft and a table, a node is added, and no messages have a book.
#[test]
fn first_steps(rt: HostRuntime) -> Result<(), Fail> {
    let bus = Line::Bus(100, 40, 2, 25);
    let _draft = bus_draft(rt.alloc(), bus).ok().ok_or("no draft")?;
    let mut table = Table::begun(rt.alloc(), bus).ok().ok_or("not begun")?;
    table.add(Line::Node(1, 20), 3).ok().ok_or("not added")?;
    assert_eq!(rt; table.origins.len(), 0);
    let _book = book_of(rt.alloc(), &[], &[]).ok().ok_or("no book")?;
    Ok(())
}

// What a line of a message says.
fn message_line(bytes: &[u8]) -> Result<Line, Fail> {
    let step = line_of(bytes, Phase::Messages, 4).ok().ok_or("no line")?;
    Ok(step.line)
}

const PERIODIC: &[u8] = b"P 1 1 1 1 5 400 400 0";

const WINDOW: &[u8] = b"W 2 2 1 1 3 700 2 500";

// A node and a message are noted in a draft.
#[test]
fn lines_noted(rt: HostRuntime) -> Result<(), Fail> {
    let bus = Line::Bus(100, 40, 2, 25);
    let mut draft = bus_draft(rt.alloc(), bus).ok().ok_or("no draft")?;
    note(&mut draft, Line::Node(1, 20), 3)
        .ok()
        .ok_or("no node")?;
    note(&mut draft, message_line(PERIODIC)?, 4)
        .ok()
        .ok_or("no message")?;
    Ok(())
}

// A table keeps a message of each kind, and the line that it stands in.
#[test]
fn messages_added(rt: HostRuntime) -> Result<(), Fail> {
    let bus = Line::Bus(100, 40, 2, 25);
    let mut table = Table::begun(rt.alloc(), bus).ok().ok_or("not begun")?;
    table.add(Line::Node(1, 20), 3).ok().ok_or("no node")?;
    table
        .add(message_line(PERIODIC)?, 4)
        .ok()
        .ok_or("no P line")?;
    table.add(message_line(WINDOW)?, 5).ok().ok_or("no W line")?;
    assert_eq!(rt; table.periodic.len(), 1);
    assert_eq!(rt; table.window.len(), 1);
    assert_eq!(rt; table.origins.len(), 2);
    for (origin, (message, line)) in table.origins.iter().zip([(1, 4), (2, 5)].iter()) {
        assert_eq!(rt; origin.message, *message);
        assert_eq!(rt; origin.line, *line);
    }
    Ok(())
}

// A book of a message of each kind.
#[test]
fn a_book(rt: HostRuntime) -> Result<(), Fail> {
    let periodic = message_line(PERIODIC)?.periodic().ok_or("no P line")?;
    let window = message_line(WINDOW)?.window().ok_or("no W line")?;
    let _book = book_of(rt.alloc(), &[periodic], &[window])
        .ok()
        .ok_or("no book")?;
    Ok(())
}
