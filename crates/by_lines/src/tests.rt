// A table of lines, step by step.
use crate::sheet::{run, sheet};
use crate::table::{Table, read_table};
use std::test::Fail;
use texts::line::Line;
use texts::reader::TableText;
use texts::sheet::SheetText;

const TABLE: &str = "FDT 0001\nB 100 50 2 25\nN 1 20\nP 1 1 1 1 5 400 400 0\n";

const SHEET: &str = "FDS 0001\n1 1 147 147\n";

#[test]
fn first_lines(rt: HostRuntime) -> Result<(), Fail> {
    let bus = Line::Bus(100, 40, 2, 25);
    let mut table = Table::begun(rt.alloc(), bus).ok().ok_or("not begun")?;
    table.add(Line::Node(1, 20), 3).ok().ok_or("not added")?;
    assert_eq!(rt; table.lines.len(), 2);
    Ok(())
}

#[test]
fn a_sheet(rt: HostRuntime) -> Result<(), Fail> {
    let table = read_table(rt.alloc(), TABLE.as_bytes())
        .ok()
        .ok_or("not read")?;
    let plan = table.into_plan(rt.alloc()).ok().ok_or("no plan")?;
    assert_eq!(rt; plan.sheet().len(), 1);
    let printed = run(rt.alloc(), TABLE.as_bytes()).ok().ok_or("no sheet")?;
    assert_eq!(rt; printed.as_str(), SHEET);
    let printed = sheet(rt.alloc(), TABLE.as_bytes())?;
    assert_eq!(rt; printed.as_str(), SHEET);
    Ok(())
}
