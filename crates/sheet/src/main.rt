// The sheet program: a table from standard input, its sheet to standard output.
#![tactic(auto)]

use std::io::Read;

// One byte more than a text may have: that tells a text that is too long, and standard input may be endless.
const ENOUGH: u64 = 16_385;

fn main(rt: HostRuntime) -> anyhow::Result<()> {
    let mut table = Vec::new(rt.alloc());
    rt.stdin().take(ENOUGH).read_to_end(&mut table)?;
    let text = texts::sheet::sheet(rt.alloc(), table.as_slice())?;
    print!(rt; "{text}")?;
    Ok(())
}
