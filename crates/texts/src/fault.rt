// What is wrong with a text, and where: a fault of a line becomes one of the table, and that one of the run, with its
// number and line as they were.
ghost use Rattle.std.specs.Prelude.{◌≡◌};
ghost use Rattle.texts.specs.declared.fault.TableFault.TheVariants as table;
ghost use Rattle.texts.specs.declared.fault.RunFault.TheVariants as run;

use fields::refusal::Reason;
use std::alloc::{AllocError, AllocFailed};

// A line that is refused.
#[derive(Clone, Copy)]
pub struct LineFault {
    pub reason: Reason,
    pub line: u32,
}

// A table that has no plan: refused at a line, or no memory was left to read it.
// This and the fault of a making are public names of two layers, which `From` joins: one generic fault would be no plainer.
#[derive(Clone, Copy)]
pub enum TableFault {
    Refused(LineFault),
    Memory,
}

// Why a run gave no sheet: the fault of its table.
#[derive(Clone, Copy)]
pub enum RunFault {
    Table(TableFault),
}

impl From<LineFault> for TableFault {
    ghost from_gives = { λ e r. r ≡ table.Refused e };

    fn from(e: LineFault) -> TableFault {
        TableFault::Refused(e)
    }
}

impl From<AllocError> for TableFault {
    ghost from_gives = { λ _ r. r ≡ table.Memory };

    fn from(_e: AllocError) -> TableFault {
        TableFault::Memory
    }
}

impl<T: Drop> From<AllocFailed<T>> for TableFault {
    ghost from_gives = { λ _ r. r ≡ table.Memory };

    fn from(_e: AllocFailed<T>) -> TableFault {
        TableFault::Memory
    }
}

impl From<LineFault> for RunFault {
    ghost from_gives = { λ e r. r ≡ run.Table (table.Refused e) };

    fn from(e: LineFault) -> RunFault {
        RunFault::Table(TableFault::Refused(e))
    }
}

impl From<TableFault> for RunFault {
    ghost from_gives = { λ e r. r ≡ run.Table e };

    fn from(e: TableFault) -> RunFault {
        RunFault::Table(e)
    }
}

impl From<AllocError> for RunFault {
    ghost from_gives = { λ _ r. r ≡ run.Table table.Memory };

    fn from(_e: AllocError) -> RunFault {
        RunFault::Table(TableFault::Memory)
    }
}
