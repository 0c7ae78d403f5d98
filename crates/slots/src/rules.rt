// The figures of the slot rules, as a bench asks for them.
ghost use Rattle.std.specs.Prelude.{◌≡◌, ◌^◌, ◌<◌, ◌≤◌};
ghost use Rattle.fields.specs.Refusals.{Verdict};
ghost use Rattle.fields.specs.declared.refusal.Place.TheVariants as place;
ghost use Rattle.slots.specs.Rows.{row_of, size_of, last_start_of};
ghost use Rattle.slots.specs.States.{clock as clock_of, allowed};
ghost use Rattle.slots.specs.Steps.{cycles, run_checks, used as used_by, sent_from, onward as onward_from};
ghost use Rattle.slots.specs.Guarantees.{DelaysHold, OneAnswer};

use crate::calls::{Sent, SlotReport};
use crate::position::Position;
use books::book::ReleaseBook;
use buffers::instance::Instance;
use delay::bus::Bus;
use delay::entry::Row;
use fields::refusal::{Place, Reason, Refusal};

// Slots are run in the cycles below this one.
pub const CYCLES: u32 = 1_000_000;

// Where a bench begins. From there the delays of every plan hold on all runs, whatever book bounds the releases, and
// every call has one answer.
pub fn first_position<B: ReleaseBook>(_book: &B) -> Position
    ensures begins { result ≡ record { cycle = 0; minislot = 1; slot = 1 } }
    ensures delays { DelaysHold B.book }
    ensures answers { OneAnswer B.book }
{
    Position {
        cycle: 0,
        minislot: 1,
        slot: 1,
    }
}

// The time at which the next slot of a position begins. Bus and position come as two: a bench keeps the one and moves the other.
pub fn clock(bus: &Bus, position: &Position) -> u64
    ensures value { result ≡ clock_of bus.now position.now }
    ensures bound { result < 2 ^ 47 }
{
    u64::from(position.cycle) * u64::from(bus.cycle)
        + u64::from(bus.offset)
        + u64::from(position.minislot.saturating_sub(1)) * u64::from(bus.minislot)
}

// Whether the clock allows a release at the time, after the last accepted release and the start of the last slot run.
pub fn allows(
    bus: &Bus,
    position: &Position,
    released: Option<u64>,
    started: Option<u64>,
    time: u64,
) -> bool
    ensures { result ≡ allowed bus.now position.now released started time }
{
    released.is_none_or(|last| last <= time)
        && started.is_none_or(|start| start < time)
        && time <= clock(bus, position)
}

// Whether a slot is run at a position: not once the cycles are over.
pub fn may_run(position: &Position) -> Result<(), Refusal>
    ensures { Verdict (run_checks position.now) place.Bench position.now.cycle (λ _. Unit {0}) result }
{
    if position.cycle == CYCLES {
        return Err(Place::Bench.refuses(Reason::CyclesOver, position.cycle));
    }
    Ok(())
}

// The position after a slot that took so many minislots: the next slot, or the next cycle where the segment is over.
pub fn onward(bus: &Bus, position: Position, used: u16) -> Position
    ensures { position.cycle ≤ cycles → position.slot ≤ bus.now.minislots → result ≡ onward_from bus.now position used }
{
    let end = u32::from(position.minislot) + u32::from(used);
    if end > u32::from(bus.minislots) {
        Position {
            cycle: position.cycle.saturating_add(1),
            minislot: 1,
            slot: 1,
        }
    } else {
        Position {
            cycle: position.cycle,
            minislot: end as u16,
            slot: position.slot.saturating_add(1),
        }
    }
}

// The row of a message, where the plan has it.
pub fn row_of(rows: &[Row], message: u16) -> Option<Row>
    ensures { result ≡ row_of rows.now message }
{
    rows.iter().find(|row| row.entry.number == message).copied()
}

// The minislots that a message takes, or the one of an empty slot where the plan has no such message.
pub fn size_of(rows: &[Row], message: u16) -> u16
    ensures { result ≡ size_of rows.now message }
{
    row_of(rows, message).map_or(1, |row| row.entry.size)
}

// The minislots that a slot takes: the size of what it sends, or the one of an empty slot.
pub fn used(rows: &[Row], sends: Option<Instance>) -> u16
    ensures { result ≡ used_by rows.now sends }
{
    sends.map_or(1, |x| size_of(rows, x.message))
}

// What the run of a slot reports that sends an instance, or nothing.
pub fn report_of(
    bus: &Bus,
    rows: &[Row],
    position: &Position,
    sends: Option<Instance>,
) -> SlotReport
    ensures cycle { result.cycle ≡ position.now.cycle }
    ensures slot { result.slot ≡ position.now.slot }
    ensures start { result.start ≡ clock_of bus.now position.now }
    ensures sent { result.sent ≡ sent_from bus.now rows.now (clock_of bus.now position.now) sends }
{
    let start = clock(bus, position);
    let sent = sends.map(|x| Sent {
        message: x.message,
        release: x.release,
        finish: start + u64::from(size_of(rows, x.message)) * u64::from(bus.minislot),
    });
    SlotReport {
        cycle: position.cycle,
        slot: position.slot,
        start,
        sent,
    }
}

// The last minislot in which a frame may start. Minislots count from 1, so 0 says never: the plan has no message of it.
pub fn last_start(rows: &[Row], frame: u16) -> u16
    ensures { result ≡ last_start_of rows.now frame }
{
    rows.iter()
        .find(|row| row.entry.frame == frame)
        .map_or(0, |row| row.entry.latest)
}
