// The calls of a bench: a release, the run of a slot, the question where it stands.
ghost use Rattle.std.specs.Prelude.{◌≡◌, nat_le, slice_index_or};
ghost use Rattle.slots.specs.declared.calls.Call.TheVariants as call;
ghost use Rattle.slots.specs.declared.calls.Answer.TheVariants as answer;
ghost use Rattle.bench.specs.Benches.{kinds, Kept, TakenIf};

use crate::bench::Bench;
use books::book::ReleaseBook;
use buffers::buffer::SendBuffer;
use buffers::instance::Instance;
use fields::refusal::{Place, Reason, Refusal};
use slots::calls::{Sent, SlotReport};
use slots::position::Position;
use slots::rules::{allows, clock, may_run, onward, row_of};

// What a table has at a place, or another value past its end.
fn read(table: &[u16], place: u16, other: u16) -> u16
    ensures { result ≡ slice_index_or table.now place other }
{
    table.get(usize::from(place)).copied().unwrap_or(other)
}

// What the slot of a position sends, taken out of the buffer: the first that waits, where the slot is not past the last
// minislot in which its frame may start.
fn take_for<S: SendBuffer>(buffer: &mut S, position: &Position, latest: u16) -> Option<Instance>
    ensures taken { S.sound buffer.old →
        TakenIf (nat_le position.now.minislot latest) (S.meaning buffer.old) position.now.slot result
        (S.meaning buffer.new) }
    ensures sound { S.sound buffer.old → S.sound buffer.new }
{
    if position.minislot <= latest {
        buffer.take(position.slot)
    } else {
        None
    }
}

impl<B: ReleaseBook, S: SendBuffer> Bench<B, S> {
    // Runs the next slot.
    pub fn slot_run(&mut self) -> Result<SlotReport, Refusal>
        ensures { Kept (kinds B.book B.meaning S.meaning S.sound)
            self.old call.SlotRun (answer.Ran result) self.new }
    {
        may_run(&self.position)?;
        let at = self.position;
        let start = clock(&self.bus, &at);
        let latest = read(self.starts.as_slice(), at.slot, 0);
        let taken = take_for(&mut self.buffer, &at, latest);
        self.started = Some(start);
        // the sent instance is taken apart here, once, for its size and for the report
        let (size, sent) = match taken {
            Some(x) => {
                let size = read(self.sizes.as_slice(), x.message, 1);
                let finish = start + u64::from(size) * u64::from(self.bus.minislot);
                let sent = Sent {
                    message: x.message,
                    release: x.release,
                    finish,
                };
                (size, Some(sent))
            }
            None => (1, None),
        };
        self.position = onward(&self.bus, at, size);
        Ok(SlotReport {
            cycle: at.cycle,
            slot: at.slot,
            start,
            sent,
        })
    }

    // Releases a message at a time. What is refused leaves the bench as it was.
    pub fn release(&mut self, message: u16, time: u64) -> Result<(), Refusal>
        ensures { Kept (kinds B.book B.meaning S.meaning S.sound)
            self.old (call.Release message time) (answer.Released result) self.new }
    {
        let concerns = u32::from(message);
        let row = row_of(self.rows.as_slice(), message).ok_or(Place::Bench.refuses(
            Reason::NotListed,
            concerns,
        ))?;
        if !allows(&self.bus, &self.position, self.released, self.started, time) {
            return Err(Place::Bench.refuses(Reason::TimeNotAllowed, concerns));
        }
        self.book
            .release(message, time)
            .map_err(|e| Place::Bench.refuses(e.reason, concerns))?;
        let instance = Instance {
            message,
            priority: row.entry.priority,
            release: time,
        };
        self.released = Some(time);
        self.buffer.put(row.entry.frame, instance)
    }

    // Where the bench stands: its cycle, and its minislot in it.
    pub fn position(&self) -> (u32, u16)
        ensures { Kept (kinds B.book B.meaning S.meaning S.sound)
            self.now call.Position (answer.At result) self.now }
    {
        (self.position.cycle, self.position.minislot)
    }
}
