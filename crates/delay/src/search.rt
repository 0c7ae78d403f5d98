// The search for the least delay of one message.
ghost use Rattle.std.specs.Prelude.{◌≡◌, ℕ, ◌+◌, ◌-◌, ◌*◌, ◌/◌, ◌^◌, ◌<◌, ◌≤◌, true, false, length, MatchOption};
ghost use Rattle.std.specs.List.{AllByRecursion};
ghost use Rattle.fields.specs.Limits.{highest, Admitted};
ghost use Rattle.fields.specs.declared.limits.Field.TheVariants as field;
ghost use Rattle.books.specs.Book.{longest, Listed};
ghost use Rattle.delay.specs.Listed.{listed_prop};
ghost use Rattle.delay.specs.Delay.{Meets, Least, share_of_lower, share_of_urgent, lower_load, urgent_load, needed, ListedRow, Searched, NeverFalls, OneDelay};

use crate::bus::Bus;
use crate::entry::{Entry, Row};
use books::book::ReleaseBook;
use fields::refusal::{Place, Reason, Refusal};

// The first row's message that the book does not list. Entries of a draft are searched alike: the chain is all that both share.
fn unlisted<B: ReleaseBook>(rows: &[Row], releases: &B) -> Option<u16>
    ensures { MatchOption result (AllByRecursion (ListedRow (B.book.lists (B.meaning releases.now))) rows.now) (λ m. (B.book.lists (B.meaning releases.now) m ≡ false) × (AllByRecursion (ListedRow (B.book.lists (B.meaning releases.now))) rows.now → ⊥)) }
{
    rows.iter()
        .map(|row| row.entry.number)
        .find(|number| !releases.lists(*number))
}

// How long a message waits: no longer than a deadline can be.
#[derive(Clone, Copy)]
struct Wait {
    time: u32,
    ghost short: { time ≤ highest field.Deadline },
}

// What other messages can put in the way: minislots of lower frames, and sendings of the message's own frame.
#[derive(Clone, Copy)]
struct Loads {
    lower: u128,
    urgent: u128,
}

// What a search goes by: a message on a bus, the rows before it, and a book that lists them all.
#[derive(Drop)]
struct Search<'a, B: ReleaseBook> {
    bus: &'a Bus,
    rows: &'a [Row],
    message: &'a Entry,
    releases: &'a B,
    ghost own: { B.book.lists (B.meaning releases.now) message.now.number ≡ true },
    ghost listed: { AllByRecursion (ListedRow (B.book.lists (B.meaning releases.now))) rows.now } by { listed_prop _ rows.now },
}

impl<'a, B: ReleaseBook> Search<'a, B> {
    // How many releases of a message a stretch may hold.
    fn count(&self, message: u16, len: u32) -> u32
        requires listed { B.book.lists (B.meaning self.now.releases.now) message ≡ true }
        requires short { len ≤ longest }
        ensures value { result ≡ B.book.count (B.meaning self.now.releases.now) message len }
        ensures bound { result ≤ 16 * (len + 4000000) }
    {
        let Ok(count) = self.releases.count(message, len) else {
            unreachable()
        };
        count
    }

    // The time from the first minislot to the earliest start of the message's frame.
    fn lead(&self) -> u32
        ensures value { result ≡ (self.now.message.now.frame - 1) * self.now.bus.now.minislot }
        ensures bound { result ≤ 128898 }
    {
        u32::from(self.message.frame - 1) * u32::from(self.bus.minislot)
    }

    // The minislots that one row of a lower frame can take.
    fn lower_share(&self, row: &Row, d: Wait) -> u64
        requires listed { ListedRow (B.book.lists (B.meaning self.now.releases.now)) row.now }
        ensures value { result ≡ share_of_lower self.now.bus.now (B.book.count (B.meaning self.now.releases.now)) self.now.message.now d.time row.now }
        ensures bound { result < 4000000000000 }
    {
        if row.entry.frame >= self.message.frame {
            return 0;
        }
        let count = self.count(row.entry.number, d.time + row.delay + self.lead());
        u64::from(row.entry.size - 1) * u64::from(count)
    }

    // The sendings of one row, where it is a more urgent message of the same frame.
    fn urgent_share(&self, row: &Row, d: Wait) -> u64
        requires listed { ListedRow (B.book.lists (B.meaning self.now.releases.now)) row.now }
        ensures value { result ≡ share_of_urgent (B.book.count (B.meaning self.now.releases.now)) self.now.message.now d.time row.now }
        ensures bound { result < 4000000000000 }
    {
        if row.entry.frame != self.message.frame || row.entry.priority >= self.message.priority {
            return 0;
        }
        u64::from(self.count(row.entry.number, d.time + row.delay))
    }

    fn loads(&self, d: Wait) -> Loads
        ensures lower { result.lower ≡ lower_load self.now.bus.now (B.book.count (B.meaning self.now.releases.now)) self.now.rows.now self.now.message.now d.time }
        ensures urgent { result.urgent ≡ urgent_load (B.book.count (B.meaning self.now.releases.now)) self.now.rows.now self.now.message.now d.time }
        ensures bound { (result.lower < 2 ^ 106) × (result.urgent < 2 ^ 106) }
    {
        // tried as two sums: that each row is listed did not reach their closures
        let mut lower: u128 = 0;
        let mut urgent: u128 = 0;
        for row in self.rows {
            lower += u128::from(self.lower_share(row, d));
            urgent += u128::from(self.urgent_share(row, d));
        }
        Loads { lower, urgent }
    }

    // One macrotick more than the message needs at most while it waits d.
    fn need(&self, d: Wait) -> u128
        ensures value { result ≡ needed self.now.bus.now (B.book.count (B.meaning self.now.releases.now)) self.now.rows.now self.now.message.now d.time }
        ensures positive { 2 ≤ result }
    {
        let loads = self.loads(d);
        let own = self.count(self.message.number, d.time);
        let room = u128::from(self.message.latest - self.message.frame) + 1;
        let blocked = loads.lower / room + loads.urgent + u128::from(own).saturating_sub(1);
        let minislots = room - 1 + u128::from(self.message.size);
        (blocked + 1) * u128::from(self.bus.cycle) + minislots * u128::from(self.bus.minislot)
    }

    // The climb to the least delay: from 1 to what is needed after it, as long as that is not reached. None where it
    // passes the limit.
    fn climb(&self, limit: u32) -> Option<u32>
        requires short { limit ≤ highest field.Deadline }
        ensures { MatchOption result
            ((d : ℕ) → 1 ≤ d → Meets self.now.bus.now (B.book.count (B.meaning self.now.releases.now)) self.now.rows.now self.now.message.now d → limit < d)
            (λ d. Least self.now.bus.now (B.book.count (B.meaning self.now.releases.now)) self.now.rows.now self.now.message.now d × (d ≤ limit)) }
    {
        // No chain: each round begins where the one before it came to, and the loop is left with the delay as its value.
        let mut waits: u32 = 1;
        let delay = 'rounds: loop {
            let needed = self.need(Wait { time: waits }) - 1;
            if needed > u128::from(limit) {
                return None;
            }
            if needed <= u128::from(waits) {
                break waits;
            }
            waits = needed as u32;
        };
        Some(delay)
    }
}

// The least delay of the message on the bus, where its response, with the jitter, is within the deadline. `rows` are
// the messages of lower frames and the more urgent ones of its frame, with their delays; others do not count.
pub fn least_delay<B: ReleaseBook>(
    bus: &Bus,
    rows: &[Row],
    message: &Entry,
    releases: &B,
) -> Result<u32, Refusal>
    ensures searched { Searched bus.now B.book (B.meaning releases.now) rows.now message.now result }
    ensures rises { NeverFalls bus.now B.book (B.meaning releases.now) rows.now message.now }
    ensures unique { OneDelay bus.now (B.book.count (B.meaning releases.now)) rows.now message.now }
{
    if let Some(number) = unlisted(rows, releases) {
        return Err(Place::Plan.refuses(Reason::NotInBook, number.into()));
    }
    let number = u32::from(message.number);
    let jitter = releases
        .jitter(message.number)
        .map_err(|_| Place::Plan.refuses(Reason::NotInBook, number))?;
    let search = Search {
        bus,
        rows,
        message,
        releases,
    };
    search
        .climb(message.deadline.saturating_sub(jitter))
        .ok_or(Place::Plan.refuses(Reason::NoDelay, number))
}

// How many places a message needs: as many as may be released while one waits its delay.
pub fn places_needed<B: ReleaseBook>(row: &Row, releases: &B) -> Result<u32, Refusal>
    ensures { Listed B.book (B.meaning releases.now) row.now.entry.number (B.book.count (B.meaning releases.now) row.now.entry.number row.now.delay) result }
{
    releases.count(row.entry.number, row.delay)
}
