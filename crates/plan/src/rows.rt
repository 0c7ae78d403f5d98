// The rows of a plan, one message after the other.
ghost use Rattle.std.specs.Prelude.{◌≡◌, ℕ, ◌+◌, ◌<◌, ◌≤◌, true, ◌⊎◌, MatchOption, MatchResult};
ghost use Rattle.std.specs.List.{AllByRecursion};
ghost use Rattle.delay.specs.Delay.{Searched, Unlisted, NoneWithin};
ghost use Rattle.plan.specs.Entries.{ascends};
ghost use Rattle.plan.specs.Sheets.{RowOf, Sheet, Listed, FirstUnlisted, SheetFault};

use books::book::ReleaseBook;
use delay::bus::Bus;
use delay::entry::{Entry, Row};
use delay::search::least_delay;
use fields::refusal::{MakingFault, Place, Reason, Refusal};
use std::alloc::Global;

// The number of the first message that the book does not list. As for the rows of a search, but what each says of an unlisted
// message differs, and the chain is all that they share.
pub(crate) fn first_unlisted<B: ReleaseBook>(entries: &[Entry], releases: &B) -> Option<u16>
    ensures { MatchOption result (AllByRecursion (Listed B.book (B.meaning releases.now)) entries.now) (λ n. FirstUnlisted B.book (B.meaning releases.now) entries.now n) }
{
    entries
        .iter()
        .map(|e| e.number)
        .find(|number| !releases.lists(*number))
}

// The row of a message, after those of all messages that come before it.
fn row_of<B: ReleaseBook>(
    bus: &Bus,
    rows: &[Row],
    message: &Entry,
    releases: &B,
) -> Result<Row, Refusal>
    ensures { MatchResult result (λ row. (row.entry ≡ message.now) × RowOf bus.now B.book (B.meaning releases.now) rows.now row) (λ e. Unlisted (B.book.lists (B.meaning releases.now)) rows.now message.now e ⊎ NoneWithin bus.now B.book (B.meaning releases.now) rows.now message.now e) }
{
    let delay = least_delay(bus, rows, message, releases)?;
    let Ok(jitter) = releases.jitter(message.number) else {
        unreachable()
    };
    Ok(Row {
        entry: *message,
        delay,
        response: jitter + delay,
    })
}

// The rows of all messages, or the first message that has none.
pub(crate) fn rows_of<B: ReleaseBook>(
    heap: Global,
    bus: &Bus,
    entries: &[Entry],
    releases: &B,
) -> Result<Vec<Row>, MakingFault>
    requires order { ascends entries.now ≡ true }
    requires listed { AllByRecursion (Listed B.book (B.meaning releases.now)) entries.now }
    ensures { MatchResult result (λ rows. Sheet bus.now B.book (B.meaning releases.now) entries.now rows.items) (SheetFault bus.now B.book (B.meaning releases.now) entries.now) }
{
    let mut rows = Vec::with_capacity(heap, entries.len())?;
    for e in entries {
        let row = row_of(bus, rows.as_slice(), e, releases)?;
        rows.push_reserved(row);
    }
    Ok(rows)
}
