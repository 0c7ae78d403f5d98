// Setting up: a plan and a send buffer become a bench.
ghost use Rattle.std.specs.Prelude.{◌≡◌, ℕ, ◌+◌, ◌^◌, ◌<◌, true, false, map, IfOk, MatchResult};
ghost use Rattle.std.specs.List.{range_with_len};
ghost use Rattle.std.specs.Option as options;
ghost use Rattle.fields.specs.Limits.{Admitted, highest};
ghost use Rattle.slots.specs.Rows.{needs, last_start_of, size_of};
ghost use Rattle.bench.specs.Benches.{kinds};
ghost use Rattle.bench.specs.SetUps.{needed_by, too_few, early, Ready, RefusedAs, FaultOf, AllListed, BenchOf, NoBench};

use crate::bench::{Bench, BenchRefused};
use books::book::ReleaseBook;
use buffers::buffer::SendBuffer;
use delay::entry::Row;
use delay::search::places_needed;
use fields::limits::{Field, limits_of};
use fields::refusal::{MakingFault, Place, Reason, Refusal};
use plan::plan::Plan;
use slots::rules::{first_position, last_start, size_of};
use std::alloc::{AllocError, Global};

// The places that one row needs of a frame.
fn need_of<B: ReleaseBook>(row: &Row, book: &B, frame: u16) -> u32
    ensures { result ≡ needed_by B.book (B.meaning book.now) frame row.now }
{
    if row.entry.frame != frame {
        return 0;
    }
    places_needed(row, book).unwrap_or(0)
}

// The places that all rows need of a frame.
fn needs_of<B: ReleaseBook>(rows: &[Row], book: &B, frame: u16) -> u128
    ensures { AllListed B.book (B.meaning book.now) rows.now →
        result ≡ needs (B.book.count (B.meaning book.now)) rows.now frame }
{
    rows.iter()
        .map(|row| u128::from(need_of(row, book, frame)))
        .sum()
}

// The lowest value of a field that meets a test, where one does.
fn lowest<F: Fn(u16) -> bool>(field: Field, meets: F) -> Option<u16>
    requires callable { F.IsAlwaysCallable meets }
    requires small { highest field < 2 ^ 16 }
    ensures { options.MatchOption result ((n : ℕ) → Admitted field n → F.post meets n false)
        (λ n. Admitted field n × F.post meets n true × ((m : ℕ) → Admitted field m → m < n → F.post meets m false)) }
{
    let limits = limits_of(field);
    (limits.low..=limits.high)
        .map(|number| number as u16)
        .find(|number| meets(*number))
}

// Whether a message may not be released at once.
fn is_early<B: ReleaseBook>(book: &B, message: u16) -> bool
    ensures { result ≡ early B.book (B.meaning book.now) message }
{
    book.earliest(message).is_ok_and(|earliest| earliest > 0)
}

// What a slot run looks up.
#[derive(Drop)]
struct Tables {
    // by frame: the last minislot in which it may start
    starts: Vec<u16>,
    // by message: the minislots that it takes
    sizes: Vec<u16>,
}

// A table with an entry for each number up to the highest of a field.
fn table<F: Fn(u16) -> u16>(heap: Global, field: Field, entry: F) -> Result<Vec<u16>, AllocError>
    requires callable { F.IsAlwaysCallable entry }
    requires small { highest field + 1 < 2 ^ 16 }
    ensures { (h : ℕ → ℕ) → ((n m : ℕ) → F.post entry n m → m ≡ h n) →
        IfOk result (λ v. v.items ≡ map h (range_with_len 0 (highest field + 1))) }
{
    let len = limits_of(field).high as u16 + 1;
    (0..len).map(|number| entry(number)).collect(heap)
}

fn tables_of(heap: Global, rows: &[Row]) -> Result<Tables, AllocError>
    ensures starts { IfOk result (λ t. t.starts.items ≡ map (last_start_of rows.now) (range_with_len 0 2048)) }
    ensures sizes { IfOk result (λ t. t.sizes.items ≡ map (size_of rows.now) (range_with_len 0 129)) }
{
    let starts = table(heap, Field::Frame, |frame| last_start(rows, frame))?;
    let sizes = table(heap, Field::Message, |message| size_of(rows, message))?;
    Ok(Tables { starts, sizes })
}

// What a bench is to be made of, while that is checked.
#[derive(Drop)]
struct Parts<'a, B: ReleaseBook, S: SendBuffer> {
    rows: &'a [Row],
    book: &'a B,
    buffer: &'a S,
}

// That the book lists all rows is known of a proper plan only, so it is a premise here and no ghost field.
impl<'a, B: ReleaseBook, S: SendBuffer> Parts<'a, B, S> {
    // Whether a frame has fewer places than its messages need.
    fn is_short(&self, frame: u16) -> bool
        ensures { AllListed B.book (B.meaning self.now.book.now) self.now.rows.now → S.sound self.now.buffer.now →
            result ≡ too_few B.book (B.meaning self.now.book.now) self.now.rows.now (S.meaning self.now.buffer.now) frame }
    {
        u128::from(self.buffer.places_of(frame)) < needs_of(self.rows, self.book, frame)
    }

    // Whether they make a bench, or why they do not.
    fn ready(&self) -> Result<(), Refusal>
        ensures { AllListed B.book (B.meaning self.now.book.now) self.now.rows.now → S.sound self.now.buffer.now →
            MatchResult result (λ _. Ready B.book (B.meaning self.now.book.now) self.now.rows.now (S.meaning self.now.buffer.now))
            (RefusedAs B.book (B.meaning self.now.book.now) self.now.rows.now (S.meaning self.now.buffer.now)) }
    {
        if let Some(frame) = lowest(Field::Frame, |frame| self.is_short(frame)) {
            return Err(Place::SettingUp.refuses(Reason::TooFewPlaces, u32::from(frame)));
        }
        if let Some(frame) = lowest(Field::Frame, |frame| self.buffer.waiting_for(frame) > 0) {
            return Err(Place::SettingUp.refuses(Reason::NotFresh, u32::from(frame)));
        }
        if let Some(message) = lowest(Field::Message, |message| is_early(self.book, message)) {
            return Err(Place::SettingUp.refuses(Reason::NotFresh, u32::from(message)));
        }
        Ok(())
    }

    // What a slot run looks up, where they make a bench.
    fn prepared(&self, heap: Global) -> Result<Tables, MakingFault>
        ensures why { AllListed B.book (B.meaning self.now.book.now) self.now.rows.now → S.sound self.now.buffer.now →
            MatchResult result (λ _. Ready B.book (B.meaning self.now.book.now) self.now.rows.now (S.meaning self.now.buffer.now))
            (FaultOf B.book (B.meaning self.now.book.now) self.now.rows.now (S.meaning self.now.buffer.now)) }
        ensures starts { IfOk result (λ t. t.starts.items ≡ map (last_start_of self.now.rows.now) (range_with_len 0 2048)) }
        ensures sizes { IfOk result (λ t. t.sizes.items ≡ map (size_of self.now.rows.now) (range_with_len 0 129)) }
    {
        self.ready()?;
        Ok(tables_of(heap, self.rows)?)
    }
}

// The bench of a plan and a buffer. Refused, they come back as they were.
pub fn set_up<B: ReleaseBook, S: SendBuffer>(
    heap: Global,
    plan: Plan<B>,
    buffer: S,
) -> Result<Bench<B, S>, BenchRefused<B, S>>
    ensures { MatchResult result (λ x. BenchOf (kinds B.book B.meaning S.meaning S.sound) plan buffer x)
        (λ e. NoBench (kinds B.book B.meaning S.meaning S.sound) plan buffer e) }
{
    let wanted = Parts {
        rows: plan.sheet(),
        book: plan.book(),
        buffer: &buffer,
    };
    // no map_err: its closure would move plan and buffer, which the rest still needs
    let tables = match wanted.prepared(heap) {
        Ok(tables) => tables,
        Err(fault) => {
            return Err(BenchRefused {
                plan,
                buffer,
                fault,
            });
        }
    };
    let position = first_position(plan.book());
    let parts = plan.into_parts();
    Ok(Bench {
        bus: parts.bus,
        rows: parts.rows,
        starts: tables.starts,
        sizes: tables.sizes,
        book: parts.book,
        buffer,
        position,
        released: None,
        started: None,
    })
}
