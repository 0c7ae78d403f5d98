// The books that keep a row for each message: the rows by message number, and the checks of each call.
ghost use Rattle.std.specs.Prelude.{◌≡◌, ℕ, ◌+◌, ◌≤◌, false, is_some, IfOk, None, Option, vec_len, slice_index_or};
ghost use Rattle.std.specs.Option.{option_map, unwrap_or};
ghost use Rattle.fields.specs.Limits.{Admitted, highest};
ghost use Rattle.fields.specs.declared.limits.Field.TheVariants.{Message, Time};
ghost use Rattle.books.specs.Book.{longest, Fresh};
ghost use Rattle.books.specs.Listing.{RowListed, Making};
ghost use Rattle.books.specs.Rows.{Kind, RowLaws, Found, row_at, row_book, rows_for};
ghost use Rattle.books.specs.Places.{rows_sound};
ghost use Rattle.books.specs.RowBook.{row_book_lawful};
ghost use Rattle.std.proofs.Common.{rules};

use crate::book::{LONGEST, ReleaseBook};
use fields::limits::{Field, admits, limits_of};
use fields::refusal::{MakingFault, Place, Reason, Refusal};
use std::alloc::{AllocError, Global};

// What a kind of book keeps for one message.
pub trait MessageRow: Copy {
    // a message as a new book of the kind lists it
    type Message: Copy;

    // the rows of such books
    ghost kind: { Kind };

    // the row that a value stands for
    ghost figures: { Self → kind.Row };

    ghost number: { Self.Message → ℕ };

    // the row that a message begins with: none where a figure is out of range
    ghost begins: { Self.Message → Option kind.Row };

    fn number_of(message: Self::Message) -> u16
        ensures { result ≡ number message };

    // The row that the message begins with, where its figures are in range.
    fn first(message: Self::Message) -> Option<Self>
        ensures { option_map figures result ≡ begins message };

    fn earliest(self) -> u64
        ensures { result ≡ kind.earliest (figures self) };

    fn rest(self) -> u32
        ensures { result ≡ kind.rest (figures self) };

    fn jitter(self) -> u32
        ensures { result ≡ kind.jitter (figures self) };

    fn count(self, length: u32) -> u32
        requires { length ≤ longest }
        ensures { result ≡ kind.count (figures self) length };

    // The row after a release that does not come before E.
    fn released(self, time: u64) -> Self
        requires { (Admitted Time time) × (kind.earliest (figures self) ≤ time) }
        ensures { figures result ≡ kind.after (figures self) time };

    ghost lawful: { RowLaws kind };

    ghost sound: { (x : Self) → kind.Sound (figures x) };

    // a new row admits a release at once
    ghost at_once: { (m : Self.Message) → unwrap_or (option_map kind.earliest (begins m)) 0 ≡ 0 };
}

// A book of rows, by message number. Place 0 is never used, since numbers begin at 1.
#[derive(Drop)]
pub struct RowBook<R> {
    places: Vec<Option<R>>,
    ghost sized: { vec_len places ≡ highest Message + 1 },
    ghost spare: { is_some (slice_index_or places.items 0 None) ≡ false },
}

impl<R: MessageRow> RowBook<R> {
    // A book of these messages, none of them released yet. The first that is wrong is refused: out of range, or listed
    // before.
    pub fn new(heap: Global, messages: &[R::Message]) -> Result<RowBook<R>, MakingFault>
        ensures making { Making R.number R.begins (λ b. rows_for R.figures b.places.items) messages.now result }
        ensures fresh { IfOk result (λ b. Fresh (row_book R.kind) (rows_for R.figures b.places.items)) }
    {
        let mut book = RowBook::empty(heap)?;
        for message in messages {
            book.list(R::number_of(*message), R::first(*message))?;
        }
        Ok(book)
    }

    // A book of no message.
    fn empty(heap: Global) -> Result<RowBook<R>, AllocError>
        ensures { IfOk result (λ b. ((n : ℕ) → row_at (rows_for R.figures b.places.items) n ≡ None)) }
    {
        let size = limits_of(Field::Message).high as usize + 1;
        let places = vec![in heap; None; size]?;
        Ok(RowBook { places })
    }

    // One message more, with the row that it begins with: none where a figure is out of range.
    fn list(&mut self, message: u16, row: Option<R>) -> Result<(), Refusal>
        ensures { RowListed (rows_for R.figures self.old.places.items) message (option_map R.figures row) result (rows_for R.figures self.new.places.items) }
    {
        if !admits(Field::Message, message.into()) || row.is_none() {
            return Err(Place::Book.refuses(Reason::OutOfRange, message.into()));
        }
        if self.row(message).is_some() {
            return Err(Place::Book.refuses(Reason::NumberUsed, message.into()));
        }
        self.places[usize::from(message)] = row;
        Ok(())
    }

    // The row of a message, where the book lists it.
    fn row(&self, message: u16) -> Option<R>
        ensures { row_at (rows_for R.figures self.now.places.items) message ≡ option_map R.figures result }
    {
        *self.places.get(usize::from(message))?
    }

    // The row of a message, by the checks that every question begins with.
    fn find(&self, message: u16) -> Result<R, Refusal>
        ensures { Found R.kind R.figures self.now.places.items message result }
    {
        if !admits(Field::Message, message.into()) {
            return Err(Place::Book.refuses(Reason::OutOfRange, message.into()));
        }
        self.row(message)
            .ok_or(Place::Book.refuses(Reason::NotListed, message.into()))
    }
}

// The questions differ in the method that they ask of a row: a closure in its place would be longer than the call.
impl<R: MessageRow> ReleaseBook for RowBook<R> {
    ghost book = { row_book R.kind };

    ghost meaning = { λ t. rows_for R.figures t.places.items };

    ghost lawful = { row_book_lawful R.kind R.lawful };

    ghost sound = { λ t. rows_sound R.kind R.figures R.sound t.places.items (Prim.search rules) t.spare };

    fn release(&mut self, message: u16, time: u64) -> Result<(), Refusal> {
        if !admits(Field::Time, time) {
            return Err(Place::Book.refuses(Reason::OutOfRange, message.into()));
        }
        let row = self.find(message)?;
        if time < row.earliest() {
            return Err(Place::Book.refuses(Reason::TooEarly, message.into()));
        }
        self.places[usize::from(message)] = Some(row.released(time));
        Ok(())
    }

    fn lists(&self, message: u16) -> bool {
        self.row(message).is_some()
    }

    fn earliest(&self, message: u16) -> Result<u64, Refusal> {
        Ok(self.find(message)?.earliest())
    }

    fn rest(&self, message: u16) -> Result<u32, Refusal> {
        Ok(self.find(message)?.rest())
    }

    fn jitter(&self, message: u16) -> Result<u32, Refusal> {
        Ok(self.find(message)?.jitter())
    }

    fn count(&self, message: u16, length: u32) -> Result<u32, Refusal> {
        if length > LONGEST {
            return Err(Place::Book.refuses(Reason::OutOfRange, message.into()));
        }
        Ok(self.find(message)?.count(length))
    }
}
