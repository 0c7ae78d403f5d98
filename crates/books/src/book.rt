// What every release book is.
ghost use Rattle.std.specs.Prelude.{◌≡◌};
ghost use Rattle.books.specs.Book.{Book, Lawful, Released, Listed, Counted};

use fields::refusal::Refusal;

// The longest stretch that a count is answered for.
pub const LONGEST: u32 = 16_000_000;

// Figures that the book keeps for each message that it lists: the earliest time E of the next release, how long after
// a release E may lie at most (its rest), its jitter, and how many releases a stretch of some length may hold.
pub trait ReleaseBook {
    // the states of such books
    ghost book: { Book };

    // the state that a value stands for
    ghost meaning: { Self → book.State };

    // A release of the message, accepted when it does not come before E. A refusal leaves the state.
    fn release(&mut self, message: u16, time: u64) -> Result<(), Refusal>
        ensures { Released book (meaning self.old) message time result (meaning self.new) };

    fn lists(&self, message: u16) -> bool
        ensures { result ≡ book.lists (meaning self.now) message };

    fn earliest(&self, message: u16) -> Result<u64, Refusal>
        ensures { Listed book (meaning self.now) message (book.earliest (meaning self.now) message) result };

    fn rest(&self, message: u16) -> Result<u32, Refusal>
        ensures { Listed book (meaning self.now) message (book.rest (meaning self.now) message) result };

    fn jitter(&self, message: u16) -> Result<u32, Refusal>
        ensures { Listed book (meaning self.now) message (book.jitter (meaning self.now) message) result };

    // How many releases of the message a half-open stretch of the length may hold.
    fn count(&self, message: u16, length: u32) -> Result<u32, Refusal>
        ensures { Counted book (meaning self.now) message length result };

    ghost lawful: { Lawful book };

    ghost sound: { (x : Self) → book.Sound (meaning x) };
}
