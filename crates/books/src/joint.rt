// The joint book: two books side by side, of any kinds.
ghost use Rattle.std.specs.Prelude.{IfOk};
ghost use Rattle.books.specs.Book.{Fresh};
ghost use Rattle.books.specs.Joint.{joined, sides, Sharing, Joining};
ghost use Rattle.books.specs.JointLaws.{joined_lawful};
ghost use Rattle.std.proofs.Common.{rules};

use crate::book::ReleaseBook;
use fields::limits::{Field, limits_of};
use fields::refusal::{Place, Reason, Refusal};

// The left serves what it lists, the right the rest.
#[derive(Drop)]
pub struct JointBook<L, R> {
    left: L,
    right: R,
}

// Two books that list a message both, and the refusal to join them.
#[derive(Drop)]
pub struct JointRefused<L, R> {
    pub left: L,
    pub right: R,
    pub refusal: Refusal,
}

// The lowest message that both list. The bench has such searches too: one for both crates would be a public call that asks its
// caller for a closure, and no public call here asks anything.
fn shared<L: ReleaseBook, R: ReleaseBook>(left: &L, right: &R) -> Option<u16>
    ensures { Sharing L.book R.book (L.meaning left.now) (R.meaning right.now) result }
{
    let limits = limits_of(Field::Message);
    let mut numbers = limits.low as u16..limits.high as u16 + 1;
    numbers.find(|message| left.lists(*message) && right.lists(*message))
}

impl<L: ReleaseBook, R: ReleaseBook> JointBook<L, R> {
    // The book of both, unless they share a message.
    pub fn new(left: L, right: R) -> Result<JointBook<L, R>, JointRefused<L, R>>
        ensures making { Joining L.book R.book L.meaning R.meaning left right result }
        ensures fresh { IfOk result (λ j. Fresh L.book (L.meaning left) → Fresh R.book (R.meaning right) → Fresh (joined L.book R.book) (sides L.meaning R.meaning j)) }
    {
        match shared(&left, &right) {
            None => Ok(JointBook { left, right }),
            Some(message) => Err(JointRefused {
                left,
                right,
                refusal: Place::Book.refuses(Reason::NumberUsed, message.into()),
            }),
        }
    }
}

// The questions differ in the method that they ask of a side: a closure in its place would be longer than the call.
impl<L: ReleaseBook, R: ReleaseBook> ReleaseBook for JointBook<L, R> {
    ghost book = { joined L.book R.book };

    ghost meaning = { sides L.meaning R.meaning };

    ghost lawful = { joined_lawful L.book R.book L.lawful R.lawful };

    ghost sound = { Prim.search rules };

    fn release(&mut self, message: u16, time: u64) -> Result<(), Refusal> {
        if self.left.lists(message) {
            self.left.release(message, time)
        } else {
            self.right.release(message, time)
        }
    }

    fn lists(&self, message: u16) -> bool {
        self.left.lists(message) || self.right.lists(message)
    }

    fn earliest(&self, message: u16) -> Result<u64, Refusal> {
        if self.left.lists(message) {
            self.left.earliest(message)
        } else {
            self.right.earliest(message)
        }
    }

    fn rest(&self, message: u16) -> Result<u32, Refusal> {
        if self.left.lists(message) {
            self.left.rest(message)
        } else {
            self.right.rest(message)
        }
    }

    fn jitter(&self, message: u16) -> Result<u32, Refusal> {
        if self.left.lists(message) {
            self.left.jitter(message)
        } else {
            self.right.jitter(message)
        }
    }

    fn count(&self, message: u16, length: u32) -> Result<u32, Refusal> {
        if self.left.lists(message) {
            self.left.count(message, length)
        } else {
            self.right.count(message, length)
        }
    }
}
