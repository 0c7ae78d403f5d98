// What every send buffer is.
ghost use Rattle.std.specs.Prelude.{◌≡◌, ℕ, ◌≤◌, true, ◌&&◌, length};
ghost use Rattle.std.specs.List.{AllByRecursion};
ghost use Rattle.fields.specs.Limits.{Admitted, admitted};
ghost use Rattle.fields.specs.declared.limits.Field.TheVariants.{Frame};
ghost use Rattle.ranked.specs.Ranks.{Ascending};
ghost use Rattle.buffers.specs.Buffer.{Meaning, upto, sendable, Putting, Taking};

use crate::instance::Instance;
use fields::limits::{Field, admits};
use fields::refusal::Refusal;

// Instances that wait to be sent, frame by frame, each frame with a fixed number of places.
pub trait SendBuffer {
    // the places of each frame, and what waits for it, in sending order
    ghost meaning: { Self → Meaning };

    // whether the value is one that a making and calls can lead to: all that is said here is said of sound buffers. It is no
    // invariant of a type: a layer on top says by it when its own figures agree with the lists, and a call is safe without it
    ghost sound: { Self → Type 0 };

    // One more instance for the frame: behind all of equal or smaller priority number, and before the rest. Where a value is
    // out of range, or the places are full, it is refused, and nothing changes.
    fn put(&mut self, frame: u16, instance: Instance) -> Result<(), Refusal>
        ensures effect { sound self.old → Putting (meaning self.old) frame instance result (meaning self.new) }
        ensures sound { sound self.old → sound self.new };

    // The first instance that waits for the frame, taken out.
    fn take(&mut self, frame: u16) -> Option<Instance>
        ensures effect { sound self.old → Taking (meaning self.old) frame result (meaning self.new) }
        ensures sound { sound self.old → sound self.new };

    fn places_of(&self, frame: u16) -> u32
        ensures { sound self.now → result ≡ (meaning self.now).places frame };

    // How many instances wait for the frame.
    fn waiting_for(&self, frame: u16) -> u32
        ensures { sound self.now → result ≡ length ((meaning self.now).waiting frame) };

    ghost room: { (x : Self) (f : ℕ) → sound x → length ((meaning x).waiting f) ≤ (meaning x).places f };

    ghost ordered: { (x : Self) (f : ℕ) → sound x → Ascending upto ((meaning x).waiting f) };

    ghost ranges: { (x : Self) (f : ℕ) → sound x → AllByRecursion (λ y. sendable y ≡ true) ((meaning x).waiting f) };

    ghost outside: { (x : Self) (f : ℕ) → sound x → (Admitted Frame f → ⊥) → (meaning x).places f ≡ 0 };
}

// Whether the frame and every value of the instance is in range.
pub(crate) fn in_range(frame: u16, instance: Instance) -> bool
    ensures { result ≡ (admitted Frame frame && sendable instance) }
{
    admits(Field::Frame, u64::from(frame))
        && admits(Field::Message, u64::from(instance.message))
        && admits(Field::Priority, u64::from(instance.priority))
        && admits(Field::Time, instance.release)
}
