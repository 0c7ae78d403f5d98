// The joint buffer: two buffers side by side, of any kinds.
ghost use Rattle.std.specs.Prelude.{◌≡◌, nat_lt};
ghost use Rattle.buffers.specs.Joint.{joined, sides};
ghost use Rattle.std.proofs.Common.{rules};

use crate::buffer::SendBuffer;
use crate::instance::Instance;
use fields::refusal::Refusal;

// The left serves a frame for which it has places, the right the others.
#[derive(Drop)]
pub struct JointBuffer<L, R> {
    left: L,
    right: R,
}

impl<L: SendBuffer, R: SendBuffer> JointBuffer<L, R> {
    // The buffer of both, with what waits in each.
    pub fn new(left: L, right: R) -> JointBuffer<L, R>
        ensures parts { sides L.meaning R.meaning result ≡ joined (L.meaning left) (R.meaning right) }
        ensures sound { L.sound left → R.sound right → L.sound result.left × R.sound result.right }
    {
        JointBuffer { left, right }
    }

    // Whether the left serves a frame.
    fn left_serves(&self, frame: u16) -> bool
        ensures { L.sound self.now.left → result ≡ nat_lt 0 ((L.meaning self.now.left).places frame) }
    {
        self.left.places_of(frame) > 0
    }
}

// The calls differ in the method that they ask of a side: a closure in its place would be longer than the call.
impl<L: SendBuffer, R: SendBuffer> SendBuffer for JointBuffer<L, R> {
    ghost meaning = { sides L.meaning R.meaning };

    ghost sound = { λ j. L.sound j.left × R.sound j.right };

    ghost room = { Prim.search rules };

    ghost ordered = { Prim.search rules };

    ghost ranges = { Prim.search rules };

    ghost outside = { Prim.search rules };

    fn put(&mut self, frame: u16, instance: Instance) -> Result<(), Refusal> {
        if self.left_serves(frame) {
            self.left.put(frame, instance)
        } else {
            self.right.put(frame, instance)
        }
    }

    fn take(&mut self, frame: u16) -> Option<Instance> {
        if self.left_serves(frame) {
            self.left.take(frame)
        } else {
            self.right.take(frame)
        }
    }

    fn places_of(&self, frame: u16) -> u32 {
        // the left is asked once: joint buffers may stand on the left of one another, and each level would double the questions
        let places = self.left.places_of(frame);
        if places > 0 {
            places
        } else {
            self.right.places_of(frame)
        }
    }

    fn waiting_for(&self, frame: u16) -> u32 {
        if self.left_serves(frame) {
            self.left.waiting_for(frame)
        } else {
            self.right.waiting_for(frame)
        }
    }
}
