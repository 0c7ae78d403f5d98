// The ranked buffer: orders at put. Each frame has a queue of its own, in sending order.
ghost use Rattle.std.specs.Prelude.{◌≡◌, ℕ, ◌+◌, ◌<◌, [], IfOk, vec_len};
ghost use Rattle.fields.specs.Limits.{highest};
ghost use Rattle.fields.specs.declared.limits.Field.TheVariants.{Frame};
ghost use Rattle.buffers.specs.Places.{Making, places_given};
ghost use Rattle.buffers.specs.Queues.{places_in, waiting_in, meaning_of, SoundQueues};
ghost use Rattle.buffers.specs.QueueLaws.{queues_room, none_outside};
ghost use Rattle.std.proofs.Common.{arith};

use crate::buffer::{SendBuffer, in_range};
use crate::instance::Instance;
use crate::places::{fit, given};
use fields::limits::{Field, admits, limits_of};
use fields::refusal::{MakingFault, Place, Reason, Refusal};
use queue::FrameQueue;
use std::alloc::{AllocError, Global};

mod queue;

// The queues by frame number. That of frame 0 has no places, since frames begin at 1.
#[derive(Drop)]
pub struct RankedBuffer {
    queues: Vec<FrameQueue>,
    ghost sized: { vec_len queues ≡ highest Frame + 1 },
}

// An empty queue for each frame, with its places.
fn queues(heap: Global, places: &[u16]) -> Result<Vec<FrameQueue>, AllocError>
    ensures sized { IfOk result (λ v. vec_len v ≡ highest Frame + 1) }
    ensures places { IfOk result (λ v. ((f : ℕ) → f < highest Frame + 1 → places_in v.items f ≡ places_given places.now f)) }
    ensures nothing { IfOk result (λ v. ((f : ℕ) → waiting_in v.items f ≡ [])) }
{
    // no try_collect: it takes no room beforehand, and the making took twice the time
    let frames = limits_of(Field::Frame).high as usize + 1;
    let mut queues = Vec::with_capacity(heap, frames)?;
    for frame in 0..frames {
        queues.push(FrameQueue::new(heap, given(places, frame))?)?;
    }
    Ok(queues)
}

impl RankedBuffer {
    // An empty buffer with these places, the first of them for frame 1.
    pub fn new(heap: Global, places: &[u16]) -> Result<RankedBuffer, MakingFault>
        ensures { Making (λ b. meaning_of b.queues.items) (λ b. SoundQueues b.queues.items) places.now result }
    {
        fit(places)?;
        let queues = queues(heap, places)?;
        Ok(RankedBuffer { queues })
    }
}

// The calls differ in the method that they ask of a queue: a closure in its place would be longer than the call. No `get`: an index
// that is proved costs nothing, and where joint buffers nest, each question took up to five times as long with it.
impl SendBuffer for RankedBuffer {
    ghost meaning = { λ b. meaning_of b.queues.items };

    ghost sound = { λ b. SoundQueues b.queues.items };

    ghost room = { λ b f sound. queues_room b.queues.items f };

    ghost ordered = { λ b f sound. sound.ordered f };

    ghost ranges = { λ b f sound. sound.in_range f };

    ghost outside = { λ b f sound out. none_outside b.queues.items f (omega arith) sound out };

    fn put(&mut self, frame: u16, instance: Instance) -> Result<(), Refusal> {
        if !in_range(frame, instance) {
            return Err(Place::Buffer.refuses(Reason::OutOfRange, u32::from(frame)));
        }
        let full = Place::Buffer.refuses(Reason::PlacesFull, u32::from(frame));
        self.queues[usize::from(frame)]
            .put(instance)
            .map_err(|_| full)
    }

    fn take(&mut self, frame: u16) -> Option<Instance> {
        if !admits(Field::Frame, u64::from(frame)) {
            return None;
        }
        self.queues[usize::from(frame)].take()
    }

    fn places_of(&self, frame: u16) -> u32 {
        if !admits(Field::Frame, u64::from(frame)) {
            return 0;
        }
        self.queues[usize::from(frame)].places()
    }

    fn waiting_for(&self, frame: u16) -> u32 {
        if !admits(Field::Frame, u64::from(frame)) {
            return 0;
        }
        self.queues[usize::from(frame)].waiting()
    }
}
