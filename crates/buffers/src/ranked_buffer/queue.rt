// What waits for one frame, in order of priority. All its room is taken when it is made.
ghost use Rattle.std.specs.Prelude.{◌≡◌, ◌^◌, ◌<◌, ◌≤◌, [], ◌∷◌, length, is_ok, IfOk, vec_len, vec_capacity, MatchResult, nat_lt};
ghost use Rattle.std.specs.Option as options;
ghost use Rattle.ranked.specs.Ranks.{Ascending, Placed};
ghost use Rattle.buffers.specs.Buffer.{upto};

use crate::instance::Instance;
use ranked::insert;
use std::alloc::{AllocError, Global};

#[derive(Drop)]
pub struct FrameQueue {
    places: u16,
    list: Vec<Instance>,
    ghost small: { places < 2 ^ 16 },
    ghost room: { vec_len list ≤ places },
    ghost reserved: { places ≤ vec_capacity list },
}

impl FrameQueue {
    // An empty queue with so many places.
    pub fn new(heap: Global, places: u16) -> Result<FrameQueue, AllocError>
        ensures { IfOk result (λ q. (q.places ≡ places) × (q.list.items ≡ [])) }
    {
        let list = Vec::with_capacity(heap, usize::from(places))?;
        Ok(FrameQueue { places, list })
    }

    // One more instance, behind all of equal or smaller priority number. Where no place is free it comes back.
    pub fn put(&mut self, instance: Instance) -> Result<(), Instance>
        ensures free { is_ok result ≡ nat_lt (length self.old.list.items) self.old.places }
        ensures placed { MatchResult result
            (λ _. Placed upto instance self.old.list.items self.new.list.items)
            (λ _. self.new.list.items ≡ self.old.list.items) }
        ensures ordered { Ascending upto self.old.list.items → Ascending upto self.new.list.items }
        ensures places { self.new.places ≡ self.old.places }
    {
        if self.list.len() >= usize::from(self.places) {
            return Err(instance);
        }
        insert(&mut self.list, instance)
    }

    // The first instance, taken out.
    pub fn take(&mut self) -> Option<Instance>
        ensures first { options.MatchOption result
            ((self.old.list.items ≡ []) × (self.new.list.items ≡ []))
            (λ x. self.old.list.items ≡ x ∷ self.new.list.items) }
        ensures places { self.new.places ≡ self.old.places }
    {
        // ranked::insert works on a Vec, and a Vec's remove(0) asks for a first element
        if self.list.is_empty() {
            return None;
        }
        Some(self.list.remove(0))
    }

    pub fn places(&self) -> u32
        ensures { result ≡ self.now.places }
    {
        u32::from(self.places)
    }

    // How many instances wait.
    pub fn waiting(&self) -> u32
        ensures { result ≡ length self.now.list.items }
    {
        self.list.len() as u32
    }
}
