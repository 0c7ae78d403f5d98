// The pool: keeps what it is given in the order of arrival, and looks for the next at take.
ghost use Rattle.std.specs.Prelude.{◌≡◌, ℕ, ◌+◌, ◌<◌, ◌≤◌, IfOk, vec_len, vec_capacity, sum, slice_index_or};
ghost use Rattle.fields.specs.Limits.{highest};
ghost use Rattle.fields.specs.declared.limits.Field.TheVariants.{Frame, Priority};
ghost use Rattle.buffers.specs.Places.{Making, most_places, places_given};
ghost use Rattle.buffers.specs.Pooled.{pool_meaning, SoundPool, arrivals, all_places, free_places};
ghost use Rattle.buffers.specs.declared.pool.frame_places.FramePlaces.{FramePlaces};
ghost use Rattle.std.proofs.Common.{arith};
ghost use Rattle.buffers.specs.PoolLaws.{pool_in_range, read_ascends, none_outside};

use crate::buffer::{SendBuffer, in_range};
use crate::instance::Instance;
use crate::places::{MOST, fit, given};
use fields::limits::{Field, admits, limits_of};
use fields::refusal::{MakingFault, Place, Reason, Refusal};
use frame_places::FramePlaces;
use held::{Held, next_for};
use std::alloc::{AllocError, Global};

mod frame_places;
mod held;

// The places by frame number, and what is held, in the order of arrival.
#[derive(Drop)]
pub struct Pool {
    frames: Vec<FramePlaces>,
    held: Vec<Held>,
    ghost counted: { vec_len frames ≡ highest Frame + 1 },
    ghost few: { vec_len held + sum (free_places frames.items) ≤ most_places },
    ghost reserved: { most_places ≤ vec_capacity held },
}

// The places by frame number, all of them free.
fn frames(heap: Global, places: &[u16]) -> Result<Vec<FramePlaces>, AllocError>
    ensures sized { IfOk result (λ v. vec_len v ≡ highest Frame + 1) }
    ensures each { IfOk result (λ v. ((f : ℕ) (d : FramePlaces) → f < highest Frame + 1 →
        slice_index_or v.items f d ≡ record { all = places_given places.now f; free = places_given places.now f })) }
{
    let frames = limits_of(Field::Frame).high as usize + 1;
    (0..frames)
        .map(|frame| {
            let all = given(places, frame);
            FramePlaces { all, free: all }
        })
        .collect(heap)
}

impl Pool {
    // An empty pool with these places, the first of them for frame 1.
    pub fn new(heap: Global, places: &[u16]) -> Result<Pool, MakingFault>
        ensures { Making (λ b. pool_meaning (all_places b.frames.items) b.held.items)
            (λ b. SoundPool (all_places b.frames.items) (free_places b.frames.items) b.held.items) places.now result }
    {
        fit(places)?;
        let held = Vec::with_capacity(heap, MOST as usize)?;
        let frames = frames(heap, places)?;
        Ok(Pool { frames, held })
    }
}

// A frame out of range is told before anything is looked at.
impl SendBuffer for Pool {
    ghost meaning = { λ b. pool_meaning (all_places b.frames.items) b.held.items };

    ghost sound = { λ b. SoundPool (all_places b.frames.items) (free_places b.frames.items) b.held.items };

    ghost room = { λ b f sound. let all = sound.counted f in omega arith };

    ghost ordered = { λ b f sound. read_ascends (highest Priority) (arrivals f b.held.items) };

    ghost ranges = { λ b f sound. pool_in_range b.held.items f sound.in_range };

    ghost outside = { λ b f sound out. none_outside b.frames.items b.held.items f (omega arith) sound out };

    fn put(&mut self, frame: u16, instance: Instance) -> Result<(), Refusal> {
        if !in_range(frame, instance) {
            return Err(Place::Buffer.refuses(Reason::OutOfRange, u32::from(frame)));
        }
        let places = &mut self.frames[usize::from(frame)];
        if places.free == 0 {
            return Err(Place::Buffer.refuses(Reason::PlacesFull, u32::from(frame)));
        }
        places.free -= 1;
        self.held.push_reserved(Held { frame, instance });
        Ok(())
    }

    fn take(&mut self, frame: u16) -> Option<Instance> {
        if !admits(Field::Frame, u64::from(frame)) {
            return None;
        }
        let at = next_for(frame, self.held.as_slice())?;
        let places = self.frames.get_mut(usize::from(frame))?;
        places.free += 1;
        Some(self.held.remove(at).instance)
    }

    fn places_of(&self, frame: u16) -> u32 {
        if !admits(Field::Frame, u64::from(frame)) {
            return 0;
        }
        u32::from(self.frames[usize::from(frame)].all)
    }

    fn waiting_for(&self, frame: u16) -> u32 {
        if !admits(Field::Frame, u64::from(frame)) {
            return 0;
        }
        let places = &self.frames[usize::from(frame)];
        u32::from(places.all.saturating_sub(places.free))
    }
}
