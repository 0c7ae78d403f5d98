// What a pool holds, and where the next of a frame stands in it.
ghost use Rattle.buffers.specs.Pooled.{FindsNext};

use crate::instance::Instance;

// An instance with the frame that it waits for.
#[derive(Clone, Copy)]
pub struct Held {
    pub frame: u16,
    pub instance: Instance,
}

// The place of the instance that is to be sent next for the frame: the first of the most urgent.
pub fn next_for(frame: u16, held: &[Held]) -> Option<usize>
    ensures { FindsNext frame held.now result }
{
    held.iter()
        .enumerate()
        .filter(|(_, h)| h.frame == frame)
        .min_by_key(|(_, h)| h.instance.priority)
        .map(|(place, _)| place)
}
