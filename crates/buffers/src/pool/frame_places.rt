// What a pool keeps for each frame.

// The places of a frame, and how many of them are free.
#[derive(Clone, Copy)]
pub struct FramePlaces {
    pub all: u16,
    pub free: u16,
}
