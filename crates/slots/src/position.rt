// Where a bench stands, and its clock.

// The cycle, and in it the minislot and the slot that come next.
#[derive(Clone, Copy, PartialEq, Eq)]
pub struct Position {
    pub cycle: u32,
    pub minislot: u16,
    pub slot: u16,
}
