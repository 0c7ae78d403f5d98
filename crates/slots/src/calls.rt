// What a bench is asked, and what it answers.
use fields::refusal::Refusal;

// A release of a message at a time, the run of one slot, or the question where the bench stands.
#[derive(Clone, Copy, PartialEq, Eq)]
pub enum Call {
    Release { message: u16, time: u64 },
    SlotRun,
    Position,
}

// What a slot sent: a release of the message, and when its transmission ends.
#[derive(Clone, Copy, PartialEq, Eq)]
pub struct Sent {
    pub message: u16,
    pub release: u64,
    pub finish: u64,
}

// A slot that was run: when it began, and what it sent, if anything.
#[derive(Clone, Copy, PartialEq, Eq)]
pub struct SlotReport {
    pub cycle: u32,
    pub slot: u16,
    pub start: u64,
    pub sent: Option<Sent>,
}

// The answer to each call; to the question, the pair of cycle and minislot.
#[derive(Clone, Copy, PartialEq, Eq)]
pub enum Answer {
    Released(Result<(), Refusal>),
    Ran(Result<SlotReport, Refusal>),
    At((u32, u16)),
}
