// What a refusal says: why, where, and what it concerns.
ghost use Rattle.std.specs.Prelude.{◌≡◌};
ghost use Rattle.fields.specs.Refusals.{number_of, name_of};
ghost use Rattle.fields.specs.declared.refusal.MakingFault.TheVariants.{Refused as refusedBy, Memory};

use std::alloc::AllocError;

// The reasons of refusal, by the number that each has in every text.
#[derive(Clone, Copy, PartialEq, Eq, Debug)]
pub enum Reason {
    TextTooLong = 1,
    WrongFirstLine = 2,
    Malformed = 3,
    OutOfRange = 4,
    NumberUsed = 5,
    NodeUnknown = 6,
    SegmentTooLong = 7,
    FrameOfAnotherNode = 8,
    PriorityUsed = 9,
    SizeTooLong = 10,
    FrameAfterLastStart = 11,
    NotInBook = 12,
    NoDelay = 13,
    TooFewPlaces = 14,
    NotFresh = 15,
    NotListed = 16,
    TimeNotAllowed = 17,
    TooEarly = 18,
    CyclesOver = 19,
    PlacesFull = 20,
}

// The number of a reason.
impl From<Reason> for u8 {
    ghost from_gives = { λ reason n. n ≡ number_of reason };

    fn from(reason: Reason) -> u8 {
        reason as u8
    }
}

// Where a refusal was spoken.
#[derive(Clone, Copy, PartialEq, Eq, Debug)]
pub enum Place {
    Text,
    Draft,
    Plan,
    SettingUp,
    Bench,
    Book,
    Buffer,
}

impl Place {
    // The name. A Display could fail, and this cannot.
    pub fn name(self) -> &'static str
        ensures { result.now ≡ name_of self }
    {
        match self {
            Place::Text => "text",
            Place::Draft => "draft",
            Place::Plan => "plan",
            Place::SettingUp => "setting up",
            Place::Bench => "bench",
            Place::Book => "book",
            Place::Buffer => "buffer",
        }
    }

    // A refusal that is spoken here.
    pub fn refuses(self, reason: Reason, concerns: u32) -> Refusal
        ensures { result ≡ record { reason = reason; place = self; concerns = concerns } }
    {
        Refusal {
            reason,
            place: self,
            concerns,
        }
    }
}

// A refusal. What it concerns is a line, a message, a node, a frame or a cycle, as the reason and the place have it,
// and 0 for a figure of the bus: the number that every text has for it.
#[derive(Clone, Copy, PartialEq, Eq, Debug)]
pub struct Refusal {
    pub reason: Reason,
    pub place: Place,
    pub concerns: u32,
}

// Why something was not made: it was refused, or there was no memory for it.
#[derive(Clone, Copy, PartialEq, Eq, Debug)]
pub enum MakingFault {
    Refused(Refusal),
    Memory,
}

impl From<Refusal> for MakingFault {
    ghost from_gives = { λ e r. r ≡ refusedBy e };

    fn from(e: Refusal) -> MakingFault {
        MakingFault::Refused(e)
    }
}

impl From<AllocError> for MakingFault {
    ghost from_gives = { λ _ r. r ≡ Memory };

    fn from(_e: AllocError) -> MakingFault {
        MakingFault::Memory
    }
}
