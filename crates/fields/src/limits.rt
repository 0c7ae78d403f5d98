// The one table of limits. The text reader and the calls of drafts, books and buffers all consult it.
ghost use Rattle.std.specs.Prelude.{◌≡◌, Decides};
ghost use Rattle.fields.specs.Limits.{lowest, highest, place_of, Admitted, admitted};

// A figure that a table, a script or a call gives.
#[derive(Clone, Copy)]
pub enum Field {
    // G, the macroticks of a cycle
    Cycle,
    // S, where the first minislot begins in the cycle
    Offset,
    // L, the macroticks of a minislot
    Minislot,
    // Q, the minislots of the segment
    Minislots,
    Node,
    // A, the last minislot in which a node may start to send
    LastStart,
    // C, the minislots that a message takes
    Size,
    Message,
    Frame,
    // 1 is the most urgent
    Priority,
    Deadline,
    Period,
    Window,
    Jitter,
    // n, the releases that a window admits
    Releases,
    // the time of a release
    Time,
}

#[derive(Clone, Copy)]
pub struct Limits {
    pub low: u64,
    pub high: u64,
}

// By field, in the order of the enum. A match on the field would be one arm for each line here.
const LIMITS: [Limits; 16] = [
    Limits {
        low: 10,
        high: 16_000,
    },
    Limits {
        low: 0,
        high: 15_999,
    },
    Limits { low: 2, high: 63 },
    Limits {
        low: 1,
        high: 7_994,
    },
    Limits { low: 1, high: 64 },
    Limits {
        low: 1,
        high: 7_994,
    },
    Limits {
        low: 1,
        high: 7_994,
    },
    Limits { low: 1, high: 128 },
    Limits {
        low: 1,
        high: 2_047,
    },
    Limits { low: 1, high: 255 },
    Limits {
        low: 1,
        high: 4_000_000,
    },
    Limits {
        low: 1,
        high: 4_000_000,
    },
    Limits {
        low: 1,
        high: 4_000_000,
    },
    Limits {
        low: 0,
        high: 4_000_000,
    },
    Limits { low: 1, high: 16 },
    Limits {
        low: 0,
        high: 99_999_999_999,
    },
];

impl Field {
    // The field's place in the table. With the cast inside the index it could not be proved which limits are read.
    fn place(self) -> usize
        ensures { result ≡ place_of self }
    {
        self as usize
    }
}

// The least and the greatest value of a field.
pub fn limits_of(field: Field) -> Limits
    ensures low { result.low ≡ lowest field }
    ensures high { result.high ≡ highest field }
{
    LIMITS[field.place()]
}

// Whether a value lies within the limits of its field.
pub fn admits(field: Field, value: u64) -> bool
    ensures test { result ≡ admitted field value }
    ensures within { Decides result (Admitted field value) }
{
    let limits = limits_of(field);
    limits.low <= value && value <= limits.high
}
