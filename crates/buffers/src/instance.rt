// One release of one message, as it waits to be sent.
ghost use Rattle.std.specs.Prelude.{nat_le};
ghost use Rattle.std.proofs.Common.{rules};

use ranked::Rank;

// The message, its priority (1 is the most urgent of its frame) and the time of the release.
#[derive(Clone, Copy, PartialEq, Eq, Debug)]
pub struct Instance {
    pub message: u16,
    pub priority: u16,
    pub release: u64,
}

impl Rank for Instance {
    ghost upto = { λ x y. nat_le x.priority y.priority };

    ghost total = { Prim.search rules };

    ghost transitive = { Prim.search rules };

    fn is_upto(&self, other: &Instance) -> bool {
        self.priority <= other.priority
    }
}
