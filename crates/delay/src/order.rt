// Entries stand by frame, then by priority.
ghost use Rattle.delay.specs.Order.{by_frame};
ghost use Rattle.std.proofs.Common.{rules};

use crate::entry::Entry;
use ranked::Rank;

impl Rank for Entry {
    ghost upto = { by_frame };

    ghost total = { Prim.search rules };

    ghost transitive = { Prim.search rules };

    fn is_upto(&self, other: &Entry) -> bool {
        (self.frame, self.priority) <= (other.frame, other.priority)
    }
}
