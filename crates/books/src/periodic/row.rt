// What the periodic book keeps for one message.
ghost use Rattle.std.specs.Prelude.{◌+◌, ◌≤◌};
ghost use Rattle.fields.specs.Limits.{Admitted};
ghost use Rattle.fields.specs.declared.limits.Field.TheVariants.{Period, Jitter, Time};

#[derive(Clone, Copy)]
pub struct PeriodicRow {
    pub period: u32,
    pub jitter: u32,
    // the time of the last release; 0 before the first, as E begins at 0
    pub last: u64,
    // the least nominal time of the next, which is 0 at first
    pub next: u64,
    // all are in range, so that sums of them fit
    ghost figures: { Admitted Period period × Admitted Jitter jitter × Admitted Time last },
    // E lies a period after the last release at most
    ghost soon: { next ≤ last + jitter + period },
}
