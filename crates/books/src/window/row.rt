// What the window book keeps for one message.
ghost use Rattle.std.specs.Prelude.{ℕ, ◌+◌, ◌≤◌, slice_index};
ghost use Rattle.fields.specs.Limits.{Admitted};
ghost use Rattle.fields.specs.declared.limits.Field.TheVariants.{Releases, Window, Time};

#[derive(Clone, Copy)]
pub struct WindowRow {
    // how many releases a window holds
    pub releases: u16,
    pub window: u32,
    // the time of the last release; 0 before the first, as E begins at 0
    pub last: u64,
    // when the windows end that the last sixteen releases began, newest first: 0 where there was none, which is what E takes
    // then, so an Option would only be turned into 0 where it is read
    pub ends: [u64; 16],
    // all are in range, so that sums of them fit
    ghost figures: { Admitted Releases releases × Admitted Window window × Admitted Time last },
    // E lies a window after the last release at most
    ghost near: { (k : ℕ) → slice_index ends k ≤ last + window },
}
