// The figures of the bus.
ghost use Rattle.std.specs.Prelude.{◌+◌, ◌*◌, ◌≤◌};
ghost use Rattle.fields.specs.Limits.{Admitted};
ghost use Rattle.fields.specs.declared.limits.Field.TheVariants as field;

// Every figure is in its range, and the segment of minislots ends within the cycle.
#[derive(Clone, Copy)]
pub struct Bus {
    // G, macroticks
    pub cycle: u16,
    // S, where the first minislot begins in the cycle
    pub offset: u16,
    // L, macroticks of a minislot
    pub minislot: u16,
    // Q, minislots in the segment
    pub minislots: u16,
    ghost cycle_in: { Admitted field.Cycle cycle },
    ghost offset_in: { Admitted field.Offset offset },
    ghost minislot_in: { Admitted field.Minislot minislot },
    ghost minislots_in: { Admitted field.Minislots minislots },
    ghost segment: { offset + minislots * minislot ≤ cycle },
}
