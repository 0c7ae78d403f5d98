// A message as the table has it, and with its delay.
ghost use Rattle.std.specs.Prelude.{◌≤◌};
ghost use Rattle.fields.specs.Limits.{Admitted, highest};
ghost use Rattle.fields.specs.declared.limits.Field.TheVariants as field;

// A message of the table. Every figure is in its range, and its frame is not past the last start of its node.
#[derive(Clone, Copy)]
pub struct Entry {
    pub number: u16,
    pub frame: u16,
    pub node: u16,
    // 1 is the most urgent of its frame
    pub priority: u16,
    // C, in minislots
    pub size: u16,
    pub deadline: u32,
    // A, the last minislot in which the node may start to send
    pub latest: u16,
    ghost number_in: { Admitted field.Message number },
    ghost frame_in: { Admitted field.Frame frame },
    ghost node_in: { Admitted field.Node node },
    ghost priority_in: { Admitted field.Priority priority },
    ghost size_in: { Admitted field.Size size },
    ghost deadline_in: { Admitted field.Deadline deadline },
    ghost latest_in: { Admitted field.LastStart latest },
    ghost starts: { frame ≤ latest },
}

// A message with its delay, and its response: jitter and delay together.
#[derive(Clone, Copy)]
pub struct Row {
    pub entry: Entry,
    pub delay: u32,
    pub response: u32,
    ghost whole: { delay ≤ response },
    ghost timely: { response ≤ highest field.Deadline },
}
