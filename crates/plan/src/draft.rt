// A table as it is put together.
ghost use Rattle.std.specs.Prelude.{◌≡◌, ◌≤◌, true, vec_len, vec_capacity};
ghost use Rattle.plan.specs.Entries.{apart, ascends, every, none_clash, nodes_clash, priorities_clash, ends_within, starts_as_node, nodes_fit};

use delay::bus::Bus;
use delay::entry::Entry;

// The bus, the nodes and the messages that were accepted so far.
#[derive(Drop)]
pub struct Draft {
    pub(crate) bus: Bus,
    // by number: the last start of each node that the draft has
    pub(crate) nodes: Vec<Option<u16>>,
    // by frame, then by priority
    pub(crate) entries: Vec<Entry>,
    ghost all_nodes: { vec_len nodes ≡ 65 },
    ghost starts: { nodes_fit nodes.items ≡ true },
    ghost room: { 128 ≤ vec_capacity entries },
    ghost numbers: { apart entries.items ≡ true },
    ghost order: { ascends entries.items ≡ true },
    ghost one_node: { none_clash nodes_clash entries.items ≡ true },
    ghost one_priority: { none_clash priorities_clash entries.items ≡ true },
    ghost sizes: { every (ends_within bus.minislots) entries.items ≡ true },
    ghost latest: { every (starts_as_node nodes.items) entries.items ≡ true },
}

// A message as it is given to a draft.
#[derive(Clone, Copy)]
pub struct Message {
    pub number: u16,
    pub frame: u16,
    pub node: u16,
    pub priority: u16,
    pub size: u16,
    pub deadline: u32,
}
