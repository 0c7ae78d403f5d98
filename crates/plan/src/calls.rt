// The calls of a draft: the bus, a node, a message.
ghost use Rattle.std.specs.Prelude.{◌≡◌, ◌<◌, true, ◌||◌, IfSome, Some, None, MatchResult, OnErr};
ghost use Rattle.fields.specs.Limits.{admitted, Admitted};
ghost use Rattle.fields.specs.Refusals.{first_reason, Verdict, Made};
ghost use Rattle.fields.specs.declared.limits.Field.TheVariants as field;
ghost use Rattle.fields.specs.declared.refusal.Place.TheVariants as place;
ghost use Rattle.plan.specs.Entries.{some, numbered};
ghost use Rattle.plan.specs.Drafts.{latest_start_of, entries_of, bus_checks, IsBus, Begun, node_checks, NodeAdded, in_range, InRange, of_another_node, as_urgent, clashing, message_checks, Describes, MessageAdded};

use crate::draft::{Draft, Message};
use delay::bus::Bus;
use delay::entry::Entry;
use fields::limits::{Field, admits};
use fields::refusal::{MakingFault, Place, Reason, Refusal};
use ranked::insert;
use std::alloc::Global;

// The bus of these figures, where they are in range and its segment ends within the cycle. They come as four: a struct of them
// would be a Bus once more, without what holds of it.
fn bus_of(cycle: u16, offset: u16, minislot: u16, minislots: u16) -> Result<Bus, Refusal>
    ensures { Verdict (bus_checks cycle offset minislot minislots) place.Draft 0 (λ b. IsBus b cycle offset minislot minislots) result }
{
    let in_range = admits(Field::Cycle, u64::from(cycle))
        && admits(Field::Offset, u64::from(offset))
        && admits(Field::Minislot, u64::from(minislot))
        && admits(Field::Minislots, u64::from(minislots));
    if !in_range {
        return Err(Place::Draft.refuses(Reason::OutOfRange, 0));
    }
    if u64::from(offset) + u64::from(minislots) * u64::from(minislot) > u64::from(cycle) {
        return Err(Place::Draft.refuses(Reason::SegmentTooLong, 0));
    }
    Ok(Bus {
        cycle,
        offset,
        minislot,
        minislots,
    })
}

fn all_in_range(m: &Message) -> bool
    ensures test { result ≡ in_range m.now }
    ensures within { result ≡ true → InRange m.now }
{
    admits(Field::Message, u64::from(m.number))
        && admits(Field::Frame, u64::from(m.frame))
        && admits(Field::Node, u64::from(m.node))
        && admits(Field::Priority, u64::from(m.priority))
        && admits(Field::Size, u64::from(m.size))
        && admits(Field::Deadline, u64::from(m.deadline))
}

impl Draft {
    // A draft of a bus, with all the room that it will need.
    pub fn new(
        heap: Global,
        cycle: u16,
        offset: u16,
        minislot: u16,
        minislots: u16,
    ) -> Result<Draft, MakingFault>
        ensures { Made (bus_checks cycle offset minislot minislots) place.Draft 0 (λ d. Begun d cycle offset minislot minislots) result }
    {
        let bus = bus_of(cycle, offset, minislot, minislots)?;
        // up to the highest node, and the most messages: literals, since an array has a length that is written, and a draft's
        // ghost fields tie both
        let nodes = Vec::from_slice(heap, &[None; 65])?;
        let entries = Vec::with_capacity(heap, 128)?;
        Ok(Draft {
            bus,
            nodes,
            entries,
        })
    }

    // One node more, with the last minislot in which it may start to send.
    pub fn node(&mut self, number: u16, latest: u16) -> Result<(), Refusal>
        ensures verdict { Verdict (node_checks self.old number latest) place.Draft number (λ _. NodeAdded self.old self.new number latest) result }
        ensures refused { OnErr result (self.new ≡ self.old) }
    {
        if !(admits(Field::Node, u64::from(number))
            && admits(Field::LastStart, u64::from(latest)))
        {
            return Err(Place::Draft.refuses(Reason::OutOfRange, number.into()));
        }
        let at = usize::from(number);
        if self.nodes[at].is_some() {
            return Err(Place::Draft.refuses(Reason::NumberUsed, number.into()));
        }
        self.nodes[at] = Some(latest);
        Ok(())
    }

    // The last start of a node, where the draft has that node.
    fn latest_of(&self, node: u16) -> Option<u16>
        requires { node < 65 }
        ensures value { result ≡ latest_start_of self.now node }
        ensures fits { IfSome result (λ a. Admitted field.LastStart a) }
    {
        self.nodes[usize::from(node)]
    }

    fn has_number(&self, number: u16) -> bool
        ensures { result ≡ some (numbered number) (entries_of self.now) }
    {
        self.entries.iter().any(|e| e.number == number)
    }

    // Whether the draft has the message's frame, at another node.
    fn has_frame_elsewhere(&self, message: &Message) -> bool
        ensures { result ≡ some (of_another_node message.now) (entries_of self.now) }
    {
        self.entries
            .iter()
            .any(|e| e.frame == message.frame && e.node != message.node)
    }

    // Whether an entry clashes with the message. One pass for all three clashes: an accepted message asks the entries no more.
    fn has_clash(&self, message: &Message) -> bool
        ensures { result ≡ some (clashing message.now) (entries_of self.now) }
    {
        self.entries.iter().any(|e| {
            e.number == message.number
                || (e.frame == message.frame && e.node != message.node
                    || e.frame == message.frame && e.priority == message.priority)
        })
    }

    // The same, by the three clashes.
    fn clashes(&self, message: &Message) -> bool
        ensures { result ≡ (some (numbered message.now.number) (entries_of self.now)
            || (some (of_another_node message.now) (entries_of self.now) || some (as_urgent message.now) (entries_of self.now))) }
    {
        self.has_clash(message)
    }

    // The reason that a message is refused for which clashes with an entry.
    fn reason_of_clash(&self, message: &Message) -> Reason
        requires within { in_range message.now ≡ true }
        requires clash { (some (numbered message.now.number) (entries_of self.now)
            || (some (of_another_node message.now) (entries_of self.now) || some (as_urgent message.now) (entries_of self.now))) ≡ true }
        ensures { first_reason (message_checks self.now message.now) ≡ Some result }
    {
        if self.has_number(message.number) {
            return Reason::NumberUsed;
        }
        if self.latest_of(message.node).is_none() {
            return Reason::NodeUnknown;
        }
        if self.has_frame_elsewhere(message) {
            return Reason::FrameOfAnotherNode;
        }
        Reason::PriorityUsed
    }

    // The entry of a message, with the last start of its node; or the reason that the message is refused for.
    fn entry_of(&self, message: &Message) -> Result<Entry, Reason>
        ensures { MatchResult result (λ e. (first_reason (message_checks self.now message.now) ≡ None) × Describes message.now (latest_start_of self.now message.now.node) e) (λ n. first_reason (message_checks self.now message.now) ≡ Some n) }
    {
        if !all_in_range(message) {
            return Err(Reason::OutOfRange);
        }
        if self.clashes(message) {
            return Err(self.reason_of_clash(message));
        }
        let latest = self.latest_of(message.node).ok_or(Reason::NodeUnknown)?;
        if latest + message.size - 1 > self.bus.minislots {
            return Err(Reason::SizeTooLong);
        }
        if message.frame > latest {
            return Err(Reason::FrameAfterLastStart);
        }
        Ok(Entry {
            number: message.number,
            frame: message.frame,
            node: message.node,
            priority: message.priority,
            size: message.size,
            deadline: message.deadline,
            latest,
        })
    }

    // One message more, at its place by frame and priority.
    pub fn message(&mut self, message: Message) -> Result<(), Refusal>
        ensures verdict { Verdict (message_checks self.old message) place.Draft message.number (λ _. MessageAdded self.old self.new message) result }
        ensures refused { OnErr result (self.new ≡ self.old) }
    {
        let concerns = message.number.into();
        let entry = self
            .entry_of(&message)
            .map_err(|reason| Place::Draft.refuses(reason, concerns))?;
        let Ok(()) = insert(&mut self.entries, entry) else {
            unreachable()
        };
        Ok(())
    }
}
