// A cluster of four messages, and parts of it, over each book and each buffer.
use bench::set_up::set_up;
use books::book::ReleaseBook;
use books::joint::JointBook;
use books::periodic::{PeriodicBook, PeriodicMessage};
use books::window::{WindowBook, WindowMessage};
use buffers::buffer::SendBuffer;
use buffers::instance::Instance;
use buffers::joint::JointBuffer;
use buffers::pool::Pool;
use buffers::ranked_buffer::RankedBuffer;
use fields::refusal::{MakingFault, Place, Reason};
use plan::draft::{Draft, Message};
use plan::plan::Plan;
use slots::calls::{Answer, Call, Sent, SlotReport};
use std::alloc::Global;
use std::process::Abort;
use std::test::Fail;

const MESSAGES: [Message; 4] = [
    Message {
        number: 1,
        frame: 1,
        node: 1,
        priority: 1,
        size: 5,
        deadline: 400,
    },
    Message {
        number: 2,
        frame: 2,
        node: 2,
        priority: 1,
        size: 8,
        deadline: 600,
    },
    Message {
        number: 3,
        frame: 2,
        node: 2,
        priority: 2,
        size: 3,
        deadline: 700,
    },
    Message {
        number: 4,
        frame: 5,
        node: 3,
        priority: 1,
        size: 2,
        deadline: 300,
    },
];

// The places that the messages of frames 1 to 5 need.
const NEEDS: [u16; 5] = [1, 3, 0, 0, 1];

fn periodic(heap: Global) -> Result<PeriodicBook, MakingFault> {
    let messages = [
        PeriodicMessage {
            number: 1,
            period: 400,
            jitter: 0,
        },
        PeriodicMessage {
            number: 2,
            period: 600,
            jitter: 20,
        },
        PeriodicMessage {
            number: 4,
            period: 300,
            jitter: 50,
        },
    ];
    PeriodicBook::new(heap, &messages)
}

fn window(heap: Global) -> Result<WindowBook, MakingFault> {
    let messages = [WindowMessage {
        number: 3,
        releases: 2,
        window: 500,
    }];
    WindowBook::new(heap, &messages)
}

// What was made, or that it is missing.
fn made<T, E: Drop>(made: Result<T, E>, missing: &'static str) -> Result<T, Fail> {
    made.map_err(|_| Fail::new(missing))
}

fn joint(heap: Global) -> Result<JointBook<PeriodicBook, WindowBook>, Fail> {
    let left = made(periodic(heap), "no periodic book")?;
    let right = made(window(heap), "no window book")?;
    made(JointBook::new(left, right), "no joint book")
}

// The plan of those messages that the book lists.
fn plan_over<B: ReleaseBook + Drop>(
    rt: &(impl Abort + AllocGlobal),
    book: B,
) -> Result<Plan<B>, Fail> {
    let mut draft = made(Draft::new(rt.alloc(), 100, 40, 2, 25), "no draft")?;
    assert!(rt;
        draft.node(1, 20).is_ok() && draft.node(2, 18).is_ok() && draft.node(3, 20).is_ok()
    );
    for message in &MESSAGES {
        if book.lists(message.number) {
            assert!(rt; draft.message(*message).is_ok());
        }
    }
    made(draft.into_plan(rt.alloc(), book), "no plan")
}

fn release(message: u16, time: u64) -> Call {
    Call::Release { message, time }
}

fn accepted() -> Answer {
    Answer::Released(Ok(()))
}

fn refused(reason: Reason, message: u32) -> Answer {
    Answer::Released(Err(Place::Bench.refuses(reason, message)))
}

// Slots of one cycle, each two macroticks after the one before; the first sends a message that was released at 0, or
// none does.
#[derive(Clone, Copy)]
struct Stretch {
    cycle: u32,
    slot: u16,
    slots: u16,
    start: u64,
    sent: Option<(u16, u64)>,
}

fn sends(cycle: u32, slot: u16, start: u64, message: u16, finish: u64) -> Stretch {
    Stretch {
        cycle,
        slot,
        slots: 1,
        start,
        sent: Some((message, finish)),
    }
}

fn empty(cycle: u32, slot: u16, slots: u16, start: u64) -> Stretch {
    Stretch {
        cycle,
        slot,
        slots,
        start,
        sent: None,
    }
}

impl Stretch {
    fn answer(self, i: u16) -> Answer {
        let sent = self.sent.map(|(message, finish)| Sent {
            message,
            release: 0,
            finish,
        });
        Answer::Ran(Ok(SlotReport {
            cycle: self.cycle,
            slot: self.slot.saturating_add(i),
            start: self.start.saturating_add(2 * u64::from(i)),
            sent,
        }))
    }
}

// Runs releases, then slots, then the question, and compares all answers.
fn plays<B: ReleaseBook + Drop, S: SendBuffer + Drop>(
    rt: &(impl Abort + AllocGlobal),
    plan: Plan<B>,
    buffer: S,
    releases: &[(Call, Answer)],
    stretches: &[Stretch],
    stands: (u32, u16),
) -> Result<(), Fail> {
    let mut bench = made(set_up(rt.alloc(), plan, buffer), "no bench")?;
    let mut calls = Vec::new(rt.alloc());
    let mut due = Vec::new(rt.alloc());
    for (call, answer) in releases {
        calls.push(*call)?;
        due.push(*answer)?;
    }
    for stretch in stretches {
        for i in 0..stretch.slots {
            calls.push(Call::SlotRun)?;
            due.push(stretch.answer(i))?;
        }
    }
    calls.push(Call::Position)?;
    due.push(Answer::At(stands))?;
    let answers = bench.carry_out(rt.alloc(), calls.as_slice())?;
    assert!(rt; answers.as_slice() == due.as_slice());
    Ok(())
}

fn whole<S: SendBuffer + Drop>(rt: &(impl Abort + AllocGlobal), buffer: S) -> Result<(), Fail> {
    let releases = [
        (release(1, 0), accepted()),
        (release(2, 0), accepted()),
        (release(3, 0), accepted()),
        (release(3, 0), accepted()),
        (release(4, 0), accepted()),
        (release(4, 39), refused(Reason::TooEarly, 4)),
    ];
    let stretches = [
        sends(0, 1, 40, 1, 50),
        sends(0, 2, 50, 2, 66),
        empty(0, 3, 2, 66),
        sends(0, 5, 70, 4, 74),
        empty(0, 6, 8, 74),
        empty(1, 1, 1, 140),
        sends(1, 2, 142, 3, 148),
        empty(1, 3, 21, 148),
        empty(2, 1, 1, 240),
        sends(2, 2, 242, 3, 248),
        empty(2, 3, 2, 248),
    ];
    let plan = plan_over(rt, joint(rt.alloc())?)?;
    plays(rt, plan, buffer, &releases, &stretches, (2, 7))
}

fn ranked(heap: Global, places: &[u16]) -> Result<RankedBuffer, Fail> {
    made(RankedBuffer::new(heap, places), "no ranked buffer")
}

fn pool(heap: Global, places: &[u16]) -> Result<Pool, Fail> {
    made(Pool::new(heap, places), "no pool")
}

#[test]
fn over_the_ranked_buffer(rt: HostRuntime) -> Result<(), Fail> {
    whole(&rt, ranked(rt.alloc(), &NEEDS)?)
}

#[test]
fn over_the_pool(rt: HostRuntime) -> Result<(), Fail> {
    whole(&rt, pool(rt.alloc(), &NEEDS)?)
}

#[test]
fn over_a_joint_buffer(rt: HostRuntime) -> Result<(), Fail> {
    let left = ranked(rt.alloc(), &[0, 3])?;
    let right = pool(rt.alloc(), &NEEDS)?;
    whole(&rt, JointBuffer::new(left, right))
}

#[test]
fn over_the_periodic_book(rt: HostRuntime) -> Result<(), Fail> {
    let book = made(periodic(rt.alloc()), "no periodic book")?;
    let releases = [
        (release(1, 0), accepted()),
        (release(2, 0), accepted()),
        (release(3, 0), refused(Reason::NotListed, 3)),
        (release(4, 0), accepted()),
        (release(4, 39), refused(Reason::TooEarly, 4)),
    ];
    let stretches = [
        sends(0, 1, 40, 1, 50),
        sends(0, 2, 50, 2, 66),
        empty(0, 3, 2, 66),
        sends(0, 5, 70, 4, 74),
        empty(0, 6, 8, 74),
        empty(1, 1, 25, 140),
    ];
    let plan = plan_over(&rt, book)?;
    plays(
        &rt,
        plan,
        ranked(rt.alloc(), &NEEDS)?,
        &releases,
        &stretches,
        (2, 1),
    )
}

#[test]
fn over_the_window_book(rt: HostRuntime) -> Result<(), Fail> {
    let book = made(window(rt.alloc()), "no window book")?;
    let releases = [
        (release(3, 0), accepted()),
        (release(3, 41), refused(Reason::TimeNotAllowed, 3)),
        (release(3, 0), accepted()),
        (release(3, 40), refused(Reason::TooEarly, 3)),
    ];
    let stretches = [
        empty(0, 1, 1, 40),
        sends(0, 2, 42, 3, 48),
        empty(0, 3, 21, 48),
        empty(1, 1, 1, 140),
        sends(1, 2, 142, 3, 148),
    ];
    let plan = plan_over(&rt, book)?;
    plays(
        &rt,
        plan,
        pool(rt.alloc(), &NEEDS)?,
        &releases,
        &stretches,
        (1, 5),
    )
}

// Setting up with the plan over the book and with the buffer is refused for the reason, at the frame or message.
fn is_refused<B: ReleaseBook + Drop>(
    rt: &(impl Abort + AllocGlobal),
    book: B,
    buffer: RankedBuffer,
    reason: Reason,
    concerns: u32,
) -> Result<(), Fail> {
    let plan = plan_over(rt, book)?;
    let fault = MakingFault::Refused(Place::SettingUp.refuses(reason, concerns));
    let Err(e) = set_up(rt.alloc(), plan, buffer) else {
        return Err(Fail::new("set up"));
    };
    assert_eq!(rt; e.fault, fault);
    Ok(())
}

#[test]
fn refused_set_ups(rt: HostRuntime) -> Result<(), Fail> {
    let heap = rt.alloc();
    let few = Reason::TooFewPlaces;
    is_refused(&rt, joint(heap)?, ranked(heap, &[1, 2, 0, 0, 0])?, few, 2)?;
    is_refused(&rt, joint(heap)?, ranked(heap, &[1, 3, 9, 9])?, few, 5)?;
    let waits = Instance {
        message: 4,
        priority: 1,
        release: 0,
    };
    let mut buffer = ranked(heap, &NEEDS)?;
    assert!(rt; buffer.put(5, waits).is_ok());
    let mut book = joint(heap)?;
    assert!(rt; book.release(4, 1).is_ok());
    assert!(rt; book.release(2, 1).is_ok());
    is_refused(&rt, book, buffer, Reason::NotFresh, 5)?;
    let mut book = joint(heap)?;
    assert!(rt; book.release(4, 1).is_ok());
    assert!(rt; book.release(2, 1).is_ok());
    is_refused(&rt, book, ranked(heap, &NEEDS)?, Reason::NotFresh, 2)
}
