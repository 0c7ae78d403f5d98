// Calls of send buffers with the answers that the rules give them, and makings that are refused.
use buffers::buffer::SendBuffer;
use buffers::instance::Instance;
use buffers::joint::JointBuffer;
use buffers::pool::Pool;
use buffers::ranked_buffer::RankedBuffer;
use buffers::runs::{BufferAnswer, BufferCall, carry_out};
use fields::refusal::{MakingFault, Place, Reason};
use std::process::Abort;
use std::test::Fail;

fn of(message: u16, priority: u16, release: u64) -> Instance {
    Instance {
        message,
        priority,
        release,
    }
}

fn refused(reason: Reason, frame: u32) -> BufferAnswer {
    BufferAnswer::Put(Err(Place::Buffer.refuses(reason, frame)))
}

fn full(frame: u32) -> BufferAnswer {
    refused(Reason::PlacesFull, frame)
}

fn range(frame: u32) -> BufferAnswer {
    refused(Reason::OutOfRange, frame)
}

fn sent(instance: Instance) -> BufferAnswer {
    BufferAnswer::Take(Some(instance))
}

const ACCEPTED: BufferAnswer = BufferAnswer::Put(Ok(()));

const NONE: BufferAnswer = BufferAnswer::Take(None);

#[derive(Clone, Copy)]
struct Case {
    name: &'static str,
    call: BufferCall,
    answer: BufferAnswer,
}

fn put(frame: u16, instance: Instance, answer: BufferAnswer, name: &'static str) -> Case {
    let call = BufferCall::Put(frame, instance);
    Case { name, call, answer }
}

fn take(frame: u16, answer: BufferAnswer, name: &'static str) -> Case {
    let call = BufferCall::Take(frame);
    Case { name, call, answer }
}

// Calls one after the other. Frame 1 has 2 places, frame 2 has 1, frame 4 has 3, and no other has any.
fn cases() -> [Case; 28] {
    [
        take(1, NONE, "nothing waits yet"),
        put(1, of(1, 2, 0), ACCEPTED, "the first place"),
        put(2, of(2, 1, 5), ACCEPTED, "another frame"),
        put(2, of(2, 1, 6), full(2), "its only place is taken"),
        put(1, of(3, 2, 7), ACCEPTED, "an equal priority"),
        put(1, of(4, 1, 8), full(1), "both places are taken"),
        take(1, sent(of(1, 2, 0)), "of equals the one that came first"),
        put(1, of(4, 1, 8), ACCEPTED, "a place is free again"),
        take(1, sent(of(4, 1, 8)), "the more urgent one goes first"),
        take(1, sent(of(3, 2, 7)), "and the other after it"),
        take(1, NONE, "nothing is left"),
        take(2, sent(of(2, 1, 5)), "another frame is as it was"),
        put(3, of(1, 1, 0), full(3), "no places"),
        put(3, of(1, 0, 0), range(3), "the range comes first"),
        put(4, of(0, 1, 0), range(4), "message 0"),
        put(4, of(129, 1, 0), range(4), "message 129"),
        put(4, of(1, 256, 0), range(4), "priority 256"),
        put(4, of(1, 1, 100_000_000_000), range(4), "too late"),
        put(0, of(1, 1, 0), range(0), "frame 0"),
        put(2_048, of(1, 1, 0), range(2_048), "frame 2,048"),
        take(0, NONE, "nothing waits for frame 0"),
        take(2_048, NONE, "nothing waits for frame 2,048"),
        put(4, of(128, 255, 99_999_999_999), ACCEPTED, "highest"),
        put(4, of(1, 1, 0), ACCEPTED, "lowest"),
        put(4, of(2, 254, 0), ACCEPTED, "between"),
        take(4, sent(of(1, 1, 0)), "priority 1"),
        take(4, sent(of(2, 254, 0)), "priority 254"),
        take(4, sent(of(128, 255, 99_999_999_999)), "priority 255"),
    ]
}

fn serves<B: SendBuffer>(rt: &(impl Abort + AllocGlobal), buffer: &mut B) -> Result<(), Fail> {
    let cases = cases();
    let calls: Vec<_> = cases.iter().map(|case| case.call).collect(rt.alloc())?;
    let answers = carry_out(rt.alloc(), buffer, calls.as_slice())?;
    assert_eq!(rt; answers.len(), cases.len());
    for (answer, case) in answers.iter().zip(&cases) {
        assert!(rt; *answer == case.answer, "{}", case.name);
    }
    Ok(())
}

// The buffer that was made.
fn made<B: Drop>(buffer: Result<B, MakingFault>) -> Result<B, Fail> {
    buffer.map_err(|_| Fail::new("not made"))
}

#[test]
fn ranked_buffer(rt: HostRuntime) -> Result<(), Fail> {
    serves(
        &rt,
        &mut made(RankedBuffer::new(rt.alloc(), &[2, 1, 0, 3]))?,
    )
}

#[test]
fn pool(rt: HostRuntime) -> Result<(), Fail> {
    serves(&rt, &mut made(Pool::new(rt.alloc(), &[2, 1, 0, 3]))?)
}

// The left serves frames 1 and 4, though the right has places for frame 1 as well.
#[test]
fn joint_buffer(rt: HostRuntime) -> Result<(), Fail> {
    let left = made(RankedBuffer::new(rt.alloc(), &[2, 0, 0, 3]))?;
    let right = made(Pool::new(rt.alloc(), &[9, 1]))?;
    serves(&rt, &mut JointBuffer::new(left, right))
}

fn out_at(frame: u32) -> Option<MakingFault> {
    Some(MakingFault::Refused(Place::Buffer.refuses(Reason::OutOfRange, frame)))
}

#[test]
fn places_of_a_new_buffer(rt: HostRuntime) {
    let heap = rt.alloc();
    let none = [0; 2_048];
    let mut late = [0; 2_048];
    late[0] = 200;
    late[2_046] = 57;
    let cases: [(&[u16], Option<MakingFault>); 7] = [
        (&[], None),
        (&[256], None),
        (&[0, 257], out_at(2)),
        (&[200, 56, 0, 1], out_at(4)),
        (&none[0..2_047], None),
        (&none, out_at(2_048)),
        (&late, out_at(2_047)),
    ];
    for (places, fault) in cases {
        assert_eq!(rt; RankedBuffer::new(heap, places).err(), fault);
        assert_eq!(rt; Pool::new(heap, places).err(), fault);
    }
}
