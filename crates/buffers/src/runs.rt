// Lists of puts and takes, carried out on any buffer.
ghost use Rattle.std.specs.Prelude.{◌≡◌, IfOk, OnErr};
ghost use Rattle.buffers.specs.Runs.{Same, Step, Ran};

use crate::buffer::SendBuffer;
use crate::instance::Instance;
use fields::refusal::Refusal;
use std::alloc::{AllocError, Global};

// A call that changes a buffer, with the frame that it is about.
#[derive(Clone, Copy)]
pub enum BufferCall {
    Put(u16, Instance),
    Take(u16),
}

// What such a call answers.
#[derive(Clone, Copy, PartialEq, Eq)]
pub enum BufferAnswer {
    Put(Result<(), Refusal>),
    Take(Option<Instance>),
}

// Carries out one call.
fn answer<B: SendBuffer>(buffer: &mut B, call: BufferCall) -> BufferAnswer
    ensures step { B.sound buffer.old → Step (B.meaning buffer.old) call result (B.meaning buffer.new) }
    ensures sound { B.sound buffer.old → B.sound buffer.new }
{
    match call {
        BufferCall::Put(frame, instance) => BufferAnswer::Put(buffer.put(frame, instance)),
        BufferCall::Take(frame) => BufferAnswer::Take(buffer.take(frame)),
    }
}

// Carries out the calls in their order, and answers them all. The memory for the answers is taken first, so that for want of it nothing
// is changed.
pub fn carry_out<B: SendBuffer>(
    heap: Global,
    buffer: &mut B,
    calls: &[BufferCall],
) -> Result<Vec<BufferAnswer>, AllocError>
    ensures ran { B.sound buffer.old → IfOk result (λ v. Ran (B.meaning buffer.old) calls.now v.items (B.meaning buffer.new)) }
    ensures sound { B.sound buffer.old → B.sound buffer.new }
    ensures unchanged { OnErr result (buffer.new ≡ buffer.old) }
{
    let mut answers = Vec::with_capacity(heap, calls.len())?;
    for call in calls {
        answers.push_reserved(answer(buffer, *call));
    }
    Ok(answers)
}

// What two buffers answered to the same calls.
#[derive(Drop)]
pub struct BothAnswers {
    pub left: Vec<BufferAnswer>,
    pub right: Vec<BufferAnswer>,
}

// Carries out the calls on two buffers, of any kinds. Where they mean the same at first, they answer alike and mean the same at the
// end. For want of memory the right is not changed.
pub fn carry_out_on_both<B: SendBuffer, C: SendBuffer>(
    heap: Global,
    left: &mut B,
    right: &mut C,
    calls: &[BufferCall],
) -> Result<BothAnswers, AllocError>
    ensures ran_left { B.sound left.old → IfOk result (λ v. Ran (B.meaning left.old) calls.now v.left.items (B.meaning left.new)) }
    ensures ran_right { C.sound right.old → IfOk result (λ v. Ran (C.meaning right.old) calls.now v.right.items (C.meaning right.new)) }
    ensures alike { B.sound left.old → C.sound right.old → Same (B.meaning left.old) (C.meaning right.old) →
        IfOk result (λ v. (v.right.items ≡ v.left.items) × Same (B.meaning left.new) (C.meaning right.new)) }
    ensures sound { (B.sound left.old → B.sound left.new) × (C.sound right.old → C.sound right.new) }
    ensures unchanged { OnErr result (right.new ≡ right.old) }
{
    let left = carry_out(heap, left, calls)?;
    let right = carry_out(heap, right, calls)?;
    Ok(BothAnswers { left, right })
}
