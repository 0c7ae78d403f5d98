// Lists of calls, carried out on a bench.
ghost use Rattle.std.specs.Prelude.{◌≡◌, IfOk, OnErr};
ghost use Rattle.bench.specs.Benches.{kinds, Kept};
ghost use Rattle.bench.specs.Carried.{AllKept};

use crate::bench::Bench;
use books::book::ReleaseBook;
use buffers::buffer::SendBuffer;
use slots::calls::{Answer, Call};
use std::alloc::{AllocError, Global};

// Carries out one call.
fn answer<B: ReleaseBook, S: SendBuffer>(bench: &mut Bench<B, S>, call: Call) -> Answer
    ensures { Kept (kinds B.book B.meaning S.meaning S.sound)
        bench.old call result bench.new }
{
    match call {
        Call::Release { message, time } => Answer::Released(bench.release(message, time)),
        Call::SlotRun => Answer::Ran(bench.slot_run()),
        Call::Position => Answer::At(bench.position()),
    }
}

impl<B: ReleaseBook, S: SendBuffer> Bench<B, S> {
    // Carries out the calls in their order and answers them all. The memory for the answers is taken first, so that for
    // want of it nothing is changed.
    pub fn carry_out(&mut self, heap: Global, calls: &[Call]) -> Result<Vec<Answer>, AllocError>
        ensures kept { IfOk result (λ v. AllKept (kinds B.book B.meaning S.meaning S.sound)
            self.old calls.now v.items self.new) }
        ensures unchanged { OnErr result (self.new ≡ self.old) }
    {
        let mut answers = Vec::with_capacity(heap, calls.len())?;
        for call in calls {
            answers.push_reserved(answer(self, *call));
        }
        Ok(answers)
    }
}
