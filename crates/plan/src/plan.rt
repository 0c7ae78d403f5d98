// A plan: a draft whose every message has a delay within its deadline, with the book that bounds its releases.
ghost use Rattle.std.specs.Prelude.{◌≡◌, IfOk, MatchResult};
ghost use Rattle.plan.specs.Drafts.{entries_of};
ghost use Rattle.std.specs.List.{AllByRecursion};
ghost use Rattle.plan.specs.Sheets.{Listed, OneSheet};
ghost use Rattle.plan.specs.Plans.{rows_of, Planned, NotPlanned};

use crate::draft::Draft;
use crate::rows::{first_unlisted, rows_of};
use books::book::ReleaseBook;
use delay::bus::Bus;
use delay::entry::Row;
use fields::refusal::{MakingFault, Place, Reason, Refusal};
use std::alloc::Global;

#[derive(Drop)]
pub struct Plan<B> {
    pub(crate) bus: Bus,
    // by frame, then by priority
    pub(crate) rows: Vec<Row>,
    pub(crate) book: B,
}

// What a plan is made of, taken apart: a plan with open fields could be made by hand.
#[derive(Drop)]
pub struct PlanParts<B> {
    pub bus: Bus,
    // by frame, then by priority
    pub rows: Vec<Row>,
    pub book: B,
}

// A draft that made no plan, with its book and the reason.
#[derive(Drop)]
pub struct PlanRefused<B> {
    pub draft: Draft,
    pub book: B,
    pub fault: MakingFault,
}

// The plan of a draft, or draft and book again.
fn planned<B: ReleaseBook>(draft: Draft, heap: Global, book: B) -> Result<Plan<B>, PlanRefused<B>>
    ensures planned { MatchResult result (λ p. Planned B.book B.meaning draft book p) (λ e. NotPlanned B.book B.meaning draft book e) }
    ensures listed { IfOk result (λ p. AllByRecursion (Listed B.book (B.meaning book)) (entries_of draft)) }
{
    if let Some(number) = first_unlisted(draft.entries.as_slice(), &book) {
        let refusal = Place::Plan.refuses(Reason::NotInBook, number.into());
        let fault = MakingFault::Refused(refusal);
        return Err(PlanRefused { draft, book, fault });
    }
    // a match, since draft and book move into both answers
    match rows_of(heap, &draft.bus, draft.entries.as_slice(), &book) {
        Ok(rows) => Ok(Plan {
            bus: draft.bus,
            rows,
            book,
        }),
        Err(fault) => Err(PlanRefused { draft, book, fault }),
    }
}

impl Draft {
    // The plan of this draft over a release book. Refused, draft and book come back as they were.
    pub fn into_plan<B: ReleaseBook>(self, heap: Global, book: B) -> Result<Plan<B>, PlanRefused<B>>
        ensures planned { MatchResult result (λ p. Planned B.book B.meaning self book p) (λ e. NotPlanned B.book B.meaning self book e) }
        ensures listed { IfOk result (λ p. AllByRecursion (Listed B.book (B.meaning book)) (entries_of self)) }
        ensures only { OneSheet self.bus B.book (B.meaning book) (entries_of self) }
    {
        planned(self, heap, book)
    }
}

impl<B> Plan<B> {
    // The rows of the sheet: every message by frame, then by priority, with its delay and its response.
    pub fn sheet(&self) -> &[Row]
        ensures { result.now ≡ rows_of self.now }
    {
        self.rows.as_slice()
    }

    // The book that bounds the releases.
    pub fn book(&self) -> &B
        ensures { result.now ≡ self.now.book }
    {
        &self.book
    }

    // Bus, rows and book, for what is built on the plan.
    pub fn into_parts(self) -> PlanParts<B>
        ensures bus { result.bus ≡ self.bus }
        ensures rows { result.rows.items ≡ rows_of self }
        ensures book { result.book ≡ self.book }
    {
        PlanParts {
            bus: self.bus,
            rows: self.rows,
            book: self.book,
        }
    }
}
