// The periodic book: a message has a period, and a release may come up to its jitter before its nominal time.
ghost use Rattle.books.specs.Periodic.{periodic, nominal_of, first_nominal};
ghost use Rattle.books.specs.PeriodicLaws.{periodic_lawful, nominal_sound, first_at_once};

use crate::rows::{MessageRow, RowBook};
use fields::limits::{Field, admits};
use row::PeriodicRow;

mod row;

// A message as a new book lists it.
#[derive(Clone, Copy)]
pub struct PeriodicMessage {
    pub number: u16,
    pub period: u32,
    pub jitter: u32,
}

impl MessageRow for PeriodicRow {
    type Message = PeriodicMessage;

    ghost kind = { periodic };

    ghost figures = { nominal_of };

    ghost lawful = { periodic_lawful };

    ghost sound = { nominal_sound };

    ghost number = { λ m. m.number };

    ghost begins = { first_nominal };

    ghost at_once = { first_at_once };

    fn number_of(message: PeriodicMessage) -> u16 {
        message.number
    }

    fn first(message: PeriodicMessage) -> Option<PeriodicRow> {
        if !admits(Field::Period, message.period.into())
            || !admits(Field::Jitter, message.jitter.into())
        {
            return None;
        }
        Some(PeriodicRow {
            period: message.period,
            jitter: message.jitter,
            last: 0,
            next: 0,
        })
    }

    fn earliest(self) -> u64 {
        self.last
            .max(self.next.saturating_sub(u64::from(self.jitter)))
    }

    fn rest(self) -> u32 {
        self.period
    }

    fn jitter(self) -> u32 {
        self.jitter
    }

    fn count(self, length: u32) -> u32 {
        if length == 0 {
            return 0;
        }
        (length + self.jitter).div_ceil(self.period)
    }

    fn released(self, time: u64) -> PeriodicRow {
        PeriodicRow {
            period: self.period,
            jitter: self.jitter,
            last: time,
            next: self.next.max(time) + u64::from(self.period),
        }
    }
}

// Messages with a period and a jitter each.
pub type PeriodicBook = RowBook<PeriodicRow>;
