// The window book: of a message, no window holds more than so many releases.
ghost use Rattle.books.specs.Window.{windowed, span_of, first_span};
ghost use Rattle.books.specs.WindowLaws.{windowed_lawful, span_sound, first_at_once};

use crate::rows::{MessageRow, RowBook};
use fields::limits::{Field, admits};
use row::WindowRow;

mod row;

// A message as a new book lists it.
#[derive(Clone, Copy)]
pub struct WindowMessage {
    pub number: u16,
    pub releases: u16,
    pub window: u32,
}

impl MessageRow for WindowRow {
    type Message = WindowMessage;

    ghost kind = { windowed };

    ghost figures = { span_of };

    ghost lawful = { windowed_lawful };

    ghost sound = { span_sound };

    ghost number = { λ m. m.number };

    ghost begins = { first_span };

    ghost at_once = { first_at_once };

    fn number_of(message: WindowMessage) -> u16 {
        message.number
    }

    fn first(message: WindowMessage) -> Option<WindowRow> {
        if !admits(Field::Releases, message.releases.into())
            || !admits(Field::Window, message.window.into())
        {
            return None;
        }
        Some(WindowRow {
            releases: message.releases,
            window: message.window,
            last: 0,
            ends: [0; 16],
        })
    }

    fn earliest(self) -> u64 {
        self.last.max(self.ends[usize::from(self.releases) - 1])
    }

    fn rest(self) -> u32 {
        self.window
    }

    fn jitter(self) -> u32 {
        0
    }

    fn count(self, length: u32) -> u32 {
        u32::from(self.releases) * length.div_ceil(self.window)
    }

    fn released(self, time: u64) -> WindowRow {
        // the oldest end gives its place to the newest
        let mut ends = self.ends;
        ends.rotate_right(1);
        ends[0] = time + u64::from(self.window);
        WindowRow {
            releases: self.releases,
            window: self.window,
            last: time,
            ends,
        }
    }
}

// Messages with a window and a number of releases that it holds, each.
pub type WindowBook = RowBook<WindowRow>;
