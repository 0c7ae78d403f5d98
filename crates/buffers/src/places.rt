// How places are handed over when a buffer is made: the first number is for frame 1, and frames past the end have none.
ghost use Rattle.std.specs.Prelude.{◌≡◌, length, MatchResult};
ghost use Rattle.buffers.specs.Places.{Fits, FirstUnfit, places_given};

use fields::limits::{Field, admits};
use fields::refusal::{Place, Reason, Refusal};

// The most places that a buffer has in all.
pub(crate) const MOST: u32 = 256;

// Whether no frame is out of range and the places are not too many together. Else the lowest frame is refused where this
// shows.
pub(crate) fn fit(places: &[u16]) -> Result<(), Refusal>
    ensures { MatchResult result (λ _. Fits places.now (length places.now)) (FirstUnfit places.now) }
{
    // a try_fold is no plainer: its closure would have to be told once more that the sum fits
    let mut total = 0;
    for (frame, more) in (1..).zip(places) {
        total += u32::from(*more);
        if !admits(Field::Frame, u64::from(frame)) || total > MOST {
            return Err(Place::Buffer.refuses(Reason::OutOfRange, frame));
        }
    }
    Ok(())
}

// The places of one frame. Frame 0 has none.
pub(crate) fn given(places: &[u16], frame: usize) -> u16
    ensures { result ≡ places_given places.now frame }
{
    frame
        .checked_sub(1)
        .and_then(|before| places.get(before))
        .map_or(0, |n| *n)
}
