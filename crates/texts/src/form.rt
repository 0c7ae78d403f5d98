// The form of a line: a letter, and numbers after one blank each.
ghost use Rattle.std.specs.Prelude.{◌≡◌, ◌≤◌, take, IfSome, MatchOption};
ghost use Rattle.texts.specs.Forms.{FormOf, NoForm};

use crate::digits::first_number;

// The letter of a line and its numbers, each cut off past every range. No line has more than eight. An array with a count: a
// form is Copy, and an ArrayVec is not.
#[derive(Clone, Copy)]
pub struct Form {
    pub letter: u8,
    pub values: [u64; 8],
    pub count: usize,
}

// The form of a line without its line feed; none where it is no letter with up to eight numbers.
pub fn form_of(line: &[u8]) -> Option<Form>
    ensures form { MatchOption result (NoForm line.now) (λ f. FormOf line.now f.letter (take f.count f.values)) }
    ensures few { IfSome result (λ f. f.count ≤ 8) }
{
    let (letter, mut rest) = line.split_first()?;
    let mut values = [0; 8];
    let mut count = 0;
    while let Some((blank, digits)) = rest.split_first() {
        if *blank != b' ' || count == 8 {
            return None;
        }
        let number = first_number(digits)?;
        values[count] = number.value;
        count += 1;
        rest = number.rest;
    }
    Some(Form {
        letter: *letter,
        values,
        count,
    })
}
