// Reading one number of a line.
ghost use Rattle.std.specs.Prelude.{◌≡◌, true, MatchOption};
ghost use Rattle.std.specs.Char.{is_ascii_digit};
ghost use Rattle.std.specs.List.{AllByRecursion, prefix_len};
ghost use Rattle.std.specs.Str.Parse.{digits_value};
ghost use Rattle.texts.specs.Forms.{cut, Reads, NoNumber};

// Past every range: a number of more digits than any range has is as good as this one.
const CAP: u64 = 1_000_000_000_000;

// A number, cut off at the cap, and what follows its last digit.
#[derive(Clone, Copy)]
pub struct Number<'a> {
    pub value: u64,
    pub rest: &'a [u8],
}

// The number that these digits spell, cut off at the cap.
fn value_of(digits: &[u8]) -> u64
    requires { AllByRecursion (λ b. is_ascii_digit b ≡ true) digits.now }
    ensures { result ≡ cut (digits_value 10 digits.now) }
{
    // tried as a `fold`: neither that its closure can be called at each turn, nor what it gives, could be proved
    let mut value: u64 = 0;
    for digit in digits {
        value = (value * 10 + u64::from(*digit - b'0')).min(CAP);
    }
    value
}

// How many digits the bytes begin with.
fn digits_ahead(bytes: &[u8]) -> usize
    ensures { result ≡ prefix_len is_ascii_digit bytes.now }
{
    bytes.iter().take_while(|b| b.is_ascii_digit()).count()
}

// The number that bytes begin with: digits without a leading zero, up to the first byte that is no digit.
pub fn first_number(bytes: &[u8]) -> Option<Number<'_>>
    ensures { MatchOption result (NoNumber bytes.now) (λ n. Reads bytes.now n.rest.now n.value) }
{
    // before the digits are counted: any number of them may follow a zero
    if let [first, second, ..] = bytes {
        if *first == b'0' && second.is_ascii_digit() {
            return None;
        }
    }
    let (digits, rest) = bytes.split_at(digits_ahead(bytes));
    if digits.is_empty() {
        return None;
    }
    Some(Number {
        value: value_of(digits),
        rest,
    })
}
