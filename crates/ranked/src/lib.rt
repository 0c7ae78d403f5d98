// The ranked list: elements in the order of their rank, equal ranks as they came, in a list that each call is lent.
#![tactic(auto)]

ghost use Rattle.std.specs.Prelude.{◌≡◌, ℕ, ◌<◌, ◌≤◌, Bool, true, false, length, is_ok, vec_len, vec_capacity, MatchResult, nat_lt, slice_index_or};
ghost use Rattle.ranked.specs.Ranks.{Placed, Ascending};

// An element with a rank. The order is total. It is not the library's Ord, by which elements of equal rank would be equal.
pub trait Rank {
    // whether the first element's rank is not above the second's
    ghost upto: { Self → Self → Bool };

    fn is_upto(&self, other: &Self) -> bool
        ensures { result ≡ upto self.now other.now };

    ghost total: { (x y : Self) → upto x y ≡ false → upto y x ≡ true };

    ghost transitive: { (x y z : Self) → upto x y ≡ true → upto y z ≡ true → upto x z ≡ true };
}

// The place of the first element that ranks above x, or the list's length where none does.
fn place_for<T: Rank>(list: &[T], x: &T) -> usize
    ensures within { result ≤ length list.now }
    ensures before { (k : ℕ) (d : T) → k < result → T.upto (slice_index_or list.now k d) x.now ≡ true }
    ensures stop { (d : T) → result < length list.now → T.upto (slice_index_or list.now result d) x.now ≡ false }
{
    list.iter()
        .position(|y| !y.is_upto(x))
        .unwrap_or(list.len())
}

// Puts x behind all elements of equal or smaller rank and before the rest. Where the list's room is used up, x comes
// back, and the list stays as it was.
pub fn insert<T: Rank>(list: &mut Vec<T>, x: T) -> Result<(), T>
    ensures room { is_ok result ≡ nat_lt (vec_len list.old) (vec_capacity list.old) }
    ensures placed { MatchResult result (λ _. Placed T.upto x list.old.items list.new.items) (λ y. (y ≡ x) × (list.new.items ≡ list.old.items)) }
    ensures ascending { Ascending T.upto list.old.items → Ascending T.upto list.new.items }
    ensures capacity { vec_capacity list.new ≡ vec_capacity list.old }
{
    if list.len() >= list.capacity() {
        return Err(x);
    }
    let at = place_for(list.as_slice(), &x);
    list.insert(at, x).map_err(|back| back.value)
}
