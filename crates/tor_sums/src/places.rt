//! Items that have numbers, put in the order of these.
ghost use Rattle.std.specs.Prelude.{◌≡◌, ◌*◌, ◌<◌, ◌≤◌, ℕ, IsPermutation, length, map, slice_index_or, suc};
ghost use Rattle.std.specs.Fn.{FnReturnsAt};
ghost use Rattle.std.specs.List.{range_with_len};
ghost use Rattle.tor_sums.specs.steps.Places.{AreNumbers, HasGone};

/// The items, each at the place of its number, if they have the numbers from 0 on.
pub fn put_in_order<T, F: Fn(&T) -> u64>(items: Vec<T>, number_of: F) -> Vec<T>
    requires { F.IsAlwaysCallable number_of }
    ensures same { IsPermutation items.items result.items }
    ensures placed { (number : T → ℕ) → ((one : T) (n : ℕ) → FnReturnsAt F.Fn number_of one n → n ≡ number one) →
        AreNumbers (map number items.items) → map number result.items ≡ range_with_len 0 (length items.items) }
{
    let mut items = items;
    put_in_place(items.as_mut_slice(), number_of);
    items
}

/// Puts each item at the place of its number. It takes no memory, and time linear in the items: a step brings an item
/// to its place, or goes on to the next one, and there are no more than two steps for each item.
fn put_in_place<T, F: Fn(&T) -> u64>(items: &mut [T], number_of: F)
    requires { F.IsAlwaysCallable number_of }
    ensures same { IsPermutation items.old items.new }
    ensures placed { (number : T → ℕ) → ((one : T) (n : ℕ) → FnReturnsAt F.Fn number_of one n → n ≡ number one) →
        AreNumbers (map number items.old) → map number items.new ≡ range_with_len 0 (length items.old) }
{
    let mut place = 0;
    'pairs: for _ in 0..items.len() {
        place = step(items, place, &number_of);
        place = step(items, place, &number_of);
    }
}

/// Brings the item at a place to its own, or goes on to the next place if it is there.
fn step<T, F: Fn(&T) -> u64>(items: &mut [T], place: usize, number_of: &F) -> usize
    requires call { F.IsAlwaysCallable number_of.now }
    requires within { place ≤ length items.old }
    ensures within { result ≤ length items.new }
    ensures same { IsPermutation items.old items.new }
    ensures step { (number : T → ℕ) (steps : ℕ) →
        ((one : T) (n : ℕ) → FnReturnsAt F.Fn number_of.now one n → n ≡ number one) →
        HasGone steps place (map number items.old) → steps < 2 * length items.old →
        HasGone (suc steps) result (map number items.new) }
{
    if place >= items.len() {
        return place;
    }
    let own = number_at(items, place, number_of);
    if own == place {
        return place + 1;
    }
    if own >= items.len() {
        return place + 1;
    }
    items.swap(place, own);
    place
}

/// The number of the item at a place.
fn number_at<T, F: Fn(&T) -> u64>(items: &[T], place: usize, number_of: &F) -> usize
    requires call { F.IsAlwaysCallable number_of.now }
    requires within { place < length items.now }
    ensures { (d : T) → FnReturnsAt F.Fn number_of.now (slice_index_or items.now place d) result }
{
    number_of(&items[place]) as usize
}
