// Lists in a fixed number of places: no memory is asked for, and a count says how many places are listed.
ghost use Rattle.std.specs.declared.cmp.Ordering.{Ordering};
ghost use Rattle.std.specs.Ordering.{is_eq, is_lt};
ghost use Rattle.std.specs.Prelude.{◌≡◌, ◌+◌, ◌++◌, ◌≤◌, [], ◌<◌, ◌∷◌, Bool, drop, filter, length, nat_lt, option_map, slice_get, take};
ghost use Rattle.block_records.specs.arrays.Arrays.{Splices, spliced};
ghost use Rattle.block_records.specs.arrays.Place.{IsWithin, place};
ghost use Rattle.block_records.specs.layout.Listed.{Compares, packed, pushed, put_listed, tidy_listed};

use std::cmp::Ordering;

// Items in N places, as many as the count says. The count comes from outside: one past the places lists them all.
#[derive(Clone, Copy, Debug, PartialEq, Eq)]
pub struct Listed<T, const N: usize> {
    pub count: usize,
    pub items: [T; N],
}

impl<T, const N: usize> Listed<T, N> {
    // The items below the count.
    pub fn listed(&self) -> &[T]
        ensures { result.now ≡ take self.now.count self.now.items }
    {
        let items: &[T] = &self.items;
        items.get(..self.count).unwrap_or(items)
    }

    // What stands in the places after them.
    pub fn unlisted(&self) -> &[T]
        ensures rest { result.now ≡ drop self.now.count self.now.items }
        ensures places { length self.now.items ≡ N }
    {
        let items: &[T] = &self.items;
        items.get(self.count..).unwrap_or(&[])
    }

    // Whether fewer items are listed than there are places.
    pub fn has_place(&self) -> bool
        ensures { result ≡ nat_lt (length (take self.now.count self.now.items)) N }
    {
        self.listed().len() < N
    }

    // The item that is listed at a place.
    pub fn get(&self, place: usize) -> Option<&T>
        ensures item { option_map (λ x. x.now) result ≡ slice_get (take self.now.count self.now.items) place }
        ensures places { length self.now.items ≡ N }
    {
        let items: &[T] = &self.items;
        if place < self.count {
            items.get(place)
        } else {
            None
        }
    }

    // Whether the count is within the places and zeros stand after what is listed.
    pub fn is_tidy<F: Fn(&T) -> bool>(&self, is_zero: F) -> bool
        requires { F.IsAlwaysCallable is_zero }
        ensures tidy { (p : T → Bool) → ((x : _) (b : Bool) → F.post is_zero x b → b ≡ p x.now) → result ≡ tidy_listed N p self.now }
        ensures places { length self.now.items ≡ N }
    {
        let few = self.count <= N;
        let zeros = self.unlisted().iter().all(|item| is_zero(item));
        few & zeros
    }
}

impl<T: Copy, const N: usize> Listed<T, N> {
    // No item, zeros in every place.
    #[tactic(auto, using(crate::proofs::arrays::ListedLaws::packed_nil))]
    pub fn empty(zero: T) -> Self
        ensures { result ≡ packed N zero [] }
    {
        Listed {
            count: 0,
            items: [zero; N],
        }
    }

    // The items below the count, and zeros after them, whatever the caller left there.
    #[tactic(auto, using(crate::proofs::arrays::ListedLaws::packed_over))]
    pub fn stored(&self, zero: T) -> Self
        ensures { result ≡ packed N zero (take self.now.count self.now.items) }
    {
        let listed = self.listed();
        let count = listed.len();
        let mut kept = [zero; N];
        kept[..count].copy_from_slice(listed);
        Listed { count, items: kept }
    }

    // One more item, in the place after those that are listed.
    pub fn push(&mut self, item: T)
        requires { self.old.count < N }
        ensures { self.new ≡ pushed item self.old }
    {
        let items: &mut [T] = &mut self.items;
        items[self.count] = item;
        self.count += 1;
    }

    // The first `at` items, the given one, and those of place `from` on; zeros after them.
    pub fn spliced(&self, at: usize, from: usize, item: T, zero: T) -> Self
        requires { Splices N at from (length (take self.now.count self.now.items)) }
        ensures { result ≡ packed N zero (spliced at from item (take self.now.count self.now.items)) }
    {
        let listed = self.listed();
        let before = &listed[..at];
        let after = &listed[from..];
        let count = at + 1 + after.len();
        let mut items = [zero; N];
        put_parts(&mut items, before, item, after);
        Listed { count, items }
    }

    // The items that stay, moved together; zeros after them.
    pub fn retained<F: Fn(&T) -> bool>(&self, stays: F, zero: T) -> Self
        requires { F.IsAlwaysCallable stays }
        ensures { (p : T → Bool) → ((x : _) (b : Bool) → F.post stays x b → b ≡ p x.now) → result ≡ packed N zero (filter p (take self.now.count self.now.items)) }
    {
        let mut kept = Listed::empty(zero);
        for item in self.listed() {
            if stays(item) {
                kept.push(*item);
            }
        }
        kept
    }

    // The item in its place, by what comparing it tells of each that is listed: the one that is equal to it is replaced. Where every place is taken and none is equal, nothing changes.
    pub fn put_by<F: Fn(&T) -> Ordering>(&self, compare: F, item: T, zero: T) -> Self
        requires { F.IsAlwaysCallable compare }
        ensures { (cmp : T → Ordering) → ((x : _) (o : Ordering) → F.post compare x o → o ≡ cmp x.now) → (lt : T → T → Bool) → Compares lt item cmp → result ≡ put_listed N zero lt item self.now }
    {
        match place_by(self.listed(), compare) {
            Ok(at) => self.spliced(at, at + 1, item, zero),
            Err(at) => {
                if self.count < N {
                    self.spliced(at, at, item, zero)
                } else {
                    *self
                }
            }
        }
    }
}

// Some items, one more, and some after it, over the front of what is lent.
fn put_parts<T: Copy>(out: &mut [T], before: &[T], item: T, after: &[T])
    requires { length before.now + 1 + length after.now ≤ length out.old }
    ensures { out.new ≡ before.now ++ (item ∷ (after.now ++ drop (length before.now + (1 + length after.now)) out.old)) }
{
    let (front, rest) = out.split_at_mut(before.len());
    let (here, rest) = rest.split_at_mut(1);
    let (back, _) = rest.split_at_mut(after.len());
    front.copy_from_slice(before);
    here.copy_from_slice(&[item]);
    back.copy_from_slice(after);
}

// Where the first item stands that does not come before what is asked for, if it is that; else the place where that would go in. Std's `binary_search_by`
// promises its place of lists that rise alone; this is said of every list, sound or not.
#[tactic(auto, unfolding(crate::specs::arrays::Place::place))]
pub fn place_by<T, F: Fn(&T) -> Ordering>(items: &[T], compare: F) -> Result<usize, usize>
    requires { F.IsAlwaysCallable compare }
    ensures place { (cmp : T → Ordering) → ((x : _) (o : Ordering) → F.post compare x o → o ≡ cmp x.now) → result ≡ place (λ x. is_lt (cmp x)) (λ x. is_eq (cmp x)) items.now }
    ensures within { IsWithin (length items.now) result }
{
    for (i, item) in items.iter().enumerate() {
        match compare(item) {
            Ordering::Less => {}
            Ordering::Equal => return Ok(i),
            Ordering::Greater => return Err(i),
        }
    }
    Err(items.len())
}
