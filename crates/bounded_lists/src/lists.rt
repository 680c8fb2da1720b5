// A list of at most N items in fixed memory.
ghost use Rattle.std.specs.Prelude.{◌≡◌, ◌<◌, ◌≤◌, ◌↔◌, ⊤, [], ◌∷◌, ◌++◌, length, IsOk, OnErr, OnOk, codes, Some};

use std::alloc::AllocError;
use std::error::Error;
use std::fmt;

// the list has no room for one more item
#[derive(Clone, Copy, PartialEq, Eq, Debug)]
pub struct Full;

impl fmt::Display for Full {
    ghost output = { λ _. Some (codes "the list is full") };

    fn fmt<W: fmt::Write>(&self, f: &mut fmt::Formatter<W>) -> fmt::Result {
        write!(f, "the list is full")
    }
}

impl Error for Full {}

// At most N items in their order; what lies behind the last item is filler. An array with a count beside it: the kit's
// `ArrayVec` is not `Copy`, which lists in contracts are, and wants a default item. It has no `Model`, which a `Copy` type has only with an inverse, and the filler has none.
pub struct BoundedList<T, const N: usize> {
    entries: [T; N],
    // how many of the entries are items
    count: usize,
    ghost few: { count ≤ N },
}

// By hand: no derive is there for a ghost field beside a type parameter.
impl<T: Copy, const N: usize> Clone for BoundedList<T, N> {
    ghost is_clone = { λ list copy. copy ≡ list };

    ghost is_infallible = { λ _. ⊤ };

    fn clone(&self) -> Result<Self, AllocError> {
        Ok(*self)
    }
}

impl<T: Copy, const N: usize> Copy for BoundedList<T, N> {}

impl<T: Copy, const N: usize> BoundedList<T, N> {
    ghost use Rattle.bounded_lists.specs.Lists.{items};

    // An empty list.
    pub fn new(filler: T) -> BoundedList<T, N>
        ensures { items result ≡ [] }
    {
        BoundedList {
            entries: [filler; N],
            count: 0,
        }
    }

    // The items in their order.
    pub fn items(&self) -> &[T]
        ensures { result.now ≡ items self.now }
    {
        &self.entries[..self.count]
    }

    pub fn len(&self) -> usize
        ensures length { result ≡ length (items self.now) }
        ensures within { result ≤ N }
    {
        self.items().len()
    }

    // Adds an item at the end, or refuses it and stays as it is.
    pub fn push(&mut self, item: T) -> Result<(), Full>
        ensures ok { OnOk result (items self.new ≡ items self.old ++ (item ∷ [])) }
        ensures err { OnErr result (self.new ≡ self.old) }
        ensures room { IsOk result ↔ (length (items self.old) < N) }
    {
        if self.count == N {
            return Err(Full);
        }
        self.entries[self.count] = item;
        self.count += 1;
        Ok(())
    }

    // Makes the list empty.
    pub fn clear(&mut self)
        ensures { items self.new ≡ [] }
    {
        self.count = 0;
    }
}
