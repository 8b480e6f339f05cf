ghost use Rattle.std.specs.Prelude.{◌≡◌, ◌≤◌, [], length, take, drop, replicate, min, nat_le, nat_eq, slice_set};
ghost use Rattle.std.specs.List.{slice_get};
ghost use Rattle.fixed.specs.Lists.{held, listed, fitting, appended};

use crate::list::FixedList;

impl<T: Copy, const N: usize> FixedList<T, N> {
    // No items; `blank` stands in every unused place.
    pub fn empty(blank: T) -> FixedList<T, N>
        ensures { held result ≡ [] }
    {
        FixedList {
            items: [blank; N],
            len: 0,
        }
    }

    // `count` times the same item, N times at most.
    #[tactic(auto, using(crate::proofs::Fronts::take_same))]
    pub fn repeated(item: T, count: usize) -> FixedList<T, N>
        ensures { held result ≡ replicate (min count N) item }
    {
        FixedList {
            items: [item; N],
            len: count.min(N),
        }
    }

    // The items of a slice; None for more than N.
    pub fn from_slice(from: &[T], blank: T) -> Option<FixedList<T, N>>
        ensures { listed result ≡ fitting N from.now }
    {
        let len = from.len();
        if len > N {
            return None;
        }
        let mut items = [blank; N];
        let front = &mut items[..len];
        front.copy_from_slice(from);
        Some(FixedList { items, len })
    }

    // All N places: the items, and the unused ones behind them.
    pub fn table(&self) -> &[T]
        ensures size { length result.now ≡ N }
        ensures held { take (length (held self.now)) result.now ≡ held self.now }
    {
        &self.items
    }

    pub fn as_slice(&self) -> &[T]
        ensures value { result.now ≡ held self.now }
        ensures few { length result.now ≤ N }
    {
        &self.table()[..self.len]
    }

    pub fn len(&self) -> usize
        ensures value { result ≡ length (held self.now) }
        ensures few { result ≤ N }
    {
        self.as_slice().len()
    }

    pub fn is_empty(&self) -> bool
        ensures { result ≡ nat_eq (length (held self.now)) 0 }
    {
        self.len == 0
    }

    pub fn is_full(&self) -> bool
        ensures { result ≡ nat_le N (length (held self.now)) }
    {
        self.len >= N
    }

    // The item at a place, counted from 0.
    pub fn get(&self, index: usize) -> Option<T>
        ensures { result ≡ slice_get (held self.now) index }
    {
        self.as_slice().get(index).copied()
    }

    // Puts another item at a place; nothing changes where there is no such place.
    #[tactic(auto, using(crate::proofs::Fronts::take_set_lt))]
    pub fn set(&mut self, index: usize, item: T)
        ensures { held self.new ≡ slice_set (held self.old) index item }
    {
        if index < self.len {
            self.items[index] = item;
        }
    }

    // Puts an item behind the others; hands it back where N are held.
    pub fn push(&mut self, item: T) -> Result<(), T>
        ensures { (result, held self.new) ≡ appended N (held self.old) item }
    {
        if self.is_full() {
            return Err(item);
        }
        self.items[self.len] = item;
        self.len += 1;
        Ok(())
    }

    // Takes the first item out.
    pub fn pop_front(&mut self) -> Option<T>
        ensures value { result ≡ slice_get (held self.old) 0 }
        ensures list { held self.new ≡ drop 1 (held self.old) }
    {
        let first = self.get(0)?;
        let front = &mut self.items[..self.len];
        front.rotate_left(1);
        self.len -= 1;
        Some(first)
    }

    pub fn clear(&mut self)
        ensures { held self.new ≡ [] }
    {
        self.len = 0;
    }
}
