ghost use Rattle.std.specs.Prelude.{◌≡◌, ◌<◌, ◌≤◌, [], ◌∷◌, ◌++◌, length, drop, nat_le};
ghost use Rattle.std.specs.List.{slice_get};
ghost use Rattle.queue.specs.Queue.{waiting, room, added, pushed};

use crate::entry::Entry;

// The entries that wait are the first `len` of the slots, the oldest first. No more wait than their kind allows,
// and no more than there are slots.

fn front<E: Entry>(slots: &[E], len: usize) -> &[E]
    ensures value { result.now ≡ waiting slots.now len }
    ensures within { length result.now ≤ length slots.now }
{
    let n = len.min(slots.len());
    &slots[0..n]
}

// How many wait.
pub fn count<E: Entry>(slots: &[E], len: usize) -> usize
    ensures value { result ≡ length (waiting slots.now len) }
    ensures within { result ≤ length slots.now }
{
    front(slots, len).len()
}

// Whether as many wait as may.
fn full<E: Entry>(slots: &[E], len: usize) -> bool
    ensures { result ≡ nat_le (room E.Entry.most slots.now) (length (waiting slots.now len)) }
{
    let n = count(slots, len);
    n >= E::limit() || n >= slots.len()
}

fn at<E: Entry>(entries: &[E], n: usize) -> Option<E>
    ensures { result ≡ slice_get entries.now n }
{
    if n < entries.len() {
        Some(entries[n])
    } else {
        None
    }
}

// The n-th oldest, counted from 0. It stays in the queue.
pub fn nth_oldest<E: Entry>(slots: &[E], len: usize, n: usize) -> Option<E>
    ensures { result ≡ slice_get (waiting slots.now len) n }
{
    at(front(slots, len), n)
}

fn put<E: Entry>(slots: &mut [E], len: &mut usize, entry: E)
    requires { length (waiting slots.old len.old) < length slots.old }
    ensures list { waiting slots.new len.new ≡ waiting slots.old len.old ++ entry ∷ [] }
    ensures held { len.new ≤ length slots.new }
{
    let n = count(slots, *len);
    slots[n] = entry;
    *len = n + 1;
}

fn drop_oldest<E: Entry>(slots: &mut [E], len: &mut usize)
    ensures list { waiting slots.new len.new ≡ drop 1 (waiting slots.old len.old) }
    ensures held { len.old ≤ length slots.old → len.new ≤ length slots.new }
{
    let n = count(slots, *len);
    if n == 0 {
        return;
    }
    let entries = &mut slots[0..n];
    entries.rotate_left(1);
    *len = n - 1;
}

// Puts `entry` behind the others where there is room; else refuses it.
pub fn add<E: Entry>(slots: &mut [E], len: &mut usize, entry: E) -> bool
    ensures list { (result, waiting slots.new len.new) ≡ added (room E.Entry.most slots.old) (waiting slots.old len.old) entry }
    ensures held { len.old ≤ length slots.old → len.new ≤ length slots.new }
{
    if full(slots, *len) {
        return false;
    }
    put(slots, len, entry);
    true
}

// Takes the oldest out.
pub fn take<E: Entry>(slots: &mut [E], len: &mut usize) -> Option<E>
    ensures value { result ≡ slice_get (waiting slots.old len.old) 0 }
    ensures list { waiting slots.new len.new ≡ drop 1 (waiting slots.old len.old) }
    ensures held { len.old ≤ length slots.old → len.new ≤ length slots.new }
{
    let oldest = nth_oldest(slots, *len, 0);
    drop_oldest(slots, len);
    oldest
}

// Puts `entry` behind the others; where as many wait as may, the oldest goes first.
pub fn push<E: Entry>(slots: &mut [E], len: &mut usize, entry: E)
    ensures list { waiting slots.new len.new ≡ pushed (room E.Entry.most slots.old) (waiting slots.old len.old) entry }
    ensures held { len.old ≤ length slots.old → len.new ≤ length slots.new }
{
    if full(slots, *len) {
        drop_oldest(slots, len);
    }
    let _ = add(slots, len, entry);
}

// Empties the queue.
pub fn clear<E: Entry>(slots: &mut [E], len: &mut usize)
    ensures list { waiting slots.new len.new ≡ [] }
    ensures held { len.new ≤ length slots.new }
{
    *len = 0;
}
