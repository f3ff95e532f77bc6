//! Elements in a row, of which the first can be taken out while the others stay where they are.
ghost use Rattle.std.specs.Prelude.{◌≡◌, ◌+◌, ◌^◌, ◌<◌, ◌≤◌, ◌++◌, ◌∷◌, [], List, OnOk, OnErr, length, drop, insert, remove, slice_get, slice_index_or, slice_set};

use std::alloc::Global;
use std::marker::Model;
use tiger_base::NoMemory;

/// How many elements must be gone, and no fewer than are left, before those that are left are moved.
const ENOUGH_GONE: usize = 32;

/// The most elements of a row, which is more than any memory has room for.
const MOST: usize = 1 << 57;

/// Elements, one behind another.
#[derive(Drop)]
pub(crate) struct Row<T> {
    items: Vec<T>,
    // As many of them, from the first on, are taken out already: the first ones leave at each
    // tick, and the others need not be moved each time.
    gone: usize,
}

impl<T> Model for Row<T> {
    ghost use Rattle.std.specs.Prelude.{List, length, drop, ◌≤◌, ◌^◌};

    ghost Value = { List T };

    ghost view = { λ v. drop v.gone v.items.items };

    ghost invariant = { λ v. v.gone ≤ length v.items.items × length v.items.items ≤ 2 ^ 57 };
}

impl<T: Copy> Row<T> {
    /// No elements yet. It takes no memory.
    pub(crate) fn new(alloc: Global) -> Row<T>
        ensures { result ≡ [] }
    {
        Row {
            items: Vec::new(alloc),
            gone: 0,
        }
    }

    /// The elements, to be read.
    pub(crate) fn as_slice(&self) -> &[T]
        ensures lines { result.now ≡ self.now }
        ensures fits { length result.now ≤ 2 ^ 57 }
    {
        &self.items.as_slice()[self.gone..]
    }

    /// Puts an element at a place; without memory for it nothing changes.
    pub(crate) fn insert(&mut self, place: usize, item: T) -> Result<(), NoMemory>
        requires { place ≤ length self.old }
        ensures ok { OnOk result (self.new ≡ insert self.old place item) }
        ensures err { OnErr result (self.new ≡ self.old) }
    {
        if MOST <= self.items.len() {
            return Err(NoMemory);
        }
        self.items.push(item)?;
        move_down(self.items.as_mut_slice(), self.gone + place);
        Ok(())
    }

    /// Puts an element in place of another.
    pub(crate) fn set(&mut self, place: usize, item: T)
        requires { place < length self.old }
        ensures { self.new ≡ slice_set self.old place item }
    {
        self.items[self.gone + place] = item;
    }

    /// Takes the element at a place out; `None` exactly if there is none.
    pub(crate) fn remove(&mut self, place: usize) -> Option<T>
        ensures taken { result ≡ slice_get self.old place }
        ensures left { self.new ≡ remove self.old place }
    {
        let taken = *self.as_slice().get(place)?;
        // Those of a tick leave near the front: the elements before them are few, and those behind many.
        if place < self.items.len() - self.gone - place {
            self.close_from_front(place);
        } else {
            self.close_from_back(place);
        }
        Some(taken)
    }

    /// Takes the element at a place out, and moves up those before it.
    fn close_from_front(&mut self, place: usize)
        requires { place < length self.old }
        ensures { self.new ≡ remove self.old place }
    {
        move_up(self.items.as_mut_slice(), self.gone, place);
        self.gone += 1;
        self.sweep();
    }

    /// Takes the element at a place out, and moves down those behind it.
    fn close_from_back(&mut self, place: usize)
        requires { place < length self.old }
        ensures { self.new ≡ remove self.old place }
    {
        self.items.remove(self.gone + place);
    }

    /// Moves the elements that are left to the front, once enough are gone.
    fn sweep(&mut self)
        ensures { self.new ≡ self.old }
    {
        if ENOUGH_GONE <= self.gone && self.items.len() - self.gone <= self.gone {
            drop_first(&mut self.items, self.gone);
            self.gone = 0;
        }
    }
}

/// Drops as many elements from the front as a count says.
fn drop_first<T: Copy>(items: &mut Vec<T>, count: usize)
    requires { count ≤ length items.old.items }
    ensures { items.new.items ≡ drop count items.old.items }
{
    items.drain(..count);
}

/// Moves some elements, from a place on, up by one, over the one behind them, which then stands
/// there.
fn move_up<T: Copy>(items: &mut [T], from: usize, count: usize)
    requires { from + count < length items.old }
    ensures left { drop (from + 1) items.new ≡ remove (drop from items.old) count }
    ensures len { length items.new ≡ length items.old }
{
    // The first element mostly goes, and a turn of one element would cost as much as another.
    if 0 < count {
        items[from..from + count + 1].rotate_right(1);
    }
}

/// Moves the last element to a place, and those from there on up by one. It does so by a turn, which
/// is one move of memory, and an insertion into a `Vec` is a loop.
fn move_down<T: Copy>(items: &mut [T], place: usize)
    requires { place < length items.old }
    ensures moved { (item : T) (items_before : List T) → items.old ≡ items_before ++ item ∷ []
        → items.new ≡ insert items_before place item }
    ensures len { length items.new ≡ length items.old }
{
    // A new element mostly stays at the end, and a turn of one would cost as much as another.
    if place < items.len() - 1 {
        items[place..].rotate_right(1);
    }
}
