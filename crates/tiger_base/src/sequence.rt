//! A `Vec` that contracts see as the list of its elements.
ghost use Rattle.std.specs.Prelude.{◌≡◌, ◌==◌, ℕ, ◌∷◌, [], ◌++◌, length, OnOk, OnErr, slice_get, vec_len};
ghost use Rattle.std.specs.Option.{option_copied};

use crate::number::NoMemory;
use std::marker::Model;

/// A `Vec` that contracts see as the list of its elements, for the public fields of other types.
#[derive(Debug, Drop)]
pub struct Sequence<X> {
    pub items: Vec<X>,
}

impl<X> Model for Sequence<X> {
    ghost use Rattle.std.specs.Prelude.{List};

    ghost Value = { List X };

    ghost view = { λ s. s.items.items };
}

impl<X> Sequence<X> {
    /// The elements of a `Vec`, in their order.
    pub fn new(items: Vec<X>) -> Sequence<X>
        ensures { result ≡ items.items }
    {
        Sequence { items }
    }

    /// The elements again as a `Vec`.
    pub fn into_vec(self) -> Vec<X>
        ensures { result.items ≡ self }
    {
        let Sequence { items } = self;
        items
    }

    /// The number of elements.
    pub fn len(&self) -> usize
        ensures { result ≡ length self.now }
    {
        self.items.len()
    }

    /// Whether there is no element.
    pub fn is_empty(&self) -> bool
        ensures { result ≡ (length self.now == 0) }
    {
        self.items.is_empty()
    }

    /// The elements, lent as a slice.
    pub fn as_slice(&self) -> &[X]
        ensures { result.now ≡ self.now }
    {
        self.items.as_slice()
    }

    /// The element at an index, counted from 0; `None` exactly if there is none.
    pub fn get(&self, index: usize) -> Option<&X>
        ensures { option_copied result ≡ slice_get self.now index }
    {
        self.items.get(index)
    }
}

impl<X: Drop> Sequence<X> {
    /// Puts an element at the end; without memory for it, nothing changes.
    pub fn push(&mut self, item: X) -> Result<(), NoMemory>
        ensures ok { OnOk result (self.new ≡ self.old ++ item ∷ []) }
        ensures err { OnErr result (self.new ≡ self.old) }
    {
        self.items.push(item)?;
        Ok(())
    }
}
