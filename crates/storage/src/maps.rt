// A table by number over a lent slice, with a default beyond its end.
ghost use Rattle.std.specs.Prelude.{◌≡◌, length, replicate};
ghost use Rattle.storage.specs.Tables.{at, fresh, written, FreshLaw, WriteLaws};

use std::marker::Model;

// Writes one element everywhere. Not `[E]::fill`, which asks for a clone that cannot fail: `Copy` does not promise one.
pub fn fill<E: Copy>(elems: &mut [E], x: E)
    ensures { elems.new ≡ replicate (length elems.old) x }
{
    elems.fill_with(|| x);
}

// An element for each number: those below the slice's length are stored, all others are the default. A
// slice and no map of std: storage is lent, and nothing is allocated.
#[derive(Drop)]
pub struct SecondaryMap<'a, E> {
    elems: &'a mut [E],
    default: E,
}

impl<'a, E> Model for SecondaryMap<'a, E> {
    ghost use Rattle.storage.specs.Tables.{Table};

    ghost Value = { Table E };

    ghost view = { λ m. record { elems = m.elems.now; default = m.default } };
}

impl<'a, E: Copy> SecondaryMap<'a, E> {
    // Every number has the default.
    pub fn with_default(elems: &'a mut [E], default: E) -> Self
        ensures value { result ≡ fresh (length elems.old) default }
        ensures law { FreshLaw (length elems.old) default }
    {
        fill(elems, default);
        SecondaryMap { elems, default }
    }

    // How many numbers have a place.
    pub fn capacity(&self) -> usize
        ensures { result ≡ length self.now.elems }
    {
        self.elems.len()
    }

    // The element of a number: the default beyond the end.
    pub fn get(&self, i: usize) -> E
        ensures { result ≡ at self.now i }
    {
        self.elems.get(i).copied().unwrap_or(self.default)
    }

    // Gives a number its element. Beyond the end nothing changes.
    pub fn set(&mut self, i: usize, x: E)
        ensures after { self.new ≡ written self.old i x }
        ensures laws { WriteLaws self.old i x }
    {
        // `get_mut` does not say what the slice ends as.
        if i < self.elems.len() {
            self.elems[i] = x;
        }
    }

    // Every number has the default again.
    pub fn clear(&mut self)
        ensures { self.new ≡ fresh (length self.old.elems) self.old.default }
    {
        let default = self.default;
        fill(self.elems, default);
    }
}
