// A growing list over a lent slice.
ghost use Rattle.std.specs.Prelude.{◌≡◌, [], ◌++◌, length, ◌==◌};
ghost use Rattle.std.specs.List.{slice_get};
ghost use Rattle.storage.specs.Held.{capacity, pushed, push_answer, PushLaws, Popped, Turned};

use crate::reverse::reverse;
use std::marker::Model;

// The first `len` elements are held. A slice with a length and no `Vec`: storage is lent, and nothing is allocated.
#[derive(Drop)]
pub struct PushList<'a, E> {
    items: &'a mut [E],
    len: usize,
}

// Clauses see what is held, and the room behind it.
impl<'a, E> Model for PushList<'a, E> {
    ghost use Rattle.std.specs.Prelude.{◌≤◌, length, take, drop};
    ghost use Rattle.storage.specs.Held.{Held};

    ghost Value = { Held E };

    ghost view = { λ l. record { items = take l.len l.items.now; room = drop l.len l.items.now } };

    ghost invariant = { λ l. l.len ≤ length l.items.now };
}

impl<'a, E> PushList<'a, E> {
    // An empty list. What the slice holds stays until it is written over.
    pub fn new(items: &'a mut [E]) -> Self
        ensures { result ≡ record { items = []; room = items.old } }
    {
        PushList { items, len: 0 }
    }

    pub fn as_slice(&self) -> &[E]
        ensures { result.now ≡ self.now.items }
    {
        &self.items[..self.len]
    }

    pub fn len(&self) -> usize
        ensures { result ≡ length self.now.items }
    {
        self.as_slice().len()
    }

    // How many elements there is room for in all.
    pub fn capacity(&self) -> usize
        ensures { result ≡ capacity self.now }
    {
        self.items.len()
    }

    pub fn is_empty(&self) -> bool
        ensures { result ≡ (length self.now.items == 0) }
    {
        self.as_slice().is_empty()
    }

    pub fn is_full(&self) -> bool
        ensures { result ≡ (length self.now.room == 0) }
    {
        self.len == self.items.len()
    }

    // Turns the held elements round.
    pub fn reverse(&mut self)
        ensures { Turned self.old self.new }
    {
        reverse(&mut self.items[..self.len]);
    }

    pub fn clear(&mut self)
        ensures { self.new ≡ record { items = []; room = self.old.items ++ self.old.room } }
    {
        self.len = 0;
    }
}

impl<'a, E: Drop> PushList<'a, E> {
    // Adds an element, or gives it back where there is no room.
    pub fn push(&mut self, x: E) -> Result<(), E>
        ensures answer { result ≡ push_answer x self.old }
        ensures after { self.new ≡ pushed x self.old }
        ensures laws { PushLaws x self.old }
    {
        if self.is_full() {
            return Err(x);
        }
        self.items[self.len] = x;
        self.len += 1;
        Ok(())
    }
}

impl<'a, E: Copy> PushList<'a, E> {
    pub fn get(&self, i: usize) -> Option<E>
        ensures { result ≡ slice_get self.now.items i }
    {
        self.as_slice().get(i).copied()
    }

    pub fn pop(&mut self) -> Option<E>
        ensures { Popped result self.old self.new }
    {
        let last = *self.as_slice().last()?;
        self.len -= 1;
        Some(last)
    }
}
