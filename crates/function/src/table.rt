// A table of at most `N` elements, read and written at any index.
ghost use Rattle.std.specs.Prelude.{◌≡◌, ◌≤◌, List, [], take, drop, slice_index_or};
ghost use Rattle.std.specs.Iterator.{Drains, IsFinite};
ghost use Rattle.function.specs.Cells.{pushed, pushed_all, written, table as table_of};

use std::marker::Model;

// The first `len` rows are in use. An array with a length and no `Vec`: tables are as long as the limits, nothing is
// allocated. Not a `PushList`, which is lent its places and promises nothing of those that are free: here they are zero.
#[derive(Drop)]
pub struct Table<E, const N: usize> {
    rows: [E; N],
    len: usize,
}

impl<E, const N: usize> Model for Table<E, N> {
    ghost use Rattle.std.specs.Prelude.{◌≡◌, ◌≤◌, length};
    ghost use Rattle.function.specs.Cells.{Cells};

    ghost Value = { Cells E };

    ghost view = { λ t. record { rows = t.rows; len = t.len } };

    ghost invariant = { λ t. (t.len ≤ N) × (length t.rows ≡ N) };
}

impl<E: Copy, const N: usize> Table<E, N> {
    pub(crate) fn new(zero: E) -> Self
        ensures { result ≡ table_of N zero [] }
    {
        Table {
            rows: [zero; N],
            len: 0,
        }
    }

    pub(crate) fn len(&self) -> usize
        ensures value { result ≡ self.now.len }
        ensures bound { result ≤ N }
    {
        self.len
    }

    // Adds an element where there is room.
    pub(crate) fn push(&mut self, x: E)
        ensures { self.new ≡ pushed N x self.old }
    {
        if self.len < N {
            self.rows[self.len] = x;
            self.len += 1;
        }
    }

    // Adds each item where there is room.
    pub(crate) fn extend<I: Iterator<Item = E>>(&mut self, items: I)
        requires can { I.can_next items }
        requires ends { IsFinite (I.remaining items) }
        ensures { (xs : List E) × Drains I.next_gives items xs × (self.new ≡ pushed_all N xs self.old) }
    {
        for x in items {
            self.push(x);
        }
    }

    // Writes an element where there is such a place.
    pub(crate) fn write(&mut self, i: usize, x: E)
        ensures { self.new ≡ written i x self.old }
    {
        // `get_mut` does not say what the rows end as.
        if i < N {
            self.rows[i] = x;
        }
    }

    pub(crate) fn read(&self, i: usize, default: E) -> E
        ensures { result ≡ slice_index_or self.now.rows i default }
    {
        self.rows.get(i).copied().unwrap_or(default)
    }

    // All places, in use or not.
    pub(crate) fn rows(&self) -> &[E]
        ensures { result.now ≡ self.now.rows }
    {
        &self.rows
    }

    // Up to `n` elements from `from` on.
    pub(crate) fn part(&self, from: usize, n: usize) -> &[E]
        ensures { result.now ≡ take n (drop from self.now.rows) }
    {
        let rest = &self.rows[..];
        let rest = &rest[from.min(N)..];
        &rest[..n.min(rest.len())]
    }
}
