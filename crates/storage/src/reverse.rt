// A reversal in place, for every kind of element.
ghost use Rattle.storage.specs.Reversal.{Reversed};

// Turns a slice round: what was first is last.
pub fn reverse<E>(items: &mut [E])
    ensures { Reversed items.old items.new }
{
    items.reverse();
}
