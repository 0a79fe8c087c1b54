//! Consecutive numbers.
ghost use Rattle.std.specs.Prelude.{◌≡◌, ℕ, ◌+◌, ◌&&◌, ◌↔◌, IsTrue};
ghost use Rattle.std.specs.Ordering.{partial_le};

/// Numbers that rise one by one, from the first to the last.
// No range of the library: one with its last number cannot stand in a constant, and one without has no last number to go on from.
#[derive(Clone, Copy)]
pub struct Span<T> {
    pub first: T,
    pub last: T,
}

impl<T: PartialOrd> Span<T> {
    /// Whether this number is among them.
    pub(crate) fn contains(&self, number: &T) -> bool
        ensures { result ≡ (partial_le T.partial_cmp self.now.first number.now && partial_le T.partial_cmp number.now self.now.last) }
    {
        self.first <= *number && *number <= self.last
    }
}

impl<T: Copy + PartialEq + Into<u32>> Span<T> {
    /// One number.
    pub(crate) fn of(number: T) -> Self
        ensures first { result.first ≡ number }
        ensures last { result.last ≡ number }
    {
        Span {
            first: number,
            last: number,
        }
    }

    /// Whether this number comes next.
    pub(crate) fn leads_to(&self, number: T) -> bool
        ensures { (m n : ℕ) × T.converts self.now.last m × T.converts number n × (IsTrue result ↔ (n ≡ m + 1)) }
    {
        self.last.into().checked_add(1) == Some(number.into())
    }

    /// Takes the next number in.
    pub(crate) fn take(&mut self, number: T)
        ensures { self.new ≡ record self.old { last = number } }
    {
        self.last = number;
    }
}
