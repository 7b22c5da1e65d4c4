//! The books of a desk.
ghost use Rattle.std.specs.Borrow.{Lends, sem};
ghost use Rattle.std.specs.Prelude.{◌≡◌};
ghost use Rattle.index_desk.specs.contracts.desk.Desk.{the_row};

use super::Desk;

impl<B> Desk<B> {
    /// The books.
    pub fn books(&self) -> &B
        ensures { result.now ≡ self.now }
    {
        &self.books
    }

    /// The books, for more than a desk does with them.
    pub fn books_mut(&mut self) -> &mut B
        ensures value { result.now ≡ self.old }
        ensures* writes_back { sem 𝓛 (Lends (the_row B.row) B.row self.entry result
            (λ books. books)) }
    {
        &mut self.books
    }
}
