// A book that is asked as long as it has room.
ghost use Rattle.std.specs.Prelude.{◌≡◌, ◌≤◌, IfOk};
ghost use Rattle.machine_step.specs.Step.{IsSchemeOf, IsWellFormed};

use crate::calls::call_of;
use crate::fields::{Fields, LineErr};
use machine_calls::{Call, Reply};
use order_limits::Keys;
use sat_base::{Keeper, Scheme};
use sat_book::{Book, NotOpened};
use std::alloc::Global;
use std::marker::Model;

/// A book, and for how many entries it has room yet.
#[derive(Drop)]
pub struct BoundedBook<K: Keeper> {
    book: Book<K>,
    left: u64,
}

impl<K: Keeper> Model for BoundedBook<K> {
    ghost use Rattle.std.specs.Prelude.{◌≤◌, ◌+◌, length};
    ghost use Rattle.sat_book.specs.Book.{BookView};

    ghost Value = { BookView K };

    ghost view = { λ b. b.book };

    ghost invariant = { λ b. length b.book.history + b.left ≤ b.book.room };
}

impl<K: Keeper> BoundedBook<K> {
    /// A book over a keeper, with room for so many entries.
    pub fn open(alloc: Global, keeper: K, term: u64) -> Result<BoundedBook<K>, NotOpened<K>>
        requires { (1 ≤ term) × (term ≤ 65536) }
    {
        let book = Book::open(alloc, keeper, term)?;
        Ok(BoundedBook { book, left: term })
    }

    /// The scheme of the store.
    pub fn scheme(&self) -> &Scheme
        ensures { IsSchemeOf self.now.tables.setup result.now }
    {
        &self.book.core().settings().scheme
    }

    /// The keys of the store.
    pub fn keys(&self) -> Keys {
        Keys::new(self.book.core().settings().secret)
    }

    /// What a call is answered, while there is room.
    pub fn ask(&mut self, call: Call) -> Option<Reply>
        requires { IsWellFormed self.old.tables call }
    {
        if self.left == 0 {
            return None;
        }
        self.left -= 1;
        Some(self.book.apply(0, call).reply)
    }

    // The call that a line says, well formed for the book's tables.
    fn call(&self, alloc: Global, line: &str) -> Result<Call, LineErr>
        ensures { IfOk result (IsWellFormed self.now.tables) }
    {
        call_of(
            alloc,
            &self.keys(),
            self.scheme(),
            &mut Fields::of_line(line, 0),
        )
    }

    /// What the call that a line says is answered, while there is room.
    pub fn ask_line(&mut self, alloc: Global, line: &str) -> Result<Option<Reply>, LineErr> {
        let call = self.call(alloc, line)?;
        Ok(self.ask(call))
    }

    /// The keeper, and how many entries there are.
    pub fn close(self) -> (K, usize) {
        let BoundedBook { book, left: _ } = self;
        let (keeper, _, history) = book.close();
        (keeper, history.len())
    }
}
