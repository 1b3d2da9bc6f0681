//! What a desk shares.
ghost use Rattle.std.specs.Prelude.{◌≡◌, ℕ, ◌<◌, List, length, ◌++◌, ◌∷◌, []};
ghost use Rattle.turnstile.specs.declared.entry.Entry.{Entry};
ghost use Rattle.turnstile.specs.Entry.{entry_of};

/// A value that stands for a lawful list of entries, and whose `turn` appends one.
pub trait Turn {
    type Call;
    /// What the entry keeps of the answer.
    type Reply;

    type Answer;
    /// What no turn changes. No value of it is made.
    type Base;

    ghost base: { Self → Self.Base };

    /// Some base. It is told of passes that were joined into others, of which nobody asks it.
    ghost nowhere: { Self.Base };

    ghost entries: { Self → List (Entry Self.Call Self.Reply) };

    ghost reply: { Self.Answer → Self.Reply };

    /// The place that the answer tells.
    ghost place: { Self.Answer → ℕ };

    /// How many entries the value has room for.
    ghost room: { Self → ℕ };

    /// What is always true of the entries.
    ghost lawful: { Self.Base → List (Entry Self.Call Self.Reply) → Type 0 };

    /// Which calls may be entered.
    ghost well_formed: { Self.Base → Self.Call → Type 0 };

    /// Takes one call of the pass with this number.
    fn turn(&mut self, pass: u32, call: Self::Call) -> Self::Answer
        requires room { length (entries self.old) < room self.old }
        requires lawful { lawful (base self.old) (entries self.old) }
        requires call { well_formed (base self.old) call }
        ensures entry { entries self.new ≡ entries self.old ++ entry_of (length (entries self.old)) pass call (reply result) ∷ [] }
        ensures place { place result ≡ length (entries self.old) }
        ensures lawful { lawful (base self.new) (entries self.new) }
        ensures base { base self.new ≡ base self.old }
        ensures room { room self.new ≡ room self.old };
}
