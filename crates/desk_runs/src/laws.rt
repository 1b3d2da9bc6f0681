// Laws of passes and their workers, as contracts of functions that do nothing.
ghost use Rattle.std.specs.Prelude.{◌≡◌, ℕ, ◌≤◌, List, ◌++◌, ◌∷◌, [], cond, nat_lt, length};
ghost use Rattle.turnstile.specs.declared.entry.Entry.{Entry};
ghost use Rattle.turnstile.specs.Known.{Known, SameRights, Joined, kept_half, given_half, with_mark};
ghost use Rattle.turnstile.specs.History.{own};
ghost use Rattle.desk_runs.specs.Entered.{Entered, Marked};
ghost use Rattle.desk_runs.specs.Gathered.{Gathered, Keeps};
ghost use Rattle.desk_runs.specs.Numbered.{Apart, ArePlaced, Covers, times_named};

/// Calls that were entered one after another are entered together. None leaves a pass as it is.
pub fn entered_calls_add_up<C, A, B>()
    ensures none { (k : Known C A B) → Entered k [] k }
    ensures more { (a b c : Known C A B) (xs ys : List (Entry C A)) → Entered a xs b → Entered b ys c → Entered a (xs ++ ys) c }
    ensures full { (k : Known C A B) (t : ℕ) → Entered k [] (with_mark k t) }
{}

/// A pass keeps what it has seen, its numbers and its mark in one that it is joined into.
pub fn joined_passes_keep<C, A, B>()
    ensures { (a b whole : Known C A B) → Joined a b whole → Keeps a whole × Keeps b whole }
{}

/// One worker more: a pass was cut, the workers of the one half were gathered again, the worker of the other used its
/// pass, and both were joined.
pub fn workers_are_gathered<C, A, B>()
    ensures { (v l o r p u : Known C A B) (numbers : List ℕ) → l ≡ kept_half v → o ≡ given_half v → 2 ≤ v.spare
        → Gathered l numbers r → SameRights o p → Joined r p u → Gathered v (numbers ++ o.number ∷ []) u }
{}

/// Where the numbers of workers differ, each entry has one of them and stands at its place, their own entries name each
/// place of the history once, and no other.
pub fn each_place_is_named_once<C, A>()
    ensures { (numbers : List ℕ) (history : List (Entry C A)) (place : ℕ) → ArePlaced history → Apart numbers
        → Covers numbers history → times_named numbers history place ≡ cond (nat_lt place (length history)) 1 0 }
{}
