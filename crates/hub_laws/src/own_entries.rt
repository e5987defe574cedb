//! Own entries: what a process asked, and what it was told to each.

ghost use Rattle.std.specs.Prelude.{◌≡◌, ◌++◌, ◌∷◌, [], ℕ, List, map};
ghost use Rattle.hub_base.specs.Entry.{Entry};
ghost use Rattle.hub_base.specs.declared.head.Head.{Head};
ghost use Rattle.hub_laws.specs.Replies.{own, reply};
ghost use Rattle.hub_laws.specs.Asked.{asked};

/// What a process asked in a journal are its own entries there, in order; and the reply to the last of
/// them is the last that the process was told.
pub fn own_entries_are_asked()
    ensures steps { (q : ℕ) (h : Head) (journal : List Entry) →
        map (λ a. a.step) (asked q h journal) ≡ map (λ e. e.step) (own q journal) }
    ensures last { (q : ℕ) (h : Head) (before : List Entry) (e : Entry) (others : List Entry) →
        e.pid.0 ≡ q → own q others ≡ [] →
        asked q h (before ++ e ∷ others) ≡ asked q h before
        ++ record { step = e.step; reply = reply q h (before ++ e ∷ others) } ∷ [] }
{}
