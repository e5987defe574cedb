//! How a hub keeps its journal.

ghost use Rattle.std.specs.Prelude.{◌≡◌};

/// In which form a hub keeps the entries of its journal: `Whole` and `Short` are the two.
pub trait Form {
    ghost use Rattle.std.specs.Prelude.{Bool};

    /// That every entry is written out.
    ghost whole: { Bool };

    /// Whether every entry is written out. Where not, the newest may be kept short.
    fn is_whole() -> bool
        ensures { result ≡ whole };
}

/// Each entry is written out.
#[derive(Clone, Copy)]
pub struct Whole;

/// Most entries take 16 bytes, in place of those of an `Entry`, where there is memory for that; they are written out when the
/// journal is asked for.
#[derive(Clone, Copy)]
pub struct Short;

impl Form for Whole {
    ghost use Rattle.std.specs.Prelude.{true};

    ghost whole = { true };

    #[inline(always)]
    fn is_whole() -> bool {
        true
    }
}

impl Form for Short {
    ghost use Rattle.std.specs.Prelude.{false};

    ghost whole = { false };

    #[inline(always)]
    fn is_whole() -> bool {
        false
    }
}
