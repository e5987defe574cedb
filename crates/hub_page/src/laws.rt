//! What the data of a page say of its journal.

ghost use Rattle.std.specs.Prelude.{◌≡◌, List};
ghost use Rattle.std.specs.List.{AllByRecursion};
ghost use Rattle.hub_base.specs.Entry.{Entry};
ghost use Rattle.hub_base.specs.declared.head.Head.{Head};
ghost use Rattle.hub_base.specs.Head.{IsHead};
ghost use Rattle.hub_base.specs.Text.{Fits};
ghost use Rattle.hub_page.specs.ReadBack.{whole_data};

/// A law: pages of all steps whose data are the same bytes are of the same journal, if each entry fits the edition of its own, as
/// `Entry::fits` tells.
pub fn page_is_read_back()
    ensures { (h k : Head) (es fs : List Entry)
        → IsHead h → IsHead k → AllByRecursion (Fits h.edition) es → AllByRecursion (Fits k.edition) fs
        → whole_data h es ≡ whole_data k fs → (h ≡ k) × (es ≡ fs) }
{}
