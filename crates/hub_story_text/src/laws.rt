//! What a story says of its journal.

ghost use Rattle.std.specs.Prelude.{◌≡◌, List};
ghost use Rattle.std.specs.List.{AllByRecursion};
ghost use Rattle.hub_base.specs.Entry.{Entry};
ghost use Rattle.hub_base.specs.declared.head.Head.{Head};
ghost use Rattle.hub_base.specs.Text.{Fits};
ghost use Rattle.hub_story.specs.Told.{told};
ghost use Rattle.hub_story_text.specs.OneStory.{whole_story};

/// A law: whole stories that are spelled alike are of the same entries, each of which fits the edition of its journal: so
/// `Entry::fits` tells. A story does not spell the head; journals with the same head then tell the same events.
pub fn one_story_spelling()
    ensures entries { (h k : Head) (es fs : List Entry)
        → AllByRecursion (Fits h.edition) es → AllByRecursion (Fits k.edition) fs
        → whole_story h es ≡ whole_story k fs → es ≡ fs }
    ensures told { (h : Head) (es fs : List Entry)
        → AllByRecursion (Fits h.edition) es → AllByRecursion (Fits h.edition) fs
        → whole_story h es ≡ whole_story h fs → told h es ≡ told h fs }
{}
