//! Joined chapters: a journal that was cut, as often as one likes, and its whole history.

ghost use Rattle.hub_chapters.specs.Chapters.{Chapters, ChaptersLaw};

use hub_base::Head;

/// Chapters, each of which begins with the checkpoint of the one before, are one history: it is legal just
/// where each of them is, and tells what they tell behind their checkpoints. What follows the last chapter
/// is answered as after the history.
pub fn chapters_are_one_history(head: Head)
    ensures { (chapters : Chapters) → ChaptersLaw head chapters }
{}
