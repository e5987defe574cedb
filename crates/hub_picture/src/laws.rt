//! What a drawing says of a journal.

ghost use Rattle.hub_picture.specs.Ends.{EndsLaw};
ghost use Rattle.hub_story.specs.Stories.{IsStoryOf};

use hub_base::Journal;
use hub_story::Story;

/// How an entry of a drawing ended is how the journal tells its end, where the drawing is by the journal's own story.
pub fn ends_are_told(journal: &Journal, story: &Story)
    requires story { IsStoryOf journal.now story.now }
    ensures { EndsLaw journal.now story.now }
{}
