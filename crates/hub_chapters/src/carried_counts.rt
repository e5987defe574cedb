//! Carried counts: what went through a port in all, counted across cuts.

ghost use Rattle.hub_base.specs.declared.value.Port.{Port};
ghost use Rattle.hub_chapters.specs.Chapters.{Chapters};
ghost use Rattle.hub_chapters.specs.Carried.{CarriedLaw};

use hub_base::Head;

/// The values received on a port in all are those received in the chapters, one after the other; those sent
/// in all are those received before the last chapter, and then those that it sends. So one number a port,
/// which grows at a cut by what the chapter received, makes both of its counts those of the history.
pub fn counts_go_on(head: Head)
    ensures { (chapters : Chapters) (p : Port) → CarriedLaw head chapters p }
{}
