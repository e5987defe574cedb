//! A recorder is a hub that cuts itself, so it never ends.
//!
//! The present chapter is cut once it has `keep` steps behind its checkpoint, and twice as many as that has, exits not
//! counted; or once its text might soon be longer than a reader takes. So the last `keep` steps, or as many as two texts
//! hold, always stand in the present chapter and in the one before it. Each of these is a journal of its own. Older
//! chapters are handed out. A checkpoint and what follows stay below the limit of a hub, so no step is refused because the
//! journal is full. A cut takes as long as a checkpoint is: twice as many steps pay for it.

ghost use Rattle.std.specs.Prelude.{◌≡◌, ◌≤◌, ◌<◌, ◌^◌, [], IfOk, IfErr, IfSome, OnOk, OnErr, None, true, false};
ghost use Rattle.std.specs.Option.{option_map};
ghost use Rattle.hub_base.specs.Head.{is_of};
ghost use Rattle.hub_base.specs.Runs.{state};
ghost use Rattle.hub_base.specs.declared.limits.TheConstants.{MOST_EVENTS, MOST_STEPS};
ghost use Rattle.hub_core.specs.HubView.{RefusesOpening, terms_of};
ghost use Rattle.hub_chapters.specs.Chapters.{Chapters, history};
ghost use Rattle.hub_chapters.specs.Chapters.Chapters.{First};
ghost use Rattle.hub_cut.specs.ChapterText.{FitsText};
ghost use Rattle.hub_cut.specs.Cut.{HasHeard};
ghost use Rattle.hub_cut.specs.Recorder.{FitTexts, IsKeep, IsRecorder, IsShort, Records, RecordsCut, RecordsStep, RefusesStep, chapter_out, head_of_all, begins, hub_in, is_full, least_of, out_or};
ghost use Rattle.hub_cut.specs.Totals.{totals_at};

use crate::Totals;
use crate::cuts::{cut_and_step, cut_short};
use crate::limits::CHAPTER_BYTES;
use crate::renewals::Chapter;
use crate::texts::most_line;
use crate::totals::{PORT_PLACES, add_received, base_of, no_bases, with_base};
use hub_base::{Edition, EntryRef, Fault, Hears, MOST_STEPS, NoMemory, Port, StepRef};
use hub_core::{OpenFault, ShortHub};
use std::alloc::Global;
use std::marker::Model;

/// A hub that cuts itself, keeps its last two chapters, and hands out the older ones.
#[derive(Drop)]
pub struct Recorder {
    /// Where a cut takes memory.
    alloc: Global,
    /// The present chapter.
    present: Chapter,
    /// The hub as it was at the last cut: its journal is the chapter before.
    before: Option<ShortHub>,
    /// With fewer steps behind its checkpoint, exits not counted, a chapter is full only if its text might get too long.
    keep: u32,
    /// How many the present chapter has.
    fresh: u32,
    /// How many bytes their lines have at most.
    bytes: u32,
    /// Whether the last cut was asked for, and did not wait for a full chapter.
    early: bool,
    /// By a port's number, how many values were received on it before the present chapter.
    bases: [u64; PORT_PLACES],
}

impl Model for Recorder {
    ghost use Rattle.hub_cut.specs.Recorder.{RecorderView};

    ghost Value = { RecorderView };

    ghost use Rattle.hub_cut.specs.RecorderKeeps.{RecorderKeeps, shown};

    ghost view = { λ r. shown r };

    ghost invariant = { λ r. RecorderKeeps r };
}

/// Keeps a chapter that has ended, and hands out the one before it, if there is one.
fn keep_last(before: &mut Option<ShortHub>, chapter: ShortHub) -> Option<ShortHub>
    ensures handed_out { result ≡ before.old }
    ensures kept { before.new ≡ Some chapter }
{
    before.replace(chapter)
}

/// How many steps come behind a checkpoint of so many before the next cut, exits not counted.
fn least_of(keep: u32, checkpoint: u32) -> u32
    requires { checkpoint < 2 ^ 31 }
    ensures { result ≡ least_of keep checkpoint }
{
    keep.max(2 * checkpoint)
}

impl Recorder {
    /// A recorder of this edition, with 1 to `MOST_PROCS` processes. A chapter is cut once it has `keep` steps behind its
    /// checkpoint, and twice as many as that has, exits not counted.
    ///
    /// The errors are `BadProcs` and `NoMemory`, tested in this order.
    pub fn open(
        alloc: Global,
        procs: u8,
        keep: u32,
        edition: Edition,
    ) -> Result<Recorder, OpenFault>
        requires keep { IsKeep keep }
        ensures ok { IfOk result (λ r. Records (First []) r) }
        ensures terms { IfOk result (λ r. r.hub.terms ≡ terms_of edition procs MOST_STEPS) }
        ensures keep { IfOk result (λ r. r.keep ≡ keep) }
        ensures early { IfOk result (λ r. r.early ≡ false) }
        ensures err { IfErr result (λ f. RefusesOpening (terms_of edition procs MOST_STEPS) f) }
    {
        let hub = ShortHub::open(alloc, procs, MOST_STEPS, edition)?;
        Ok(Recorder {
            alloc,
            present: Chapter { hub, checkpoint: 0 },
            before: None,
            keep,
            fresh: 0,
            bytes: 0,
            early: false,
            bases: no_bases(),
        })
    }

    /// Makes a step that the hub's edition has. Its events are heard by whoever has room for those of any step; after a
    /// refusal none was. If the present chapter is full, it is cut first, and the chapter before it is handed out into `out`,
    /// if there is one, which must be empty then. So each chapter is handed out once, in order. The cases of a call stay where they
    /// are, until they are written into the journal.
    ///
    /// The only refusals are `NoProcess`, `Gone`, `Busy` and `NoMemory`, tested in this order; an exit is never refused by
    /// `NoMemory`. After a refusal nothing has changed.
    pub fn step_heard<E: Hears>(
        &mut self,
        entry: &EntryRef<'_>,
        events: &mut E,
        out: &mut Option<ShortHub>,
    ) -> Result<(), Fault>
        requires fits { is_of (head_of_all self.old).edition entry.now.step ≡ true }
        requires hears { MOST_EVENTS ≤ E.room events.old }
        requires empty { begins self.old entry.now.step ≡ true → out.old ≡ None }
        ensures ok { OnOk result (HasHeard (E.heard events.old) events.new (RecordsStep self.old entry.now self.new)) }
        ensures handed_out { OnOk result (option_map hub_in out.new ≡ out_or (chapter_out self.old entry.now.step) (option_map hub_in out.old)) }
        ensures text { OnOk result (IfSome (chapter_out self.old entry.now.step) FitsText) }
        ensures refused { IfErr result (λ f. RefusesStep self.old entry.now f) }
        ensures unchanged { OnErr result (self.new ≡ self.old) }
        ensures silent { OnErr result (events.new ≡ events.old) }
        ensures kept { OnErr result (out.new ≡ out.old) }
    {
        if self.begins(&entry.step) {
            return self.begin_chapter(entry, events, out);
        }
        self.go_on(entry, events)
    }

    /// Whether the present chapter is cut before the next step that is no exit.
    fn is_full(&self) -> bool
        ensures { result ≡ is_full self.now }
    {
        self.fresh >= least_of(self.keep, self.present.checkpoint) || self.bytes >= CHAPTER_BYTES
    }

    /// Whether this step, if it is made next, begins a chapter.
    pub fn begins(&self, step: &StepRef<'_>) -> bool
        ensures { result ≡ begins self.now step.now }
    {
        !step.is_exit() && self.is_full()
    }

    /// Makes a step in the present chapter, which is not full unless it is an exit.
    fn go_on<E: Hears>(&mut self, entry: &EntryRef<'_>, events: &mut E) -> Result<(), Fault>
        requires fits { is_of (head_of_all self.old).edition entry.now.step ≡ true }
        requires hears { MOST_EVENTS ≤ E.room events.old }
        requires room { begins self.old entry.now.step ≡ false }
        ensures ok { OnOk result (HasHeard (E.heard events.old) events.new (RecordsStep self.old entry.now self.new)) }
        ensures refused { IfErr result (λ f. RefusesStep self.old entry.now f) }
        ensures unchanged { OnErr result (self.new ≡ self.old) }
        ensures silent { OnErr result (events.new ≡ events.old) }
    {
        self.present.hub.step_heard(entry, events)?;
        let bytes = most_line(self.present.hub.head().edition, entry);
        if !entry.step.is_exit() {
            self.fresh += 1;
            self.bytes += bytes;
        }
        Ok(())
    }

    /// Cuts the present chapter, which is full, and makes a step that is no exit behind its checkpoint. Hands out the
    /// chapter before it. It stands alone, so that a step that cuts nothing keeps no place for a hub on its stack.
    #[inline(never)]
    fn begin_chapter<E: Hears>(
        &mut self,
        entry: &EntryRef<'_>,
        events: &mut E,
        out: &mut Option<ShortHub>,
    ) -> Result<(), Fault>
        requires fits { is_of (head_of_all self.old).edition entry.now.step ≡ true }
        requires hears { MOST_EVENTS ≤ E.room events.old }
        requires full { begins self.old entry.now.step ≡ true }
        requires empty { out.old ≡ None }
        ensures ok { OnOk result (HasHeard (E.heard events.old) events.new (RecordsStep self.old entry.now self.new)) }
        ensures handed_out { OnOk result (option_map hub_in out.new ≡ self.old.before) }
        ensures text { OnOk result (IfSome self.old.before FitsText) }
        ensures refused { IfErr result (λ f. RefusesStep self.old entry.now f) }
        ensures unchanged { OnErr result (self.new ≡ self.old) }
        ensures silent { OnErr result (events.new ≡ events.old) }
        ensures kept { OnErr result (out.new ≡ out.old) }
    {
        let bytes = most_line(self.present.hub.head().edition, entry);
        let whole = cut_and_step(self.alloc, &mut self.present, entry, events)?;
        add_received(&mut self.bases, &whole);
        self.fresh = 1;
        self.bytes = bytes;
        self.early = false;
        *out = keep_last(&mut self.before, whole);
        Ok(())
    }

    /// Cuts the present chapter, full or not. The chapter before it is handed out, if there is one. It is refused only if
    /// an allocation fails, and then nothing has changed.
    pub fn cut(&mut self) -> Result<Option<ShortHub>, NoMemory>
        ensures ok { OnOk result (RecordsCut self.old self.new) }
        ensures handed_out { IfOk result (λ chapter. option_map hub_in chapter ≡ self.old.before) }
        ensures text { IfOk result (λ chapter. IfSome (option_map hub_in chapter) FitsText) }
        ensures unchanged { OnErr result (self.new ≡ self.old) }
    {
        let whole = cut_short(self.alloc, &mut self.present)?;
        add_received(&mut self.bases, &whole);
        self.fresh = 0;
        self.bytes = 0;
        self.early = true;
        Ok(keep_last(&mut self.before, whole))
    }

    /// What a port holds, and what it has carried since the recorder was opened. `None` for port 0 and for a port that was
    /// not made.
    pub fn look(&self, port: Port) -> Option<Totals>
        ensures { (chapters : Chapters) → Records chapters self.now
            → result ≡ totals_at (state (head_of_all self.now) (history chapters)) port }
    {
        let look = self.present.hub.look(port)?;
        Some(with_base(base_of(&self.bases, port), look))
    }

    /// The hub, whose journal is the present chapter.
    pub fn present(&self) -> &ShortHub
        ensures { result.now.memory.hub ≡ self.now.hub }
    {
        &self.present.hub
    }

    /// Shows that the recorder stands for some history, and that its chapters are short. It changes nothing.
    pub fn chapters_are_kept(&self)
        ensures recorder { IsRecorder self.now }
        ensures short { IsShort self.now }
        ensures texts { FitTexts self.now }
    {
        self.present.hub.journal_is_legal();
    }

    /// The hub as it was at the last cut, if there was one. Its journal is the chapter before the present one.
    pub fn before(&self) -> Option<&ShortHub>
        ensures { option_map (λ b. hub_in b.now) result ≡ self.now.before }
    {
        self.before.as_ref()
    }

    /// The chapter before the present one, if there is one, and the present one.
    pub fn into_chapters(self) -> (Option<ShortHub>, ShortHub)
        ensures before { option_map hub_in result.0 ≡ self.before }
        ensures present { hub_in result.1 ≡ self.hub }
        ensures texts { FitTexts self }
    {
        (self.before, self.present.hub)
    }
}
