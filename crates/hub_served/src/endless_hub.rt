//! A hub that never ends, with the answers that wait.

ghost use Rattle.std.specs.Prelude.{◌≡◌, ◌<◌, ◌↔◌, [], IsTrue, length, IfOk, IfErr, IfSome, IfNone, OnOk, OnErr, None, Ok, false, true};
ghost use Rattle.std.specs.Option.{option_map};
ghost use Rattle.std.specs.Result.{result_and};
ghost use Rattle.hub_base.specs.Notation.{done};
ghost use Rattle.hub_base.specs.Head.{is_of};
ghost use Rattle.hub_base.specs.Runs.{state};
ghost use Rattle.hub_base.specs.declared.limits.TheConstants.{MOST_STEPS};
ghost use Rattle.hub_core.specs.HubView.{RefusesOpening, terms_of};
ghost use Rattle.hub_chapters.specs.Chapters.{Chapters, history};
ghost use Rattle.hub_chapters.specs.Chapters.Chapters.{First};
ghost use Rattle.hub_cut.specs.ChapterText.{FitsText};
ghost use Rattle.hub_cut.specs.Recorder.{IsKeep, begins, chapter_out, head_of_all, hub_in, out_or};
ghost use Rattle.hub_cut.specs.Totals.{totals_at};
ghost use Rattle.hub_live.specs.Locked.{IsReplyTo, answer_for};
ghost use Rattle.hub_served.specs.Endless.{CutsNow, Explains, NoneWaits, ServesOn, without_answer};

use hub_base::{Edition, EntryRef, Event, Fault, Head, NoMemory, Pid, Port, StepRef};
use hub_core::{OpenFault, ShortHub};
use hub_cut::{Recorder, Totals};
use hub_live::under_lock::{Answers, Pids};
use std::alloc::Global;
use std::marker::Model;

/// A hub that cuts itself, and for each process an answer that may wait to be picked up.
#[derive(Drop)]
pub struct EndlessHub {
    /// The hub, which keeps its last two chapters.
    recorder: Recorder,
    /// The answers that wait, what the last step that was made was answered, and whose calls it ended.
    answers: Answers,
}

impl Model for EndlessHub {
    ghost use Rattle.hub_served.specs.Endless.{EndlessView, EndlessKeeps, endless_view};

    ghost Value = { EndlessView };

    ghost view = { λ l. endless_view l.recorder l.answers.waiting l.answers.last l.answers.ended };

    ghost invariant = { λ l. EndlessKeeps (endless_view l.recorder l.answers.waiting l.answers.last l.answers.ended) };
}

impl EndlessHub {
    /// A hub of this edition, with 1 to `MOST_PROCS` processes, at which no answer waits. A chapter is cut once it has
    /// `keep` steps behind its checkpoint, and twice as many as that has, exits not counted.
    ///
    /// The errors are `BadProcs` and `NoMemory`, tested in this order.
    pub fn open(
        alloc: Global,
        procs: u8,
        keep: u32,
        edition: Edition,
    ) -> Result<EndlessHub, OpenFault>
        requires keep { IsKeep keep }
        ensures ok { IfOk result (λ l. Explains (First []) l) }
        ensures none { IfOk result (λ l. NoneWaits l) }
        ensures last { IfOk result (λ l. l.last ≡ done 0) }
        ensures terms { IfOk result (λ l. l.recorder.hub.terms ≡ terms_of edition procs MOST_STEPS) }
        ensures keep { IfOk result (λ l. l.recorder.keep ≡ keep) }
        ensures early { IfOk result (λ l. l.recorder.early ≡ false) }
        ensures err { IfErr result (λ f. RefusesOpening (terms_of edition procs MOST_STEPS) f) }
    {
        let recorder = Recorder::open(alloc, procs, keep, edition)?;
        Ok(EndlessHub {
            recorder,
            answers: Answers::new(),
        })
    }

    /// Makes a step that the hub's edition has. `answer` then gives its answer, the first of its events, until the next step is
    /// made. What waited for the caller is dropped. Each event that follows, which ends a call, waits for its process, also a
    /// `Stalled` that follows the caller's own `Parked`.
    ///
    /// If the step begins a chapter, the present one is cut first, and the chapter before it is handed out into `out`, if
    /// there is one, which must be empty then. So each chapter is handed out once, in order.
    ///
    /// The only refusals are `NoProcess`, `Gone`, `Busy` and `NoMemory`, tested in this order; an exit is never refused by
    /// `NoMemory`. After a refusal nothing has changed.
    pub fn step(&mut self, entry: &EntryRef<'_>, out: &mut Option<ShortHub>) -> Result<(), Fault>
        requires fits { is_of (head_of_all self.old.recorder).edition entry.now.step ≡ true }
        requires empty { begins self.old.recorder entry.now.step ≡ true → out.old ≡ None }
        ensures rules { ServesOn self.old entry.now self.new (result_and result (Ok self.new.last)) }
        ensures handed_out { OnOk result (option_map hub_in out.new
            ≡ out_or (chapter_out self.old.recorder entry.now.step) (option_map hub_in out.old)) }
        ensures text { OnOk result (IfSome (chapter_out self.old.recorder entry.now.step) FitsText) }
        ensures kept { OnErr result (out.new ≡ out.old) }
    {
        self.answers.begin();
        self.recorder.step_heard(entry, &mut self.answers, out)?;
        Ok(())
    }

    /// What the last step that was made was answered; before the first, that process 0 is done.
    #[inline(always)]
    pub fn answer(&self) -> &Event
        ensures { result.now ≡ self.now.last }
    {
        self.answers.last()
    }

    /// Takes out the answer that waits for a process: the process's reply in the whole history, and the process has no open
    /// call. `None` where no answer waits for it, and where there is no such process.
    pub fn take(&mut self, pid: Pid) -> Option<Event>
        ensures answer { result ≡ answer_for self.old.answers pid.0 }
        ensures taken { self.new ≡ without_answer self.old pid.0 }
        ensures reply { (chapters : Chapters) → Explains chapters self.old →
            IfSome result (IsReplyTo (head_of_all self.old.recorder) pid.0 (history chapters)) }
        ensures explains { (chapters : Chapters) → Explains chapters self.old → Explains chapters self.new }
        ensures none { IfNone result (self.new ≡ self.old) }
    {
        self.answers.take(pid)
    }

    /// Cuts the present chapter, full or not: the next step comes behind a checkpoint. The chapter before it is given, if there
    /// is one. Answers that wait go on waiting. It is refused only if an allocation fails, and then nothing has changed.
    pub fn cut(&mut self) -> Result<Option<ShortHub>, NoMemory>
        ensures ok { OnOk result (CutsNow self.old self.new) }
        ensures handed_out { IfOk result (λ chapter. option_map hub_in chapter ≡ self.old.recorder.before) }
        ensures text { IfOk result (λ chapter. IfSome (option_map hub_in chapter) FitsText) }
        ensures unchanged { OnErr result (self.new ≡ self.old) }
    {
        self.recorder.cut()
    }

    /// Whether this step, if it is made next, begins a chapter. An exit never does.
    pub fn begins(&self, step: &StepRef<'_>) -> bool
        ensures { result ≡ begins self.now.recorder step.now }
    {
        self.recorder.begins(step)
    }

    /// Whether the last step that was made ended any call. Mostly none did.
    pub fn has_ended(&self) -> bool
        ensures { IsTrue result ↔ 0 < length self.now.ended }
    {
        self.answers.has_ended()
    }

    /// Whose calls the last step that was made ended: they are to be woken. A wake is only a hint: no clause says that one
    /// comes.
    pub fn ended(&self) -> Pids
        ensures { result.items ≡ self.now.ended }
    {
        self.answers.ended()
    }

    /// What a port holds, and what it has carried since the hub was opened. `None` for port 0 and for a port that was not
    /// made.
    pub fn look(&self, port: Port) -> Option<Totals>
        ensures { (chapters : Chapters) → Explains chapters self.now
            → result ≡ totals_at (state (head_of_all self.now.recorder) (history chapters)) port }
    {
        self.recorder.look(port)
    }

    /// What each chapter's head lines say: its edition, and its number of processes.
    pub fn head(&self) -> Head
        ensures { result ≡ head_of_all self.now.recorder }
    {
        self.recorder.present().head()
    }

    /// The hub, whose journal is the present chapter.
    pub fn present(&self) -> &ShortHub
        ensures { result.now.memory.hub ≡ self.now.recorder.hub }
    {
        self.recorder.present()
    }

    /// The hub as it was at the last cut, if there was one. Its journal is the chapter before the present one.
    pub fn before(&self) -> Option<&ShortHub>
        ensures { option_map (λ b. hub_in b.now) result ≡ self.now.recorder.before }
    {
        self.recorder.before()
    }
}
