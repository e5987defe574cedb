//! How a conversation goes on by the lines that come.

ghost use Rattle.std.specs.Prelude.{◌≡◌, ◌≤◌, ◌<◌, ◌≢◌, ◌+◌, ◌-◌, ◌++◌, ℕ, List, [], length, vec_len};
ghost use Rattle.std.specs.Prelude.{IfOk, IfErr, OnOk, IsSome, None};
ghost use Rattle.hub_base.specs.declared.limits.TheConstants.{MOST_BYTES};
ghost use Rattle.hub_replay.specs.Lines.{IsLine};
ghost use Rattle.hub_replay.specs.Replay.{IsEventText};
ghost use Rattle.hub_replay.specs.Verify.{newlines_in};
ghost use Rattle.hub_replay.specs.Stands.{Stands, Ends, Hears, FailsHere};

use super::Conversation;
use crate::lines::{cut_line, read_first, read_second};
use crate::running::Running;
use hub_base::{Kind, MOST_BYTES, NoMemory, TextFault};
use hub_text::EventText;
use std::alloc::{AllocError, Global};

impl Conversation {
    /// Before anything was heard.
    pub(crate) fn open(alloc: Global) -> Conversation
        ensures { Stands [] [] [] result }
    {
        Conversation {
            text: Vec::new(alloc),
            front: 0,
            line: 1,
            place: 0,
            running: None,
        }
    }

    /// The fault of the next line.
    fn fault(&self, kind: Kind) -> TextFault
        ensures line { result.line ≡ self.now.line }
        ensures kind { result.kind ≡ kind }
    {
        TextFault {
            line: self.line,
            kind,
        }
    }

    /// The line that has come is the first.
    fn end_first_line(&mut self) -> Option<TextFault>
        requires some { self.old.front < vec_len self.old.text }
        requires fits { self.old.place + (vec_len self.old.text - self.old.front) ≤ MOST_BYTES }
        requires head { self.old.running ≡ None }
        requires first { self.old.line ≡ 1 }
        ensures { (lines line said body answers : List ℕ) → Stands lines line said self.old
            → IsLine line body → Ends lines line said answers answers self.new result }
    {
        if let Err(kind) = read_first(&self.text) {
            return Some(self.fault(kind));
        }
        self.place += self.text.len() - self.front;
        self.front = self.text.len();
        self.line = 2;
        None
    }

    /// The line that has come is the second.
    fn end_second_line(&mut self, alloc: Global) -> Result<Option<TextFault>, NoMemory>
        requires some { self.old.front < vec_len self.old.text }
        requires fits { self.old.place + (vec_len self.old.text - self.old.front) ≤ MOST_BYTES }
        requires head { self.old.running ≡ None }
        requires second { self.old.line ≢ 1 }
        ensures { IfOk result (λ fault. (lines line said body answers : List ℕ)
            → Stands lines line said self.old → IsLine line body
            → Ends lines line said answers answers self.new fault) }
    {
        let head = match read_second(&self.text) {
            Ok(head) => head,
            Err(kind) => return Ok(Some(self.fault(kind))),
        };
        self.running = Some(Running::open(alloc, head)?);
        self.place += self.text.len() - self.front;
        self.front = self.text.len();
        self.line += 1;
        Ok(None)
    }

    /// The line that has come is that of an entry.
    fn end_entry_line(&mut self, answers: &mut EventText) -> Result<Option<TextFault>, NoMemory>
        requires some { self.old.front < vec_len self.old.text }
        requires fits { self.old.place + (vec_len self.old.text - self.old.front) ≤ MOST_BYTES }
        requires entries { IsSome self.old.running }
        ensures { IfOk result (λ fault. (lines line said body : List ℕ)
            → Stands lines line said self.old → IsLine line body
            → Ends lines line said answers.old.lines answers.new.lines self.new fault) }
    {
        let line = self.line;
        self.place += self.text.len() - self.front;
        self.line += 1;
        // The caller has asked for this.
        let Some(running) = &mut self.running else {
            return Ok(None);
        };
        if let Some(kind) = running.answer(&self.text, answers)? {
            return Ok(Some(TextFault { line, kind }));
        }
        self.text.truncate(self.front);
        Ok(None)
    }

    /// A line has come: it is answered, or faulty.
    fn end_line(
        &mut self,
        alloc: Global,
        answers: &mut EventText,
    ) -> Result<Option<TextFault>, NoMemory>
        requires some { self.old.front < vec_len self.old.text }
        ensures { IfOk result (λ fault. (lines line said body : List ℕ)
            → Stands lines line said self.old → IsLine line body
            → Ends lines line said answers.old.lines answers.new.lines self.new fault) }
    {
        if self.text.len() - self.front > MOST_BYTES - self.place {
            return Ok(Some(self.fault(Kind::TooLong)));
        }
        if self.running.is_some() {
            self.end_entry_line(answers)
        } else if self.line == 1 {
            Ok(self.end_first_line())
        } else {
            self.end_second_line(alloc)
        }
    }

    /// More of the next line has come.
    fn add(&mut self, piece: &[u8]) -> Result<(), AllocError>
        ensures ok { OnOk result ((lines rest said : List ℕ) → Stands lines rest said self.old
            → Stands lines (rest ++ piece.now) said self.new) }
        ensures len { OnOk result (vec_len self.old.text + length piece.now ≡ vec_len self.new.text) }
        ensures front { self.new.front ≡ self.old.front }
    {
        self.text.extend_from_slice(piece)
    }

    /// How many bytes were heard.
    pub(crate) fn heard(&self) -> usize
        ensures sum { result ≡ self.now.place + (vec_len self.now.text - self.now.front) }
        ensures all { (lines rest said : List ℕ) → Stands lines rest said self.now
            → result ≡ length lines + length rest }
    {
        self.place + (self.text.len() - self.front)
    }

    /// Hears what the device gave, and appends the answers to the lines that are whole now. At a fault they are
    /// the answers to the lines before the faulty one.
    pub(crate) fn hear(
        &mut self,
        alloc: Global,
        piece: &[u8],
        answers: &mut EventText,
    ) -> Result<Option<TextFault>, NoMemory>
        ensures { IfOk result (λ fault. (lines rest said : List ℕ) → Stands lines rest said self.old
            → newlines_in rest ≡ 0
            → Hears lines rest said piece.now answers.old.lines answers.new.lines self.new fault) }
    {
        let mut left = piece;
        'lines: while let Some((line, behind)) = cut_line(left) {
            self.add(line)?;
            if let Some(fault) = self.end_line(alloc, answers)? {
                return Ok(Some(fault));
            }
            left = behind;
        }
        self.add(left)?;
        if self.text.len() - self.front > MOST_BYTES - self.place {
            return Ok(Some(self.fault(Kind::TooLong)));
        }
        Ok(None)
    }

    /// Why what was heard is no journal's text, where no more comes.
    pub(crate) fn end(&self) -> Result<(), TextFault>
        requires { self.now.place + (vec_len self.now.text - self.now.front) ≤ MOST_BYTES }
        ensures ok { OnOk result ((lines rest said : List ℕ) → Stands lines rest said self.now
            → newlines_in rest ≡ 0 → IsEventText (lines ++ rest) said) }
        ensures err { IfErr result (λ fault. (lines rest said : List ℕ) → Stands lines rest said self.now
            → newlines_in rest ≡ 0 → FailsHere lines rest fault) }
    {
        if self.front < self.text.len() {
            return Err(self.fault(Kind::CutLine));
        }
        if self.running.is_some() {
            Ok(())
        } else if self.line == 1 {
            Err(self.fault(Kind::BadHeader))
        } else {
            Err(self.fault(Kind::BadProcs))
        }
    }
}
