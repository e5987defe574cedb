//! Reading a line of a journal of some edition that is spelled as writers spell it, in one pass over its bytes.
//!
//! Whatever else a line is, the answer is `None`, which says nothing of it: it is left to the slow
//! reading. A step may then be any.
//!
//! The small functions are inlined always: the compiler would make calls of some, which cost more than they do.

ghost use Rattle.std.specs.Prelude.{◌≡◌, ◌≢◌, ◌<◌, ◌∷◌, ◌++◌, [], length, codes, get_or, true, false, IfSome};
ghost use Rattle.hub_base.specs.Head.{has_bytes, has_lives};
ghost use Rattle.hub_base.specs.Lines.{call_fields, case_field};
ghost use Rattle.hub_text.specs.Place.{step_in};
ghost use Rattle.hub_text.specs.Quick.{EndsLine, BytesStand, SendStands, RecvStands, CaseStands, CasesStand, SelectStands, NumberStands, ReopenStands, StepStands, Begins, BeginsExit};
ghost use Rattle.hub_text.specs.Writing.{spaced};

use crate::place::{EntryPlace, StepPlace};
use crate::standing::{
    behind, behind_newline, behind_word, behind_words, bytes_at, num_at, number_at, number_up_to,
    pid_at, port_at,
};
use hub_base::{Case, Cases, Edition, GREATEST_CAP, Port, Step};

/// Reads the case that sends on this port the bytes that stand at this place, and gives the place behind it. It
/// stands apart, so that the places of the bytes are filled with zeros only where there are bytes.
#[inline(never)]
fn bytes_into(bytes: &[u8], start: usize, port: Port, case: &mut Case) -> usize
    requires line { EndsLine bytes.now }
    requires start { start < length bytes.now }
    requires mark { get_or bytes.now start 0 ≡ 35 }
    ensures { (edition : Edition) → has_bytes edition ≡ true
        → BytesStand edition bytes.now start port case.new result }
{
    let (value, end) = bytes_at(bytes, start);
    *case = Case::Send(port, value);
    end
}

/// Reads the case that sends and whose port and value stand at this place with this mark between them, and gives
/// the place behind it. It is written once, since it is large.
#[inline(always)]
fn send_into(
    edition: Edition,
    bytes: &[u8],
    start: usize,
    mark: u8,
    case: &mut Case,
) -> Option<usize>
    requires line { EndsLine bytes.now }
    requires start { start < length bytes.now }
    requires mark { mark ≢ 10 }
    ensures { IfSome result (λ end. SendStands edition bytes.now start mark case.new end) }
{
    let (port, end) = port_at(bytes, start)?;
    let end = behind(bytes, end, mark)?;
    if bytes[end] == b'#' {
        if !edition.has_bytes() {
            return None;
        }
        Some(bytes_into(bytes, end, port, case))
    } else {
        let (value, end) = num_at(bytes, end)?;
        *case = Case::Send(port, value);
        Some(end)
    }
}

/// Reads the case that receives and whose port stands at this place, and gives the place behind it.
#[inline(always)]
fn recv_into(bytes: &[u8], start: usize, case: &mut Case) -> Option<usize>
    requires line { EndsLine bytes.now }
    requires start { start < length bytes.now }
    ensures { IfSome result (λ end. RecvStands bytes.now start case.new end) }
{
    let (port, end) = port_at(bytes, start)?;
    *case = Case::Recv(port);
    Some(end)
}

/// Reads the case of a plain send or receive, from the space before the word on, and gives the place behind it.
#[inline(always)]
fn plain_case_into(edition: Edition, bytes: &[u8], start: usize, case: &mut Case) -> Option<usize>
    requires line { EndsLine bytes.now }
    requires start { start < length bytes.now }
    ensures { IfSome result (λ end.
        CaseStands edition bytes.now start (spaced (call_fields (case.new ∷ []) false 0)) case.new end) }
{
    if let Some(end) = behind_word(bytes, start, b" sen") {
        let end = behind(bytes, end, b'd')?;
        send_into(edition, bytes, behind(bytes, end, b' ')?, b' ', case)
    } else {
        let end = behind_word(bytes, start, b" rec")?;
        let end = behind(bytes, end, b'v')?;
        recv_into(bytes, behind(bytes, end, b' ')?, case)
    }
}

/// Reads a plain send or receive over the one case that the last call had, from the space before the word on, and gives
/// the place behind it. The case is moved nowhere.
#[inline(always)]
fn plain_into(edition: Edition, bytes: &[u8], start: usize, step: &mut StepPlace) -> Option<usize>
    requires line { EndsLine bytes.now }
    requires start { start < length bytes.now }
    ensures { IfSome result (λ end. StepStands edition bytes.now start (step_in step.new) end) }
{
    if step.cases.len() != 1 {
        return None;
    }
    let end = plain_case_into(edition, bytes, start, &mut step.cases[0])?;
    step.bare = Step::Call {
        cases: (),
        default: false,
        word: 0,
    };
    Some(end)
}

/// The same where the last call had another number of cases. Few had.
#[inline(always)]
fn plain_anew(edition: Edition, bytes: &[u8], start: usize, step: &mut StepPlace) -> Option<usize>
    requires line { EndsLine bytes.now }
    requires start { start < length bytes.now }
    ensures { IfSome result (λ end. StepStands edition bytes.now start (step_in step.new) end) }
{
    step.cases.clear();
    step.cases.push(Case::default());
    plain_into(edition, bytes, start, step)
}

/// Reads the case of a select, from the space before it on, and gives the place behind it.
#[inline(always)]
fn case_into(edition: Edition, bytes: &[u8], start: usize, case: &mut Case) -> Option<usize>
    requires line { EndsLine bytes.now }
    requires start { start < length bytes.now }
    ensures { IfSome result (λ end. CaseStands edition bytes.now start (codes " " ++ case_field case.new) case.new end) }
{
    let start = behind(bytes, start, b' ')?;
    if let Some(end) = behind(bytes, start, b's') {
        send_into(edition, bytes, end, b':', case)
    } else {
        recv_into(bytes, behind(bytes, start, b'r')?, case)
    }
}

/// Reads the cases of a select over those that stand there already, from the space before the first on, and gives the
/// place behind them. None is moved, and what stands behind the last one is cut off.
#[inline(always)]
fn cases_into(edition: Edition, bytes: &[u8], start: usize, cases: &mut Cases) -> Option<usize>
    requires line { EndsLine bytes.now }
    requires start { start < length bytes.now }
    ensures { IfSome result (λ end. CasesStand edition bytes.now start cases.new.items end) }
{
    let mut count = 0;
    let mut end = start;
    // What begins with this letter is `default`.
    while bytes[end] == b' ' && bytes[end + 1] != b'd' {
        if count == cases.len() {
            if cases.is_full() {
                return None;
            }
            cases.push(Case::default());
        }
        end = case_into(edition, bytes, end, &mut cases[count])?;
        count += 1;
    }
    cases.truncate(count);
    Some(end)
}

/// Reads a select from its word on, and gives the place behind it. It stands apart, so that the short forms
/// have the registers to themselves.
#[inline(never)]
fn select_into(edition: Edition, bytes: &[u8], start: usize, step: &mut StepPlace) -> Option<usize>
    requires line { EndsLine bytes.now }
    requires start { start < length bytes.now }
    ensures { IfSome result (λ end. SelectStands edition bytes.now start (step_in step.new) end) }
{
    let (number, end) = number_at(bytes, start)?;
    let end = cases_into(edition, bytes, end, &mut step.cases)?;
    let (has_default, end) = match behind_words(bytes, end, b" def", b"ault") {
        Some(end) => (true, end),
        None => (false, end),
    };
    // This has a short form, so it is faulty.
    if step.cases.len() == 1 && !has_default && number == 0 {
        return None;
    }
    step.bare = Step::Call {
        cases: (),
        default: has_default,
        word: number,
    };
    Some(end)
}

/// Reads a make from its capacity on, and gives the place behind it.
#[inline(always)]
fn make_into(bytes: &[u8], start: usize, step: &mut StepPlace) -> Option<usize>
    requires line { EndsLine bytes.now }
    requires start { start < length bytes.now }
    ensures { IfSome result (λ end. (edition : Edition)
        → NumberStands edition bytes.now start (codes "make") (step_in step.new) end) }
{
    let (cap, end) = number_up_to(GREATEST_CAP.into(), bytes, start)?;
    step.bare = Step::Make(cap as u32);
    Some(end)
}

/// Reads a close from its port on, and gives the place behind it.
#[inline(always)]
fn close_into(bytes: &[u8], start: usize, step: &mut StepPlace) -> Option<usize>
    requires line { EndsLine bytes.now }
    requires start { start < length bytes.now }
    ensures { IfSome result (λ end. (edition : Edition)
        → NumberStands edition bytes.now start (codes "close") (step_in step.new) end) }
{
    let (port, end) = port_at(bytes, start)?;
    step.bare = Step::Close(port);
    Some(end)
}

/// Reads a cancel from its process on, and gives the place behind it.
#[inline(always)]
fn cancel_into(edition: Edition, bytes: &[u8], start: usize, step: &mut StepPlace) -> Option<usize>
    requires line { EndsLine bytes.now }
    requires start { start < length bytes.now }
    ensures { IfSome result (λ end. NumberStands edition bytes.now start (codes "cancel") (step_in step.new) end) }
{
    if !edition.has_cancel() {
        return None;
    }
    let (pid, end) = pid_at(bytes, start)?;
    step.bare = Step::Cancel(pid);
    Some(end)
}

/// Reads a start from its process on, and gives the place behind it.
#[inline(always)]
fn start_into(edition: Edition, bytes: &[u8], start: usize, step: &mut StepPlace) -> Option<usize>
    requires line { EndsLine bytes.now }
    requires start { start < length bytes.now }
    requires edition { has_lives edition ≡ true }
    ensures { IfSome result (λ end. NumberStands edition bytes.now start (codes "start") (step_in step.new) end) }
{
    let (pid, end) = pid_at(bytes, start)?;
    step.bare = Step::Start(pid);
    Some(end)
}

/// Reads a reopen from its port on, and gives the place behind it.
#[inline(always)]
fn reopen_into(edition: Edition, bytes: &[u8], start: usize, step: &mut StepPlace) -> Option<usize>
    requires line { EndsLine bytes.now }
    requires start { start < length bytes.now }
    requires edition { has_lives edition ≡ true }
    ensures { IfSome result (λ end. ReopenStands edition bytes.now start (step_in step.new) end) }
{
    let (port, end) = port_at(bytes, start)?;
    let end = behind(bytes, end, b' ')?;
    let (cap, end) = number_up_to(GREATEST_CAP.into(), bytes, end)?;
    step.bare = Step::Reopen {
        port,
        cap: cap as u32,
    };
    Some(end)
}

/// Reads a start or a reopen, from the space before the word on, and gives the place behind it.
#[inline(always)]
fn lives_into(edition: Edition, bytes: &[u8], start: usize, step: &mut StepPlace) -> Option<usize>
    requires line { EndsLine bytes.now }
    requires start { start < length bytes.now }
    ensures { IfSome result (λ end. StepStands edition bytes.now start (step_in step.new) end) }
{
    if !edition.has_lives() {
        return None;
    }
    if let Some(end) = behind_words(bytes, start, b" reo", b"pen ") {
        reopen_into(edition, bytes, end, step)
    } else {
        let end = behind_word(bytes, start, b" sta")?;
        let end = behind(bytes, end, b'r')?;
        let end = behind(bytes, end, b't')?;
        start_into(edition, bytes, behind(bytes, end, b' ')?, step)
    }
}

/// Reads what is no select and no call over the cases of one like it, from the space before the word on, and gives the
/// place behind it. It stands apart, since such steps are few.
#[inline(never)]
fn rare_into(edition: Edition, bytes: &[u8], start: usize, step: &mut StepPlace) -> Option<usize>
    requires line { EndsLine bytes.now }
    requires start { start < length bytes.now }
    ensures { IfSome result (λ end. StepStands edition bytes.now start (step_in step.new) end) }
{
    if let Some(end) = behind_word(bytes, start, b" mak") {
        let end = behind(bytes, end, b'e')?;
        make_into(bytes, behind(bytes, end, b' ')?, step)
    } else if let Some(end) = behind_word(bytes, start, b" clo") {
        let end = behind(bytes, end, b's')?;
        let end = behind(bytes, end, b'e')?;
        close_into(bytes, behind(bytes, end, b' ')?, step)
    } else if let Some(end) = behind_words(bytes, start, b" can", b"cel ") {
        cancel_into(edition, bytes, end, step)
    } else if let Some(end) = plain_anew(edition, bytes, start, step) {
        Some(end)
    } else {
        lives_into(edition, bytes, start, step)
    }
}

/// Reads a step, from the space behind the process on, and gives the place behind it. Most are calls and no selects.
#[inline(always)]
fn step_into(edition: Edition, bytes: &[u8], start: usize, step: &mut StepPlace) -> Option<usize>
    requires line { EndsLine bytes.now }
    requires start { start < length bytes.now }
    ensures { IfSome result (λ end. StepStands edition bytes.now start (step_in step.new) end) }
{
    if let Some(end) = plain_into(edition, bytes, start, step) {
        return Some(end);
    }
    match behind_words(bytes, start, b" sel", b"ect ") {
        Some(word) => select_into(edition, bytes, word, step),
        None => rare_into(edition, bytes, start, step),
    }
}

/// Reads the first line into this place where it is no exit, and gives the place behind it.
#[inline]
pub fn quick_line(edition: Edition, bytes: &[u8], place: &mut EntryPlace) -> Option<usize>
    requires line { EndsLine bytes.now }
    requires some { 0 < length bytes.now }
    ensures { IfSome result (λ end. Begins edition bytes.now place.new end) }
{
    let (pid, end) = pid_at(bytes, 0)?;
    let end = step_into(edition, bytes, end, &mut place.step)?;
    let end = behind_newline(bytes, end)?;
    place.pid = pid;
    Some(end)
}

/// Reads the first line into this place where it is an exit, and gives the place behind it. An exit counts as no step,
/// so it is read apart, and calls cost no test for it.
#[inline]
pub fn quick_exit(bytes: &[u8], place: &mut EntryPlace) -> Option<usize>
    requires line { EndsLine bytes.now }
    requires some { 0 < length bytes.now }
    ensures { IfSome result (λ end. BeginsExit bytes.now place.new end) }
{
    let (pid, end) = pid_at(bytes, 0)?;
    let end = behind_word(bytes, end, b" exi")?;
    let end = behind(bytes, end, b't')?;
    let end = behind_newline(bytes, end)?;
    place.pid = pid;
    place.step.bare = Step::Exit;
    Some(end)
}
