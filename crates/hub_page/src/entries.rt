//! What an entry asks, in few letters.

ghost use Rattle.std.specs.Prelude.{◌≡◌, ◌++◌, OnOk, codes, decimal};
ghost use Rattle.std.specs.List.{flat_map};
ghost use Rattle.hub_base.specs.Lines.{case_field};
ghost use Rattle.hub_page.specs.Entries.{call_words, default_mark, entry_words, select_words, step_words};

use crate::number::put_number;
use hub_base::{Case, EntryRef, NoMemory, Port, Step, StepRef};
use hub_text::write_value;

/// Appends a case as a journal spells it.
fn put_case(out: &mut Vec<u8>, case: &Case) -> Result<(), NoMemory>
    ensures { OnOk result (out.new.items ≡ out.old.items ++ case_field case.now) }
{
    match case {
        Case::Send(port, value) => {
            put_number(out, b"s", port.0.into())?;
            out.extend_from_slice(b":")?;
            write_value(out, value)
        }
        Case::Recv(port) => Ok(put_number(out, b"r", port.0.into())?),
    }
}

/// Appends these cases.
fn put_cases(out: &mut Vec<u8>, cases: &[Case]) -> Result<(), NoMemory>
    ensures { OnOk result (out.new.items ≡ out.old.items ++ flat_map case_field cases.now) }
{
    for case in cases {
        put_case(out, case)?;
    }
    Ok(())
}

/// Appends a mark for a default.
fn put_default(out: &mut Vec<u8>, default: bool) -> Result<(), NoMemory>
    ensures { OnOk result (out.new.items ≡ out.old.items ++ default_mark default) }
{
    if default {
        out.extend_from_slice(b"!")?;
    }
    Ok(())
}

/// Appends a call with all that a journal spells of a select.
fn put_select(out: &mut Vec<u8>, cases: &[Case], default: bool, word: u64) -> Result<(), NoMemory>
    ensures { OnOk result (out.new.items ≡ out.old.items ++ select_words cases.now default word) }
{
    put_number(out, b"?", word)?;
    put_cases(out, cases)?;
    put_default(out, default)
}

/// Appends a call.
fn put_call(out: &mut Vec<u8>, cases: &[Case], default: bool, word: u64) -> Result<(), NoMemory>
    ensures { OnOk result (out.new.items ≡ out.old.items ++ call_words cases.now default word) }
{
    if cases.len() != 1 || default || word != 0 {
        return put_select(out, cases, default, word);
    }
    put_case(out, &cases[0])
}

/// Appends a reopen.
fn put_reopen(out: &mut Vec<u8>, port: Port, cap: u32) -> Result<(), NoMemory>
    ensures { OnOk result (out.new.items ≡ out.old.items ++ (codes "o" ++ decimal port.0 ++ codes ":" ++ decimal cap)) }
{
    put_number(out, b"o", port.0.into())?;
    Ok(put_number(out, b":", cap.into())?)
}

/// Appends a step.
fn put_step(out: &mut Vec<u8>, step: &StepRef<'_>) -> Result<(), NoMemory>
    ensures { OnOk result (out.new.items ≡ out.old.items ++ step_words step.now) }
{
    match step {
        Step::Make(cap) => Ok(put_number(out, b"m", (*cap).into())?),
        Step::Call {
            cases,
            default,
            word,
        } => put_call(out, cases.as_slice(), *default, *word),
        Step::Close(port) => Ok(put_number(out, b"c", port.0.into())?),
        Step::Exit => Ok(out.extend_from_slice(b"e")?),
        Step::Cancel(pid) => Ok(put_number(out, b"x", pid.0.into())?),
        Step::Start(pid) => Ok(put_number(out, b"g", pid.0.into())?),
        Step::Reopen { port, cap } => put_reopen(out, *port, *cap),
    }
}

/// Appends an entry.
pub(crate) fn put_entry(out: &mut Vec<u8>, entry: &EntryRef<'_>) -> Result<(), NoMemory>
    ensures { OnOk result (out.new.items ≡ out.old.items ++ entry_words entry.now) }
{
    put_number(out, b"", entry.pid.0.into())?;
    put_step(out, &entry.step)
}
