//! Reading a select, in one pass over its fields.
//!
//! A fault of shape ends it at once. A fault of a number waits until all shapes were looked at, and
//! the second spelling of a send or a receive is looked for last.

ghost use Rattle.std.specs.Prelude.{◌≡◌, Result, Ok, Err, if◌then◌else◌, ◌<◌};
ghost use Rattle.hub_base.specs.Lines.{read_choice, case_read, choose, last_default};
ghost use Rattle.hub_text.specs.Filling.{Fills};
ghost use Rattle.hub_base.specs.declared.read_fault.Kind.TheVariants.{BadNumber};

use crate::fields::Fields;
use crate::place::EntryPlace;
use crate::steps::{Line, numeral, process, recv_of, same_text, send_of};
use hub_base::{CASE_PLACES, Case, Cases, Edition, GREATEST_WORD, Kind, Pid, Step};

/// What a case field says in a journal of this edition: a fault of its shape, or else a case or a fault of its parts.
pub fn read_case(edition: Edition, field: &[u8]) -> Result<Result<Case, Kind>, Kind>
    ensures { result ≡ case_read edition field.now }
{
    let Some((letter, parts)) = field.split_first() else {
        return Err(Kind::BadStep);
    };
    let mut parts = Fields::of(parts, b':');
    let port = parts.expect_field()?;
    if *letter == b's' {
        let value = parts.expect_field()?;
        parts.expect_end()?;
        Ok(send_of(edition, port, value))
    } else if *letter == b'r' {
        parts.expect_end()?;
        Ok(recv_of(port))
    } else {
        Err(Kind::BadStep)
    }
}

/// Whether the field is a `default` with no field behind it.
fn is_last_default(field: &[u8], fields: &Fields) -> bool
    ensures { result ≡ last_default field.now fields.now }
{
    fields.is_done() && same_text(field, b"default")
}

/// The call of a select whose fields have the right shape; `fine` tells whether all numbers of its
/// cases are numbers, and then these are its cases.
fn choose(
    pid: &[u8],
    word: &[u8],
    cases: Cases,
    fine: bool,
    default: bool,
    place: &mut EntryPlace,
) -> Result<(), Kind>
    ensures { Fills result place.new
        (choose pid.now word.now (if fine then Ok cases.items else Err BadNumber) default) }
{
    let pid = process(pid)?;
    let word = numeral(word, GREATEST_WORD)?;
    if !fine {
        return Err(Kind::BadNumber);
    }
    if cases.len() == 1 && !default && word == 0 {
        return Err(Kind::BadStep);
    }
    place.pid = Pid(pid);
    place.step.cases = cases;
    place.step.bare = Step::Call {
        cases: (),
        default,
        word,
    };
    Ok(())
}

/// What `P select W CASE.. [default]` says, from the field of the word on.
pub fn read_select(line: Line, place: &mut EntryPlace) -> Result<(), Kind>
    ensures { Fills result place.new (read_choice line.entry.edition line.entry.pid.now line.entry.fields) }
{
    let Line {
        edition,
        pid,
        mut fields,
    } = line;
    let word = fields.expect_field()?;
    let mut cases = Cases::new();
    let mut fine = true;
    let mut count = 0;
    while let Some(field) = fields.next_field() {
        if is_last_default(field, &fields) {
            return choose(pid, word, cases, fine, true, place);
        }
        let case = read_case(edition, field)?;
        // One case too many is a fault of shape, as any in the fields behind it would be.
        if count == CASE_PLACES {
            return Err(Kind::BadStep);
        }
        count += 1;
        match case {
            Ok(case) => {
                if fine {
                    cases.push(case);
                }
            }
            Err(_number) => fine = false,
        }
    }
    choose(pid, word, cases, fine, false, place)
}
