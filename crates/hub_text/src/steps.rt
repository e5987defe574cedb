//! Reading an entry from the fields of its line: first their number, then what they spell.
//!
//! It is read into a given place, in which any entry may stand after a fault.

ghost use Rattle.std.specs.Prelude.{◌≡◌, ◌≤◌, IfOk};
ghost use Rattle.hub_base.specs.Lines.{numeral, read_exit, read_send, read_reopen, read_step, read_fields, pieces, case_of, recv_case, same_text};
ghost use Rattle.hub_base.specs.Lines.Draft.{Sends};
ghost use Rattle.hub_text.specs.Filling.{Fills, read_one_number};

use crate::fields::Fields;
use crate::numbers::number;
use crate::place::EntryPlace;
use crate::selects::read_select;
use crate::values::read_value;
use hub_base::{Case, Edition, GREATEST_CAP, GREATEST_PID, GREATEST_PORT, Kind, Pid, Port, Step};

/// The number that a field spells.
pub fn numeral(bytes: &[u8], most: u64) -> Result<u64, Kind>
    ensures value { result ≡ numeral most bytes.now }
    ensures bound { IfOk result (λ n. n ≤ most) }
{
    number(bytes, most).ok_or(Kind::BadNumber)
}

/// The number of a process that a field spells.
pub fn process(bytes: &[u8]) -> Result<u8, Kind>
    ensures { result ≡ numeral GREATEST_PID bytes.now }
{
    Ok(numeral(bytes, GREATEST_PID.into())? as u8)
}

/// The number of a port that a field spells.
fn port_number(bytes: &[u8]) -> Result<u16, Kind>
    ensures { result ≡ numeral GREATEST_PORT bytes.now }
{
    Ok(numeral(bytes, GREATEST_PORT.into())? as u16)
}

/// The capacity that a field spells.
fn capacity(bytes: &[u8]) -> Result<u32, Kind>
    ensures { result ≡ numeral GREATEST_CAP bytes.now }
{
    Ok(numeral(bytes, GREATEST_CAP.into())? as u32)
}

/// Whether two fields are the same bytes.
pub fn same_text(a: &[u8], b: &[u8]) -> bool
    ensures { result ≡ same_text a.now b.now }
{
    a == b
}

/// The case that sends.
pub fn send_of(edition: Edition, port: &[u8], value: &[u8]) -> Result<Case, Kind>
    ensures { result ≡ case_of edition (Sends port.now value.now) }
{
    let port = port_number(port)?;
    let value = read_value(edition, value)?;
    Ok(Case::Send(Port(port), value))
}

/// The case that receives.
pub fn recv_of(port: &[u8]) -> Result<Case, Kind>
    ensures { result ≡ recv_case port.now }
{
    let port = port_number(port)?;
    Ok(Case::Recv(Port(port)))
}

/// A line of a journal of this edition, whose word was read.
#[derive(Drop)]
pub struct Line<'a> {
    /// The edition.
    pub edition: Edition,
    /// The field before the word, of the process.
    pub pid: &'a [u8],
    /// The fields behind the word.
    pub fields: Fields<'a>,
}

/// A word with one number behind it.
#[derive(Clone, Copy)]
enum OneNumber {
    Make,
    Recv,
    Close,
    Cancel,
    Start,
}

/// What `P make C`, `P recv PORT`, `P close PORT`, `P cancel Q` or `P start Q` says, from the field behind the word on.
fn read_one_number(word: OneNumber, mut line: Line, place: &mut EntryPlace) -> Result<(), Kind>
    ensures { Fills result place.new (read_one_number word line.entry.pid.now line.entry.fields) }
{
    let number = line.fields.expect_field()?;
    line.fields.expect_end()?;
    place.pid = Pid(process(line.pid)?);
    match word {
        OneNumber::Make => place.step.bare = Step::Make(capacity(number)?),
        OneNumber::Recv => place.step.set_call(Case::Recv(Port(port_number(number)?))),
        OneNumber::Close => place.step.bare = Step::Close(Port(port_number(number)?)),
        OneNumber::Cancel => place.step.bare = Step::Cancel(Pid(process(number)?)),
        OneNumber::Start => place.step.bare = Step::Start(Pid(process(number)?)),
    }
    Ok(())
}

/// What `P send PORT V` says, from the field behind the word on.
fn read_send(mut line: Line, place: &mut EntryPlace) -> Result<(), Kind>
    ensures { Fills result place.new (read_send line.entry.edition line.entry.pid.now line.entry.fields) }
{
    let port = line.fields.expect_field()?;
    let value = line.fields.expect_field()?;
    line.fields.expect_end()?;
    let pid = process(line.pid)?;
    let case = send_of(line.edition, port, value)?;
    place.pid = Pid(pid);
    place.step.set_call(case);
    Ok(())
}

/// What `P reopen PORT C` says, from the field behind the word on.
fn read_reopen(mut line: Line, place: &mut EntryPlace) -> Result<(), Kind>
    ensures { Fills result place.new (read_reopen line.entry.pid.now line.entry.fields) }
{
    let port = line.fields.expect_field()?;
    let cap = line.fields.expect_field()?;
    line.fields.expect_end()?;
    let pid = process(line.pid)?;
    let port = port_number(port)?;
    let cap = capacity(cap)?;
    place.pid = Pid(pid);
    place.step.bare = Step::Reopen {
        port: Port(port),
        cap,
    };
    Ok(())
}

/// What `P exit` says, from the field behind the word on.
fn read_exit(mut line: Line, place: &mut EntryPlace) -> Result<(), Kind>
    ensures { Fills result place.new (read_exit line.entry.pid.now line.entry.fields) }
{
    line.fields.expect_end()?;
    let pid = process(line.pid)?;
    place.pid = Pid(pid);
    place.step.bare = Step::Exit;
    Ok(())
}

/// What a line says, by its second field.
fn read_step(word: &[u8], line: Line, place: &mut EntryPlace) -> Result<(), Kind>
    ensures { Fills result place.new
        (read_step line.entry.edition line.entry.pid.now word.now line.entry.fields) }
{
    if same_text(word, b"make") {
        read_one_number(OneNumber::Make, line, place)
    } else if same_text(word, b"send") {
        read_send(line, place)
    } else if same_text(word, b"recv") {
        read_one_number(OneNumber::Recv, line, place)
    } else if same_text(word, b"select") {
        read_select(line, place)
    } else if same_text(word, b"close") {
        read_one_number(OneNumber::Close, line, place)
    } else if same_text(word, b"exit") {
        read_exit(line, place)
    } else if line.edition.has_cancel() && same_text(word, b"cancel") {
        read_one_number(OneNumber::Cancel, line, place)
    } else if line.edition.has_lives() && same_text(word, b"start") {
        read_one_number(OneNumber::Start, line, place)
    } else if line.edition.has_lives() && same_text(word, b"reopen") {
        read_reopen(line, place)
    } else {
        Err(Kind::BadStep)
    }
}

/// What a line without its newline says in a journal of this edition.
pub fn read_line(edition: Edition, line: &[u8], place: &mut EntryPlace) -> Result<(), Kind>
    ensures { Fills result place.new (read_fields edition (pieces 32 line.now)) }
{
    let mut fields = Fields::of(line, b' ');
    let pid = fields.expect_field()?;
    let word = fields.expect_field()?;
    let line = Line {
        edition,
        pid,
        fields,
    };
    read_step(word, line, place)
}
