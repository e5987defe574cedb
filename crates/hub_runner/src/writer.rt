//! Writing a report. A private function that is refused may leave a part behind, which the public
//! one takes back.

ghost use Rattle.std.specs.Prelude.{◌≡◌, ◌++◌, ◌+◌, ◌<◌, ℕ, List, OnOk, OnErr, if◌then◌else◌};
ghost use Rattle.hub_runner.specs.ReportText.{field, ending, port_line, port_lines, count_line, report_text};

use crate::{PortReport, Report};
use hub_base::NoMemory;
use hub_text::undo_if_refused;
use itoa::Buffer;
use std::alloc::AllocError;

/// Appends a word and a number.
fn put_field(out: &mut Vec<u8>, word: &[u8], number: u128) -> Result<(), AllocError>
    ensures ok { OnOk result (out.new.items ≡ out.old.items ++ field word.now number) }
    ensures err { OnErr result ((rest : List ℕ) × (out.new.items ≡ out.old.items ++ rest)) }
{
    out.extend_from_slice(word)?;
    let mut buffer = Buffer::new();
    out.extend_from_slice(buffer.format(number).as_bytes())
}

/// Appends the last word of a port's line.
fn put_ending(out: &mut Vec<u8>, closed: bool) -> Result<(), AllocError>
    ensures ok { OnOk result (out.new.items ≡ out.old.items ++ ending closed) }
    ensures err { OnErr result ((rest : List ℕ) × (out.new.items ≡ out.old.items ++ rest)) }
{
    if closed {
        out.extend_from_slice(b" closed\n")
    } else {
        out.extend_from_slice(b" open\n")
    }
}

/// Appends the line of the port of this number.
fn put_port(out: &mut Vec<u8>, number: u128, port: &PortReport) -> Result<(), AllocError>
    ensures ok { OnOk result (out.new.items ≡ out.old.items ++ port_line number port.now) }
    ensures err { OnErr result ((rest : List ℕ) × (out.new.items ≡ out.old.items ++ rest)) }
{
    put_field(out, b"port ", number)?;
    put_field(out, b" cap ", port.cap.into())?;
    put_field(out, b" sent ", port.sent.into())?;
    put_field(out, b" received ", port.received.into())?;
    put_field(out, b" left ", port.left.into())?;
    put_field(out, b" sum ", port.sum)?;
    put_ending(out, port.closed)
}

/// Appends the lines of the ports, the first of which is port 1.
fn put_ports(out: &mut Vec<u8>, ports: &[PortReport]) -> Result<(), AllocError>
    ensures ok { OnOk result (out.new.items ≡ out.old.items ++ port_lines 1 ports.now) }
    ensures err { OnErr result ((rest : List ℕ) × (out.new.items ≡ out.old.items ++ rest)) }
{
    let mut number = 1;
    for port in ports {
        match put_port(out, number, port) {
            Ok(()) => number += 1,
            Err(AllocError) => return Err(AllocError),
        }
    }
    Ok(())
}

/// Appends a line of a number above 0.
fn put_count(out: &mut Vec<u8>, word: &[u8], count: u32) -> Result<(), AllocError>
    ensures ok { OnOk result (out.new.items ≡ out.old.items ++ count_line word.now count) }
    ensures err { OnErr result ((rest : List ℕ) × (out.new.items ≡ out.old.items ++ rest)) }
{
    if count == 0 {
        return Ok(());
    }
    put_field(out, word, count.into())?;
    out.extend_from_slice(b"\n")
}

/// Appends the whole text.
fn put_report(out: &mut Vec<u8>, report: &Report) -> Result<(), AllocError>
    ensures ok { OnOk result (out.new.items ≡ out.old.items ++ report_text report.now) }
    ensures err { OnErr result ((rest : List ℕ) × (out.new.items ≡ out.old.items ++ rest)) }
{
    put_ports(out, &report.ports)?;
    put_count(out, b"stalled ", report.stalled)?;
    put_count(out, b"faults ", report.faults)
}

/// Appends the report's text: a line for each port in order of number, then how many calls stalled
/// and how many faults were told, each where there is any. `Err` where a growth was refused, with
/// nothing appended.
pub fn write_report(out: &mut Vec<u8>, report: &Report) -> Result<(), NoMemory>
    ensures ok { OnOk result (out.new.items ≡ out.old.items ++ report_text report.now) }
    ensures err { OnErr result (out.new.items ≡ out.old.items) }
{
    let before = out.len();
    let done = put_report(out, report);
    undo_if_refused(out, before, done)
}
