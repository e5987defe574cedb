//! `chanhub_tool chain FILE..`.

ghost use Rattle.std.specs.Prelude.{◌≡◌, ◌≤◌, ◌⊎◌, ℕ, List, Option, IfOk, IfErr, IfSome, OnOk, OnErr, codes, map};
ghost use Rattle.std.specs.Io.KnownBytes.{Appends};
ghost use Rattle.chanhub_tool.specs.declared.commands.chain.Broken.TheVariants.{Unread};
ghost use Rattle.hub_cut.specs.Texts.{AreWhole, IsAt};
ghost use Rattle.chanhub_tool.specs.Files.{Hold, IsRead};

use crate::files::{Input, file_of, name_unopened};
use clap::{Arg, ArgAction, ArgMatches, Command};
use hub_base::{MOST_BYTES, TextFault};
use hub_cut::{Chain, ChainFault};
use hub_replay::{
    Counted, ReplayFault, Sink, SourceFault, WriteFailed, read_up_to, tell_fault, write_pieces,
};
use itoa::Buffer;
use std::alloc::{AllocError, Global};

pub(super) fn grammar<'a>(alloc: Global) -> Result<Command<'a>, AllocError> {
    let files = Arg::new(alloc, "files")
        .action(ArgAction::Append)
        .num_args(1..)
        .required(true)
        .value_name("FILE")
        .help("The chapters, in order; - is standard input");
    Command::new(alloc, "chain")
        .about(
            "Checks that journals are the chapters of one that was cut: each begins with the checkpoint of the one before",
        )
        .after_help(
            "Prints `whole`; or, with status 3, the first line that breaks the chain, and why.",
        )
        .override_usage("chanhub_tool chain FILE..")
        .arg(files)
}

/// The files that `clap` found.
pub(super) fn read_files<'a>(
    alloc: Global,
    found: &ArgMatches<'a>,
) -> Result<Vec<&'a str>, AllocError> {
    found.get_strs("files").unwrap_or_default().to_vec(alloc)
}

/// Why files are not found to be a chain.
#[derive(Clone, Copy)]
enum Broken<'a> {
    /// A file can't be read, or memory was refused.
    Unread(SourceFault),
    /// The text of this file is malformed.
    Malformed(&'a str, TextFault),
    /// The text of this file is not the next chapter: the first line that is not as it should be, and why.
    Apart(&'a str, u32, &'static str),
}

impl From<SourceFault> for Broken<'_> {
    ghost from_gives = { λ fault broken. broken ≡ Unread fault };

    fn from(fault: SourceFault) -> Self {
        Broken::Unread(fault)
    }
}

/// Why the text of this file is not the next chapter.
fn broken_at(file: &str, fault: ChainFault) -> Broken<'_>
    ensures { IsRead result → ¬ (fault ≡ ChainFault.NoMemory) }
{
    match fault {
        ChainFault::Text(fault) => Broken::Malformed(file, fault),
        ChainFault::OtherEdition => Broken::Apart(file, 1, "another edition"),
        ChainFault::OtherProcs => Broken::Apart(file, 2, "another number of processes"),
        ChainFault::OtherCheckpoint { line } => {
            Broken::Apart(file, line, "not the checkpoint of the chapter before")
        }
        ChainFault::NotAdmitted { line, fault } => Broken::Apart(file, line, fault.text()),
        ChainFault::NoMemory => Broken::Unread(SourceFault::NoMemory),
    }
}

/// What gives the texts of files.
pub trait Shelf {
    /// What a read of the file of this name gives, where it is known.
    ghost gives: { Self → List ℕ → Option (List ℕ) };

    /// Reads the file of this name.
    fn read(&self, alloc: Global, file: &str) -> Result<Vec<u8>, SourceFault>
        ensures { IfOk result (λ bytes. IfSome (gives self.now file.now) (λ text. bytes.items ≡ text)) };
}

/// The files that a path leads to, and standard input.
#[derive(Clone, Copy)]
struct Disk<'a>(&'a HostRuntime);

impl Shelf for Disk<'_> {
    ghost use Rattle.std.specs.Prelude.{None};

    ghost gives = { λ _ _. None };

    /// No more is read than decides what the text says.
    fn read(&self, alloc: Global, file: &str) -> Result<Vec<u8>, SourceFault> {
        match Input::open(self.0, file_of(Some(file))) {
            Ok(input) => read_up_to(alloc, &mut Counted::new(input), MOST_BYTES),
            Err(_) => Err(SourceFault::Read),
        }
    }
}

/// Takes the chapters that these files hold, one after the other.
fn check<'a, S: Shelf>(
    alloc: Global,
    shelf: &S,
    files: &[&'a str],
) -> Result<Option<Chain>, Broken<'a>>
    ensures ok { IfOk result (λ chain. (texts : List (List ℕ))
        → Hold (map (λ f. S.gives shelf.now f.now) files.now) texts → IsAt chain texts) }
    ensures err { IfErr result (λ broken. IsRead broken → (texts : List (List ℕ))
        → Hold (map (λ f. S.gives shelf.now f.now) files.now) texts → ¬ AreWhole texts) }
{
    let mut chain = None;
    for file in files {
        let text = shelf.read(alloc, file)?;
        match Chain::longer(chain, alloc, &text) {
            Ok(longer) => chain = Some(longer),
            Err(fault) => return Err(broken_at(file, fault)),
        }
    }
    Ok(chain)
}

/// Writes a line about a line of this file.
fn write_line<W: Sink>(
    sink: &mut W,
    before: &'static str,
    file: &str,
    between: &'static str,
    line: u32,
    why: &'static str,
) -> Result<(), WriteFailed> {
    let mut digits = Buffer::new();
    write_pieces(sink, &[before, file, between])?;
    write_pieces(sink, &[digits.format(line), ": ", why, "\n"])
}

/// The status after a write: this one, or that of a failed write, which is told.
fn status_after<X: Sink>(written: Result<(), WriteFailed>, status: u8, errors: &mut X) -> u8
    ensures ok { OnOk written ((result ≡ status) × (errors.new ≡ errors.old)) }
    ensures err { OnErr written (result ≡ 1) }
{
    match written {
        Ok(()) => status,
        Err(fault) => tell_fault(ReplayFault::from(fault), errors),
    }
}

/// Tells why files are no chain, and answers the status.
fn tell_broken<W: Sink, X: Sink>(broken: Broken<'_>, output: &mut W, errors: &mut X) -> u8
    ensures statuses { result ≤ 3 }
    ensures not_done { 1 ≤ result }
    ensures read { (result ≡ 1) ⊎ IsRead broken.entry }
{
    match broken {
        Broken::Unread(fault) => tell_fault(ReplayFault::from(fault), errors),
        Broken::Malformed(file, fault) => {
            let _ = write_line(
                errors,
                "chanhub: ",
                file,
                ": line ",
                fault.line,
                fault.kind.text(),
            );
            2
        }
        Broken::Apart(file, line, why) => {
            let written = write_line(output, "", file, " breaks the chain at line ", line, why);
            status_after(written, 3, errors)
        }
    }
}

/// Checks the chain of chapters that these files hold, prints what was found, and answers the status: 0 where it is whole;
/// 1 for a device or memory; 2 for a malformed text, or no file; 3 where a chapter breaks the chain.
pub fn check_chain<S: Shelf, W: Sink, X: Sink>(
    alloc: Global,
    shelf: &S,
    files: &[&str],
    output: &mut W,
    errors: &mut X,
) -> u8
    ensures statuses { result ≤ 3 }
    ensures whole { result ≡ 0 → ((texts : List (List ℕ))
        → Hold (map (λ f. S.gives shelf.now f.now) files.now) texts → AreWhole texts)
        × Appends (W.contents output.old) (W.contents output.new) (codes "whole\n")
        × (errors.new ≡ errors.old) }
    ensures broken { (result ≡ 2) ⊎ (result ≡ 3) → (texts : List (List ℕ))
        → Hold (map (λ f. S.gives shelf.now f.now) files.now) texts → ¬ AreWhole texts }
{
    match check(alloc, shelf, files) {
        Ok(Some(chain)) => {
            chain.chapters_are_whole();
            status_after(write_pieces(output, &["whole\n"]), 0, errors)
        }
        Ok(None) => {
            let _ = write_pieces(errors, &["chanhub: bad arguments\n"]);
            2
        }
        Err(broken) => tell_broken(broken, output, errors),
    }
}

/// The first of these files that can't be opened.
fn unopened<'a>(rt: &HostRuntime, files: &[&'a str]) -> Option<&'a str> {
    for file in files {
        if Input::open(rt, file_of(Some(file))).is_err() {
            return Some(file);
        }
    }
    None
}

/// Checks the chain of these files, and answers the status.
pub(super) fn check_files<X: Sink>(rt: &HostRuntime, files: &[&str], errors: &mut X) -> u8 {
    let mut output = Counted::new(rt.stdout());
    let status = check_chain(rt.alloc(), &Disk(rt), files, &mut output, errors);
    if status == 1
        && let Some(file) = unopened(rt, files)
    {
        name_unopened(file, errors);
    }
    status
}
