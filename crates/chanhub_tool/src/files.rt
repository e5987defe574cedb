//! Standard streams, and the files that take their places.

use hub_replay::{ReplayFault, Sink, tell_fault, write_pieces};
use std::fs::File;
use std::io::{Read, Stdin, Stdout, Write};
use std::{fs, io};

/// A file of this name; none where it stands for a standard stream.
pub(crate) fn file_of(name: Option<&str>) -> Option<&str> {
    match name {
        Some("-") => None,
        _ => name,
    }
}

/// Where a journal is read from.
#[derive(Drop)]
pub(crate) enum Input {
    Standard(Stdin),
    Named(File),
}

impl Input {
    /// The file of this name, or standard input.
    pub(crate) fn open(rt: &HostRuntime, name: Option<&str>) -> io::Result<Input> {
        match name {
            Some(path) => Ok(Input::Named(fs::open(rt, path)?)),
            None => Ok(Input::Standard(rt.stdin())),
        }
    }
}

/// Tells which file can't be opened, behind the line of a failed read.
pub(crate) fn name_unopened<X: Sink>(name: &str, errors: &mut X) {
    let _ = write_pieces(errors, &["chanhub_tool: '", name, "' cannot be opened\n"]);
}

/// Tells that a file can't be opened, which counts as a failed read, and answers the status.
pub(crate) fn tell_unopened<X: Sink>(name: Option<&str>, errors: &mut X) -> u8 {
    let status = tell_fault(ReplayFault::Read, errors);
    if let Some(name) = name {
        name_unopened(name, errors);
    }
    status
}

impl Read for Input {
    fn read(&mut self, buf: &mut [u8]) -> io::Result<usize> {
        match self {
            Input::Standard(input) => input.read(buf),
            Input::Named(file) => file.read(buf),
        }
    }
}

/// A file that is made, or emptied, by the first write: where nothing is written it stays as it was.
#[derive(Drop)]
pub(crate) struct NewFile<'a> {
    rt: &'a HostRuntime,
    path: &'a str,
    file: Option<File>,
}

impl Write for NewFile<'_> {
    fn write(&mut self, piece: &[u8]) -> io::Result<usize> {
        match &mut self.file {
            Some(file) => file.write(piece),
            None => {
                let mut file = fs::create(self.rt, self.path)?;
                let taken = file.write(piece);
                self.file = Some(file);
                taken
            }
        }
    }

    fn flush(&mut self) -> io::Result<()> {
        Ok(())
    }
}

/// Where a text is written to.
#[derive(Drop)]
pub(crate) enum Output<'a> {
    Standard(Stdout),
    Named(NewFile<'a>),
}

impl<'a> Output<'a> {
    /// The file of this name, or standard output.
    pub(crate) fn new(rt: &'a HostRuntime, name: Option<&'a str>) -> Output<'a> {
        match name {
            Some(path) => Output::Named(NewFile {
                rt,
                path,
                file: None,
            }),
            None => Output::Standard(rt.stdout()),
        }
    }
}

impl Write for Output<'_> {
    fn write(&mut self, piece: &[u8]) -> io::Result<usize> {
        match self {
            Output::Standard(output) => output.write(piece),
            Output::Named(file) => file.write(piece),
        }
    }

    fn flush(&mut self) -> io::Result<()> {
        Ok(())
    }
}
