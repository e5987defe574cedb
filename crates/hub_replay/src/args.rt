//! What a program over a replay is asked for.

ghost use Rattle.std.specs.Prelude.{◌≡◌, IfErr};
ghost use Rattle.hub_replay.specs.declared.fault.ReplayFault.TheVariants as replay;

use crate::ReplayFault;
use std::env;
use std::env::FillError;
use std::io::ErrorKind;
use std::rt::Env;

/// A runtime that tells no name of the program: its bytes need not be a text, and no program reads them.
#[derive(Drop)]
struct Nameless<'a, R>(&'a R);

impl<R: Env> Env for Nameless<'_, R> {
    fn arg(&self, i: usize, buf: &mut [u8]) -> Result<usize, FillError> {
        if i == 0 { Ok(0) } else { self.0.arg(i, buf) }
    }

    fn var(&self, name: &str, buf: &mut [u8]) -> Result<usize, FillError> {
        self.0.var(name, buf)
    }

    fn var_at(&self, i: usize, buf: &mut [u8]) -> Result<usize, FillError> {
        self.0.var_at(i, buf)
    }
}

/// The arguments, behind an empty word in place of the program's name. Where one is not UTF-8 there is no word at all, and
/// the arguments are bad.
pub fn arguments<R: Env + AllocGlobal>(rt: &R) -> Result<Vec<String>, ReplayFault>
    ensures memory { IfErr result (λ fault. fault ≡ replay.NoMemory) }
{
    match env::args(&(Nameless(rt), rt.alloc())) {
        Ok(args) => args.collect(rt.alloc()).map_err(|_| ReplayFault::NoMemory),
        Err(error) if error.kind() == ErrorKind::InvalidData => Ok(Vec::new(rt.alloc())),
        Err(_) => Err(ReplayFault::NoMemory),
    }
}
