//! Named files.

ghost use Rattle.std.specs.Prelude.{◌≤◌, ◌+◌, vec_len, IfOk};

use hub_replay::{Counted, SourceFault, read_up_to};
use std::alloc::Global;
use std::fs;
use std::rt::Files;

/// Reads a file to its end, or until `limit + 1` bytes have come. A file that can't be opened is one
/// that can't be read.
pub(crate) fn read_file<R: Files>(
    rt: &R,
    alloc: Global,
    path: &str,
    limit: usize,
) -> Result<Vec<u8>, SourceFault>
    ensures { IfOk result (λ bytes. vec_len bytes ≤ limit + 1) }
{
    match fs::open(rt, path) {
        Ok(file) => {
            let mut source = Counted::new(file);
            read_up_to(alloc, &mut source, limit)
        }
        Err(_) => Err(SourceFault::Read),
    }
}
