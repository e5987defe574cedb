//! Numbers, as a journal spells them.

ghost use Rattle.std.specs.Prelude.{◌≡◌, ◌+◌, ◌++◌, decimal, OnOk};

use hub_text::write_number;
use std::alloc::AllocError;

/// Appends a number behind these words, which become a store or two where they are known.
#[inline(always)]
pub(crate) fn put_number(out: &mut Vec<u8>, words: &[u8], number: u64) -> Result<(), AllocError>
    ensures { OnOk result (out.new.items ≡ out.old.items ++ words.now ++ decimal number) }
{
    out.extend_from_slice(words)?;
    write_number(out, number)
}

/// The number of the step at this place, as it is printed.
pub(crate) fn number_of(place: u32) -> u64
    ensures { result ≡ place + 1 }
{
    u64::from(place) + 1
}
