//! Tables of counts.

ghost use Rattle.std.specs.Prelude.{◌≡◌, ◌<◌, ◌+◌, length, OnOk, slice_index_or, slice_set};

use std::alloc::AllocError;

/// Counts one more at this place. A count that can't grow finds no memory.
pub fn count_one(table: &mut Vec<u64>, place: usize) -> Result<(), AllocError>
    requires { place < length table.old.items }
    ensures ok { OnOk result (table.new.items ≡ slice_set table.old.items place (slice_index_or table.old.items place 0 + 1)) }
    ensures length { length table.new.items ≡ length table.old.items }
{
    let count = table[place];
    if count == u64::MAX {
        return Err(AllocError);
    }
    table[place] = count + 1;
    Ok(())
}

/// What the table counts at this place.
pub fn count_at(table: &[u64], place: usize) -> u64
    ensures { result ≡ slice_index_or table.now place 0 }
{
    match table.get(place) {
        Some(count) => *count,
        None => 0,
    }
}
