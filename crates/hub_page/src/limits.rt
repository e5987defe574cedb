//! How much a part of the data tells.

/// How many steps a block has. The last block may have fewer.
pub(crate) const BLOCK: usize = 64;
