//! How a list is copied.

ghost use Rattle.std.specs.Prelude.{◌≡◌, ◌≤◌, IfOk, length};
ghost use Rattle.std.specs.Vec.{vec_capacity};

use std::alloc::{AllocError, Global};

/// Puts these items in place of those that are there. There is room for them.
pub(crate) fn copy_list_over<T: Copy + Drop>(items: &mut Vec<T>, others: &[T])
    requires { length others.now ≤ vec_capacity items.old }
    ensures { items.new.items ≡ others.now }
{
    items.clear();
    match items.extend_from_slice(others) {
        Ok(()) => {}
        Err(AllocError) => unreachable!(),
    }
}

/// The same list.
pub(crate) fn copy_list<T: Copy>(alloc: Global, items: &[T]) -> Result<Vec<T>, AllocError>
    ensures { IfOk result (λ v. v.items ≡ items.now) }
{
    let mut copy = Vec::new(alloc);
    copy.extend_from_slice(items)?;
    Ok(copy)
}
