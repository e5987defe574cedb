//! Things of one kind, written one after the other.
#![tactic(auto, using(crate::proofs::Reading::failed))]

ghost use Rattle.hub_picture.specs.Reading.{Elements};

use std::alloc::AllocError;

/// How a thing is written.
pub(crate) trait Pen<T> {
    /// Appends it.
    fn put(&self, out: &mut Vec<u8>, thing: &T) -> Result<(), AllocError>
        ensures { Elements out.old out.new result };
}

/// Appends these things, in order.
pub(crate) fn put_each<T, P: Pen<T>>(
    out: &mut Vec<u8>,
    pen: &P,
    things: &[T],
) -> Result<(), AllocError>
    ensures { Elements out.old out.new result }
{
    for thing in things {
        match pen.put(out, thing) {
            Ok(()) => {}
            Err(AllocError) => return Err(AllocError),
        }
    }
    Ok(())
}

/// How a thing that lies elsewhere is written.
#[derive(Clone, Copy)]
struct There<'a, P>(&'a P);

impl<T, P: Pen<T>> Pen<&T> for There<'_, P> {
    fn put(&self, out: &mut Vec<u8>, thing: &&T) -> Result<(), AllocError> {
        self.0.put(out, *thing)
    }
}

/// Appends these things that lie elsewhere, in order.
pub(crate) fn put_all<T, P: Pen<T>>(
    out: &mut Vec<u8>,
    pen: &P,
    things: &[&T],
) -> Result<(), AllocError>
    ensures { Elements out.old out.new result }
{
    put_each(out, &There(pen), things)
}
