//! The buffer of a channel: its values, oldest first. Go: "Channel types".

ghost use Rattle.std.specs.Prelude.{◌≡◌, ◌≤◌, ◌<◌, ◌++◌, ◌∷◌, [], length, IfOk, drop, slice_get};
ghost use Rattle.circular_buffer.specs.Buffer.{buffer};

use circular_buffer::HeapCircularBuffer;
use hub_base::Value;
use std::alloc::{AllocError, Global};
use std::marker::Model;

/// A queue of values with room for as many as its channel's capacity. A contract sees the values, oldest first,
/// and the capacity.
///
/// Most channels carry numbers, which take a quarter of a value's place. So the values are two queues: numbers, and behind
/// them whatever came since a value came that is no number. Each has room for all, so that a push asks for no memory.
#[derive(Drop)]
pub struct Ring {
    /// How many values there are in both, so that one look tells whether there is any.
    len: u32,
    /// The older values; all are numbers.
    numbers: HeapCircularBuffer<u64>,
    /// The newer ones: whatever came since one came that is no number. Numbers may be among them. Most channels never have any, so
    /// they lie elsewhere, which makes a channel small.
    others: Box<HeapCircularBuffer<Value>>,
}

impl Model for Ring {
    ghost use Rattle.circular_buffer.specs.Buffer.{Buffer};
    ghost use Rattle.hub_base.specs.declared.value.Value.{Value as Held};
    ghost use Rattle.hub_parts.specs.Rings.{RingKeeps, ring_shown};

    ghost Value = { Buffer Held };

    ghost view = { λ r. ring_shown r };

    ghost invariant = { λ r. RingKeeps r };
}

/// Puts the items of another buffer of the same capacity in place of those that are there.
pub(crate) fn copy_over<T: Copy + Drop>(
    buffer: &mut HeapCircularBuffer<T>,
    other: &HeapCircularBuffer<T>,
)
    requires { buffer.old.capacity ≡ other.now.capacity }
    ensures { buffer.new ≡ other.now }
{
    // Its contract says that the items fit.
    let _capacity = other.capacity();
    buffer.clear();
    let (front, back) = other.as_slices();
    let _front = buffer.fill_from_slice(front);
    let _back = buffer.fill_from_slice(back);
}

/// A buffer of the same capacity with the same items.
pub(crate) fn copy_of<T: Copy + Drop>(
    alloc: Global,
    buffer: &HeapCircularBuffer<T>,
) -> Result<HeapCircularBuffer<T>, AllocError>
    ensures { IfOk result (λ b. b ≡ buffer.now) }
{
    let mut copy = HeapCircularBuffer::with_capacity(alloc, buffer.capacity())?;
    copy_over(&mut copy, buffer);
    Ok(copy)
}

/// Values on the heap.
fn boxed(
    alloc: Global,
    values: HeapCircularBuffer<Value>,
) -> Result<Box<HeapCircularBuffer<Value>>, AllocError>
    ensures { IfOk result (λ place. place.value ≡ values) }
{
    match Box::new(alloc, values) {
        Ok(place) => Ok(place),
        Err(_refused) => Err(AllocError),
    }
}

/// Appends a value, for which there is room. It stands in a function of its own, so that a number does not pay for it.
#[inline(never)]
fn push_apart(values: &mut HeapCircularBuffer<Value>, value: &Value)
    requires { length values.old.items < values.old.capacity }
    ensures { values.new ≡ buffer (values.old.items ++ value.now ∷ []) values.old.capacity }
{
    let _pushed = values.try_push_back(*value);
}

impl Ring {
    /// An empty ring. It takes the memory for all of its values.
    pub fn new(alloc: Global, cap: u32) -> Result<Ring, AllocError>
        ensures { IfOk result (λ r. r ≡ buffer [] cap) }
    {
        Ok(Ring {
            len: 0,
            numbers: HeapCircularBuffer::with_capacity(alloc, cap as usize)?,
            others: boxed(
                alloc,
                HeapCircularBuffer::with_capacity(alloc, cap as usize)?,
            )?,
        })
    }

    /// Drops all values, and keeps the room.
    pub fn clear(&mut self)
        ensures { self.new ≡ buffer [] self.old.capacity }
    {
        self.len = 0;
        self.numbers.clear();
        self.others.clear();
    }

    /// A ring with room for as many values, and with the same ones.
    pub(crate) fn copy(&self, alloc: Global) -> Result<Ring, AllocError>
        ensures { IfOk result (λ r. r ≡ self.now) }
    {
        Ok(Ring {
            len: self.len,
            numbers: copy_of(alloc, &self.numbers)?,
            others: boxed(alloc, copy_of(alloc, &self.others)?)?,
        })
    }

    /// Puts the values of another ring with as much room in place of those that are there.
    pub(crate) fn copy_from(&mut self, other: &Ring)
        requires { self.old.capacity ≡ other.now.capacity }
        ensures { self.new ≡ other.now }
    {
        self.len = other.len;
        copy_over(&mut self.numbers, &other.numbers);
        copy_over(&mut self.others, &other.others);
    }

    /// Adds the newest value. There must be room.
    pub fn push(&mut self, value: &Value)
        requires { length self.old.items < self.old.capacity }
        ensures { self.new ≡ buffer (self.old.items ++ value.now ∷ []) self.old.capacity }
    {
        let are_all_numbers = self.len as usize == self.numbers.len();
        self.len += 1;
        match value.as_num() {
            Some(number) if are_all_numbers => {
                let _pushed = self.numbers.try_push_back(number);
            }
            _ => push_apart(&mut self.others, value),
        }
    }

    /// Removes the oldest value.
    #[inline(always)]
    pub fn pop(&mut self) -> Option<Value>
        ensures oldest { result ≡ slice_get self.old.items 0 }
        ensures left { self.new ≡ buffer (drop 1 self.old.items) self.old.capacity }
    {
        if self.len == 0 {
            return None;
        }
        self.len -= 1;
        match self.numbers.pop_front() {
            Some(number) => Some(Value::num_at_once(number)),
            None => self.others.pop_front(),
        }
    }

    /// How many values there are.
    #[inline(always)]
    pub fn len(&self) -> usize
        ensures len { result ≡ length self.now.items }
        ensures fits { result ≤ self.now.capacity }
    {
        self.len as usize
    }

    /// The value at this place, counted from the oldest.
    pub fn item(&self, i: usize) -> Option<Value>
        ensures { result ≡ slice_get self.now.items i }
    {
        match self.numbers.get(i) {
            Some(number) => Some(Value::num(*number)),
            None => self.others.get(i - self.numbers.len()).copied(),
        }
    }
}
