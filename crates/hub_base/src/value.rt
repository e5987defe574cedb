//! What a channel carries, and the numbers that name ports and processes.

ghost use Rattle.std.specs.Prelude.{◌≡◌, true};
ghost use Rattle.hub_base.specs.Content.{is_stored};

use crate::Edition;
use crate::limits::MOST_VALUE_BYTES;

/// A value that a channel carries: a whole number of 64 bits, or 0 to `MOST_VALUE_BYTES` bytes. No journal of
/// the first edition has values that are bytes.
///
/// Only texts look inside it, and buffers, which keep numbers in less room. A hub moves values and never reads one, so
/// nothing that is proved of a hub depends on what a value is.
#[derive(Clone, Copy, Debug, PartialEq, Eq)]
pub struct Value {
    /// 0 for a number, and else one more than there are bytes.
    form: u8,
    /// The number, its lowest byte first, or the bytes. Zeros stand behind them, so that equal values are the same
    /// bytes.
    bytes: [u8; MOST_VALUE_BYTES],
    /// So each value says a number or bytes, and is the only one that says it.
    ghost stored: { is_stored form bytes ≡ true },
}

impl Value {
    ghost use Rattle.std.specs.Prelude.{◌-◌, ◌≤◌, ◌<◌, ◌↔◌, IfSome, IsNone, None, length, take, drop, replicate, slice_get};
    ghost use Rattle.hub_base.specs.Content.{IsContent, padded};
    ghost use Rattle.hub_base.specs.Content.Content.{Num, Bytes};
    ghost use Rattle.hub_base.specs.Head.{has_value};
    ghost use Rattle.hub_base.specs.Value.{content, value_of, bytes_of, number_in, bytes_in};

    /// The value that is this number.
    #[inline(always)]
    pub fn num(number: u64) -> Value
        ensures is { result ≡ value_of number }
        ensures says { content result ≡ Num number }
        ensures fits { (edition : Edition) → has_value edition result ≡ true }
    {
        // Written out, the bytes are a few stores to where the value goes. A copy into an array would be moved there, and
        // the processor would wait for it.
        let b = number.to_le_bytes();
        Value {
            form: 0,
            bytes: [
                b[0], b[1], b[2], b[3], b[4], b[5], b[6], b[7], 0, 0, 0, 0, 0, 0, 0, 0, 0, 0, 0, 0,
                0, 0, 0, 0, 0, 0, 0, 0, 0, 0, 0, 0,
            ],
        }
    }

    /// The value that is this number, as `num` gives it. Its eight bytes are copied at once, which is cheaper where the number comes
    /// from memory and the value goes there.
    #[inline(always)]
    pub fn num_at_once(number: u64) -> Value
        ensures { result ≡ value_of number }
    {
        let mut bytes = [0; MOST_VALUE_BYTES];
        bytes[..8].copy_from_slice(&number.to_le_bytes());
        Value { form: 0, bytes }
    }

    /// The value that is these bytes; `None` where they are more than `MOST_VALUE_BYTES`.
    pub fn bytes(bytes: &[u8]) -> Option<Value>
        ensures is { IfSome result (λ v. v ≡ bytes_of bytes.now) }
        ensures says { IfSome result (λ v. content v ≡ Bytes bytes.now) }
        ensures none { IsNone result ↔ (MOST_VALUE_BYTES < length bytes.now) }
    {
        // Most bytes that are sent fill their places, and are then copied without a loop.
        if let Ok(places) = <[u8; MOST_VALUE_BYTES]>::try_from(bytes) {
            return Some(Value::of_places(MOST_VALUE_BYTES, places));
        }
        if bytes.len() > MOST_VALUE_BYTES {
            return None;
        }
        let mut places = [0; MOST_VALUE_BYTES];
        places[..bytes.len()].copy_from_slice(bytes);
        Some(Value::of_places(bytes.len(), places))
    }

    /// The value that is the first `len` of these bytes, which may be all. The others must be zeros.
    #[inline(always)]
    pub fn of_places(len: usize, places: [u8; MOST_VALUE_BYTES]) -> Value
        requires few { len ≤ MOST_VALUE_BYTES }
        requires zeros { drop len places ≡ replicate (MOST_VALUE_BYTES - len) 0 }
        ensures is { result ≡ bytes_of (take len places) }
        ensures says { content result ≡ Bytes (take len places) }
    {
        let form = Value::first(len, &places).len() as u8 + 1;
        Value {
            form,
            bytes: places,
        }
    }

    /// The first `len` of these bytes, which may be all.
    #[inline(always)]
    fn first(len: usize, places: &[u8; MOST_VALUE_BYTES]) -> &[u8]
        requires { len ≤ MOST_VALUE_BYTES }
        ensures bytes { result.now ≡ take len places.now }
        ensures count { length result.now ≡ len }
        ensures fits { IsContent (Bytes result.now) }
    {
        // Behind a reference a proof learns how many there are, and of a slice that each is less than 256.
        &places.as_slice()[..len]
    }

    /// The number that the value is, unless it is bytes.
    pub fn as_num(self) -> Option<u64>
        ensures number { result ≡ number_in (content self) }
        ensures is { IfSome result (λ n. value_of n ≡ self) }
    {
        if self.form != 0 {
            return None;
        }
        let b = &self.bytes;
        Some(u64::from_le_bytes([b[0], b[1], b[2], b[3], b[4], b[5], b[6], b[7]]))
    }

    /// Whether a journal of this edition can have the value: one of the first edition has numbers alone.
    pub fn fits(self, edition: Edition) -> bool
        ensures { result ≡ has_value edition self }
    {
        edition.has_bytes() || self.form == 0
    }

    /// The bytes that it is; none for a number.
    pub fn as_bytes(&self) -> &[u8]
        ensures bytes { result.now ≡ bytes_in (content self.now) }
        ensures few { length result.now ≤ MOST_VALUE_BYTES }
    {
        let len = usize::from(self.form).saturating_sub(1);
        if len < MOST_VALUE_BYTES {
            &self.bytes[..len]
        } else {
            &self.bytes
        }
    }

    /// The bytes of a value that is no number, with zeros behind them in the places that they leave free.
    #[tactic(auto, using(crate::proofs::Values::padded_bytes))]
    pub fn padded_bytes(&self) -> &[u8; MOST_VALUE_BYTES]
        requires { number_in (content self.now) ≡ None }
        ensures { result.now ≡ padded (bytes_in (content self.now)) }
    {
        &self.bytes
    }

    /// How many bytes the value is; 0 for a number.
    #[tactic(auto, using(crate::proofs::Values::count_of_bytes))]
    pub fn len(self) -> u8
        ensures { result ≡ length (bytes_in (content self)) }
    {
        self.form.saturating_sub(1)
    }

    /// Its byte of this number, counted from 0; `None` behind the last, and for a number.
    pub fn byte(self, i: u8) -> Option<u8>
        ensures { result ≡ slice_get (bytes_in (content self)) i }
    {
        self.as_bytes().get(usize::from(i)).copied()
    }
}

/// The number 0.
impl Default for Value {
    ghost use Rattle.std.specs.Prelude.{◌≡◌};
    ghost use Rattle.hub_base.specs.Value.{value_of};

    ghost is_default = { λ value. value ≡ value_of 0 };

    fn default() -> Value {
        Value::num(0)
    }
}

/// The number of a port: 0 for the nil channel, and from 1 on in the order in which ports are made.
/// Go: "Channel types", "Making slices, maps and channels".
#[derive(Clone, Copy, Debug, Default, PartialEq, Eq)]
pub struct Port(pub u16);

/// The number of a process, from 0. A hub has 1 to `MOST_PROCS` of them; an entry may name any number
/// up to `GREATEST_PID`.
#[derive(Clone, Copy, Debug, Default, PartialEq, Eq)]
pub struct Pid(pub u8);
