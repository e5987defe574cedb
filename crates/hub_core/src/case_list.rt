//! Cases in order, in less memory than a list of them.
//!
//! A case has room for the bytes of a value, and a call mostly sends a number. So 16 bytes are kept of each case, and the
//! bytes that are sent stand beside.

ghost use Rattle.std.specs.Prelude.{◌≡◌, ◌≤◌, ◌+◌, ◌++◌, ◌∷◌, [], true, if◌then◌else◌, is_ok, IfOk, IsOk, OnOk, length, slice_get, take, drop};
ghost use Rattle.hub_core.specs.CaseListView.{HasCaseRoomFor, HasCaseRoom, case_of, cases_kept};

use crate::copies::{copy_list, copy_list_over};
use hub_base::{Case, Port, Value};
use std::alloc::{AllocError, Global};
use std::marker::Model;
use std::mem::size_of;

/// What is kept of a case.
#[derive(Clone, Copy)]
enum ShortCase {
    /// It receives.
    Recv(Port),
    /// It sends a number.
    Number {
        port: Port,
        number: u64,
    },
    /// It sends bytes.
    Bytes {
        port: Port,
        /// Where these stand among those of all cases.
        place: usize,
    },
}

const _: () = prove!(size_of::<ShortCase>() == 16);

const _: () = prove!(size_of::<Value>() == 33);

/// Cases in order, each in 16 bytes: bytes that are sent stand beside.
#[derive(Drop)]
pub(crate) struct CaseList {
    /// What is kept of each.
    kept: Vec<ShortCase>,
    /// The values of those that send bytes.
    values: Vec<Value>,
}

impl Model for CaseList {
    ghost use Rattle.hub_core.specs.CaseListView.{CaseListView};
    ghost use Rattle.hub_core.specs.CaseListKeeps.{CaseListKeeps, case_list_shown};

    ghost Value = { CaseListView };

    ghost view = { λ l. case_list_shown l };

    ghost invariant = { λ l. CaseListKeeps l };
}

/// The case of which this is kept.
fn case_from(kept: ShortCase, values: &[Value]) -> Case
    ensures { result ≡ case_of values.now kept }
{
    match kept {
        ShortCase::Recv(port) => Case::Recv(port),
        ShortCase::Number { port, number } => Case::Send(port, Value::num(number)),
        ShortCase::Bytes { port, place } => {
            // A value stands at each place, so that the number is never given.
            let value = values.get(place).copied();
            Case::Send(port, value.unwrap_or(Value::num(0)))
        }
    }
}

/// Puts the cases of which these are kept in the first of these places.
fn put_in(places: &mut [Case], kept: &[ShortCase], values: &[Value])
    requires { length kept.now ≤ length places.old }
    ensures { take (length kept.now) places.new ≡ cases_kept kept.now values.now }
{
    for (i, short) in kept.iter().enumerate() {
        places[i] = case_from(*short, values);
    }
}

impl CaseList {
    /// No case.
    pub(crate) fn new(alloc: Global) -> CaseList
        ensures { result.items ≡ [] }
    {
        CaseList {
            kept: Vec::new(alloc),
            values: Vec::new(alloc),
        }
    }

    /// The same cases.
    pub(crate) fn copy(&self, alloc: Global) -> Result<CaseList, AllocError>
        ensures { IfOk result (λ l. l.items ≡ self.now.items) }
    {
        Ok(CaseList {
            kept: copy_list(alloc, &self.kept)?,
            values: copy_list(alloc, &self.values)?,
        })
    }

    /// How many there are.
    #[inline(always)]
    pub(crate) fn len(&self) -> usize
        ensures { result ≡ length self.now.items }
    {
        self.kept.len()
    }

    /// Whether there is room for so many more, whatever they send.
    #[inline(always)]
    pub(crate) fn has_room(&self, more: usize) -> bool
        ensures { result ≡ true → HasCaseRoom self.now more }
    {
        self.kept.capacity() - self.kept.len() >= more
            && self.values.capacity() - self.values.len() >= more
    }

    /// Makes room for so many more, whatever they send.
    fn reserve(&mut self, more: usize) -> Result<(), AllocError>
        ensures items { self.new.items ≡ self.old.items }
        ensures ok { OnOk result (HasCaseRoom self.new more) }
        ensures succeeds { HasCaseRoom self.old more → IsOk result }
    {
        self.kept.reserve(more)?;
        self.values.reserve(more)
    }

    /// Makes room for the cases of another in place of those that are there.
    pub(crate) fn reserve_for(&mut self, other: &CaseList) -> Result<(), AllocError>
        ensures items { self.new.items ≡ self.old.items }
        ensures ok { OnOk result (HasCaseRoomFor self.new other.now) }
    {
        self.kept.reserve(other.kept.len())?;
        self.values.reserve(other.values.len())
    }

    /// Puts the cases of another in place of those that are there.
    pub(crate) fn copy_from(&mut self, other: &CaseList)
        requires { HasCaseRoomFor self.old other.now }
        ensures { self.new.items ≡ other.now.items }
    {
        copy_list_over(&mut self.kept, &other.kept);
        copy_list_over(&mut self.values, &other.values);
    }

    /// Takes all of them away.
    pub(crate) fn clear(&mut self)
        ensures { self.new.items ≡ [] }
    {
        self.kept.clear();
        self.values.clear();
    }

    /// Appends a case that sends bytes, for which there is room.
    fn push_bytes(&mut self, port: Port, value: &Value)
        requires { HasCaseRoom self.old 1 }
        ensures items { self.new.items ≡ self.old.items ++ Case.Send port value.now ∷ [] }
        ensures room { self.new.room ≡ self.old.room }
        ensures beside { self.new.beside ≡ self.old.beside + 1 }
        ensures beside_room { self.new.beside_room ≡ self.old.beside_room }
    {
        let place = self.values.len();
        self.values.push_reserved(*value);
        self.kept.push_reserved(ShortCase::Bytes { port, place });
    }

    /// Appends a case, for which there is room.
    #[inline(always)]
    fn push(&mut self, case: &Case)
        requires { HasCaseRoom self.old 1 }
        ensures items { self.new.items ≡ self.old.items ++ case.now ∷ [] }
        ensures room { self.new.room ≡ self.old.room }
        ensures beside { self.new.beside ≤ self.old.beside + 1 }
        ensures beside_room { self.new.beside_room ≡ self.old.beside_room }
    {
        match case {
            Case::Recv(port) => self.kept.push_reserved(ShortCase::Recv(*port)),
            Case::Send(port, value) => match value.as_num() {
                Some(number) => {
                    let port = *port;
                    self.kept.push_reserved(ShortCase::Number { port, number });
                }
                None => self.push_bytes(*port, value),
            },
        }
    }

    /// Appends these cases, for which there is room. It stands in a function of its own, so that one case does not pay for it.
    #[inline(never)]
    fn put_several(&mut self, cases: &[Case])
        requires { HasCaseRoom self.old (length cases.now) }
        ensures { self.new.items ≡ self.old.items ++ cases.now }
    {
        for case in cases {
            self.push(case);
        }
    }

    /// The same. One is put there by itself.
    #[inline(always)]
    pub(crate) fn put(&mut self, cases: &[Case])
        requires { HasCaseRoom self.old (length cases.now) }
        ensures { self.new.items ≡ self.old.items ++ cases.now }
    {
        match cases {
            [case] => self.push(case),
            _ => self.put_several(cases),
        }
    }

    /// Appends these cases. Mostly there are none, and to append none would take a fifteenth of a call's instructions.
    #[inline(always)]
    pub(crate) fn append(&mut self, cases: &[Case]) -> Result<(), AllocError>
        ensures items { self.new.items ≡ (if is_ok result then self.old.items ++ cases.now else self.old.items) }
        ensures succeeds { HasCaseRoom self.old (length cases.now) → IsOk result }
    {
        if cases.is_empty() {
            return Ok(());
        }
        self.reserve(cases.len())?;
        self.put_several(cases);
        Ok(())
    }

    /// The case at this place; `None` behind the last.
    pub(crate) fn get(&self, place: usize) -> Option<Case>
        ensures { result ≡ slice_get self.now.items place }
    {
        match self.kept.get(place).copied() {
            Some(short) => Some(case_from(short, &self.values)),
            None => None,
        }
    }

    /// Puts so many of the cases, from this place on, in the first of these places.
    pub(crate) fn copy_to(&self, first: usize, count: usize, places: &mut [Case])
        requires there { first + count ≤ length self.now.items }
        requires few { count ≤ length places.old }
        ensures { take count places.new ≡ take count (drop first self.now.items) }
    {
        let (_before, from) = self.kept.split_at(first);
        let (own, _behind) = from.split_at(count);
        put_in(places, own, &self.values);
    }
}
