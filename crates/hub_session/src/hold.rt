//! What C holds: a struct that owns a hub on the heap.
//!
//! C has room for the struct and leaves its members alone. One of zeros holds nothing.

ghost use Rattle.std.specs.Prelude.{◌≡◌, IfErr, IfOk, Option, None, Some, option_map};
ghost use Rattle.hub_session.specs.Held.{is_held, owned};
ghost use Rattle.hub_session.specs.declared.session.Session.{Session};

use crate::loose::Loose;
use crate::session::Session;
use std::alloc::Global;
use std::marker::Model;
use std::mem::replace;
use std::ptr::null_mut;

/// A hub as C holds it: a session on the heap, or none. One of zeros holds none.
#[repr(C)]
pub struct HubC {
    /// Where it lies, if one is held.
    at: *mut u8,
    /// Whether one is held.
    is_open: bool,
    /// Takes no room.
    alloc: Global,
    pub ghost session: { Option Session },
    ghost held: { is_open ≡ is_held session },
}

impl Model for HubC {
    ghost also_owns = { λ h. owned h.at h.alloc h.session };
}

impl HubC {
    /// Holds nothing.
    fn none(alloc: Global) -> HubC
        ensures { result.session ≡ None }
    {
        HubC {
            at: null_mut(),
            is_open: false,
            alloc,
        }
    }

    /// Holds this hub.
    fn of(session: Loose<Session, Global>) -> HubC
        ensures { result.session ≡ Some session.value }
    {
        let Loose { at, alloc } = session;
        HubC {
            at: at.cast::<u8>(),
            is_open: true,
            alloc,
        }
    }

    /// The hub that is held.
    fn into_loose(self) -> Option<Loose<Session, Global>>
        ensures { option_map (λ l. l.value) result ≡ self.session }
    {
        let HubC { at, is_open, alloc } = self;
        if is_open {
            Some(Loose {
                at: at.cast::<Session>(),
                alloc,
            })
        } else {
            None
        }
    }

    /// Holds this hub from now on. One that was held ends.
    pub fn put_in(&mut self, session: Box<Session>)
        ensures { self.new.session ≡ Some session.value }
    {
        match replace(self, HubC::of(Loose::of(session))).into_loose() {
            Some(old) => drop(old.into_box()),
            None => (),
        }
    }

    /// Takes out the hub that is held, if one is. None is left.
    pub fn take_out(&mut self, alloc: Global) -> Option<Box<Session>>
        ensures left { self.new.session ≡ None }
        ensures taken { option_map (λ b. b.value) result ≡ self.old.session }
    {
        match replace(self, HubC::none(alloc)).into_loose() {
            Some(session) => Some(session.into_box()),
            None => None,
        }
    }

    /// Holds the hub that was opened, and returns 0; where that was refused, holds none and returns the number of what refused it.
    /// One that was held before ends.
    pub fn put_in_opened(&mut self, alloc: Global, opened: Result<Box<Session>, u8>) -> u8
        ensures ok { IfOk opened (λ b. (self.new.session ≡ Some b.value) × (result ≡ 0)) }
        ensures err { IfErr opened (λ refusal. (self.new.session ≡ None) × (result ≡ refusal)) }
    {
        match opened {
            Ok(session) => {
                self.put_in(session);
                0
            }
            Err(refusal) => {
                self.end(alloc);
                refusal
            }
        }
    }

    /// Ends the hub that is held, if one is: it gives back its memory. None is left.
    pub fn end(&mut self, alloc: Global)
        ensures { self.new.session ≡ None }
    {
        drop(self.take_out(alloc));
    }
}
