//! The communications of a call.

ghost use Rattle.std.specs.Prelude.{◌≡◌, ◌≤◌, ◌∷◌, [], length};
ghost use Rattle.hub_base.specs.Head.{has_case};
ghost use Rattle.hub_base.specs.Ready.{port_of};
ghost use Rattle.hub_base.specs.Text.{CaseFits};

use crate::limits::CASE_PLACES;
use crate::{Edition, Port, Value};
use arrayvec::ArrayVec;
use std::marker::Model;
use std::slice;

/// One communication of a call. Go: "Send statements", "Receive operator", "Select statements".
#[derive(Clone, Copy, Debug, PartialEq, Eq)]
pub enum Case {
    /// Receives a value from the port.
    Recv(Port),
    /// Sends the value on the port.
    Send(Port, Value),
}

impl Case {
    /// The port that it communicates on.
    pub fn port(self) -> Port
        ensures { result ≡ port_of self }
    {
        match self {
            Case::Send(port, _value) => port,
            Case::Recv(port) => port,
        }
    }

    /// Whether a journal of this edition can have the case: its value, where it sends one, is one that it has.
    #[tactic(auto, using(crate::proofs::Values::every_value))]
    pub fn fits(self, edition: Edition) -> bool
        ensures is { result ≡ has_case edition self }
        ensures fits { CaseFits self }
    {
        match self {
            Case::Send(_port, value) => value.fits(edition),
            Case::Recv(_port) => true,
        }
    }
}

/// A receive on the nil channel, which is never ready.
impl Default for Case {
    ghost use Rattle.std.specs.Prelude.{◌≡◌};
    ghost use Rattle.hub_base.specs.Notation.{r};

    ghost is_default = { λ case. case ≡ r 0 };

    fn default() -> Case {
        Case::Recv(Port(0))
    }
}

/// The cases of a call, in order and numbered from 0. An entry holds up to `CASE_PLACES`; a call may
/// have up to `MOST_CASES`.
pub type Cases = ArrayVec<Case, CASE_PLACES>;

/// What `Cases` offers beside what every `ArrayVec` does.
pub trait CasesExt {
    /// This case alone, as a plain send or receive has it.
    fn one(case: Case) -> Self;
}

impl CasesExt for Cases {
    fn one(case: Case) -> Cases
        ensures { result ≡ record { items = case ∷ [] } }
    {
        let mut cases = Cases::new();
        cases.push(case);
        cases
    }
}

/// What a `Cases` holds, where it lies: up to `CASE_PLACES` cases in order.
#[derive(Drop)]
pub struct CaseSlice<'a> {
    /// The cases.
    cases: &'a [Case],
}

impl<'a> Model for CaseSlice<'a> {
    ghost use Rattle.std.specs.Prelude.{◌≤◌, length};
    ghost use Rattle.arrayvec.specs.ArrayVec.{ArrayVec};
    ghost use Rattle.hub_base.specs.declared.case.Case.{Case};
    ghost use Rattle.hub_base.specs.declared.limits.TheConstants.{CASE_PLACES};

    ghost Value = { ArrayVec Case };

    ghost view = { λ s. record { items = s.cases.now } };

    ghost invariant = { λ s. length s.cases.now ≤ CASE_PLACES };
}

impl<'a> CaseSlice<'a> {
    /// The cases that are held there.
    #[inline(always)]
    pub fn of(cases: &'a Cases) -> CaseSlice<'a>
        ensures { result ≡ cases.now }
    {
        CaseSlice {
            cases: cases.as_slice(),
        }
    }

    /// This case alone.
    #[inline(always)]
    pub fn one(case: &'a Case) -> CaseSlice<'a>
        ensures { result ≡ record { items = case.now ∷ [] } }
    {
        CaseSlice {
            cases: slice::from_ref(case),
        }
    }

    /// These cases, which are few enough.
    #[inline(always)]
    pub fn few(cases: &'a [Case]) -> CaseSlice<'a>
        requires { length cases.now ≤ CASE_PLACES }
        ensures { result ≡ record { items = cases.now } }
    {
        CaseSlice { cases }
    }

    /// The cases.
    #[inline(always)]
    pub fn as_slice(&self) -> &'a [Case]
        ensures cases { result.now ≡ self.now.items }
        ensures few { length result.now ≤ CASE_PLACES }
    {
        self.cases
    }
}
