//! The two ends of a channel. Contracts see a channel and its ends as the port. Go: "Channel types".

ghost use Rattle.std.specs.Prelude.{◌≡◌};
ghost use Rattle.hub_base.specs.declared.case.Case.TheVariants.{Send, Recv};

use hub_base::{Case, Port, Value};
use std::marker::{Model, PhantomData};

/// The number of a port. Its type says what it offers.
#[derive_where(Clone, Copy, Debug, PartialEq, Eq)]
pub struct End<Offer> {
    /// Its number.
    port: Port,
    /// What it offers.
    offer: PhantomData<Offer>,
}

impl<Offer> Model for End<Offer> {
    ghost use Rattle.hub_base.specs.declared.value.Port.{Port};

    ghost Value = { Port };

    ghost view = { λ c. c.port };

    ghost inverse = { λ p. record { port = p; offer = record {} } };
}

/// It gives out both ends.
pub struct Both;

/// It sends and closes.
pub struct Sends;

/// It receives.
pub struct Receives;

/// A channel, which gives out its ends.
pub type Chan = End<Both>;

/// The end of a channel that sends and closes. It offers no call that makes the other end.
pub type SendPort = End<Sends>;

/// The end of a channel that receives. It offers no call that makes the other end, nor one that
/// closes.
pub type RecvPort = End<Receives>;

impl<Offer> End<Offer> {
    fn at(port: Port) -> End<Offer>
        ensures { result ≡ port }
    {
        End {
            port,
            offer: PhantomData,
        }
    }
}

impl Chan {
    /// The channel of a port.
    pub fn of(port: Port) -> Chan
        ensures { result ≡ port }
    {
        Chan::at(port)
    }

    /// Its port, to look at.
    pub fn port(&self) -> Port
        ensures { result ≡ self.now }
    {
        self.sender().port()
    }

    /// The end that sends.
    pub fn sender(&self) -> SendPort
        ensures { result ≡ self.now }
    {
        SendPort::at(self.port)
    }

    /// The end that receives.
    pub fn receiver(&self) -> RecvPort
        ensures { result ≡ self.now }
    {
        RecvPort::at(self.port)
    }
}

impl SendPort {
    /// A case that sends the value. Go: "Send statements".
    pub fn send(&self, value: Value) -> Case
        ensures { result ≡ Send self.now value }
    {
        Case::Send(self.port, value)
    }

    pub(crate) fn port(&self) -> Port
        ensures { result ≡ self.now }
    {
        self.port
    }
}

impl RecvPort {
    /// A case that receives a value. Go: "Receive operator".
    pub fn recv(&self) -> Case
        ensures { result ≡ Recv self.now }
    {
        Case::Recv(self.port)
    }
}
