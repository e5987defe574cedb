//! A journal: its head, and the entries in order.

ghost use Rattle.std.specs.Prelude.{◌≡◌};
ghost use Rattle.hub_base.specs.Head.{head_of};

use crate::{Edition, Entry, Head};
use std::marker::Model;

/// What the head lines say, and the entries in order.
#[derive(Drop)]
pub struct Journal {
    /// What the head lines say.
    head: Head,
    /// The entries, in order.
    list: Vec<Entry>,
}

impl Model for Journal {
    ghost use Rattle.hub_base.specs.Journal.{JournalView};

    ghost Value = { JournalView };

    ghost view = { λ j. record { head = j.head; entries = j.list.items } };
}

impl Journal {
    /// A journal of these entries. They need not be such as a hub admits.
    pub fn of(edition: Edition, procs: u8, entries: Vec<Entry>) -> Journal
        ensures { result ≡ record { head = head_of edition procs; entries = entries.items } }
    {
        Journal {
            head: Head { edition, procs },
            list: entries,
        }
    }

    /// The edition.
    pub fn edition(&self) -> Edition
        ensures { result ≡ self.now.head.edition }
    {
        self.head.edition
    }

    /// The number of processes.
    pub fn procs(&self) -> u8
        ensures { result ≡ self.now.head.procs }
    {
        self.head.procs
    }

    /// What the head lines say.
    pub fn head(&self) -> Head
        ensures { result ≡ self.now.head }
    {
        self.head
    }

    /// The entries, in order.
    pub fn entries(&self) -> &[Entry]
        ensures { result.now ≡ self.now.entries }
    {
        &self.list
    }
}
