//! What each seat of the table knows, and the rule that every step on the words keeps.
//!
//! The words hold marks, and the next number to be drawn. The journal stands in the views alone,
//! which take no memory: the hub's seat knows it whole, the seat of a process a beginning of it,
//! with every entry of that process.

use atomic_table::{Join, Play, Seat, Split, Table, TableRule};
use hub_core::Terms;
use std::alloc::Global;
use std::collections::LinkedList;
use std::marker::{Brand, PhantomData};

/// What a seat of the table knows. No value of it is made.
pub(crate) struct View {
    /// What its hub was opened with.
    pub terms: Terms,
    /// The seat's number, once it has drawn it: 0 for the hub's own, `p + 1` for that of process
    /// `p`.
    pub number: Option<u64>,
    /// The beginning of the journal that it has seen.
    pub seen: LinkedList<hub_base::Entry>,
    /// The number of the seat that it took in, and what that had seen.
    pub joined: Option<u64>,
    pub joined_seen: LinkedList<hub_base::Entry>,
}

/// The rule of the words.
pub(crate) struct HubRule;

impl TableRule<(), View, Terms> for HubRule {
    ghost use Rattle.hub_live.specs.Rule.{Kept, blank};

    ghost holds = { Kept };

    ghost first = { blank };
}

/// A load of a word: the seat has then seen the journal.
pub(crate) struct LookStep;

impl Play<(), View> for LookStep {
    ghost use Rattle.hub_live.specs.Moves.{Looked};

    ghost then = { Looked };
}

/// A load that makes a blank seat.
pub(crate) struct EnterStep;

impl Play<(), View> for EnterStep {
    ghost use Rattle.hub_live.specs.Moves.{Entered};

    ghost then = { Entered };
}

/// Draws the seat's number.
pub(crate) struct DrawStep;

impl Play<(), View> for DrawStep {
    ghost use Rattle.hub_live.specs.Moves.{Drew};

    ghost then = { Drew };
}

/// Names the entry that a store adds to the journal.
pub(crate) trait NamesEntry {
    ghost use Rattle.hub_base.specs.Entry.{Entry};

    ghost entry: { Entry };
}

impl NamesEntry for Brand {
    ghost use Rattle.hub_live.specs.Moves.{no_entry};

    ghost entry = { no_entry };
}

/// The store that publishes: the journal gains the entry.
pub(crate) struct PublishStep<E> {
    /// The type that names the entry.
    of: PhantomData<E>,
}

impl<E: NamesEntry> Play<(), View> for PublishStep<E> {
    ghost use Rattle.hub_live.specs.Moves.{Published};

    ghost then = { Published E.entry };
}

/// A seat takes in another, and gives it back.
pub(crate) struct TakesIn;

impl Join<View> for TakesIn {
    ghost use Rattle.hub_live.specs.Moves.{with_joined};
    ghost use Rattle.hub_live.specs.Rule.{spent};

    ghost both = { with_joined };

    ghost spent = { spent };
}

impl Split<View> for TakesIn {
    ghost use Rattle.hub_live.specs.Moves.{parted, given_back};

    ghost left = { parted };

    ghost right = { given_back };
}

pub(crate) type HubTable = Table<(), View, Terms, HubRule, Global>;

pub(crate) type Token = Seat<(), View>;
