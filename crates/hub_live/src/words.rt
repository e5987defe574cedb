//! The words that threads share, and the steps that seats make on them.

ghost use Rattle.std.specs.Prelude.{◌≡◌, ◌<◌, ◌≤◌, ◌+◌, [], IsSome, IfOk};
ghost use Rattle.hub_live.specs.Rule.{word_count};
ghost use Rattle.hub_live.specs.Moves.{IsNext, numbered};
ghost use Rattle.hub_live.specs.Named.{IsTableOf, IsNewTable};
ghost use Rattle.hub_live.specs.Prelude.{mark, blank, SeesBoth, Met, grown, with_joined, parted, given_back, IsToken, IsSingle};

use crate::name::HubName;
use crate::rule::{
    DrawStep, EnterStep, HubTable, LookStep, NamesEntry, PublishStep, TakesIn, Token,
};
use hub_base::{EntryRef, MOST_PORTS};
use hub_core::Terms;
use std::alloc::{AllocError, Global};
use std::marker::{Brand, PhantomData};

/// A spare word, one for each port that there may be, and `NEXT`.
const WORDS: usize = MOST_PORTS + 2;

/// The word that holds the next number to be drawn.
const NEXT: usize = MOST_PORTS + 1;

/// The words of the hub that `K` names.
#[derive(Drop)]
pub struct Words<K: HubName> {
    /// The words, and what holds of them between any two steps.
    table: HubTable,
    /// Which hub they are of.
    of: PhantomData<K>,
    ghost is: { IsTableOf K.name table.shared.table_id table.shared.key },
}

impl<K: HubName> Words<K> {
    pub(crate) fn of(table: HubTable) -> Words<K>
        requires { IsTableOf K.name table.shared.table_id table.shared.key }
    {
        Words {
            table,
            of: PhantomData,
        }
    }

    fn publish_as<E: NamesEntry>(
        &self,
        token: &mut Token,
        word: usize,
        mark: u64,
        entry: &EntryRef<'_>,
    )
        requires named { entry.now ≡ E.entry }
        requires token { IsToken K.name token.old }
        requires next { IsNext K.name.terms token.old.me.0 word mark entry.now }
        ensures token { IsToken K.name token.new }
        ensures view { token.new.me.0 ≡ grown token.old.me.0 entry.now }
    {
        self.table.shared.store::<PublishStep<E>>(token, word, mark);
    }

    /// Publishes an entry by one store: of the mark of the port that it changes, or to word 0 where it
    /// changes none. The seat is the hub's, joined to that of the entry's process.
    pub(crate) fn publish(&self, token: &mut Token, word: usize, mark: u64, entry: &EntryRef<'_>)
        requires token { IsToken K.name token.old }
        requires next { IsNext K.name.terms token.old.me.0 word mark entry.now }
        ensures token { IsToken K.name token.new }
        ensures view { token.new.me.0 ≡ grown token.old.me.0 entry.now }
    {
        self.publish_as::<Brand>(token, word, mark, entry);
    }

    /// One load: the seat has then seen the journal, whose mark of this port is given; of word 0, of
    /// which nothing is known, any number.
    pub(crate) fn look(&self, token: &mut Token, word: usize) -> u64
        requires token { IsToken K.name token.old }
        requires number { IsSome token.old.me.0.number }
        requires word { word ≤ MOST_PORTS }
        ensures token { IsToken K.name token.new }
        ensures sees { SeesBoth token.old.me.0 token.new.me.0 }
        ensures mark { 0 < word → result ≡ mark token.old.me.0.terms.head token.new.me.0.seen word }
    {
        self.table.shared.load::<LookStep>(token, word)
    }

    /// Two loads: the seat takes in the other, and both have then seen the journal.
    pub(crate) fn join(&self, token: &mut Token, other: Token)
        requires token { IsSingle K.name token.old }
        requires other { IsSingle K.name other }
        ensures token { IsToken K.name token.new }
        ensures sees { SeesBoth (with_joined token.old.me.0 other.me.0) token.new.me.0 }
    {
        self.table.shared.join_seat::<TakesIn>(token, other);
        // A join tells nothing of the words; the look does.
        self.look(token, 0);
    }

    /// One load: the seat that was taken in is given back.
    pub(crate) fn split(&self, token: &mut Token) -> Token
        requires token { IsToken K.name token.old }
        requires joined { IsSome token.old.me.0.joined }
        ensures token { IsToken K.name token.new }
        ensures left { token.new.me.0 ≡ parted token.old.me.0 }
        ensures given { IsToken K.name result }
        ensures back { result.me.0 ≡ given_back token.old.me.0 }
    {
        self.table.shared.split_seat::<TakesIn>(token)
    }

    /// Three loads: both seats have then seen one journal, and neither has taken in the other.
    pub(crate) fn meet(&self, token: &mut Token, other: Token) -> Token
        requires token { IsSingle K.name token.old }
        requires other { IsSingle K.name other }
        ensures token { IsToken K.name token.new }
        ensures given { IsToken K.name result }
        ensures met { Met token.old.me.0 other.me.0 token.new.me.0 result.me.0 }
    {
        self.join(token, other);
        self.split(token)
    }
}

/// A table with all marks 0, and the hub's own seat, which has drawn its number. Refused too where
/// the word holds another number.
pub(crate) fn open_table(alloc: Global, terms: Terms) -> Result<(HubTable, Token), AllocError>
    ensures made { IfOk result (λ r. IsNewTable r.0.shared.table_id terms r.0.shared.key) }
    ensures table { IfOk result (λ r. r.1.table_id ≡ r.0.shared.table_id) }
    ensures seat { IfOk result (λ r. r.1.me ≡ (numbered (blank terms) 0, [])) }
{
    let (table, mut token) = HubTable::of_words(alloc, &[0; WORDS], &terms)?;
    if table
        .shared
        .compare_exchange::<DrawStep>(&mut token, NEXT, 0, 1)
        != 0
    {
        return Err(AllocError);
    }
    Ok((table, token))
}

/// A new seat, which has drawn this number. Refused where the word holds another.
pub(crate) fn draw(table: &HubTable, number: u64) -> Result<Token, AllocError>
    requires words { table.now.shared.table_id.words ≡ word_count }
    requires slots { table.now.shared.table_id.slots ≡ 0 }
    requires number { number < 256 }
    ensures table { IfOk result (λ t. t.table_id ≡ table.now.shared.table_id) }
    ensures seat { IfOk result (λ t. t.me ≡ (numbered (blank table.now.shared.key) number, [])) }
{
    let (_found, mut token) = table.shared.load_new_seat::<EnterStep>(NEXT);
    if table
        .shared
        .compare_exchange::<DrawStep>(&mut token, NEXT, number, number + 1)
        != number
    {
        return Err(AllocError);
    }
    Ok(token)
}
