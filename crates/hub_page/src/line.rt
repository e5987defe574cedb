//! A step whose line is put, with what is known behind it.

use crate::known::Known;
use crate::past::Past;
use hub_base::EntryRef;
use hub_story::Told;

/// A step whose line is put.
#[derive(Clone, Copy)]
pub(crate) struct Line<'a> {
    /// The journal.
    pub(crate) known: &'a Known<'a>,
    /// What is known behind the step.
    pub(crate) past: &'a Past,
    /// The step's place.
    pub(crate) place: u32,
    /// Its entry.
    pub(crate) entry: &'a EntryRef<'a>,
    /// What came by the step.
    pub(crate) came: &'a [Told],
}
