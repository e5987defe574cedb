//! The fields of a line, or the parts of a case: the pieces between single marks, one after the
//! other.

ghost use Rattle.std.specs.Prelude.{◌≡◌, ◌∷◌, [], MatchOption, MatchResult, List, ℕ, ◌↔◌, IsTrue};
ghost use Rattle.hub_base.specs.Lines.{pieces};
ghost use Rattle.hub_base.specs.declared.read_fault.Kind.TheVariants.{BadStep};

use hub_base::Kind;
use std::marker::Model;

/// The fields that are left to be read. There is at least one at first, and a field may be empty.
#[derive(Drop)]
pub struct Fields<'a> {
    /// The byte that stands between two fields.
    mark: u8,
    /// What stands behind the last mark that was passed; `None` once the last field was read.
    rest: Option<&'a [u8]>,
}

impl<'a> Model for Fields<'a> {
    ghost use Rattle.std.specs.Prelude.{List, ℕ};
    ghost use Rattle.hub_text.specs.Fields.{pieces_left};

    ghost Value = { List (List ℕ) };

    ghost view = { λ f. pieces_left f.mark f.rest };
}

/// The piece before the first mark, and what stands behind that mark.
fn cut(bytes: &[u8], mark: u8) -> (&[u8], Option<&[u8]>)
    ensures { MatchOption result.1
        (pieces mark bytes.now ≡ result.0.now ∷ [])
        (λ rest. pieces mark bytes.now ≡ result.0.now ∷ pieces mark rest.now) }
{
    for (i, b) in bytes.iter().enumerate() {
        if *b == mark {
            return (&bytes[..i], Some(&bytes[i + 1..]));
        }
    }
    (bytes, None)
}

impl<'a> Fields<'a> {
    /// The pieces of these bytes between single marks.
    pub fn of(bytes: &'a [u8], mark: u8) -> Fields<'a>
        ensures { result ≡ pieces mark bytes.now }
    {
        Fields {
            mark,
            rest: Some(bytes),
        }
    }

    /// The next field.
    pub fn next_field(&mut self) -> Option<&'a [u8]>
        ensures { MatchOption result
            ((self.old ≡ []) × (self.new ≡ []))
            (λ field. self.old ≡ field.now ∷ self.new) }
    {
        let rest = self.rest?;
        let (field, left) = cut(rest, self.mark);
        self.rest = left;
        Some(field)
    }

    /// The next field of a step that has one more.
    pub(crate) fn expect_field(&mut self) -> Result<&'a [u8], Kind>
        ensures { MatchResult result
            (λ field. self.old ≡ field.now ∷ self.new)
            (λ kind. (kind ≡ BadStep) × (self.old ≡ [])) }
    {
        self.next_field().ok_or(Kind::BadStep)
    }

    /// The end of a step that has no field more.
    pub(crate) fn expect_end(&mut self) -> Result<(), Kind>
        ensures { MatchResult result
            (λ done. self.old ≡ [])
            (λ kind. (kind ≡ BadStep) × ((field : List ℕ) × (self.old ≡ field ∷ self.new))) }
    {
        match self.next_field() {
            None => Ok(()),
            Some(_field) => Err(Kind::BadStep),
        }
    }

    /// Whether no field is left.
    pub fn is_done(&self) -> bool
        ensures { IsTrue result ↔ (self.now ≡ []) }
    {
        self.rest.is_none()
    }
}
