//! The lines of a text, and their limit of bytes.

ghost use Rattle.std.specs.Prelude.{◌≡◌, ◌+◌, ◌<◌, ◌≤◌, ◌∷◌, [], length, MatchOption, IfOk, IfErr, IfSome, Some, true, false};
ghost use Rattle.hub_base.specs.Reading.{rows, line_fault};

use hub_base::{Kind, MOST_BYTES};
use memchr::memchr;

/// The first line without its newline, and what stands behind it; `None` where there is no newline.
fn cut_line(bytes: &[u8]) -> Option<(&[u8], &[u8])>
    requires { 0 < length bytes.now }
    ensures rows { MatchOption result
        (rows bytes.now ≡ record { bytes = bytes.now; whole = false } ∷ [])
        (λ x. rows bytes.now ≡ record { bytes = x.0.now; whole = true } ∷ rows x.1.now) }
    ensures left { IfSome result (λ x. length x.0.now + length x.1.now + 1 ≡ length bytes.now) }
{
    match memchr(b'\n', bytes) {
        Some(end) => Some((&bytes[..end], &bytes[end + 1..])),
        None => None,
    }
}

/// The same of a line that begins at this place of its text, unless it passes the limit or has no
/// newline.
pub fn line_at(bytes: &[u8], place: usize) -> Result<(&[u8], &[u8]), Kind>
    requires some { 0 < length bytes.now }
    requires place { place ≤ MOST_BYTES }
    ensures line { IfOk result (λ x.
        rows bytes.now ≡ record { bytes = x.0.now; whole = true } ∷ rows x.1.now) }
    ensures left { IfOk result (λ x. length x.0.now + length x.1.now + 1 ≡ length bytes.now) }
    ensures fits { IfOk result (λ x. place + length x.0.now + 1 ≤ MOST_BYTES) }
    ensures fault { IfErr result (λ kind. line_fault place (rows bytes.now) ≡ Some kind) }
{
    match cut_line(bytes) {
        Some((line, rest)) => {
            // The newline counts too, so the line itself has to be shorter.
            if line.len() < MOST_BYTES - place {
                Ok((line, rest))
            } else {
                Err(Kind::TooLong)
            }
        }
        None => {
            if bytes.len() <= MOST_BYTES - place {
                Err(Kind::CutLine)
            } else {
                Err(Kind::TooLong)
            }
        }
    }
}
