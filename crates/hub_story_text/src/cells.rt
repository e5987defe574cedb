//! A line in columns. A cell begins at its column, or two spaces behind what stands there; an empty one leaves no space.

ghost use Rattle.std.specs.Prelude.{◌≡◌, ◌≤◌, ◌++◌, IfOk, OnOk};
ghost use Rattle.hub_story_text.specs.Cells.{gap, right, spaces};
ghost use Rattle.hub_story_text.specs.Writing.{Opens, closed};

use itoa::Buffer;
use std::alloc::AllocError;

/// How wide the numbers of steps are; they stand to the right.
pub(crate) const STEP_WIDTH: usize = 7;
/// Where begins who asks what.
pub(crate) const ASKS: usize = 9;
/// Where begins what the step was told in the end.
pub(crate) const ANSWER: usize = 40;
/// Where begins how long it waited.
pub(crate) const WAITED: usize = 58;
/// Where begins who has the value, or who sent it.
pub(crate) const VALUE: usize = 78;
/// Where begins what it did to other steps.
pub(crate) const ENDS: usize = 100;

/// How many spaces are appended at most.
const MOST_SPACES: usize = ENDS;

/// So many spaces.
static SPACES: [u8; MOST_SPACES] = [b' '; MOST_SPACES];

/// Appends so many spaces.
fn put_spaces(out: &mut Vec<u8>, count: usize) -> Result<(), AllocError>
    requires { count ≤ MOST_SPACES }
    ensures { OnOk result (out.new.items ≡ out.old.items ++ spaces count) }
{
    out.extend_from_slice(&SPACES[..count])?;
    Ok(())
}

/// How many spaces stand before a cell of this column, behind so many bytes.
fn gap(column: usize, len: usize) -> usize
    requires { column ≤ MOST_SPACES }
    ensures value { result ≡ gap column len }
    ensures most { result ≤ MOST_SPACES }
{
    column.saturating_sub(len).max(2)
}

/// A cell of a text, while it is written.
#[derive(Clone, Copy)]
pub(crate) struct Cell {
    /// How long the text was before the spaces that stand before the cell.
    before: usize,
    /// How long with them.
    begin: usize,
}

/// Begins a cell at this column of the line that begins at `start`.
pub(crate) fn open_cell(out: &mut Vec<u8>, start: usize, column: usize) -> Result<Cell, AllocError>
    requires { column ≤ MOST_SPACES }
    ensures { IfOk result (λ cell. Opens start column out.old.items out.new.items cell) }
{
    let before = out.len();
    let spaces = gap(column, before.saturating_sub(start));
    put_spaces(out, spaces)?;
    Ok(Cell {
        before,
        begin: out.len(),
    })
}

/// Ends a cell: an empty one leaves no space.
pub(crate) fn close_cell(out: &mut Vec<u8>, cell: Cell)
    ensures { out.new.items ≡ closed out.old.items cell }
{
    if out.len() == cell.begin {
        out.truncate(cell.before);
    }
}

/// Appends a number to the right of the first places of a line.
pub(crate) fn put_right(out: &mut Vec<u8>, number: u64) -> Result<(), AllocError>
    ensures { OnOk result (out.new.items ≡ out.old.items ++ right STEP_WIDTH number) }
{
    let mut buffer = Buffer::new();
    let digits = buffer.format(number).as_bytes();
    put_spaces(out, STEP_WIDTH.saturating_sub(digits.len()))?;
    out.extend_from_slice(digits)
}
