//! The shapes of entries: boxes and bars.

ghost use Rattle.std.specs.Prelude.{codes};
ghost use Rattle.hub_picture.specs.Reading.{Elements, Opens};

use super::bars::put_bar;
use super::boxes::put_box;
use crate::Asked;
use crate::asked::{Shown, ended_by, shows};
use crate::frame::{Frame, number_of};
use crate::label::{class_told, label_of};
use crate::pen::Pen;
use crate::piece::{Piece, put, put_pieces};
use std::alloc::AllocError;

/// Appends where an entry's shape begins, with its class, and what is told where one points at it.
fn put_opening(out: &mut Vec<u8>, shown: Shown, asked: &Asked) -> Result<(), AllocError>
    ensures { Opens out.old out.new (codes "g") result }
{
    let boxes = matches!(shown, Shown::Boxes);
    put_pieces(
        out,
        &[
            Piece::Word(b"<g class=\""),
            Piece::If(boxes, b"box"),
            Piece::If(!boxes, b"bar"),
            Piece::Word(b" "),
            Piece::Class(label_of(asked)),
            Piece::Ending(class_told(asked)),
            Piece::Word(b"\"><title>step "),
            Piece::Number(number_of(asked.place)),
            Piece::Word(b"\n"),
            Piece::Line(&asked.entry),
            Piece::End(asked.part, asked.ended),
            Piece::Word(b"\n</title>"),
        ],
    )
}

/// Boxes or bars, where the band shows them.
#[derive(Clone, Copy)]
pub(crate) struct Entries(pub Shown, pub Frame);

impl Entries {
    /// Appends the shape itself.
    fn put_shape(self, out: &mut Vec<u8>, asked: &Asked) -> Result<(), AllocError>
        ensures { Elements out.old out.new result }
    {
        match self.0 {
            Shown::Boxes => put_box(out, self.1, asked),
            Shown::Bars => put_bar(out, self.1, asked),
        }
    }

    /// Appends the shape with its title.
    fn put_entry(self, out: &mut Vec<u8>, asked: &Asked) -> Result<(), AllocError>
        ensures { Elements out.old out.new result }
    {
        put_opening(out, self.0, asked)?;
        self.put_shape(out, asked)?;
        put(out, b"</g>\n")
    }
}

impl Pen<Asked> for Entries {
    fn put(&self, out: &mut Vec<u8>, asked: &Asked) -> Result<(), AllocError> {
        if shows(self.0, self.1.steps, asked.place, ended_by(asked.ended)) {
            self.put_entry(out, asked)
        } else {
            Ok(())
        }
    }
}
