//! `chanhub_tool picture [FROM [TO]] [FILE] [-o OUT]`.

use crate::given::over_journal;
use clap::Command;
use std::alloc::{AllocError, Global};

pub(super) fn grammar<'a>(alloc: Global) -> Result<Command<'a>, AllocError> {
    over_journal(
        alloc,
        Command::new(alloc, "picture")
            .about(
                "Draws a journal as an SVG for a browser; of more than 10,000 steps it has to be told which",
            )
            .override_usage("chanhub_tool picture [FROM [TO]] [FILE] [-o OUT]"),
    )
}
