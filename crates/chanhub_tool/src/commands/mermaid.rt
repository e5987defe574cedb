//! `chanhub_tool mermaid [FROM [TO]] [FILE] [-o OUT]`.

use crate::given::over_journal;
use clap::Command;
use std::alloc::{AllocError, Global};

pub(super) fn grammar<'a>(alloc: Global) -> Result<Command<'a>, AllocError> {
    over_journal(
        alloc,
        Command::new(alloc, "mermaid")
            .about("Writes a journal as a sequence diagram for Mermaid, of 200 steps at most")
            .override_usage("chanhub_tool mermaid [FROM [TO]] [FILE] [-o OUT]"),
    )
}
