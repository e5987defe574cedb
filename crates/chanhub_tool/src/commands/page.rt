//! `chanhub_tool page [FROM [TO]] [FILE] [-o OUT]`.

use crate::given::over_journal;
use clap::Command;
use std::alloc::{AllocError, Global};

pub(super) fn grammar<'a>(alloc: Global) -> Result<Command<'a>, AllocError> {
    over_journal(
        alloc,
        Command::new(alloc, "page")
            .about(
                "Writes a journal as a page for a browser: one HTML file, which needs no network; of many steps it can be told which",
            )
            .override_usage("chanhub_tool page [FROM [TO]] [FILE] [-o OUT]"),
    )
}
