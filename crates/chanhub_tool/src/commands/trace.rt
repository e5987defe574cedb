//! `chanhub_tool trace [FILE] [-o OUT]`.

use crate::given::over_whole_journal;
use clap::Command;
use std::alloc::{AllocError, Global};

pub(super) fn grammar<'a>(alloc: Global) -> Result<Command<'a>, AllocError> {
    over_whole_journal(
        alloc,
        Command::new(alloc, "trace")
            .about(
                "Writes a journal as a trace in Chrome's format, which ui.perfetto.dev opens; a step is a microsecond there",
            )
            .override_usage("chanhub_tool trace [FILE] [-o OUT]"),
    )
}
