//! The texts of what ends a replay early.

use crate::compare::has_text;
use hub_base::{Kind, NoMemory, TextFault};
use hub_replay::{ReplayFault, SourceFault, WriteFailed};

const REPLAYS: &[(ReplayFault, &str)] = &[
    (
        ReplayFault::Text(TextFault {
            line: 3,
            kind: Kind::BadStep,
        }),
        "line 3: bad step",
    ),
    (ReplayFault::Read, "read failed"),
    (ReplayFault::Write, "write failed"),
    (ReplayFault::NoMemory, "out of memory"),
];

#[test]
fn replays_end_with_texts(rt: HostRuntime) {
    for (fault, text) in REPLAYS {
        has_text(&rt, rt.alloc(), *fault, text);
    }
}

#[test]
fn devices_fail_with_texts(rt: HostRuntime) {
    has_text(&rt, rt.alloc(), SourceFault::Read, "read failed");
    has_text(&rt, rt.alloc(), SourceFault::NoMemory, "out of memory");
    has_text(&rt, rt.alloc(), WriteFailed, "write failed");
    has_text(&rt, rt.alloc(), NoMemory, "out of memory");
}
