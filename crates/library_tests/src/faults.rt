//! Texts that have a fault.
use crate::same;
use elm_base::{FaultKind, Halt, ProjectFault};
use elm_library::{Source, read};
use std::alloc::Global;

/// A text, and the line and kind of its fault.
const ROWS: [(&str, u32, FaultKind); 9] = [
    ("native f\nmodule A where\n", 1, FaultKind::BadDeclaration),
    (
        "native f : \nmodule A where\n",
        1,
        FaultKind::BadDeclaration,
    ),
    (
        "native f : a ->\nmodule A where\n",
        1,
        FaultKind::BadDeclaration,
    ),
    (
        "native f = a\nmodule A where\n",
        1,
        FaultKind::BadDeclaration,
    ),
    (
        "native f : a\ndevice p Int\nmodule A where\n",
        2,
        FaultKind::BadDeclaration,
    ),
    (
        "native f : a\nopaque\nmodule A where\n",
        2,
        FaultKind::BadDeclaration,
    ),
    ("opaque T\nmodule a where\n", 2, FaultKind::BadHeader),
    (
        "opaque T\nmodule A where\nx =\n",
        3,
        FaultKind::BadDeclaration,
    ),
    (
        "opaque T\nmodule A where\nx = \u{e4}\n",
        3,
        FaultKind::BadChar,
    ),
];

fn fault_of(alloc: Global, sources: &[Source]) -> Option<(u32, FaultKind)> {
    match read(alloc, sources) {
        Err(Halt::Because(ProjectFault { line, kind, .. })) => Some((line, kind)),
        _ => None,
    }
}

#[test]
fn the_first_fault_is_told(rt: HostRuntime) {
    for (text, line, kind) in ROWS {
        let good = Source {
            name: "First",
            text: "module First where\n",
        };
        let bad = Source { name: "A", text };
        let found = fault_of(rt.alloc(), &[good, bad]);
        same(&rt, found, Some((line, kind)), text);
    }
}
