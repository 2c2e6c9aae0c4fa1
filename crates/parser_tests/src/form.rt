//! Texts that nest, and how deep they may.
use crate::reading::{Reading, written};
use crate::same;
use std::alloc::{AllocError, Global};
use std::process::Abort;

/// A text that nests: what stands first, then `front` some times, `middle`, `back` as often, and what stands last.
#[derive(Clone, Copy)]
struct Form {
    first: &'static str,
    front: &'static str,
    middle: &'static str,
    back: &'static str,
    last: &'static str,
    /// How often the parts stand in the deepest tree that is accepted.
    most: usize,
}

impl Form {
    fn text(&self, alloc: Global, times: usize) -> Result<String, AllocError> {
        let mut text = String::from_str(alloc, self.first)?;
        for _ in 0..times {
            text.push_str(self.front)?;
        }
        text.push_str(self.middle)?;
        for _ in 0..times {
            text.push_str(self.back)?;
        }
        text.push_str(self.last)?;
        Ok(text)
    }

    fn has_tree(&self, alloc: Global, reading: Reading, times: usize) -> Result<bool, AllocError> {
        let text = self.text(alloc, times)?;
        let found = written(alloc, reading, text.as_str())?;
        Ok(found.as_str() != "NoTree")
    }

    // The form has a tree with as many parts as it may have, and none with one more or with far more.
    fn check(&self, rt: &impl Abort, alloc: Global, reading: Reading) -> Result<(), AllocError> {
        let more = self.most.saturating_add(1);
        for (times, wanted) in [(self.most, true), (more, false), (5000, false)] {
            let found = self.has_tree(alloc, reading, times)?;
            same(rt, (times, found), (times, wanted), self.front);
        }
        Ok(())
    }
}

/// Texts that nest round an `a`: what stands in front of it and behind it, and how often at most.
pub fn check_around(
    rt: &impl Abort,
    alloc: Global,
    reading: Reading,
    rows: &[(&'static str, &'static str, usize)],
) -> Result<(), AllocError> {
    for (front, back, most) in rows {
        let form = Form {
            first: "",
            front,
            middle: "a",
            back,
            last: "",
            most: *most,
        };
        form.check(rt, alloc, reading)?;
    }
    Ok(())
}

/// Texts whose parts stand side by side: what stands first, the part, what stands last, and how often the part may stand.
pub fn check_along(
    rt: &impl Abort,
    alloc: Global,
    reading: Reading,
    rows: &[(&'static str, &'static str, &'static str, usize)],
) -> Result<(), AllocError> {
    for (first, front, last, most) in rows {
        let form = Form {
            first,
            front,
            middle: "",
            back: "",
            last,
            most: *most,
        };
        form.check(rt, alloc, reading)?;
    }
    Ok(())
}
