//! Modules, and the places at which a case is missing.
use crate::project::typed;
use crate::same;
use case_check::warnings;
use elm_base::{Project, Resolved, Warning};
use layout_lexer::tokens;
use module_parser::module;
use module_scope::resolve;
use sqlite_items::Items;
use std::alloc::{AllocError, Global};
use std::fmt::Write;
use std::test::Fail;

/// The unions, in the first six lines of each module.
const TYPES: &str =
    "type Bool = True | False\ntype Maybe a = Just a | Nothing\ntype Color = Red | Green | Blue\ntype Pair a b = Both a b\ntype Tree a = Leaf | Node a a a\ntype Either a b = Left a | Right b\n";

/// What stands behind them from line 7 on, and the line and column of each warning.
const ROWS: [(&str, &str); 16] = [
    (
        "f m = case m of\n  Nothing -> 0\n  Just [] -> 1\n  Just (x :: []) -> x",
        "7:7;",
    ),
    (
        "f x = case x of\n  (True, _) -> 1\n  (_, False) -> 2",
        "7:7;",
    ),
    (
        "f x = case x of\n  (True, _) -> 1\n  (_, False) -> 2\n  (False, True) -> 3",
        "",
    ),
    ("f x = x", ""),
    ("f (x, y) = x", ""),
    ("f (Just x) = x", "7:3;"),
    ("f x (Just y) True = x", "7:5;7:14;"),
    ("f = \\True (x, False) -> x", "7:6;7:11;"),
    ("f z = let (Just x, y) = z in x", "7:11;"),
    ("f z = let (x, y) = z in x", ""),
    ("f z = let g True = z in g", "7:13;"),
    (
        "f m =\n  case m of\n    True ->\n      case m of\n        True -> 1",
        "8:3;10:7;",
    ),
    ("f m = case (case m of\n   True -> m) of\n  x -> x", "7:13;"),
    (
        "f m = if m then g else case m of\n  True -> 1\ng True = 1",
        "7:24;9:3;",
    ),
    (
        "f m = [\\Red -> 1, \\x -> case x of\n  Red -> 2]",
        "7:9;7:25;",
    ),
    ("f m = case m of\n  Red -> 1\n  Blue -> 2\n  Green -> 3", ""),
];

fn put(warnings: &[Warning], out: &mut String) -> Result<(), AllocError> {
    for warning in warnings {
        let line = warning.line;
        let column = warning.column;
        write!(out, "{line}:{column};")?;
    }
    Ok(())
}

fn resolved(alloc: Global, text: &str) -> Result<Resolved, Fail> {
    let mut whole = String::from_str(alloc, TYPES)?;
    whole.push_str(text)?;
    let cut = tokens(alloc, whole.as_bytes())?;
    let mut modules = Items::new(alloc);
    modules.push(module(alloc, cut.as_slice())?)?;
    Ok(resolve(alloc, Project { modules })?)
}

fn warned(alloc: Global, text: &str) -> Result<String, Fail> {
    let resolved = resolved(alloc, text)?;
    let typed = typed(alloc, resolved)?;
    let mut out = String::new(alloc);
    let found = warnings(alloc, &typed)?;
    put(found.as_slice(), &mut out)?;
    Ok(out)
}

#[test]
fn warnings_stand_where_cases_are_missing(rt: HostRuntime) -> Result<(), Fail> {
    for (text, wanted) in ROWS {
        let shown = warned(rt.alloc(), text)?;
        same(&rt, shown.as_str(), wanted, text);
    }
    Ok(())
}
