//! Lists of patterns, and what is missing in each. The answers were checked by enumerating small values.
use crate::project::{module_name, project, push_meanings};
use crate::same;
use crate::show::put_skeleton;
use case_check::{Skeleton, missing};
use elm_base::{Name, Pattern, Typed};
use layout_lexer::tokens;
use pattern_parser::pattern;
use std::alloc::{AllocError, Global};
use std::process::Abort;
use std::test::Fail;

const ROWS: [(&str, &str); 62] = [
    ("[True]", "False"),
    ("[True, False]", "none"),
    ("[True, True]", "False"),
    ("[_]", "none"),
    ("[x]", "none"),
    ("[True, x]", "none"),
    ("[False as y, True]", "none"),
    ("[(True), (False)]", "none"),
    ("[Red, Blue]", "Green"),
    ("[Red, Green, Blue]", "none"),
    ("[Blue, Red, Blue, Green, Red]", "none"),
    ("[Nothing]", "(Just _)"),
    ("[Just _]", "Nothing"),
    ("[Just True, Nothing]", "(Just False)"),
    ("[Just True, Nothing, Just False]", "none"),
    ("[Just (Just _), Nothing]", "(Just Nothing)"),
    (
        "[Just (Just True), Just Nothing, Nothing]",
        "(Just (Just False))",
    ),
    ("[Just (Just x as y), Just Nothing, Nothing]", "none"),
    ("[(True, _), (_, False)]", "(() False True)"),
    ("[(True, _), (_, False), (False, True)]", "none"),
    ("[(True, True), (False, False)]", "(() False True)"),
    ("[(_, True), (_, False)]", "none"),
    ("[(a, b)]", "none"),
    (
        "[(Red, True), (Green, _), (_, False), (Blue, True)]",
        "none",
    ),
    ("[(Red, True), (Green, _), (_, False)]", "(() Blue True)"),
    (
        "[(Red, Red), (Green, Green), (Blue, Blue)]",
        "(() Green Red)",
    ),
    ("[()]", "none"),
    ("[((), True)]", "(() _ False)"),
    ("[0]", "*"),
    ("[0, 1, 2]", "*"),
    ("[0, _]", "none"),
    ("['a']", "*"),
    ("['a', x]", "none"),
    ("[\"a\", \"b\"]", "*"),
    ("[\"a\", x as y]", "none"),
    ("[(0, True), (_, False)]", "(() * True)"),
    ("[(0, True), (1, True), (x, _)]", "none"),
    ("[(0, 1), (1, _)]", "(() * _)"),
    ("[Just 0, Just _]", "Nothing"),
    ("[[]]", "(:: _ _)"),
    ("[x :: xs]", "[]"),
    ("[[], x :: xs]", "none"),
    ("[[], [_], [_, _]]", "(:: _ (:: _ (:: _ _)))"),
    ("[[], [_], _ :: _ :: _]", "none"),
    ("[[], [_], [_, _], x :: y :: z :: rest]", "none"),
    ("[[], [True], [_, _], x :: y :: z :: rest]", "(:: False [])"),
    (
        "[[], True :: _, [False], False :: True :: _, False :: False :: []]",
        "(:: False (:: False (:: _ _)))",
    ),
    ("[True :: xs, []]", "(:: False _)"),
    (
        "[Nothing, Just [], Just (x :: [])]",
        "(Just (:: _ (:: _ _)))",
    ),
    ("[Nothing, Just [], Just (x :: _)]", "none"),
    ("[{ x, y }]", "none"),
    ("[(True, { x }), (False, _)]", "none"),
    ("[(True, { x })]", "(() False _)"),
    ("[Left True, Right False]", "(Left False)"),
    ("[Left True, Left False, Right x]", "none"),
    ("[Both True _, Both _ True]", "(Both False False)"),
    ("[Both True _, Both _ True, Both False False]", "none"),
    ("[Leaf, Node Leaf _ Leaf]", "(Node (Node _ _ _) _ _)"),
    (
        "[Leaf, Node Leaf True _, Node _ False _, Node (Node _ _ _) True Leaf]",
        "(Node (Node _ _ _) True (Node _ _ _))",
    ),
    ("[Leaf, Node _ _ Leaf, Node _ _ (Node _ _ _)]", "none"),
    ("[Just _, Nothing]", "none"),
    ("[Nothing]", "(Just _)"),
];

// 30 rows over eight Bools that leave nothing, and 100 texts.
const LONG: [(&str, &str); 2] = [
    (
        "[(True, False, False, _, _, _, False, False), (_, _, _, False, False, True, True, True), (_, _, _, False, True, True, True, True), (_, True, True, _, False, _, True, False), (False, True, _, _, False, _, False, False), (False, False, True, _, _, _, False, True), (False, False, False, _, _, _, False, True), (_, _, _, False, True, False, True, True), (_, _, True, True, True, _, True, False), (False, True, _, True, _, _, False, True), (True, False, True, _, _, True, False, _), (False, False, _, _, True, _, False, False), (True, False, True, _, _, False, False, _), (False, False, _, _, False, _, False, False), (_, True, False, _, _, True, True, False), (_, False, False, _, _, True, True, False), (False, _, _, True, False, _, True, True), (True, _, _, True, _, _, True, True), (True, False, False, _, _, _, False, True), (False, _, _, True, True, _, True, True), (_, _, True, False, True, _, True, False), (True, True, _, _, True, _, False, False), (_, _, False, False, _, False, True, False), (True, True, _, _, _, _, False, True), (True, True, _, _, False, _, False, False), (_, _, _, False, False, False, True, True), (False, True, _, _, True, _, False, False), (False, True, _, False, _, _, False, True), (_, False, True, _, False, _, True, False), (_, _, False, True, _, False, True, False)]",
        "none",
    ),
    (
        "[\"w0\", \"w1\", \"w2\", \"w3\", \"w4\", \"w5\", \"w6\", \"w7\", \"w8\", \"w9\", \"w10\", \"w11\", \"w12\", \"w13\", \"w14\", \"w15\", \"w16\", \"w17\", \"w18\", \"w19\", \"w20\", \"w21\", \"w22\", \"w23\", \"w24\", \"w25\", \"w26\", \"w27\", \"w28\", \"w29\", \"w30\", \"w31\", \"w32\", \"w33\", \"w34\", \"w35\", \"w36\", \"w37\", \"w38\", \"w39\", \"w40\", \"w41\", \"w42\", \"w43\", \"w44\", \"w45\", \"w46\", \"w47\", \"w48\", \"w49\", \"w50\", \"w51\", \"w52\", \"w53\", \"w54\", \"w55\", \"w56\", \"w57\", \"w58\", \"w59\", \"w60\", \"w61\", \"w62\", \"w63\", \"w64\", \"w65\", \"w66\", \"w67\", \"w68\", \"w69\", \"w70\", \"w71\", \"w72\", \"w73\", \"w74\", \"w75\", \"w76\", \"w77\", \"w78\", \"w79\", \"w80\", \"w81\", \"w82\", \"w83\", \"w84\", \"w85\", \"w86\", \"w87\", \"w88\", \"w89\", \"w90\", \"w91\", \"w92\", \"w93\", \"w94\", \"w95\", \"w96\", \"w97\", \"w98\", \"w99\"]",
        "*",
    ),
];

fn put_found(text: &mut String, found: &Option<Skeleton>) -> Result<(), AllocError> {
    match found {
        None => text.push_str("none"),
        Some(skeleton) => put_skeleton(text, skeleton),
    }
}

fn put_missing(
    alloc: Global,
    typed: &Typed,
    module: &Name,
    tree: &Pattern,
    out: &mut String,
) -> Result<(), Fail> {
    match tree {
        Pattern::List { parts, .. } => {
            let found = missing(alloc, typed, module, parts.as_slice())?;
            put_found(out, &found)?;
        }
        _ => out.push_str("no list")?,
    }
    Ok(())
}

// What is missing in the parts of a list pattern.
fn found(alloc: Global, text: &str) -> Result<String, Fail> {
    let cut = tokens(alloc, text.as_bytes())?;
    let tree = pattern(alloc, cut.as_slice())?;
    let mut typed = project(alloc)?;
    push_meanings(alloc, &tree, &mut typed.resolved.meanings)?;
    let module = module_name(alloc)?;
    let mut out = String::new(alloc);
    put_missing(alloc, &typed, &module, &tree, &mut out)?;
    Ok(out)
}

fn check_rows(rt: &impl Abort, alloc: Global, rows: &[(&str, &str)]) -> Result<(), Fail> {
    for (text, wanted) in rows {
        let shown = found(alloc, text)?;
        same(rt, shown.as_str(), *wanted, text);
    }
    Ok(())
}

#[test]
fn cases_are_missing(rt: HostRuntime) -> Result<(), Fail> {
    check_rows(&rt, rt.alloc(), &ROWS)
}

#[test]
fn long_lists_of_patterns(rt: HostRuntime) -> Result<(), Fail> {
    check_rows(&rt, rt.alloc(), &LONG)
}
