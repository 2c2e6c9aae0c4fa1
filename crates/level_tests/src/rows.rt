use crate::show::written;
use std::test::Fail;

/// Chains in each form, and one without a tree.
const FORMS: [(&str, &str); 36] = [
    ("main = 1 + 2 * 3", "main = (1 + (2 * 3)); "),
    ("x = 1\nmain = 1 == 2 == 3", "Main 2 BadFixity main"),
    ("f = a * b + c", "f = ((a * b) + c); "),
    ("f = a - b - c", "f = ((a - b) - c); "),
    ("f = a :: b :: c", "f = (a :: (b :: c)); "),
    ("f = g << h >> i", "Main 1 BadFixity f"),
    ("f = a", "f = a; "),
    ("f = a `g` b `h` c", "f = ((a g b) h c); "),
    ("f = a - -b", "f = (a - -b); "),
    ("f = -a + b", "f = (-a + b); "),
    ("f = a -b", "f = (a - b); "),
    ("f = a + (b * c + d)", "f = (a + [((b * c) + d)]); "),
    ("f = (a == b) == c", "f = ([(a == b)] == c); "),
    ("f = a + (b == c == d)", "Main 1 BadFixity f"),
    ("f = g (a + b) * c", "f = (g [(a + b)] * c); "),
    ("f = \\x -> x + y * z", "f = \\(x + (y * z)); "),
    ("f = a + \\x -> x == y == z", "Main 1 BadFixity f"),
    ("f = [a + b, c * d]", "f =  (a + b) (c * d); "),
    ("f = [a + b, c == d == e]", "Main 1 BadFixity f"),
    ("f = (a + b, c)", "f =  (a + b) c; "),
    ("f = [a + b .. c - d]", "f = (a + b)..(c - d); "),
    ("f = (a + b).x", "f = [(a + b)].x; "),
    ("f = -(a + b)", "f = -[(a + b)]; "),
    ("f = { x = a + b }", "f =  (a + b); "),
    ("f = { (a + b) | x = c + d }", "f = [(a + b)] (c + d); "),
    ("f = { a | x <- c == d == e }", "Main 1 BadFixity f"),
    ("f = { a - x | x = c + d }", "f = a (c + d); "),
    (
        "f = if a + b then c + d else e + g",
        "f = (a + b)?(c + d):(e + g); ",
    ),
    (
        "f = if | a < b -> c + d | e -> g",
        "f = |(a < b)->(c + d)|e->g; ",
    ),
    ("f = if | a < b < c -> d", "Main 1 BadFixity f"),
    (
        "f =\n  let a = b + c * d\n      (e, g) = h - i\n  in a + e",
        "f = a = (b + (c * d)); _ = (h - i); in (a + e); ",
    ),
    (
        "x = 1\nf =\n  let a =\n        b == c == d\n  in a",
        "Main 2 BadFixity f",
    ),
    (
        "f = case a + b of\n  c -> d + e\n  _ -> g",
        "f = (a + b)->(d + e)->g; ",
    ),
    ("f = case a of\n  c -> d == e == g", "Main 1 BadFixity f"),
    ("port x : A\nport x = a + b", "x = (a + b); "),
    ("port x : A\nport x = a == b == c", "Main 2 BadFixity x"),
];

/// Declared levels, over several modules.
const LEVELS: [(&[&str], &str); 22] = [
    (&["infixl 1 +++\nf = a +++ b * c"], "f = (a +++ (b * c)); "),
    (&["f = a +++ b * c"], "f = ((a +++ b) * c); "),
    (&["infixr 4 `g`\nf = a `g` b `g` c"], "f = (a g (b g c)); "),
    (&["infix 4 `g`\nf = a `g` b `g` c"], "Main 2 BadFixity f"),
    (&["infix 4 `A.g`\nf = a `g` b `g` c"], "f = ((a g b) g c); "),
    (
        &["f = a +++ b * c", "module B where\ninfixl 1 +++"],
        "f = (a +++ (b * c)); ",
    ),
    (
        &["infixl 1 +++\ninfixl 1 +++\nf = a +++ b * c"],
        "f = (a +++ (b * c)); ",
    ),
    (&["infixl 1 +++\ninfixl 2 +++"], "Main 2 BadFixity +++"),
    (&["infixl 1 +++\ninfixr 1 +++"], "Main 2 BadFixity +++"),
    (
        &["infix 1 +++\ninfixr 1 +++\ninfix 1 +++"],
        "Main 2 BadFixity +++",
    ),
    (&["infixl 6 +\nf = a + b"], "f = (a + b); "),
    (&["x = 1\ninfixl 7 +"], "Main 2 BadFixity +"),
    (&["infixr 6 +"], "Main 1 BadFixity +"),
    (
        &["module A where\ninfixl 1 `g`", "infixl 1 `g`\ninfixl 2 `g`"],
        "Main 2 BadFixity g",
    ),
    (
        &["module A where\ninfixl 2 `g`", "infixl 1 `g`"],
        "Main 1 BadFixity g",
    ),
    // The first fault by place, of both kinds.
    (&["f = a == b == c\ninfixl 7 +"], "Main 1 BadFixity f"),
    (&["infixl 7 +\nf = a == b == c"], "Main 1 BadFixity +"),
    (&["f = a == b == c\ng = a == b == c"], "Main 1 BadFixity f"),
    (
        &["module A where\nf = a == b == c", "infixl 7 +"],
        "A 2 BadFixity f",
    ),
    (
        &["module A where\nx = 1", "f = a == b == c"],
        "Main 1 BadFixity f",
    ),
    // A chain before the fault goes by the first declaration.
    (
        &["f = a +++ b +++ c\ninfixl 1 +++\ninfix 1 +++"],
        "Main 3 BadFixity +++",
    ),
    (
        &["f = a +++ b +++ c\ninfix 1 +++\ninfixl 1 +++"],
        "Main 1 BadFixity f",
    ),
];

#[test]
fn chains_give_their_places_to_their_trees(rt: HostRuntime) -> Result<(), Fail> {
    for (text, wanted) in FORMS {
        let found = written(rt.alloc(), &[text])?;
        assert_eq!(rt; found.as_str(), wanted, "{text}");
    }
    Ok(())
}

#[test]
fn declared_levels_count_in_the_whole_project(rt: HostRuntime) -> Result<(), Fail> {
    for (texts, wanted) in LEVELS {
        let found = written(rt.alloc(), texts)?;
        assert_eq!(rt; found.as_str(), wanted, "{wanted}");
    }
    Ok(())
}
