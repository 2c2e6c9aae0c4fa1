use crate::show::written;
use std::alloc::{AllocError, Global};
use std::test::Fail;

/// A text with a part that stands some times before its middle, and as often, perhaps as another, behind it.
#[derive(Clone, Copy)]
struct Form {
    first: &'static str,
    front: &'static str,
    middle: &'static str,
    back: &'static str,
    last: &'static str,
}

fn text(alloc: Global, form: &Form, times: usize) -> Result<String, AllocError> {
    let mut text = String::from_str(alloc, form.first)?;
    for _ in 0..times {
        text.push_str(form.front)?;
    }
    text.push_str(form.middle)?;
    for _ in 0..times {
        text.push_str(form.back)?;
    }
    text.push_str(form.last)?;
    Ok(text)
}

/// A text whose parts stand side by side or inside each other.
fn shape(
    first: &'static str,
    front: &'static str,
    middle: &'static str,
    back: &'static str,
    last: &'static str,
) -> Form {
    Form {
        first,
        front,
        middle,
        back,
        last,
    }
}

#[test]
fn declarations_nest_at_most_100_deep(rt: HostRuntime) -> Result<(), Fail> {
    let rows = [
        (shape("f = ", "(", "1", ")", ""), 100),
        (shape("f a = ", "(", "1", ")", ""), 99),
        (shape("f ", "(", "a", ")", " = 1"), 100),
        (shape("f : ", "(", "A", ")", "\nf = 1"), 100),
        (shape("type alias T = ", "(", "A", ")", ""), 100),
        (shape("type T = A | B ", "(", "A", ")", ""), 100),
        (shape("port x : ", "(", "A", ")", ""), 100),
        (shape("port x : A\nport x =", "(", "1", ")", ""), 100),
    ];
    for (form, most) in &rows {
        let first = form.first;
        let deepest = written(rt.alloc(), text(rt.alloc(), form, *most)?.as_str())?;
        assert!(rt; deepest.as_str().starts_with("1:1 Main"), "{first}");
        let deeper = text(rt.alloc(), form, most.saturating_add(1))?;
        let found = written(rt.alloc(), deeper.as_str())?;
        assert!(rt; found.as_str().ends_with("BadDeclaration"), "{first}");
    }
    Ok(())
}

/// Whether the text of the form has a tree, where the part stands so often; and else its fault.
fn outcome(alloc: Global, form: &Form, times: usize) -> Result<String, AllocError> {
    let text = text(alloc, form, times)?;
    let found = written(alloc, text.as_str())?;
    if found.as_str().starts_with("1:1 Main") {
        String::from_str(alloc, "a tree")
    } else {
        Ok(found)
    }
}

#[test]
fn blocks_have_at_most_5000_definitions(rt: HostRuntime) -> Result<(), Fail> {
    let rows = [
        (shape("", "f = 1\n", "", "", ""), 5000, "a tree"),
        (shape("", "f = 1\n", "", "", ""), 5001, "5001 TooLarge"),
        (
            shape("", "f = 1\n", "f = =", "", ""),
            5000,
            "5001 BadDeclaration",
        ),
        (
            shape("", "f = 1\n", "type T = A\ninfix 1 +\nport x : A", "", ""),
            5000,
            "a tree",
        ),
        (
            shape("", "f = 1\n", "port x : A\nport x = 1", "", ""),
            5000,
            "5002 TooLarge",
        ),
        (shape("", "f : A\nf = 1\n", "", "", ""), 5000, "a tree"),
        (
            shape("", "f : A\nf = 1\n", "", "", ""),
            5001,
            "10002 TooLarge",
        ),
        (
            shape("f = let\n", "  a = 1\n", "", "", " in a"),
            5000,
            "a tree",
        ),
        (
            shape("f = let\n", "  a = 1\n", "", "", " in a\ng = ="),
            5001,
            "5002 TooLarge",
        ),
        (
            shape("f = let\n", "  a = 1\n", "", "", " in ="),
            5001,
            "1 BadDeclaration",
        ),
        (
            shape(
                "f = g (let\n",
                "  (a, b) = c\n",
                "  d = let\n",
                "        a = 1\n",
                "   in a\n in a)",
            ),
            5001,
            "5002 TooLarge",
        ),
        (
            shape(
                "f = let\n  a = let\n",
                "       (b, c) = d\n",
                "     in b\n",
                "  a = 1\n",
                " in a",
            ),
            5001,
            "5003 TooLarge",
        ),
    ];
    for (form, times, wanted) in &rows {
        let first = form.first;
        let found = outcome(rt.alloc(), form, *times)?;
        assert_eq!(rt; found.as_str(), *wanted, "{first} {times}");
    }
    Ok(())
}
