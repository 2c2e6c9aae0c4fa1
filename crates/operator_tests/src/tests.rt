use crate::same;
use elm_base::{At, Expr, Halt, Name, NoMemory, Operator, Side};
use operator_trees::{Binding, Clash, Levels, chain};
use sqlite_items::Items;
use std::alloc::{AllocError, Global};
use std::process::Abort;
use std::str;
use std::test::Fail;

/// An operator with its level and side.
type Declared = (&'static str, u32, Side);

/// What the language declares.
const TABLE: [Declared; 21] = [
    ("<<", 9, Side::Right),
    (">>", 9, Side::Left),
    ("*", 7, Side::Left),
    ("//", 7, Side::Left),
    ("%", 7, Side::Left),
    ("+", 6, Side::Left),
    ("-", 6, Side::Left),
    ("++", 5, Side::Right),
    ("::", 5, Side::Right),
    ("==", 4, Side::Neither),
    ("/=", 4, Side::Neither),
    ("<", 4, Side::Neither),
    (">", 4, Side::Neither),
    ("<=", 4, Side::Neither),
    (">=", 4, Side::Neither),
    ("<~", 4, Side::Left),
    ("~", 4, Side::Left),
    ("&&", 3, Side::Right),
    ("||", 2, Side::Right),
    ("|>", 0, Side::Left),
    ("<|", 0, Side::Right),
];

/// A tree as text: each operator with its sides in brackets, and the place of the whole before them.
fn write(out: &mut Vec<u8>, tree: &Expr) -> Result<(), AllocError> {
    match tree {
        Expr::Variable { name, .. } => out.extend_from_slice(name.bytes()),
        Expr::Binary {
            at,
            operator,
            left,
            right,
        } => {
            out.push(b'0'.wrapping_add(u8::try_from(at.column).unwrap_or(0)))?;
            out.push(b'(')?;
            write(out, left.get())?;
            out.push(b' ')?;
            out.extend_from_slice(operator.name.bytes())?;
            out.push(b' ')?;
            write(out, right.get())?;
            out.extend_from_slice(b")")
        }
        _ => out.extend_from_slice(b"?"),
    }
}

/// A tree that can be written.
trait Tree {
    fn put(&self, out: &mut Vec<u8>) -> Result<(), AllocError>;
}

impl Tree for Expr {
    fn put(&self, out: &mut Vec<u8>) -> Result<(), AllocError> {
        write(out, self)
    }
}

/// Writes the tree, or `Clash`.
fn put_found<T: Tree + Drop>(
    out: &mut Vec<u8>,
    found: Result<T, Halt<Clash>>,
) -> Result<(), NoMemory> {
    match found {
        Ok(tree) => tree.put(out)?,
        Err(Halt::Because(Clash)) => out.extend_from_slice(b"Clash")?,
        Err(Halt::NoMemory) => return Err(NoMemory),
    }
    Ok(())
}

fn declare(alloc: Global, declared: &[Declared], levels: &mut Levels) -> Result<(), NoMemory> {
    for (name, level, side) in declared {
        let binding = Binding {
            level: *level,
            side: *side,
        };
        levels.declare(Name::of(alloc, name.as_bytes())?, binding)?;
    }
    Ok(())
}

/// Operands stand in the odd columns.
fn put_word(
    alloc: Global,
    at: At,
    word: &str,
    operators: &mut Items<Operator>,
    operands: &mut Items<Expr>,
) -> Result<(), NoMemory> {
    let name = Name::of(alloc, word.as_bytes())?;
    if at.column % 2 == 1 {
        operands.push(Expr::Variable { at, name })?;
    } else {
        operators.push(Operator { at, name })?;
    }
    Ok(())
}

/// The words of a text of names with operators between them; they stand at columns 1, 2, 3 and so on.
fn put_words(
    alloc: Global,
    text: &str,
    operators: &mut Items<Operator>,
    operands: &mut Items<Expr>,
) -> Result<(), NoMemory> {
    let mut at = At { line: 1, column: 0 };
    for word in text.split(' ') {
        at.column = at.column.saturating_add(1);
        put_word(alloc, at, word, operators, operands)?;
    }
    Ok(())
}

/// Writes the tree of the text, or `Clash`.
fn put_tree(alloc: Global, levels: &Levels, text: &str, out: &mut Vec<u8>) -> Result<(), NoMemory> {
    let mut operators = Items::new(alloc);
    let mut operands = Items::new(alloc);
    put_words(alloc, text, &mut operators, &mut operands)?;
    let found = chain(alloc, levels, operators.as_slice(), operands);
    put_found(out, found)
}

/// The text has this tree.
fn check(
    rt: &impl Abort,
    alloc: Global,
    levels: &Levels,
    text: &str,
    wanted: &str,
) -> Result<(), NoMemory> {
    let mut out = Vec::new(alloc);
    put_tree(alloc, levels, text, &mut out)?;
    let found = str::from_utf8(out.as_slice()).unwrap_or("no text");
    same(rt, found, wanted, text);
    Ok(())
}

/// The texts have their trees, by what the language declares and these declarations.
fn check_rows(
    rt: &impl Abort,
    alloc: Global,
    declared: &[Declared],
    rows: &[(&str, &str)],
) -> Result<(), NoMemory> {
    let mut levels = Levels::new(alloc);
    declare(alloc, declared, &mut levels)?;
    for (text, wanted) in rows {
        check(rt, alloc, &levels, text, wanted)?;
    }
    Ok(())
}

/// What the language's own operators make.
const ROWS: [(&str, &str); 22] = [
    ("a", "a"),
    ("a + b", "1(a + b)"),
    ("a + b * c", "1(a + 3(b * c))"),
    ("a * b + c", "1(1(a * b) + c)"),
    ("a - b - c", "1(1(a - b) - c)"),
    ("a - b + c", "1(1(a - b) + c)"),
    ("a :: b :: c", "1(a :: 3(b :: c))"),
    ("a ++ b :: c", "1(a ++ 3(b :: c))"),
    ("a == b", "1(a == b)"),
    ("a == b == c", "Clash"),
    ("a == b /= c", "Clash"),
    ("a == b + c == d", "Clash"),
    ("a == b <~ c", "Clash"),
    ("a == b && c == d", "1(1(a == b) && 5(c == d))"),
    ("a && b == c == d && e", "Clash"),
    ("a || b && c || d", "1(a || 3(3(b && c) || d))"),
    ("f << g << h", "1(f << 3(g << h))"),
    ("f << g >> h", "Clash"),
    ("a |> f |> g", "1(1(a |> f) |> g)"),
    ("f <| g <| a", "1(f <| 3(g <| a))"),
    ("a |> f <| b", "Clash"),
    ("a f b g c", "1(1(a f b) g c)"),
];

#[test]
fn operators_stand_where_their_levels_put_them(rt: HostRuntime) -> Result<(), Fail> {
    check_rows(&rt, rt.alloc(), &[], &ROWS)?;
    Ok(())
}

/// What the two operators make of `a`, `b` and `c`, by their levels and sides.
fn expected(alloc: Global, first: &Declared, second: &Declared) -> Result<String, AllocError> {
    let (o, level, side) = *first;
    let (p, other, to) = *second;
    if other < level || level == other && side == Side::Left && to == Side::Left {
        format!(in alloc; "1(1(a {o} b) {p} c)")
    } else if level < other || side == Side::Right && to == Side::Right {
        format!(in alloc; "1(a {o} 3(b {p} c))")
    } else {
        String::from_str(alloc, "Clash")
    }
}

fn check_pair(
    rt: &impl Abort,
    alloc: Global,
    levels: &Levels,
    first: &Declared,
    second: &Declared,
) -> Result<(), NoMemory> {
    let (o, p) = (first.0, second.0);
    let text = format!(in alloc; "a {o} b {p} c")?;
    let wanted = expected(alloc, first, second)?;
    check(rt, alloc, levels, text.as_str(), wanted.as_str())
}

#[test]
fn each_pair_of_the_table(rt: HostRuntime) -> Result<(), Fail> {
    let levels = Levels::new(rt.alloc());
    for first in &TABLE {
        for second in &TABLE {
            check_pair(&rt, rt.alloc(), &levels, first, second)?;
        }
    }
    Ok(())
}

/// Operators of a program.
const DECLARED: [Declared; 5] = [
    ("<>", 5, Side::Right),
    ("?", 0, Side::Neither),
    ("f", 8, Side::Left),
    // What the language declares of an operator counts, and of two declarations the first.
    ("+", 1, Side::Right),
    ("<>", 5, Side::Left),
];

/// What they make beside the language's.
const BESIDE: [(&str, &str); 9] = [
    ("a <> b <> c", "1(a <> 3(b <> c))"),
    ("a ++ b <> c", "1(a ++ 3(b <> c))"),
    ("a ? b", "1(a ? b)"),
    ("a ? b ? c", "Clash"),
    ("a ? b |> c", "Clash"),
    ("a f b g c", "1(a f 3(b g c))"),
    ("a g b f c", "1(1(a g b) f c)"),
    ("a + b + c", "1(1(a + b) + c)"),
    ("a + b * c", "1(a + 3(b * c))"),
];

#[test]
fn declared_operators(rt: HostRuntime) -> Result<(), Fail> {
    check_rows(&rt, rt.alloc(), &DECLARED, &BESIDE)?;
    Ok(())
}
