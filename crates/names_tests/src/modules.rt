//! Small modules by hand.
use elm_base::{
    At, Constructor, Constructors, Declaration, Exposing, Expr, Import, Item, Module, Name,
    NoMemory, Spot,
};
use expr_parser::expr;
use layout_lexer::tokens;
use sqlite_items::Items;
use std::alloc::Global;
use std::mem::swap;
use std::str::SplitWhitespace;
use std::test::Fail;

fn first_line() -> At {
    At { line: 1, column: 1 }
}

fn name_of(alloc: Global, text: &str) -> Result<Name, NoMemory> {
    Name::of(alloc, text.as_bytes())
}

/// What the definitions of a `let` are taken from.
trait Defines {
    fn move_definitions(&mut self, out: &mut Items<Declaration>);
}

impl Defines for Expr {
    fn move_definitions(&mut self, out: &mut Items<Declaration>) {
        if let Expr::Let { definitions, .. } = self {
            swap(definitions, out);
        }
    }
}

fn move_from<T: Defines + Drop>(tree: T, out: &mut Items<Declaration>) {
    let mut tree = tree;
    tree.move_definitions(out);
}

/// The definitions of a `let`, in place of those that are there; none of another text.
fn put_definitions(alloc: Global, text: &str, out: &mut Items<Declaration>) -> Result<(), Fail> {
    let read = tokens(alloc, text.as_bytes())?;
    move_from(expr(alloc, read.as_slice())?, out);
    Ok(())
}

fn push_constructor(
    alloc: Global,
    name: &str,
    out: &mut Items<Constructor>,
) -> Result<(), NoMemory> {
    let name = name_of(alloc, name)?;
    out.push(Constructor {
        at: first_line(),
        name,
        arguments: Items::new(alloc),
    })?;
    Ok(())
}

fn push_constructors(
    alloc: Global,
    words: SplitWhitespace<'_>,
    out: &mut Items<Constructor>,
) -> Result<(), NoMemory> {
    for word in words {
        push_constructor(alloc, word, out)?;
    }
    Ok(())
}

/// A union, in line 1, whose name stands before those of its constructors.
fn push_union(alloc: Global, text: &str, out: &mut Items<Declaration>) -> Result<(), NoMemory> {
    let at = first_line();
    let mut words = text.split_whitespace();
    let name = name_of(alloc, words.next().unwrap_or("T"))?;
    let mut constructors = Items::new(alloc);
    push_constructors(alloc, words, &mut constructors)?;
    out.push(Declaration::Union {
        at,
        name: Spot { at, name },
        parameters: Items::new(alloc),
        constructors,
    })?;
    Ok(())
}

/// An entry of a list of exposed names: `x`, `T` or `T(..)`.
fn item(name: Name, all: bool) -> Item {
    let at = first_line();
    let constructors = if all {
        Constructors::All
    } else {
        Constructors::Hidden
    };
    match name.bytes() {
        [b'A'..=b'Z', ..] => Item::Named {
            at,
            name,
            constructors,
        },
        _ => Item::Value { at, name },
    }
}

fn push_entry(alloc: Global, entry: &str, out: &mut Items<Item>) -> Result<(), NoMemory> {
    let all = entry.ends_with("(..)");
    let name = name_of(alloc, entry.strip_suffix("(..)").unwrap_or(entry))?;
    out.push(item(name, all))?;
    Ok(())
}

fn entries_of(alloc: Global, entries: &str) -> Result<Items<Item>, NoMemory> {
    let mut items = Items::new(alloc);
    for entry in entries.split_whitespace() {
        push_entry(alloc, entry, &mut items)?;
    }
    Ok(items)
}

/// The entries between spaces; `..` stands for all.
fn exposing(alloc: Global, entries: &str) -> Result<Exposing, NoMemory> {
    if entries == ".." {
        return Ok(Exposing::All);
    }
    let items = entries_of(alloc, entries)?;
    Ok(Exposing::Items(items))
}

/// The entries of an import; `-` stands for none.
fn exposes_of(alloc: Global, entries: &str) -> Result<Option<Exposing>, NoMemory> {
    if entries == "-" {
        return Ok(None);
    }
    let exposes = exposing(alloc, entries)?;
    Ok(Some(exposes))
}

fn alias_of(alloc: Global, word: Option<&str>) -> Result<Option<Name>, NoMemory> {
    match word {
        None => Ok(None),
        Some(word) => Ok(Some(name_of(alloc, word)?)),
    }
}

/// An import: the module, its alias, and behind a colon the entries. `-` is no alias, and no entries.
fn push_import(alloc: Global, text: &str, out: &mut Items<Import>) -> Result<(), NoMemory> {
    let (front, entries) = text.split_once(':').unwrap_or((text, "-"));
    let mut words = front.split_whitespace();
    let module = name_of(alloc, words.next().unwrap_or("A"))?;
    let alias = alias_of(alloc, words.next())?;
    let exposes = exposes_of(alloc, entries)?;
    out.push(Import {
        at: first_line(),
        module,
        alias,
        exposes,
    })?;
    Ok(())
}

/// Imports with semicolons between them.
fn push_imports(alloc: Global, text: &str, out: &mut Items<Import>) -> Result<(), NoMemory> {
    if !text.is_empty() {
        for import in text.split(';') {
            push_import(alloc, import, out)?;
        }
    }
    Ok(())
}

/// A module as a test writes it: its name, its entries, its imports, the `let` of its definitions, and its union.
#[derive(Clone, Copy)]
pub struct Sketch<'a> {
    pub name: &'a str,
    pub entries: &'a str,
    pub imports: &'a str,
    pub text: &'a str,
    pub union: &'a str,
}

/// A module without anything.
pub fn empty_module(alloc: Global) -> Result<Module, NoMemory> {
    Ok(Module {
        at: first_line(),
        name: name_of(alloc, "")?,
        exposes: Exposing::All,
        imports: Items::new(alloc),
        declarations: Items::new(alloc),
    })
}

/// Makes the module from its sketch.
pub fn fill(alloc: Global, sketch: Sketch<'_>, module: &mut Module) -> Result<(), Fail> {
    module.name = name_of(alloc, sketch.name)?;
    module.exposes = exposing(alloc, sketch.entries)?;
    push_imports(alloc, sketch.imports, &mut module.imports)?;
    put_definitions(alloc, sketch.text, &mut module.declarations)?;
    if !sketch.union.is_empty() {
        push_union(alloc, sketch.union, &mut module.declarations)?;
    }
    Ok(())
}
