//! What is written of a module: its parts in order, of types and expressions only how many there are.
use elm_base::{
    Constructor, Constructors, Declaration, Exposing, FaultKind, Halt, Import, Item, Module, Name,
    Side, Spot,
};
use layout_lexer::{TextFault, tokens};
use module_parser::module;
use std::alloc::{AllocError, Global};
use std::fmt::Write;
use std::str;

fn put_name(out: &mut String, name: &Name) -> Result<(), AllocError> {
    out.push_str(str::from_utf8(name.bytes()).unwrap_or("?"))
}

/// Names with a space before each.
fn put_spots(out: &mut String, spots: &[Spot]) -> Result<(), AllocError> {
    for spot in spots {
        out.push_str(" ")?;
        put_name(out, &spot.name)?;
    }
    Ok(())
}

fn put_item(out: &mut String, item: &Item) -> Result<(), AllocError> {
    match item {
        Item::Value { name, .. } => put_name(out, name),
        Item::Operator { name, .. } => {
            out.push_str("op ")?;
            put_name(out, name)
        }
        Item::Named {
            name,
            constructors,
            ..
        } => {
            put_name(out, name)?;
            match constructors {
                Constructors::Hidden => Ok(()),
                Constructors::All => out.push_str("(..)"),
                Constructors::Listed(listed) => {
                    out.push_str("(")?;
                    put_spots(out, listed.as_slice())?;
                    out.push_str(" )")
                }
            }
        }
    }
}

fn put_exposing(out: &mut String, exposes: &Exposing) -> Result<(), AllocError> {
    match exposes {
        Exposing::All => out.push_str(" (..)"),
        Exposing::Items(items) => {
            out.push_str(" (")?;
            for item in items.as_slice() {
                out.push_str(" ")?;
                put_item(out, item)?;
            }
            out.push_str(" )")
        }
    }
}

fn put_import(out: &mut String, import: &Import) -> Result<(), AllocError> {
    out.push_str("; import ")?;
    put_name(out, &import.module)?;
    if let Some(alias) = &import.alias {
        out.push_str(" as ")?;
        put_name(out, alias)?;
    }
    if let Some(exposes) = &import.exposes {
        put_exposing(out, exposes)?;
    }
    Ok(())
}

/// Each constructor with the number of its arguments.
fn put_constructors(out: &mut String, made: &[Constructor]) -> Result<(), AllocError> {
    for constructor in made {
        out.push_str(" | ")?;
        put_name(out, &constructor.name)?;
        let count = constructor.arguments.len();
        write!(out, "/{count}")?;
    }
    Ok(())
}

fn side_name(side: Side) -> &'static str {
    match side {
        Side::Left => "infixl",
        Side::Right => "infixr",
        Side::Neither => "infix",
    }
}

/// A definition with the number of its parameters.
fn put_declaration(out: &mut String, tree: &Declaration) -> Result<(), AllocError> {
    out.push_str("; ")?;
    match tree {
        Declaration::Union {
            name,
            parameters,
            constructors,
            ..
        } => {
            out.push_str("type ")?;
            put_name(out, &name.name)?;
            put_spots(out, parameters.as_slice())?;
            put_constructors(out, constructors.as_slice())
        }
        Declaration::Alias {
            name,
            parameters,
            ..
        } => {
            out.push_str("alias ")?;
            put_name(out, &name.name)?;
            put_spots(out, parameters.as_slice())
        }
        Declaration::Annotation { name, .. } => {
            put_name(out, name)?;
            out.push_str(" :")
        }
        Declaration::Definition { name, patterns, .. } => {
            put_name(out, name)?;
            let count = patterns.len();
            write!(out, "/{count}")
        }
        Declaration::PortAnnotation { name, .. } => {
            out.push_str("port ")?;
            put_name(out, &name.name)?;
            out.push_str(" :")
        }
        Declaration::PortDefinition { name, .. } => {
            out.push_str("port ")?;
            put_name(out, &name.name)?;
            out.push_str(" =")
        }
        Declaration::Levels {
            side,
            level,
            operator,
            ..
        } => {
            out.push_str(side_name(*side))?;
            write!(out, " {level} ")?;
            put_name(out, &operator.name)
        }
        _ => out.push_str("?"),
    }
}

fn put_module(out: &mut String, tree: &Module) -> Result<(), AllocError> {
    let line = tree.at.line;
    let column = tree.at.column;
    write!(out, "{line}:{column} ")?;
    put_name(out, &tree.name)?;
    put_exposing(out, &tree.exposes)?;
    for import in tree.imports.as_slice() {
        put_import(out, import)?;
    }
    for declaration in tree.declarations.as_slice() {
        put_declaration(out, declaration)?;
    }
    Ok(())
}

fn put_fault(out: &mut String, fault: TextFault) -> Result<(), AllocError> {
    let line = fault.line;
    let kind = match fault.kind {
        FaultKind::BadHeader => "BadHeader",
        FaultKind::BadDeclaration => "BadDeclaration",
        FaultKind::TooLarge => "TooLarge",
        _ => "?",
    };
    write!(out, "{line} {kind}")
}

/// The text's module, or its first fault.
pub fn written(alloc: Global, text: &str) -> Result<String, AllocError> {
    let mut out = String::new(alloc);
    match tokens(alloc, text.as_bytes()) {
        Err(_) => out.push_str("no tokens")?,
        Ok(found) => match module(alloc, found.as_slice()) {
            Ok(tree) => put_module(&mut out, &tree)?,
            Err(Halt::Because(fault)) => put_fault(&mut out, fault)?,
            Err(Halt::NoMemory) => out.push_str("out of memory")?,
        },
    }
    Ok(out)
}
