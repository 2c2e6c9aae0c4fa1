//! What a project declares, as a text: each type that is a part stands in square brackets.
use elm_base::{AliasOf, Decls, Name, NoMemory, PortOf, Spot, TypeTree, UnionOf};
use frame_text::write_type;
use sqlite_items::Items;
use std::alloc::{AllocError, Global};
use std::fmt::Write;
use std::str;

pub fn put_name(text: &mut String, name: &Name) -> Result<(), AllocError> {
    text.push_str(str::from_utf8(name.bytes()).unwrap_or("?"))
}

fn put_names(text: &mut String, names: &[Name]) -> Result<(), AllocError> {
    for name in names {
        text.push_str(" ")?;
        put_name(text, name)?;
    }
    Ok(())
}

fn put_before(text: &mut String, before: &Option<Spot>) -> Result<(), AllocError> {
    match before {
        None => text.push_str("record"),
        Some(spot) => put_name(text, &spot.name),
    }
}

#[cycle(shown)]
fn put_type(text: &mut String, tree: &TypeTree) -> Result<(), AllocError> {
    match tree {
        TypeTree::Variable { name, .. } => put_name(text, name),
        TypeTree::Named {
            name,
            arguments,
            ..
        } => {
            put_name(text, name)?;
            put_parts(text, arguments.as_slice())
        }
        TypeTree::Arrow { from, to, .. } => {
            text.push_str("function")?;
            put_part(text, from.get())?;
            put_part(text, to.get())
        }
        TypeTree::Unit { .. } => text.push_str("unit"),
        TypeTree::Tuple { parts, .. } => {
            text.push_str("tuple")?;
            put_parts(text, parts.as_slice())
        }
        TypeTree::Brackets { inner, .. } => {
            text.push_str("brackets")?;
            put_part(text, inner.get())
        }
        TypeTree::Fields { before, fields, .. } => {
            put_before(text, before)?;
            put_fields(text, fields.as_slice())
        }
    }
}

#[cycle(shown)]
fn put_part(text: &mut String, tree: &TypeTree) -> Result<(), AllocError> {
    text.push_str("[")?;
    put_type(text, tree)?;
    text.push_str("]")
}

#[cycle(shown)]
fn put_parts(text: &mut String, trees: &[TypeTree]) -> Result<(), AllocError> {
    for tree in trees {
        put_part(text, tree)?;
    }
    Ok(())
}

#[cycle(shown)]
fn put_fields(text: &mut String, fields: &[(Spot, TypeTree)]) -> Result<(), AllocError> {
    for (label, tree) in fields {
        text.push_str(" ")?;
        put_name(text, &label.name)?;
        put_part(text, tree)?;
    }
    Ok(())
}

fn put_head(
    text: &mut String,
    module: &Name,
    name: &Name,
    parameters: &[Name],
) -> Result<(), AllocError> {
    put_name(text, module)?;
    text.push_str(".")?;
    put_name(text, name)?;
    put_names(text, parameters)
}

fn put_constructors(
    text: &mut String,
    constructors: &[(Name, Items<TypeTree>)],
) -> Result<(), AllocError> {
    for (name, arguments) in constructors {
        text.push_str(" | ")?;
        put_name(text, name)?;
        put_parts(text, arguments.as_slice())?;
    }
    text.push_str("; ")
}

fn put_union(text: &mut String, union: &UnionOf) -> Result<(), AllocError> {
    put_head(
        text,
        &union.module,
        &union.name,
        union.parameters.as_slice(),
    )?;
    put_constructors(text, union.constructors.as_slice())
}

fn put_alias(text: &mut String, alias: &AliasOf) -> Result<(), AllocError> {
    put_head(
        text,
        &alias.module,
        &alias.name,
        alias.parameters.as_slice(),
    )?;
    text.push_str(" = ")?;
    put_type(text, &alias.written)?;
    text.push_str("; ")
}

fn put_port(alloc: Global, text: &mut String, port: &PortOf) -> Result<(), NoMemory> {
    let way = if port.inbound { "in" } else { "out" };
    let line = port.line;
    write!(text, "{way} {line} ")?;
    put_name(text, &port.name)?;
    let mut carried = Vec::new(alloc);
    write_type(alloc, &port.port, &mut carried)?;
    text.push_str(" : ")?;
    text.push_str(str::from_utf8(&carried).unwrap_or("?"))?;
    text.push_str("; ")?;
    Ok(())
}

/// Whether a module belongs to the part of the library that each project of the tests has.
fn is_library(module: &Name) -> bool {
    module.is(b"Basics") || module.is(b"Maybe") || module.is(b"Signal")
}

/// The unions of all modules, or of those alone that aren't of the library.
pub fn put_unions(text: &mut String, unions: &[UnionOf], all: bool) -> Result<(), AllocError> {
    for union in unions {
        if all || !is_library(&union.module) {
            put_union(text, union)?;
        }
    }
    Ok(())
}

fn put_aliases(text: &mut String, aliases: &[AliasOf]) -> Result<(), AllocError> {
    for alias in aliases {
        put_alias(text, alias)?;
    }
    Ok(())
}

fn put_ports(alloc: Global, text: &mut String, ports: &[PortOf]) -> Result<(), NoMemory> {
    for port in ports {
        put_port(alloc, text, port)?;
    }
    Ok(())
}

/// Unions, aliases, ports.
pub fn put_decls(
    alloc: Global,
    text: &mut String,
    decls: &Decls,
    all: bool,
) -> Result<(), NoMemory> {
    put_unions(text, decls.unions.as_slice(), all)?;
    put_aliases(text, decls.aliases.as_slice())?;
    put_ports(alloc, text, decls.ports.as_slice())
}
