//! What is written of a project: its definitions, each operator with its sides in brackets.
use elm_base::{Declaration, Expr, FaultKind, Halt, Module, Name, Project, ProjectFault, Set};
use layout_lexer::tokens;
use level_fixer::fix;
use module_parser::module;
use sqlite_items::Items;
use std::alloc::{AllocError, Global};
use std::fmt::Write;
use std::str;

fn put_name(out: &mut String, name: &Name) -> Result<(), AllocError> {
    out.push_str(str::from_utf8(name.bytes()).unwrap_or("?"))
}

/// An expression: operators in `( )`, written brackets in `[ ]`, a chain that is left as `CHAIN`.
#[cycle(shown)]
fn put(out: &mut String, tree: &Expr) -> Result<(), AllocError> {
    match tree {
        Expr::Chain { .. } => out.push_str("CHAIN"),
        Expr::Binary {
            operator,
            left,
            right,
            ..
        } => {
            out.push_str("(")?;
            put(out, left.get())?;
            out.push_str(" ")?;
            put_name(out, &operator.name)?;
            out.push_str(" ")?;
            put(out, right.get())?;
            out.push_str(")")
        }
        Expr::Variable { name, .. } => put_name(out, name),
        Expr::Constructor { name, .. } => put_name(out, name),
        Expr::Int { value, .. } => write!(out, "{value}"),
        Expr::Negate { inner, .. } => {
            out.push_str("-")?;
            put(out, inner.get())
        }
        Expr::Brackets { inner, .. } => {
            out.push_str("[")?;
            put(out, inner.get())?;
            out.push_str("]")
        }
        Expr::Call {
            function,
            arguments,
            ..
        } => {
            put(out, function.get())?;
            put_all(out, arguments.as_slice())
        }
        Expr::Tuple { parts, .. } => put_all(out, parts.as_slice()),
        Expr::List { parts, .. } => put_all(out, parts.as_slice()),
        Expr::Range { low, high, .. } => {
            put(out, low.get())?;
            out.push_str("..")?;
            put(out, high.get())
        }
        Expr::Access { from, .. } => {
            put(out, from.get())?;
            out.push_str(".x")
        }
        Expr::Lambda { body, .. } => {
            out.push_str("\\")?;
            put(out, body.get())
        }
        _ => put_form(out, tree),
    }
}

/// The forms with definitions, branches or fields. Another expression is left out.
#[cycle(shown)]
fn put_form(out: &mut String, tree: &Expr) -> Result<(), AllocError> {
    match tree {
        Expr::If {
            condition,
            yes,
            no,
            ..
        } => {
            put(out, condition.get())?;
            out.push_str("?")?;
            put(out, yes.get())?;
            out.push_str(":")?;
            put(out, no.get())
        }
        Expr::Fields { fields, .. } => put_sets(out, fields.as_slice()),
        Expr::Extend { from, fields, .. } => {
            put(out, from.get())?;
            put_sets(out, fields.as_slice())
        }
        Expr::Update { from, fields, .. } => {
            put(out, from.get())?;
            put_sets(out, fields.as_slice())
        }
        Expr::Remove { from, fields, .. } => {
            put(out, from.get())?;
            put_sets(out, fields.as_slice())
        }
        Expr::Let {
            definitions,
            body,
            ..
        } => {
            put_declarations(out, definitions.as_slice())?;
            out.push_str("in ")?;
            put(out, body.get())
        }
        Expr::Guards { .. } => put_guards(out, tree),
        Expr::Case { .. } => put_branches(out, tree),
        _ => Ok(()),
    }
}

#[cycle(shown)]
fn put_all(out: &mut String, trees: &[Expr]) -> Result<(), AllocError> {
    for tree in trees {
        out.push_str(" ")?;
        put(out, tree)?;
    }
    Ok(())
}

#[cycle(shown)]
fn put_sets(out: &mut String, sets: &[Set]) -> Result<(), AllocError> {
    for set in sets {
        out.push_str(" ")?;
        put(out, &set.value)?;
    }
    Ok(())
}

#[cycle(shown)]
fn put_guards(out: &mut String, tree: &Expr) -> Result<(), AllocError> {
    let Expr::Guards { branches, .. } = tree else {
        return Ok(());
    };
    for (condition, chosen) in branches.as_slice() {
        out.push_str("|")?;
        put(out, condition)?;
        out.push_str("->")?;
        put(out, chosen)?;
    }
    Ok(())
}

#[cycle(shown)]
fn put_branches(out: &mut String, tree: &Expr) -> Result<(), AllocError> {
    let Expr::Case {
        scrutinee,
        branches,
        ..
    } = tree
    else {
        return Ok(());
    };
    put(out, scrutinee.get())?;
    for (_, chosen) in branches.as_slice() {
        out.push_str("->")?;
        put(out, chosen)?;
    }
    Ok(())
}

#[cycle(shown)]
fn put_declarations(out: &mut String, trees: &[Declaration]) -> Result<(), AllocError> {
    for tree in trees {
        put_declaration(out, tree)?;
    }
    Ok(())
}

#[cycle(shown)]
fn put_declaration(out: &mut String, tree: &Declaration) -> Result<(), AllocError> {
    match tree {
        Declaration::Definition { name, body, .. } => {
            put_name(out, name)?;
            out.push_str(" = ")?;
            put(out, body)?;
            out.push_str("; ")
        }
        Declaration::PatternDefinition { body, .. } => {
            out.push_str("_ = ")?;
            put(out, body)?;
            out.push_str("; ")
        }
        Declaration::PortDefinition { name, body, .. } => {
            put_name(out, &name.name)?;
            out.push_str(" = ")?;
            put(out, body)?;
            out.push_str("; ")
        }
        _ => Ok(()),
    }
}

fn put_modules(out: &mut String, modules: &[Module]) -> Result<(), AllocError> {
    for module in modules {
        put_declarations(out, module.declarations.as_slice())?;
    }
    Ok(())
}

fn put_fault(out: &mut String, fault: &ProjectFault) -> Result<(), AllocError> {
    put_name(out, &fault.module)?;
    let line = fault.line;
    let kind = match fault.kind {
        FaultKind::BadFixity => "BadFixity",
        _ => "?",
    };
    write!(out, " {line} {kind} ")?;
    put_name(out, &fault.name)
}

/// The text as a module behind the others, if it is one.
fn read(alloc: Global, text: &str, modules: &mut Items<Module>) -> Result<(), AllocError> {
    let Ok(found) = tokens(alloc, text.as_bytes()) else {
        return Ok(());
    };
    match module(alloc, found.as_slice()) {
        Ok(tree) => modules.push(tree),
        Err(_) => Ok(()),
    }
}

fn project(alloc: Global, texts: &[&str]) -> Result<Project, AllocError> {
    let mut modules = Items::new(alloc);
    for text in texts {
        read(alloc, text, &mut modules)?;
    }
    Ok(Project { modules })
}

/// The fixed project of these modules, or its fault.
pub fn written(alloc: Global, texts: &[&str]) -> Result<String, AllocError> {
    let mut out = String::new(alloc);
    match fix(alloc, project(alloc, texts)?) {
        Ok(fixed) => put_modules(&mut out, fixed.modules.as_slice())?,
        Err(Halt::Because(fault)) => put_fault(&mut out, &fault)?,
        Err(Halt::NoMemory) => out.push_str("out of memory")?,
    }
    Ok(out)
}
