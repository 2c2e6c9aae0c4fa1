//! A plain term as a text. Names are numbers; `_1` is a binder, `$1` a top value, `?1` an input, `#1` a native.
use core_trees::{CoreTree, LetFunction, LetGroup, PatternTree};
use elm_base::{Literal, Name, Spot, TypeTree};
use sqlite_items::Boxed;
use std::alloc::AllocError;
use std::fmt::Write;
use std::str;

pub fn put_name(text: &mut String, name: &Name) -> Result<(), AllocError> {
    text.push_str(str::from_utf8(name.bytes()).unwrap_or("?"))
}

pub fn put_literal(text: &mut String, value: &Literal) -> Result<(), AllocError> {
    match value {
        Literal::Int(number) => write!(text, "{number}"),
        Literal::Char(code) => write!(text, "'{code}'"),
        Literal::Text(inner) => {
            text.push_str("\"")?;
            put_name(text, inner)?;
            text.push_str("\"")
        }
        Literal::Unit => text.push_str("()"),
    }
}

#[cycle(types)]
pub fn put_type(text: &mut String, tree: &TypeTree) -> Result<(), AllocError> {
    match tree {
        TypeTree::Variable { name, .. } => put_name(text, name),
        TypeTree::Named {
            name,
            arguments,
            ..
        } => {
            put_name(text, name)?;
            put_types(text, arguments.as_slice())
        }
        TypeTree::Arrow { from, to, .. } => {
            text.push_str("->")?;
            put_boxed_type(text, from)?;
            put_boxed_type(text, to)
        }
        TypeTree::Unit { .. } => text.push_str("()"),
        TypeTree::Tuple { parts, .. } => put_types(text, parts.as_slice()),
        TypeTree::Brackets { inner, .. } => put_boxed_type(text, inner),
        TypeTree::Fields { fields, .. } => put_fields_of(text, fields.as_slice()),
    }
}

#[cycle(types)]
fn put_boxed_type(text: &mut String, tree: &Boxed<TypeTree>) -> Result<(), AllocError> {
    text.push_str("(")?;
    put_type(text, tree.get())?;
    text.push_str(")")
}

#[cycle(types)]
fn put_types(text: &mut String, trees: &[TypeTree]) -> Result<(), AllocError> {
    for tree in trees {
        text.push_str(" ")?;
        put_type(text, tree)?;
    }
    Ok(())
}

#[cycle(types)]
fn put_fields_of(text: &mut String, fields: &[(Spot, TypeTree)]) -> Result<(), AllocError> {
    for (label, tree) in fields {
        text.push_str(".")?;
        put_name(text, &label.name)?;
        text.push_str(" ")?;
        put_type(text, tree)?;
    }
    Ok(())
}

#[cycle(patterns)]
fn put_pattern(text: &mut String, pattern: &PatternTree) -> Result<(), AllocError> {
    match pattern {
        PatternTree::Anything => text.push_str("_"),
        PatternTree::Local { number } => write!(text, "_{number}"),
        PatternTree::Literal { value } => put_literal(text, value),
        PatternTree::Made {
            of_union,
            constructor,
            parts,
        } => {
            put_name(text, of_union)?;
            text.push_str("|")?;
            put_name(text, constructor)?;
            put_patterns(text, parts.as_slice())
        }
        PatternTree::Cons { head, tail } => {
            text.push_str("::")?;
            put_inner(text, head)?;
            put_inner(text, tail)
        }
        PatternTree::List { parts } => {
            text.push_str("[]")?;
            put_patterns(text, parts.as_slice())
        }
        PatternTree::Tuple { parts } => {
            text.push_str(",")?;
            put_patterns(text, parts.as_slice())
        }
        PatternTree::Fields { labels } => put_labels(text, labels.as_slice()),
        PatternTree::Named { inner, number } => {
            put_inner(text, inner)?;
            write!(text, "@_{number}")
        }
    }
}

fn put_labels(text: &mut String, labels: &[(Name, u32)]) -> Result<(), AllocError> {
    for (label, number) in labels {
        text.push_str(".")?;
        put_name(text, label)?;
        write!(text, "_{number}")?;
    }
    Ok(())
}

#[cycle(patterns)]
fn put_inner(text: &mut String, pattern: &Boxed<PatternTree>) -> Result<(), AllocError> {
    text.push_str("(")?;
    put_pattern(text, pattern.get())?;
    text.push_str(")")
}

#[cycle(patterns)]
fn put_patterns(text: &mut String, patterns: &[PatternTree]) -> Result<(), AllocError> {
    for pattern in patterns {
        text.push_str("(")?;
        put_pattern(text, pattern)?;
        text.push_str(")")?;
    }
    Ok(())
}

/// A lambda's parameters stand behind `\`, a call's arguments behind `!`, and each part in brackets.
#[cycle(terms)]
pub fn put_core(text: &mut String, tree: &CoreTree) -> Result<(), AllocError> {
    match tree {
        CoreTree::Local { number } => write!(text, "_{number}"),
        CoreTree::Top { number } => write!(text, "${number}"),
        CoreTree::Input { number } => write!(text, "?{number}"),
        CoreTree::Native { number } => write!(text, "#{number}"),
        CoreTree::Literal { value } => put_literal(text, value),
        CoreTree::Constructor {
            of_union,
            name,
            takes,
        } => {
            put_name(text, of_union)?;
            text.push_str("|")?;
            put_name(text, name)?;
            write!(text, "/{takes}")
        }
        CoreTree::Held { written, inner } => {
            put_part(text, inner)?;
            text.push_str(":")?;
            put_boxed_type(text, written)
        }
        CoreTree::Lambda {
            pattern,
            more,
            body,
        } => {
            text.push_str("\\")?;
            put_inner(text, pattern)?;
            put_patterns(text, more.as_slice())?;
            put_part(text, body)
        }
        CoreTree::Call {
            function,
            arguments,
        } => {
            text.push_str("!")?;
            put_part(text, function)?;
            put_parts(text, arguments.as_slice())
        }
        CoreTree::If { condition, yes, no } => {
            text.push_str("if")?;
            put_part(text, condition)?;
            put_part(text, yes)?;
            put_part(text, no)
        }
        CoreTree::Guards { branches } => put_guards(text, branches.as_slice()),
        CoreTree::Case { scrutinee, .. } => {
            text.push_str("case")?;
            put_part(text, scrutinee)?;
            put_branches(text, tree)
        }
        CoreTree::Let { groups, body } => {
            text.push_str("let")?;
            put_groups(text, groups.as_slice())?;
            put_part(text, body)
        }
        _ => put_data(text, tree),
    }
}

/// Tuples, lists, ranges and records.
#[cycle(terms)]
fn put_data(text: &mut String, tree: &CoreTree) -> Result<(), AllocError> {
    match tree {
        CoreTree::Tuple { parts } => {
            text.push_str(",")?;
            put_parts(text, parts.as_slice())
        }
        CoreTree::List { parts } => {
            text.push_str("[]")?;
            put_parts(text, parts.as_slice())
        }
        CoreTree::Range { low, high } => {
            text.push_str("..")?;
            put_part(text, low)?;
            put_part(text, high)
        }
        CoreTree::Fields { fields } => {
            text.push_str("{}")?;
            put_fields(text, fields.as_slice())
        }
        CoreTree::Update { from, fields } => {
            text.push_str("{<-}")?;
            put_part(text, from)?;
            put_fields(text, fields.as_slice())
        }
        CoreTree::Extend { from, fields } => {
            text.push_str("{=}")?;
            put_part(text, from)?;
            put_fields(text, fields.as_slice())
        }
        CoreTree::Remove { from, label } => {
            text.push_str("{-}")?;
            put_part(text, from)?;
            put_name(text, label)
        }
        CoreTree::Field { from, label } => {
            text.push_str(".")?;
            put_part(text, from)?;
            put_name(text, label)
        }
        _ => Ok(()),
    }
}

#[cycle(terms)]
fn put_part(text: &mut String, tree: &Boxed<CoreTree>) -> Result<(), AllocError> {
    text.push_str("(")?;
    put_core(text, tree.get())?;
    text.push_str(")")
}

#[cycle(terms)]
fn put_parts(text: &mut String, trees: &[CoreTree]) -> Result<(), AllocError> {
    for tree in trees {
        text.push_str("(")?;
        put_core(text, tree)?;
        text.push_str(")")?;
    }
    Ok(())
}

#[cycle(terms)]
fn put_fields(text: &mut String, fields: &[(Name, CoreTree)]) -> Result<(), AllocError> {
    for (label, tree) in fields {
        text.push_str("(")?;
        put_name(text, label)?;
        text.push_str("=")?;
        put_core(text, tree)?;
        text.push_str(")")?;
    }
    Ok(())
}

#[cycle(terms)]
fn put_guards(text: &mut String, branches: &[(CoreTree, CoreTree)]) -> Result<(), AllocError> {
    text.push_str("guards")?;
    for (condition, chosen) in branches {
        text.push_str("(")?;
        put_core(text, condition)?;
        text.push_str("->")?;
        put_core(text, chosen)?;
        text.push_str(")")?;
    }
    Ok(())
}

/// The branches of a `case`.
#[cycle(terms)]
fn put_branches(text: &mut String, tree: &CoreTree) -> Result<(), AllocError> {
    let CoreTree::Case { branches, .. } = tree else {
        return Ok(());
    };
    let branches = branches.as_slice();
    for (pattern, chosen) in branches {
        text.push_str("(")?;
        put_pattern(text, pattern)?;
        text.push_str("->")?;
        put_core(text, chosen)?;
        text.push_str(")")?;
    }
    Ok(())
}

#[cycle(terms)]
fn put_groups(text: &mut String, groups: &[LetGroup]) -> Result<(), AllocError> {
    for group in groups {
        text.push_str("(")?;
        put_group(text, group)?;
        text.push_str(")")?;
    }
    Ok(())
}

#[cycle(terms)]
fn put_group(text: &mut String, group: &LetGroup) -> Result<(), AllocError> {
    match group {
        LetGroup::Value { pattern, value } => {
            put_pattern(text, pattern.get())?;
            put_part(text, value)
        }
        LetGroup::Functions { functions } => put_functions(text, functions.as_slice()),
    }
}

#[cycle(terms)]
fn put_functions(text: &mut String, functions: &[LetFunction]) -> Result<(), AllocError> {
    for function in functions {
        write!(text, "_{}=\\", function.number)?;
        put_inner(text, &function.pattern)?;
        put_patterns(text, function.more.as_slice())?;
        put_part(text, &function.body)?;
        put_annotation(text, &function.annotation)?;
    }
    Ok(())
}

fn put_annotation(text: &mut String, written: &Option<Boxed<TypeTree>>) -> Result<(), AllocError> {
    match written {
        None => Ok(()),
        Some(written) => {
            text.push_str(":")?;
            put_boxed_type(text, written)
        }
    }
}
