//! Projects as texts, and the plain forms of what they define.
use crate::shown::{put_core, put_type};
use code_lower::lower;
use core_definitions::{CoreDefinition, definitions};
use elm_base::{Code, Project, Resolved};
use elm_library::{Source, read};
use layout_lexer::tokens;
use module_parser::{fix, module};
use module_scope::resolve;
use sqlite_items::Items;
use std::alloc::{AllocError, Global};
use std::test::Fail;
use type_decls::declare;

/// The part of the library that each project of the rows has.
const LIBRARY: [Source; 4] = [
    Source {
        name: "Basics",
        text: "native + : Int -> Int -> Int\nnative negate : Int -> Int\nopaque Int\nopaque Char\nopaque String\nopaque List a\nmodule Basics where\ntype Bool = True | False\ntype Order = LT | EQ | GT\n(&&) x y = x\n(||) x y = x\n",
    },
    Source {
        name: "Maybe",
        text: "module Maybe where\ntype Maybe a = Just a | Nothing\n",
    },
    Source {
        name: "Signal",
        text: "device clicks : Signal ()\nopaque Signal a\nmodule Signal where\n",
    },
    Source {
        name: "List",
        text: "module List where\n",
    },
];

fn resolved(alloc: Global, text: &str) -> Result<Resolved, Fail> {
    let mut modules = read(alloc, &LIBRARY)?;
    let cut = tokens(alloc, text.as_bytes())?;
    modules.push(module(alloc, cut.as_slice())?)?;
    let project = fix(alloc, Project { modules })?;
    let whole = resolve(alloc, project)?;
    Ok(whole)
}

fn put_definition(text: &mut String, definition: &CoreDefinition) -> Result<(), AllocError> {
    put_core(text, &definition.right.body)?;
    if let Some(written) = &definition.right.annotation {
        text.push_str(" : ")?;
        put_type(text, written)?;
    }
    Ok(())
}

fn put_group(text: &mut String, group: &[CoreDefinition]) -> Result<(), AllocError> {
    for definition in group {
        text.push_str(" ")?;
        put_definition(text, definition)?;
    }
    text.push_str(";")
}

/// Of the library's own definitions there are three, each in a group.
fn put_groups(text: &mut String, groups: &[Items<CoreDefinition>]) -> Result<(), AllocError> {
    let [_, _, _, own @ ..] = groups else {
        return Ok(());
    };
    for group in own {
        put_group(text, group.as_slice())?;
    }
    Ok(())
}

/// A module's text, and the definitions of its groups in their plain form, in order.
pub type Row = (&'static str, &'static str);

/// Appends the definitions of this module, group by group.
pub fn put_form(alloc: Global, given: &str, text: &mut String) -> Result<(), Fail> {
    let whole = resolved(alloc, given)?;
    let decls = declare(alloc, &whole)?;
    let groups = definitions(alloc, &whole, &decls)?;
    put_groups(text, groups.as_slice())?;
    text.push_str("\n")?;
    Ok(())
}

/// The code of this module's definitions and the library's.
pub fn code_of(alloc: Global, given: &str) -> Result<Code, Fail> {
    let whole = resolved(alloc, given)?;
    let decls = declare(alloc, &whole)?;
    let groups = definitions(alloc, &whole, &decls)?;
    let code = lower(alloc, groups.as_slice())?;
    Ok(code)
}
