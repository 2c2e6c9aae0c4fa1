//! The code of definitions: a term names its parts by their places.
use crate::projects::{Row, code_of};
use crate::shown::{put_literal, put_name};
use elm_base::{Name, Term, TermPattern, TopValue};
use sqlite_items::{Boxed, Items};
use std::alloc::{AllocError, Global};
use std::fmt::Write;
use std::process::Abort;
use std::test::Fail;

/// Of each module the terms from place 7 on, since the library's definitions have seven, and then the top values.
const CODE: [Row; 6] = [
    ("f x = x\n", " _0 \\_0.7 f@8"),
    (
        "f = g 1 2\ng x y = x\n",
        " _0 \\_1.7 \\_0.8 $3 1 10!11 2 12!13 g@9 f@14",
    ),
    (
        "f x = let y = x\n          g a = y\n      in g\n",
        " _0 _1 \\_3.8 _2 let(_1=7)(_2=9)10 \\_0.11 f@12",
    ),
    (
        "type alias P = { x : Int }\nf = P\n",
        " _0 {x=7} \\_0.8 f@9",
    ),
    (
        "f x = case x of\n  [a] -> a\n  _ -> 0\n",
        " _0 _1 0 case7(::_1[]=8)(_=9) \\_0.10 f@11",
    ),
    ("f = (1, True)\n", " 1 True/0 ,7,8 f@9"),
];

#[cycle(patterns)]
fn put_pattern(text: &mut String, pattern: &TermPattern) -> Result<(), AllocError> {
    match pattern {
        TermPattern::Local { number } => write!(text, "_{number}"),
        TermPattern::Nil => text.push_str("[]"),
        TermPattern::Cons { head, tail } => {
            text.push_str("::")?;
            put_inner(text, head)?;
            put_inner(text, tail)
        }
        _ => text.push_str("_"),
    }
}

#[cycle(patterns)]
fn put_inner(text: &mut String, pattern: &Boxed<TermPattern>) -> Result<(), AllocError> {
    put_pattern(text, pattern.get())
}

fn put_members(text: &mut String, members: &[(TermPattern, u32)]) -> Result<(), AllocError> {
    for (pattern, place) in members {
        text.push_str("(")?;
        put_pattern(text, pattern)?;
        write!(text, "={place})")?;
    }
    Ok(())
}

fn put_groups(text: &mut String, groups: &[Items<(TermPattern, u32)>]) -> Result<(), AllocError> {
    for group in groups {
        put_members(text, group.as_slice())?;
    }
    Ok(())
}

fn put_parts(text: &mut String, parts: &[u32]) -> Result<(), AllocError> {
    for place in parts {
        write!(text, ",{place}")?;
    }
    Ok(())
}

fn put_term(text: &mut String, term: &Term) -> Result<(), AllocError> {
    match term {
        Term::Local { number } => write!(text, "_{number}"),
        Term::Top { number } => write!(text, "${number}"),
        Term::Literal { value } => put_literal(text, value),
        Term::Constructor { name, takes } => {
            put_name(text, name)?;
            write!(text, "/{takes}")
        }
        Term::Lambda { pattern, body } => {
            text.push_str("\\")?;
            put_pattern(text, pattern)?;
            write!(text, ".{body}")
        }
        Term::Call { function, argument } => write!(text, "{function}!{argument}"),
        Term::Case {
            scrutinee,
            branches,
        } => {
            write!(text, "case{scrutinee}")?;
            put_members(text, branches.as_slice())
        }
        Term::Let { groups, body } => {
            text.push_str("let")?;
            put_groups(text, groups.as_slice())?;
            write!(text, "{body}")
        }
        Term::Tuple { parts } => put_parts(text, parts.as_slice()),
        Term::Fields { fields } => put_fields(text, fields.as_slice()),
        _ => text.push_str("?"),
    }
}

fn put_fields(text: &mut String, fields: &[(Name, u32)]) -> Result<(), AllocError> {
    text.push_str("{")?;
    for (label, place) in fields {
        put_name(text, label)?;
        write!(text, "={place}")?;
    }
    text.push_str("}")
}

fn put_terms(text: &mut String, terms: &[Term]) -> Result<(), AllocError> {
    let [_, _, _, _, _, _, _, own @ ..] = terms else {
        return Ok(());
    };
    for term in own {
        text.push_str(" ")?;
        put_term(text, term)?;
    }
    Ok(())
}

fn put_tops(text: &mut String, tops: &[TopValue]) -> Result<(), AllocError> {
    let [_, _, _, own @ ..] = tops else {
        return Ok(());
    };
    for top in own {
        text.push_str(" ")?;
        put_name(text, &top.name)?;
        write!(text, "@{}", top.term)?;
    }
    Ok(())
}

fn put_code(alloc: Global, given: &str, text: &mut String) -> Result<(), Fail> {
    let code = code_of(alloc, given)?;
    put_terms(text, code.terms.as_slice())?;
    put_tops(text, code.tops.as_slice())?;
    text.push_str("\n")?;
    Ok(())
}

#[test]
fn definitions_have_their_code(rt: HostRuntime) -> Result<(), Fail> {
    let alloc = rt.alloc();
    let mut found = String::new(alloc);
    let mut all = String::new(alloc);
    for (given, wanted) in &CODE {
        put_code(alloc, given, &mut found)?;
        all.push_str(wanted)?;
        all.push_str("\n")?;
    }
    assert_eq!(rt; found.as_str(), all.as_str(), "code");
    Ok(())
}
