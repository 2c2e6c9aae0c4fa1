//! Which trees stand for lambdas: a call without arguments and a `let` without groups stand for what is in them.
use crate::same;
use core_trees::{CoreTree, PatternTree, is_function, lambdas};
use elm_base::NoMemory;
use sqlite_items::{Boxed, Items};
use std::alloc::Global;
use std::process::Abort;

/// A value under so many parameters.
fn under(alloc: Global, parameters: u32) -> Result<CoreTree, NoMemory> {
    let mut patterns = Items::new(alloc);
    for number in 0..parameters {
        patterns.push(PatternTree::Local { number })?;
    }
    lambdas(alloc, patterns, CoreTree::Local { number: 0 })
}

/// A call of a function of one parameter with so many arguments.
fn call_of(alloc: Global, arguments: u32) -> Result<CoreTree, NoMemory> {
    let function = Boxed::new(alloc, under(alloc, 1)?)?;
    let mut values = Items::new(alloc);
    for number in 0..arguments {
        values.push(CoreTree::Local { number })?;
    }
    Ok(CoreTree::Call {
        function,
        arguments: values,
    })
}

/// A `let` without groups round a value under so many parameters.
fn let_of(alloc: Global, parameters: u32) -> Result<CoreTree, NoMemory> {
    let body = Boxed::new(alloc, under(alloc, parameters)?)?;
    Ok(CoreTree::Let {
        groups: Items::new(alloc),
        body,
    })
}

fn told(tree: Result<CoreTree, NoMemory>) -> Result<bool, NoMemory> {
    Ok(is_function(&tree?))
}

fn told_rows(rt: &impl Abort, alloc: Global) -> Result<(), NoMemory> {
    same(rt, told(under(alloc, 0))?, false, "no parameter");
    same(rt, told(under(alloc, 2))?, true, "two parameters");
    same(
        rt,
        told(call_of(alloc, 0))?,
        true,
        "a call without arguments",
    );
    same(rt, told(call_of(alloc, 1))?, false, "a call");
    same(
        rt,
        told(let_of(alloc, 0))?,
        false,
        "a block without groups, round a value",
    );
    same(
        rt,
        told(let_of(alloc, 1))?,
        true,
        "a block without groups, round a function",
    );
    Ok(())
}

#[test]
fn lambdas_are_told(rt: HostRuntime) -> Result<(), NoMemory> {
    told_rows(&rt, rt.alloc())
}
