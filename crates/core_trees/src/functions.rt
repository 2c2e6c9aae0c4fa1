//! Functions: made, and told from other terms.
ghost use Rattle.std.specs.Prelude.{◌≡◌, ◌<◌, map, length, IfOk};
ghost use Rattle.plain_form.specs.PlainForm.{lambdas as nested};
ghost use Rattle.core_trees.specs.PatternReading.{pattern_of};
ghost use Rattle.core_trees.specs.Reading.{core_of};
ghost use Rattle.core_trees.specs.Functions.{is_lambda};

use crate::pattern::PatternTree;
use crate::tree::CoreTree;
use elm_base::NoMemory;
use sqlite_items::{Boxed, Items};
use std::alloc::Global;

/// The body with these parameters round it. Without parameters it is the body alone.
pub fn lambdas(
    alloc: Global,
    parameters: Items<PatternTree>,
    body: CoreTree,
) -> Result<CoreTree, NoMemory>
    ensures { IfOk result (λ tree. core_of tree ≡ nested (map pattern_of parameters) (core_of body)) }
{
    if parameters.is_empty() {
        return Ok(body);
    }
    let body = Boxed::new(alloc, body)?;
    abstracted(alloc, parameters, body)
}

fn abstracted(
    alloc: Global,
    parameters: Items<PatternTree>,
    body: Boxed<CoreTree>,
) -> Result<CoreTree, NoMemory>
    requires { 0 < length parameters }
    ensures { IfOk result (λ tree. core_of tree ≡ nested (map pattern_of parameters) (core_of body)) }
{
    let mut more = parameters;
    let pattern = Boxed::new(alloc, more.remove(0))?;
    Ok(CoreTree::Lambda {
        pattern,
        more,
        body,
    })
}

/// Whether the plain term is a lambda. A call without arguments is its function, and a `let` without groups its body.
pub fn is_function(tree: &CoreTree) -> bool
    ensures { result ≡ is_lambda (core_of tree.now) }
{
    match tree {
        CoreTree::Lambda { .. } => true,
        CoreTree::Call {
            function,
            arguments,
        } => arguments.is_empty() && is_function(function.get()),
        CoreTree::Let { groups, body } => groups.is_empty() && is_function(body.get()),
        _ => false,
    }
}
