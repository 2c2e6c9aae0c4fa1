//! One term behind those that stand.
ghost use Rattle.std.specs.Prelude.{◌≡◌, ◌++◌, ◌∷◌, [], IfOk, OnOk, length};
ghost use Rattle.elm_meaning.specs.Values.{Lambda, TupleTree, NoTrees};
ghost use Rattle.code_lower.specs.Laying as spec;
ghost use Rattle.code_lower.specs.Laying.{Lowers, Wraps};

use crate::patterns::{copy_literal, lower_pattern};
use core_trees::{CoreTree, PatternTree};
use elm_base::{NoMemory, Term};
use sqlite_items::Items;
use std::alloc::Global;

/// Appends the term. Its place; one that doesn't fit is want of memory.
pub fn push_term(term: Term, out: &mut Items<Term>) -> Result<u32, NoMemory>
    ensures { IfOk result (λ at. (at ≡ length out.old) × (out.new ≡ out.old ++ term ∷ [])) }
{
    let at = out.len();
    if at > u32::MAX as usize {
        return Err(NoMemory);
    }
    out.push(term)?;
    Ok(at as u32)
}

/// Appends a lambda with this parameter.
pub fn push_abstraction(
    alloc: Global,
    pattern: &PatternTree,
    body: u32,
    out: &mut Items<Term>,
) -> Result<u32, NoMemory>
    ensures { IfOk result (λ at. Wraps out.old out.new body at
        (Lambda (spec.pattern_for pattern.now))) }
{
    let pattern = lower_pattern(alloc, pattern)?;
    push_term(Term::Lambda { pattern, body }, out)
}

/// Appends lambdas with these parameters, one round the other.
pub fn push_parameters(
    alloc: Global,
    parameters: &[PatternTree],
    body: u32,
    out: &mut Items<Term>,
) -> Result<u32, NoMemory>
    ensures { IfOk result (λ at. Wraps out.old out.new body at
        (spec.lambdas_for parameters.now)) }
{
    let mut at = body;
    let mut count = parameters.len();
    while count > 0 {
        count -= 1;
        at = push_abstraction(alloc, &parameters[count], at, out)?;
    }
    Ok(at)
}

/// Appends the empty tuple.
pub fn push_nothing(alloc: Global, out: &mut Items<Term>) -> Result<u32, NoMemory>
    ensures { IfOk result (λ at. Lowers out.old out.new (at ∷ []) (TupleTree NoTrees ∷ [])) }
{
    let parts = Items::new(alloc);
    push_term(Term::Tuple { parts }, out)
}

/// Appends lambdas with these parameters, of which the first is the outermost.
pub fn push_lambdas(
    alloc: Global,
    first: &PatternTree,
    more: &[PatternTree],
    body: u32,
    out: &mut Items<Term>,
) -> Result<u32, NoMemory>
    ensures { IfOk result (λ at. Wraps out.old out.new body at
        (λ tree. Lambda (spec.pattern_for first.now) (spec.lambdas_for more.now tree))) }
{
    let inner = push_parameters(alloc, more, body, out)?;
    push_abstraction(alloc, first, inner, out)
}

/// Appends a term that has no parts. Of another tree it appends what has none.
pub fn push_leaf(alloc: Global, tree: &CoreTree, out: &mut Items<Term>) -> Result<u32, NoMemory>
    ensures { IfOk result (λ at. Lowers out.old out.new (at ∷ [])
        (spec.leaf_for tree.now ∷ [])) }
{
    match tree {
        CoreTree::Local { number } => push_term(Term::Local { number: *number }, out),
        CoreTree::Top { number } => push_term(Term::Top { number: *number }, out),
        CoreTree::Input { number } => push_term(Term::Input { number: *number }, out),
        CoreTree::Literal { value } => {
            let value = copy_literal(alloc, value)?;
            push_term(Term::Literal { value }, out)
        }
        CoreTree::Native { number } => push_term(Term::Native { number: *number }, out),
        CoreTree::Constructor { name, takes, .. } => {
            let name = name.copy(alloc)?;
            let takes = *takes;
            push_term(Term::Constructor { name, takes }, out)
        }
        _ => push_nothing(alloc, out),
    }
}
