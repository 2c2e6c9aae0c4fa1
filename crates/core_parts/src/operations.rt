//! The plain form of operators, of records with fields in front, and of expressions without parts.
ghost use Rattle.std.specs.Prelude.{◌≡◌, map, IfOk};
ghost use Rattle.plain_form.specs.PlainForm.{operation as operated, use_of as used, with_fields as in_front};
ghost use Rattle.typing_rules.specs.Core.{Call, Native};
ghost use Rattle.elm_base.specs.declared.native.TheConstants.{NEGATE};
ghost use Rattle.core_trees.specs.Reading.{core_of};
ghost use Rattle.core_names.specs.Binding.{names_of};
ghost use Rattle.core_parts.specs.Making as spec;

use crate::names::{falsehood, field_function, nothing, truth, tuple_maker, use_of};
use core_names::Numbered;
use core_trees::CoreTree;
use elm_base::{Expr, Literal, Name, NoMemory, Operator, native};
use sqlite_items::{Boxed, Items};
use std::alloc::Global;

/// What an operator makes of its sides: `&&` and `||` are `if`, any other is called.
pub fn operation(
    alloc: Global,
    operator: &Operator,
    left: Boxed<CoreTree>,
    right: Boxed<CoreTree>,
    of: &Numbered<'_>,
) -> Result<CoreTree, NoMemory>
    ensures { IfOk result (λ made. core_of made ≡ operated operator.now.name
        (used (names_of of.now) operator.now.at ((names_of of.now).thing operator.now.at))
        (core_of left) (core_of right)) }
{
    if operator.name.is(b"&&") {
        let no = Boxed::new(alloc, falsehood(alloc)?)?;
        return Ok(CoreTree::If {
            condition: left,
            yes: right,
            no,
        });
    }
    if operator.name.is(b"||") {
        let yes = Boxed::new(alloc, truth(alloc)?)?;
        return Ok(CoreTree::If {
            condition: left,
            yes,
            no: right,
        });
    }
    called(alloc, use_of(alloc, operator.at, of)?, left, right)
}

fn called(
    alloc: Global,
    function: CoreTree,
    left: Boxed<CoreTree>,
    right: Boxed<CoreTree>,
) -> Result<CoreTree, NoMemory>
    ensures { IfOk result (λ made. core_of made
        ≡ Call (Call (core_of function) (core_of left)) (core_of right)) }
{
    let function = Boxed::new(alloc, function)?;
    let mut arguments = Items::new(alloc);
    arguments.push(left.into_inner())?;
    arguments.push(right.into_inner())?;
    Ok(CoreTree::Call {
        function,
        arguments,
    })
}

/// A number's opposite is a call of its native.
pub fn negated(alloc: Global, inner: CoreTree) -> Result<CoreTree, NoMemory>
    ensures { IfOk result (λ made. core_of made ≡ Call (Native NEGATE) (core_of inner)) }
{
    let function = Boxed::new(
        alloc,
        CoreTree::Native {
            number: native::NEGATE,
        },
    )?;
    let mut arguments = Items::new(alloc);
    arguments.push(inner)?;
    Ok(CoreTree::Call {
        function,
        arguments,
    })
}

/// Fields in front of a record, if there are any.
pub fn with_fields(
    alloc: Global,
    from: CoreTree,
    fields: Items<(Name, CoreTree)>,
) -> Result<CoreTree, NoMemory>
    ensures { IfOk result (λ made. core_of made
        ≡ in_front (core_of from) (map spec.field_of fields)) }
{
    if fields.is_empty() {
        return Ok(from);
    }
    let from = Boxed::new(alloc, from)?;
    Ok(CoreTree::Extend { from, fields })
}

fn literal(value: Literal) -> Result<CoreTree, NoMemory>
    ensures { IfOk result (λ made. core_of made ≡ spec.literal_of value) }
{
    Ok(CoreTree::Literal { value })
}

/// The plain form of an expression that has no parts. One that has parts gives what no resolved tree has.
pub fn leaf(alloc: Global, tree: &Expr, of: &Numbered<'_>) -> Result<CoreTree, NoMemory>
    ensures { IfOk result (λ made. core_of made ≡ spec.leaf_of (names_of of.now) tree.now) }
{
    match tree {
        Expr::Int { value, .. } => literal(Literal::Int(*value)),
        Expr::Char { value, .. } => literal(Literal::Char(*value)),
        Expr::Text { value, .. } => literal(Literal::Text(value.copy(alloc)?)),
        Expr::Unit { .. } => literal(Literal::Unit),
        Expr::Variable { at, .. } => use_of(alloc, *at, of),
        Expr::Constructor { at, .. } => use_of(alloc, *at, of),
        Expr::OperatorName { at, .. } => use_of(alloc, *at, of),
        Expr::FieldFunction { at, label } => field_function(alloc, *at, label, of),
        Expr::TupleMaker { at, parts } => tuple_maker(alloc, *at, *parts, of),
        _ => nothing(alloc),
    }
}
