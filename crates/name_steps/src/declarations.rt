//! What the declarations of a block define.
ghost use Rattle.std.specs.Prelude.{◌≡◌, ◌∷◌, [], ◌++◌, OnOk, false, map};
ghost use Rattle.std.specs.List.{flat_map};
ghost use Rattle.name_steps.specs.PatternNames.{binds_of, spot_of};
ghost use Rattle.name_steps.specs.Steps as spec;
ghost use Rattle.name_steps.specs.declared.step.Step.TheVariants as step;

use crate::patterns::{push_binds, push_spot, push_spots};
use crate::step::{Defined, Step};
use elm_base::{At, Declaration, Expr, Name, NoMemory, Pattern, Spot};
use sqlite_items::Items;
use std::alloc::Global;

/// The place of an expression's first token.
fn place_of(tree: &Expr) -> At
    ensures { result ≡ (spec.read_of tree.now).at }
{
    match tree {
        Expr::Chain { at, .. }
        | Expr::Binary { at, .. }
        | Expr::Negate { at, .. }
        | Expr::Call { at, .. }
        | Expr::Int { at, .. }
        | Expr::Char { at, .. }
        | Expr::Text { at, .. }
        | Expr::Variable { at, .. }
        | Expr::Constructor { at, .. }
        | Expr::FieldFunction { at, .. }
        | Expr::Access { at, .. }
        | Expr::OperatorName { at, .. }
        | Expr::TupleMaker { at, .. }
        | Expr::Unit { at }
        | Expr::Brackets { at, .. }
        | Expr::Tuple { at, .. }
        | Expr::List { at, .. }
        | Expr::Range { at, .. }
        | Expr::Fields { at, .. }
        | Expr::Extend { at, .. }
        | Expr::Update { at, .. }
        | Expr::Remove { at, .. }
        | Expr::Lambda { at, .. }
        | Expr::If { at, .. }
        | Expr::Guards { at, .. }
        | Expr::Let { at, .. }
        | Expr::Case { at, .. } => *at,
    }
}

/// Whether it is a lambda, brackets round it aside.
fn is_lambda(tree: &Expr) -> bool
    ensures { result ≡ (spec.read_of tree.now).lambda }
{
    match tree {
        Expr::Lambda { .. } => true,
        Expr::Brackets { inner, .. } => is_lambda(inner.get()),
        _ => false,
    }
}

/// Appends a definition of a name.
fn push_named(
    alloc: Global,
    at: At,
    place: At,
    name: &Name,
    function: bool,
    out: &mut Items<Defined>,
) -> Result<(), NoMemory>
    ensures { OnOk result (out.new ≡ out.old
        ++ spec.defined_of at name.now (spot_of place name.now ∷ []) function ∷ []) }
{
    let mut binds = Items::new(alloc);
    push_spot(alloc, place, name, &mut binds)?;
    let name = name.copy(alloc)?;
    out.push(Defined {
        at,
        name,
        binds,
        function,
    })?;
    Ok(())
}

/// Appends a definition of the names in a pattern.
fn push_of_pattern(
    alloc: Global,
    at: At,
    pattern: &Pattern,
    out: &mut Items<Defined>,
) -> Result<(), NoMemory>
    ensures { OnOk result (out.new ≡ out.old
        ++ spec.defined_of at [] (binds_of pattern.now) false ∷ []) }
{
    let mut binds = Items::new(alloc);
    push_binds(alloc, pattern, &mut binds)?;
    let name = Name::from_vec(Vec::new(alloc));
    out.push(Defined {
        at,
        name,
        binds,
        function: false,
    })?;
    Ok(())
}

/// Appends the definition that a declaration is, if it is one.
pub fn push_defined(
    alloc: Global,
    declaration: &Declaration,
    out: &mut Items<Defined>,
) -> Result<(), NoMemory>
    ensures { OnOk result (out.new ≡ out.old ++ (spec.part_of declaration.now).definitions) }
{
    match declaration {
        Declaration::Definition {
            at,
            name,
            patterns,
            body,
        } => {
            let function = !patterns.is_empty() || is_lambda(body);
            push_named(alloc, *at, *at, name, function, out)
        }
        Declaration::PatternDefinition { at, pattern, .. } => {
            push_of_pattern(alloc, *at, pattern, out)
        }
        Declaration::PortDefinition { at, name, body } => {
            push_named(alloc, *at, name.at, &name.name, is_lambda(body), out)
        }
        _ => Ok(()),
    }
}

fn push_all_defined(
    alloc: Global,
    declarations: &[Declaration],
    out: &mut Items<Defined>,
) -> Result<(), NoMemory>
    ensures { OnOk result (out.new ≡ out.old
        ++ spec.definitions_of (map spec.part_of declarations.now)) }
{
    for declaration in declarations {
        push_defined(alloc, declaration, out)?;
    }
    Ok(())
}

fn push_bound(alloc: Global, definitions: &[Defined], out: &mut Items<Spot>) -> Result<(), NoMemory>
    ensures { OnOk result (out.new ≡ out.old ++ spec.bound_by definitions.now) }
{
    for defined in definitions {
        push_spots(alloc, defined.binds.as_slice(), out)?;
    }
    Ok(())
}

/// Appends the steps with which the block of a `let` begins: its names are bound, and its definitions named.
pub fn push_block(
    alloc: Global,
    at: At,
    declarations: &[Declaration],
    body: &Expr,
    out: &mut Items<Step>,
) -> Result<(), NoMemory>
    ensures { OnOk result (let definitions = spec.definitions_of (map spec.part_of declarations.now) in
        out.new ≡ out.old ++ step.Binds (spec.bound_by definitions)
        ∷ step.Block at definitions (spec.read_of body.now).at ∷ []) }
{
    let mut definitions = Items::new(alloc);
    push_all_defined(alloc, declarations, &mut definitions)?;
    let mut spots = Items::new(alloc);
    push_bound(alloc, definitions.as_slice(), &mut spots)?;
    out.push(Step::Binds { spots })?;
    let end = place_of(body);
    out.push(Step::Block {
        at,
        definitions,
        end,
    })?;
    Ok(())
}
