//! The unions of Basics that each project has.
ghost use Rattle.std.specs.Prelude.{◌≡◌, ◌++◌, ◌∷◌, [], OnOk, IfOk};
ghost use Rattle.elm_base.specs.declared.tree.TypeTree.{TypeTree};
ghost use Rattle.type_decls.specs.Unions as spec;

use elm_base::{Name, NoMemory, TypeTree, UnionOf};
use sqlite_items::Items;
use std::alloc::Global;

/// A constructor and the types of its arguments.
type Made = (Name, Items<TypeTree>);

/// Appends a constructor without arguments.
fn push_plain(alloc: Global, name: &[u8], out: &mut Items<Made>) -> Result<(), NoMemory>
    ensures { OnOk result (out.new ≡ out.old ++ spec.plain_constructor name.now ∷ []) }
{
    let name = Name::of(alloc, name)?;
    out.push((name, Items::new(alloc)))?;
    Ok(())
}

/// A union of Basics without parameters.
fn of_basics(alloc: Global, name: &[u8], constructors: Items<Made>) -> Result<UnionOf, NoMemory>
    ensures name { IfOk result (λ made. made.name ≡ name.now) }
    ensures home { IfOk result (λ made. made.«module» ≡ spec.basics_name) }
    ensures parameters { IfOk result (λ made. made.parameters ≡ []) }
    ensures constructors { IfOk result (λ made. made.constructors ≡ constructors) }
{
    let module = Name::of(alloc, b"Basics")?;
    let name = Name::of(alloc, name)?;
    Ok(UnionOf {
        module,
        name,
        parameters: Items::new(alloc),
        constructors,
    })
}

fn bool_union(alloc: Global) -> Result<UnionOf, NoMemory>
    ensures { IfOk result (λ made. made ≡ spec.bool_union) }
{
    let mut constructors = Items::new(alloc);
    push_plain(alloc, b"True", &mut constructors)?;
    push_plain(alloc, b"False", &mut constructors)?;
    of_basics(alloc, b"Bool", constructors)
}

fn order_union(alloc: Global) -> Result<UnionOf, NoMemory>
    ensures { IfOk result (λ made. made ≡ spec.order_union) }
{
    let mut constructors = Items::new(alloc);
    push_plain(alloc, b"LT", &mut constructors)?;
    push_plain(alloc, b"EQ", &mut constructors)?;
    push_plain(alloc, b"GT", &mut constructors)?;
    of_basics(alloc, b"Order", constructors)
}

/// Bool and Order.
pub fn built_in(alloc: Global) -> Result<Items<UnionOf>, NoMemory>
    ensures { IfOk result (λ unions. unions ≡ spec.bool_union ∷ spec.order_union ∷ []) }
{
    let mut unions = Items::new(alloc);
    unions.push(bool_union(alloc)?)?;
    unions.push(order_union(alloc)?)?;
    Ok(unions)
}

/// Whether a module declares one of these by this name.
pub fn is_built_in(module: &Name, name: &Name) -> bool
    ensures { result ≡ spec.is_built_in «module».now name.now }
{
    module.bytes() == b"Basics".as_slice()
        && (name.bytes() == b"Bool".as_slice() || name.bytes() == b"Order".as_slice())
}
