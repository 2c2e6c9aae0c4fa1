//! What the patterns of a typed project ask for.
ghost use Rattle.std.specs.Prelude.{◌≡◌, IfOk, Some, [], map};
ghost use Rattle.case_check.specs.Asked as spec;
ghost use Rattle.case_check.specs.Trees.{wanted_of};

use crate::form::Form;
use elm_base::{At, Meaning, Name, NoMemory, Pattern, Thing, TypeTree, Typed, UnionOf};
use sqlite_items::Items;
use std::alloc::Global;

fn is_among(name: &Name, constructors: &[(Name, Items<TypeTree>)]) -> bool
    ensures { result ≡ spec.is_among name.now constructors.now }
{
    match constructors {
        [] => false,
        [constructor, more @ ..] => {
            constructor.0.bytes() == name.bytes() || is_among(name, more)
        }
    }
}

fn choices_of(
    alloc: Global,
    constructors: &[(Name, Items<TypeTree>)],
) -> Result<Items<(Name, usize)>, NoMemory>
    ensures { IfOk result (λ found. found ≡ spec.choices_of constructors.now) }
{
    let mut found = Items::new(alloc);
    for constructor in constructors {
        let name = constructor.0.copy(alloc)?;
        found.push((name, constructor.1.len()))?;
    }
    Ok(found)
}

/// The constructors of the module's union that has this one.
fn union_with(
    alloc: Global,
    module: &Name,
    name: &Name,
    unions: &[UnionOf],
) -> Result<Items<(Name, usize)>, NoMemory>
    ensures { IfOk result (λ found. found ≡ spec.union_with «module».now name.now unions.now) }
{
    let mut rest = unions;
    while let [union, more @ ..] = rest {
        if union.module.bytes() == module.bytes() && is_among(name, union.constructors.as_slice()) {
            return choices_of(alloc, union.constructors.as_slice());
        }
        rest = more;
    }
    Ok(Items::new(alloc))
}

fn constructor_of(
    alloc: Global,
    thing: &Thing,
    unions: &[UnionOf],
) -> Result<(Items<(Name, usize)>, Name), NoMemory>
    ensures { IfOk result (λ found. found ≡ spec.constructor_of unions.now (Some thing.now)) }
{
    match thing {
        Thing::Constructor { module, name } => {
            let union = union_with(alloc, module, name, unions)?;
            let name = name.copy(alloc)?;
            Ok((union, name))
        }
        _ => Ok((Items::new(alloc), Name::from_vec(Vec::new(alloc)))),
    }
}

/// The union and the name of the constructor that stands at this place of the module.
fn constructor_at(
    alloc: Global,
    typed: &Typed,
    module: &Name,
    at: At,
) -> Result<(Items<(Name, usize)>, Name), NoMemory>
    ensures { IfOk result (λ found. found ≡ spec.constructor_at typed.now «module».now at) }
{
    let mut rest = typed.resolved.meanings.as_slice();
    while let [meaning, more @ ..] = rest {
        if is_at(meaning, module, at) {
            return constructor_of(alloc, &meaning.thing, typed.decls.unions.as_slice());
        }
        rest = more;
    }
    Ok((Items::new(alloc), Name::from_vec(Vec::new(alloc))))
}

fn is_at(meaning: &Meaning, module: &Name, at: At) -> bool
    ensures { result ≡ spec.is_at «module».now at meaning.now }
{
    meaning.module.bytes() == module.bytes()
        && meaning.at.line == at.line
        && meaning.at.column == at.column
}

/// A name of the library's own.
fn named(alloc: Global, name: &[u8], takes: usize) -> Result<(Name, usize), NoMemory>
    ensures { IfOk result (λ made. made ≡ (name.now, takes)) }
{
    let name = Name::of(alloc, name)?;
    Ok((name, takes))
}

/// The one constructor of tuples and of `()`.
fn tuple_of(alloc: Global, parts: Items<Form>) -> Result<Form, NoMemory>
    ensures { IfOk result (λ form. wanted_of form ≡ spec.tuple_of (map wanted_of parts)) }
{
    let mut union = Items::new(alloc);
    union.push(named(alloc, b"()", parts.len())?)?;
    let constructor = Name::of(alloc, b"()")?;
    Ok(Form::Made {
        union,
        constructor,
        parts,
    })
}

fn lists(alloc: Global) -> Result<Items<(Name, usize)>, NoMemory>
    ensures { IfOk result (λ union. union ≡ spec.lists) }
{
    let mut union = Items::new(alloc);
    union.push(named(alloc, b"[]", 0)?)?;
    union.push(named(alloc, b"::", 2)?)?;
    Ok(union)
}

fn nil_of(alloc: Global) -> Result<Form, NoMemory>
    ensures { IfOk result (λ form. wanted_of form ≡ spec.list_of []) }
{
    let union = lists(alloc)?;
    let constructor = Name::of(alloc, b"[]")?;
    Ok(Form::Made {
        union,
        constructor,
        parts: Items::new(alloc),
    })
}

fn cons_of(alloc: Global, head: Form, tail: Form) -> Result<Form, NoMemory>
    ensures { IfOk result (λ form. wanted_of form ≡ spec.cons_of (wanted_of head) (wanted_of tail)) }
{
    let union = lists(alloc)?;
    let constructor = Name::of(alloc, b"::")?;
    let mut parts = Items::new(alloc);
    parts.push(head)?;
    parts.push(tail)?;
    Ok(Form::Made {
        union,
        constructor,
        parts,
    })
}

/// A list pattern is its parts in front of the empty list.
#[tactic(auto, using(crate::proofs::Fronts::front_append))]
fn list_of(alloc: Global, parts: Items<Form>) -> Result<Form, NoMemory>
    ensures { IfOk result (λ form. wanted_of form ≡ spec.list_of (map wanted_of parts)) }
{
    let mut parts = parts;
    let mut form = nil_of(alloc)?;
    while let Some(part) = parts.pop() {
        form = cons_of(alloc, part, form)?;
    }
    Ok(form)
}

/// What a pattern of this module asks for.
#[cycle(asked)]
fn form_of(alloc: Global, typed: &Typed, module: &Name, pattern: &Pattern) -> Result<Form, NoMemory>
    ensures { IfOk result (λ form. wanted_of form ≡ spec.asked typed.now «module».now pattern.now) }
{
    match pattern {
        Pattern::Anything { .. } | Pattern::Variable { .. } | Pattern::Fields { .. } => {
            Ok(Form::Anything)
        }
        Pattern::Int { .. } | Pattern::Char { .. } | Pattern::Text { .. } => Ok(Form::Literal),
        Pattern::Unit { .. } => tuple_of(alloc, Items::new(alloc)),
        Pattern::Made { at, parts, .. } => {
            let (union, constructor) = constructor_at(alloc, typed, module, *at)?;
            let parts = forms_of(alloc, typed, module, parts.as_slice())?;
            Ok(Form::Made {
                union,
                constructor,
                parts,
            })
        }
        Pattern::Cons { head, tail, .. } => {
            let head = form_of(alloc, typed, module, head.get())?;
            let tail = form_of(alloc, typed, module, tail.get())?;
            cons_of(alloc, head, tail)
        }
        Pattern::List { parts, .. } => {
            let parts = forms_of(alloc, typed, module, parts.as_slice())?;
            list_of(alloc, parts)
        }
        Pattern::Tuple { parts, .. } => {
            let parts = forms_of(alloc, typed, module, parts.as_slice())?;
            tuple_of(alloc, parts)
        }
        Pattern::Brackets { inner, .. } => form_of(alloc, typed, module, inner.get()),
        Pattern::Named { inner, .. } => form_of(alloc, typed, module, inner.get()),
    }
}

/// The same of several patterns.
#[cycle(asked)]
pub(crate) fn forms_of(
    alloc: Global,
    typed: &Typed,
    module: &Name,
    patterns: &[Pattern],
) -> Result<Items<Form>, NoMemory>
    ensures { IfOk result (λ forms. map wanted_of forms
        ≡ map (spec.asked typed.now «module».now) patterns.now) }
{
    let mut forms = Items::new(alloc);
    for pattern in patterns {
        forms.push(form_of(alloc, typed, module, pattern)?)?;
    }
    Ok(forms)
}
