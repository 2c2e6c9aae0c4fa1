//! Conditions whose types are known by the order in which they were made, so that rows of tests can name them.

ghost use Rattle.std.specs.Prelude.{IfOk, OnOk};
ghost use Rattle.type_conditions.specs.Conditions.{terms_in};
ghost use Rattle.type_terms.specs.Terms.{parts, terms_of, Each};
ghost use Rattle.type_unify.specs.Kept.{HasNoRest};
ghost use Rattle.type_unify.specs.Rests.{IsType};
ghost use Rattle.conditions_tests.specs.Scenes.{AreMade};

use elm_base::{Halt, Name, NoMemory};
use sqlite_items::{Items, at};
use std::alloc::Global;
use type_conditions::{Conditions, Tail};
use type_terms::{Flag, Shape, TermId};

/// What is asked next. A type is named by its place among those that were made before.
pub enum Step {
    Named {
        name: &'static str,
        arguments: &'static [usize],
    },
    Function {
        from: usize,
        to: usize,
    },
    Tuple {
        parts: &'static [usize],
    },
    Variable {
        flag: Flag,
    },
    /// A record over the last rest, if there is one.
    Record {
        fields: &'static [(&'static str, usize)],
    },
    Rest,
    /// After it a rest is of no use.
    AtMost {
        below: usize,
        above: usize,
    },
}

#[derive(Drop)]
struct Scene {
    conditions: Conditions,
    made: Items<TermId>,
    tail: Tail,
}

// The term of a type. A place that no type has finds no memory.
fn term(scene: &Scene, place: usize) -> Result<TermId, NoMemory>
    requires { AreMade scene.now.conditions scene.now.made scene.now.tail }
    ensures { IfOk result (IsType (terms_in scene.now.conditions)) }
{
    match at(scene.made.as_slice(), place) {
        Some(found) => Ok(*found),
        None => Err(NoMemory),
    }
}

fn terms(alloc: Global, scene: &Scene, places: &[usize]) -> Result<Items<TermId>, NoMemory>
    requires { AreMade scene.now.conditions scene.now.made scene.now.tail }
    ensures { IfOk result (Each (IsType (terms_in scene.now.conditions))) }
{
    let mut found = Items::new(alloc);
    for place in places {
        let term = term(scene, *place)?;
        found.push(term)?;
    }
    Ok(found)
}

fn fields(
    alloc: Global,
    scene: &Scene,
    fields: &[(&str, usize)],
) -> Result<Items<(Name, TermId)>, NoMemory>
    requires { AreMade scene.now.conditions scene.now.made scene.now.tail }
    ensures { IfOk result
        (λ found. Each (IsType (terms_in scene.now.conditions)) (terms_of found)) }
{
    let mut found = Items::new(alloc);
    for (label, place) in fields {
        let term = term(scene, *place)?;
        found.push((Name::of(alloc, label.as_bytes())?, term))?;
    }
    Ok(found)
}

fn make(scene: &mut Scene, shape: Shape) -> Result<(), NoMemory>
    requires made { AreMade scene.old.conditions scene.old.made scene.old.tail }
    requires parts { Each (IsType (terms_in scene.old.conditions)) (parts shape) }
    requires no_rest { HasNoRest shape }
    ensures { OnOk result (AreMade scene.new.conditions scene.new.made scene.new.tail) }
{
    let at = scene.conditions.make(shape)?;
    scene.made.push(at)?;
    Ok(())
}

fn variable(scene: &mut Scene, flag: Flag) -> Result<(), NoMemory>
    requires { AreMade scene.old.conditions scene.old.made scene.old.tail }
    ensures { OnOk result (AreMade scene.new.conditions scene.new.made scene.new.tail) }
{
    let at = scene.conditions.variable(flag)?;
    scene.made.push(at)?;
    Ok(())
}

fn named(alloc: Global, scene: &mut Scene, name: &str, arguments: &[usize]) -> Result<(), NoMemory>
    requires { AreMade scene.old.conditions scene.old.made scene.old.tail }
    ensures { OnOk result (AreMade scene.new.conditions scene.new.made scene.new.tail) }
{
    let arguments = terms(alloc, scene, arguments)?;
    let name = Name::of(alloc, name.as_bytes())?;
    make(scene, Shape::Named { name, arguments })
}

fn function(scene: &mut Scene, from: usize, to: usize) -> Result<(), NoMemory>
    requires { AreMade scene.old.conditions scene.old.made scene.old.tail }
    ensures { OnOk result (AreMade scene.new.conditions scene.new.made scene.new.tail) }
{
    let from = term(scene, from)?;
    let to = term(scene, to)?;
    make(scene, Shape::Arrow { from, to })
}

fn tuple(alloc: Global, scene: &mut Scene, parts: &[usize]) -> Result<(), NoMemory>
    requires { AreMade scene.old.conditions scene.old.made scene.old.tail }
    ensures { OnOk result (AreMade scene.new.conditions scene.new.made scene.new.tail) }
{
    let parts = terms(alloc, scene, parts)?;
    make(scene, Shape::Tuple { parts })
}

fn record(alloc: Global, scene: &mut Scene, labels: &[(&str, usize)]) -> Result<(), NoMemory>
    requires { AreMade scene.old.conditions scene.old.made scene.old.tail }
    ensures { OnOk result (AreMade scene.new.conditions scene.new.made scene.new.tail) }
{
    let fields = fields(alloc, scene, labels)?;
    let at = scene.conditions.make_row(fields, scene.tail)?;
    scene.made.push(at)?;
    Ok(())
}

fn rest(alloc: Global, scene: &mut Scene) -> Result<(), NoMemory>
    requires { AreMade scene.old.conditions scene.old.made scene.old.tail }
    ensures { OnOk result (AreMade scene.new.conditions scene.new.made scene.new.tail) }
{
    scene.tail = scene.conditions.make_rest(alloc)?;
    Ok(())
}

fn at_most(scene: &mut Scene, below: usize, above: usize) -> Result<(), NoMemory>
    requires { AreMade scene.old.conditions scene.old.made scene.old.tail }
    ensures { OnOk result (AreMade scene.new.conditions scene.new.made scene.new.tail) }
{
    let below = term(scene, below)?;
    let above = term(scene, above)?;
    scene.conditions.at_most(below, above)?;
    scene.tail = Tail::Closed;
    Ok(())
}

fn take(alloc: Global, scene: &mut Scene, step: &Step) -> Result<(), NoMemory>
    requires { AreMade scene.old.conditions scene.old.made scene.old.tail }
    ensures { OnOk result (AreMade scene.new.conditions scene.new.made scene.new.tail) }
{
    match step {
        Step::Named { name, arguments } => named(alloc, scene, name, arguments),
        Step::Function { from, to } => function(scene, *from, *to),
        Step::Tuple { parts } => tuple(alloc, scene, parts),
        Step::Variable { flag } => variable(scene, *flag),
        Step::Record { fields } => record(alloc, scene, fields),
        Step::Rest => rest(alloc, scene),
        Step::AtMost { below, above } => at_most(scene, *below, *above),
    }
}

fn take_all(alloc: Global, scene: &mut Scene, steps: &[Step]) -> Result<(), NoMemory>
    requires { AreMade scene.old.conditions scene.old.made scene.old.tail }
    ensures { OnOk result (AreMade scene.new.conditions scene.new.made scene.new.tail) }
{
    for step in steps {
        take(alloc, scene, step)?;
    }
    Ok(())
}

// Whether the two types can be equal; else the scene is of no use.
fn equate(alloc: Global, scene: &mut Scene, a: usize, b: usize) -> Result<bool, NoMemory>
    requires { AreMade scene.old.conditions scene.old.made scene.old.tail }
{
    let a = term(scene, a)?;
    let b = term(scene, b)?;
    match scene.conditions.equate(alloc, a, b) {
        Ok(()) => Ok(true),
        Err(Halt::Because(_)) => Ok(false),
        Err(Halt::NoMemory) => Err(NoMemory),
    }
}

fn decide(
    alloc: Global,
    scene: &mut Scene,
    equation: Option<(usize, usize)>,
) -> Result<Option<bool>, NoMemory>
    requires { AreMade scene.old.conditions scene.old.made scene.old.tail }
{
    if let Some((a, b)) = equation {
        if !equate(alloc, scene, a, b)? {
            return Ok(None);
        }
    }
    let satisfiable = scene.conditions.are_satisfiable(alloc)?;
    Ok(Some(satisfiable))
}

/// Whether any types satisfy what the steps ask, and then the equation; `None` where that one is refused.
pub fn answer(
    alloc: Global,
    steps: &[Step],
    equation: Option<(usize, usize)>,
) -> Result<Option<bool>, NoMemory> {
    let mut scene = Scene {
        conditions: Conditions::new(alloc)?,
        made: Items::new(alloc),
        tail: Tail::Closed,
    };
    take_all(alloc, &mut scene, steps)?;
    decide(alloc, &mut scene, equation)
}
