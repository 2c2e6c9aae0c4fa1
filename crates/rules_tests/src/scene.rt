//! A rule, applied to terms of written types.
ghost use Rattle.std.specs.Prelude.{◌≡◌, IfOk, true};
ghost use Rattle.type_conditions.specs.Conditions.{terms_in};
ghost use Rattle.type_sense.specs.WrittenOf.{written_of};
ghost use Rattle.type_unify.specs.Rests.{IsType};
ghost use Rattle.written_sorts.specs.Sorting.{bars_hold};

use elm_base::{Declaration, Halt, Literal, Name, NoMemory, TypeTree};
use layout_lexer::tokens;
use module_parser::module;
use sqlite_items::Items;
use std::alloc::Global;
use std::test::Fail;
use type_conditions::Conditions;
use type_instances::instance;
use type_rules::{
    call, extend, field, has_newest, held, hold_base, list_of, literal, range, remove, signal_of,
};
use type_sense::makes_sense;
use type_terms::{NoSolution, TermId};

/// A rule, for the terms of a first type and a second.
#[derive(Clone, Copy, Debug, PartialEq, Eq)]
pub enum Rule {
    Call,
    Range,
    /// What has the first type is held to the second.
    Held,
    Field,
    /// The second is the type of the first's newest field x.
    Newest,
    Remove,
    /// A field x of the second type over the first.
    Extend,
    List,
    Signal,
    /// The first is Bool.
    Truth,
    /// A number.
    Number,
}

/// What becomes of the rule, where its term has the third type.
#[derive(Clone, Copy, Debug, PartialEq, Eq)]
pub enum Outcome {
    Typed,
    /// What would have the type is not well sorted.
    IllSorted,
    /// No types are as is asked.
    None,
    /// One of the types makes no sense.
    Senseless,
}

/// The first term, which is Bool.
fn truth(
    alloc: Global,
    conditions: &mut Conditions,
    first: TermId,
) -> Result<TermId, Halt<NoSolution>>
    requires { IsType (terms_in conditions.old) first }
    ensures { IfOk result (IsType (terms_in conditions.new)) }
{
    match hold_base(alloc, conditions, first, b"Basics.Bool") {
        Ok(()) => Ok(first),
        Err(halt) => Err(halt),
    }
}

/// The first term, whose newest field x has the second type.
fn newest(
    alloc: Global,
    conditions: &mut Conditions,
    first: TermId,
    second: TermId,
) -> Result<TermId, Halt<NoSolution>>
    requires first { IsType (terms_in conditions.old) first }
    requires second { IsType (terms_in conditions.old) second }
    ensures { IfOk result (IsType (terms_in conditions.new)) }
{
    let label = Name::of(alloc, b"x")?;
    match has_newest(alloc, conditions, first, &label, second) {
        Ok(()) => Ok(first),
        Err(halt) => Err(halt),
    }
}

/// A record with one field more.
fn wider(
    alloc: Global,
    conditions: &mut Conditions,
    first: TermId,
    second: TermId,
) -> Result<TermId, Halt<NoSolution>>
    requires first { IsType (terms_in conditions.old) first }
    requires second { IsType (terms_in conditions.old) second }
    ensures { IfOk result (IsType (terms_in conditions.new)) }
{
    let label = Name::of(alloc, b"x")?;
    let mut fields = Items::new(alloc);
    fields.push((label, second))?;
    extend(alloc, conditions, first, fields)
}

/// The term of the rule.
fn made(
    alloc: Global,
    conditions: &mut Conditions,
    rule: Rule,
    first: TermId,
    second: TermId,
    tree: &TypeTree,
) -> Result<TermId, Halt<NoSolution>>
    requires first { IsType (terms_in conditions.old) first }
    requires second { IsType (terms_in conditions.old) second }
    requires bars { bars_hold (written_of tree.now) ≡ true }
    ensures { IfOk result (IsType (terms_in conditions.new)) }
{
    let label = Name::of(alloc, b"x")?;
    match rule {
        Rule::Call => call(alloc, conditions, first, second),
        Rule::Range => range(alloc, conditions, first, second),
        Rule::Held => held(alloc, conditions, first, tree),
        Rule::Field => field(alloc, conditions, first, &label),
        Rule::Remove => remove(alloc, conditions, first, &label),
        Rule::Extend => wider(alloc, conditions, first, second),
        Rule::List => Ok(list_of(alloc, conditions, first)?),
        Rule::Signal => Ok(signal_of(alloc, conditions, first)?),
        Rule::Number => Ok(literal(alloc, conditions, &Literal::Int(7))?),
        Rule::Newest => newest(alloc, conditions, first, second),
        Rule::Truth => truth(alloc, conditions, first),
    }
}

fn typed(
    alloc: Global,
    rule: Rule,
    first: &TypeTree,
    second: &TypeTree,
    third: &TypeTree,
) -> Result<Outcome, Halt<NoSolution>>
    requires first { bars_hold (written_of first.now) ≡ true }
    requires second { bars_hold (written_of second.now) ≡ true }
    requires third { bars_hold (written_of third.now) ≡ true }
{
    let mut conditions = Conditions::new(alloc)?;
    let one = instance(alloc, first, &mut conditions)?;
    let two = instance(alloc, second, &mut conditions)?;
    let whole = made(alloc, &mut conditions, rule, one, two, second)?;
    let wanted = instance(alloc, third, &mut conditions)?;
    conditions.equate(alloc, whole, wanted)?;
    if conditions.are_satisfiable(alloc)? {
        return Ok(Outcome::Typed);
    }
    Ok(Outcome::IllSorted)
}

fn becomes(
    alloc: Global,
    rule: Rule,
    first: &TypeTree,
    second: &TypeTree,
    third: &TypeTree,
) -> Result<Outcome, NoMemory> {
    if !makes_sense(alloc, first)? || !makes_sense(alloc, second)? || !makes_sense(alloc, third)? {
        return Ok(Outcome::Senseless);
    }
    match typed(alloc, rule, first, second, third) {
        Ok(outcome) => Ok(outcome),
        Err(Halt::Because(_)) => Ok(Outcome::None),
        Err(Halt::NoMemory) => Err(NoMemory),
    }
}

/// What becomes of a rule where the three ports of a module have the types.
pub fn try_rule(alloc: Global, rule: Rule, text: &str) -> Result<Outcome, Fail> {
    let cut = tokens(alloc, text.as_bytes())?;
    let tree = module(alloc, cut.as_slice())?;
    match tree.declarations.as_slice() {
        [
            Declaration::PortAnnotation { written: first, .. },
            Declaration::PortAnnotation {
                written: second,
                ..
            },
            Declaration::PortAnnotation { written: third, .. },
        ] => Ok(becomes(alloc, rule, first, second, third)?),
        _ => Ok(Outcome::Senseless),
    }
}
