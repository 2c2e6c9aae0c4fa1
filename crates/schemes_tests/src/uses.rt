//! Uses of schemes beside other types.
ghost use Rattle.std.specs.Prelude.{◌≡◌, [], Some, IfOk, OnOk};
ghost use Rattle.type_terms.specs.declared.shape.Shape.TheVariants.{Row};
ghost use Rattle.type_unify.specs.Rests.{IsType};
ghost use Rattle.type_conditions.specs.Conditions.{terms_in};
ghost use Rattle.type_conditions.specs.Judging.{Grows};
ghost use Rattle.type_schemes.specs.declared.part.Part.TheVariants.{Shaped};

use elm_base::{Halt, Name, NoMemory};
use sqlite_items::Items;
use std::alloc::Global;
use std::process::Abort;
use std::test::Fail;
use type_conditions::Conditions;
use type_schemes::{Part, Scheme};
use type_terms::{Flag, NoSolution, Shape, TermId};

// Functions from any type to the same type.
fn same_to_same(alloc: Global) -> Result<Scheme, NoMemory> {
    let mut parts = Items::new(alloc);
    parts.push(Part::Shaped {
        shape: Shape::Variable { flag: Flag::Plain },
    })?;
    parts.push(Part::Shaped {
        shape: Shape::Arrow { from: 0, to: 0 },
    })?;
    Ok(Scheme::new(parts, Items::new(alloc), 1))
}

// A new part for the record without fields over this rest.
fn bare_row(alloc: Global, rest: TermId) -> Part
    ensures { result ≡ Shaped (Row [] (Some rest)) }
{
    let fields = Items::new(alloc);
    let rest = Some(rest);
    Part::Shaped {
        shape: Shape::Row { fields, rest },
    }
}

// Functions from the record without fields over an opaque rest to any record, with a note between both.
fn bare_to_any(alloc: Global) -> Result<Scheme, NoMemory> {
    let mut parts = Items::new(alloc);
    parts.push(Part::Rigid { number: 3 })?;
    parts.push(Part::Rest)?;
    parts.push(bare_row(alloc, 0))?;
    parts.push(bare_row(alloc, 1))?;
    parts.push(Part::Shaped {
        shape: Shape::Arrow { from: 2, to: 3 },
    })?;
    let mut notes = Items::new(alloc);
    notes.push((2, 3))?;
    Ok(Scheme::new(parts, notes, 4))
}

// A new term for a type without arguments.
fn base(alloc: Global, conditions: &mut Conditions, name: &str) -> Result<TermId, NoMemory>
    ensures grows { OnOk result (Grows conditions.old conditions.new) }
    ensures is_type { IfOk result (IsType (terms_in conditions.new)) }
{
    let name = Name::of(alloc, name.as_bytes())?;
    conditions.make(Shape::Named {
        name,
        arguments: Items::new(alloc),
    })
}

// A copy of the scheme is to be a function between these types.
fn use_as(
    alloc: Global,
    conditions: &mut Conditions,
    scheme: &Scheme,
    from: &str,
    to: &str,
) -> Result<(), Halt<NoSolution>> {
    let from = base(alloc, conditions, from)?;
    let to = base(alloc, conditions, to)?;
    let function = conditions.make(Shape::Arrow { from, to })?;
    let copied = scheme.instance(alloc, conditions)?;
    conditions.equate(alloc, copied, function)
}

// Whether a scheme may be used as each of these functions.
fn uses(alloc: Global, scheme: &Scheme, rows: &[(&str, &str)]) -> Result<bool, NoMemory> {
    let mut conditions = Conditions::new(alloc)?;
    for (from, to) in rows {
        match use_as(alloc, &mut conditions, scheme, from, to) {
            Ok(()) => {}
            Err(Halt::NoMemory) => return Err(NoMemory),
            Err(Halt::Because(_)) => return Ok(false),
        }
    }
    conditions.are_satisfiable(alloc)
}

// How many terms there are, and how many are to be well sorted, after a copy and after it is taken back.
fn counts(alloc: Global, scheme: &Scheme) -> Result<[(usize, usize); 2], NoMemory> {
    let mut conditions = Conditions::new(alloc)?;
    let mark = conditions.mark();
    scheme.instance(alloc, &mut conditions)?;
    let copied = (
        conditions.types().store().terms(),
        conditions.proper().len(),
    );
    conditions.undo(mark);
    let left = (
        conditions.types().store().terms(),
        conditions.proper().len(),
    );
    Ok([copied, left])
}

#[test]
fn each_use_has_a_type_of_its_own(rt: HostRuntime) -> Result<(), Fail> {
    let alloc = rt.alloc();
    let scheme = same_to_same(alloc)?;
    let (int, char) = ("Basics.Int", "Basics.Char");
    assert_eq!(rt; uses(alloc, &scheme, &[(int, int), (char, char)])?, true);
    assert_eq!(rt; uses(alloc, &scheme, &[(int, char)])?, false);
    Ok(())
}

#[test]
fn copies_are_taken_back(rt: HostRuntime) -> Result<(), Fail> {
    let alloc = rt.alloc();
    let scheme = bare_to_any(alloc)?;
    assert_eq!(rt; counts(alloc, &scheme)?, [(9, 5), (0, 0)]);
    Ok(())
}
