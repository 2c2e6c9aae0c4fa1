//! Steps on lists and places, whatever stands in them.
ghost use Rattle.std.specs.Prelude.{◌≡◌, ◌≢◌, [], ◌∷◌, ◌++◌, reverse, Ok, Err, IfOk, MatchResult};
ghost use Rattle.elm_base.specs.declared.memory.Halt.TheVariants as halt;

use elm_base::{Halt, NoMemory};
use sqlite_items::{Boxed, Items};
use std::alloc::Global;

/// The items, the last one first. They are taken out.
pub fn turned<T: Drop>(alloc: Global, items: &mut Items<T>) -> Result<Items<T>, NoMemory>
    ensures { IfOk result (λ back. (back ≡ reverse items.old) × (items.new ≡ [])) }
{
    let mut back = Items::new(alloc);
    'turns: while let Some(item) = items.pop() {
        back.push(item)?;
    }
    Ok(back)
}

/// What was made, in a box.
pub fn boxed<T: Drop, E>(alloc: Global, made: Result<T, Halt<E>>) -> Result<Boxed<T>, Halt<E>>
    ensures { MatchResult result (λ x. made ≡ Ok x)
        (λ cause. cause ≢ halt.NoMemory → made ≡ Err cause) }
{
    match made {
        Ok(value) => Ok(Boxed::new(alloc, value)?),
        Err(cause) => Err(cause),
    }
}

/// The item goes to the end, and the outcome is handed on.
pub fn kept<T: Drop, E: Drop>(
    items: &mut Items<T>,
    item: T,
    outcome: Result<(), Halt<E>>,
) -> Result<(), Halt<E>>
    ensures { MatchResult result
        (λ _. (outcome ≡ Ok tt) × (items.new ≡ items.old ++ item ∷ []))
        (λ cause. cause ≢ halt.NoMemory → outcome ≡ Err cause) }
{
    match items.push(item) {
        Ok(()) => outcome,
        Err(_) => Err(Halt::NoMemory),
    }
}

/// The first outcome where it is an error, and else the second.
pub fn both<E: Drop>(first: Result<(), E>, second: Result<(), E>) -> Result<(), E>
    ensures { MatchResult first (λ _. result ≡ second) (λ cause. result ≡ Err cause) }
{
    match first {
        Ok(()) => second,
        Err(cause) => Err(cause),
    }
}
