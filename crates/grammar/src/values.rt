//! Steps with a value at hand, whatever it is. A function that holds a tree over an early return is dear to prove, since it
//! has to let the whole tree go there; one that hands it to these isn't.
ghost use Rattle.std.specs.Prelude.{◌≡◌, ◌≢◌, Some, None, Ok, Err, if◌then◌else◌, IfOk, MatchResult};
ghost use Rattle.elm_base.specs.declared.memory.Halt.TheVariants as halt;
ghost use Rattle.grammar.specs.Reader as spec;
ghost use Rattle.grammar.specs.Wholes.{Entire};

use crate::cursor::{Cursor, NoTree};
use crate::terminal::Terminal;
use elm_base::Halt;
use sqlite_items::Boxed;
use std::alloc::{AllocError, Global};

/// The value, where this token stands behind it.
pub fn terminated<T: Drop>(
    value: T,
    tokens: &mut Cursor<'_>,
    symbol: Terminal,
) -> Result<T, Halt<NoTree>>
    ensures given { IfOk result (λ given. given ≡ value) }
    ensures reads { MatchResult result (λ _. spec.mark symbol tokens.old ≡ Some (tt, tokens.new))
        (λ cause. cause ≢ halt.NoMemory → spec.mark symbol tokens.old ≡ None) }
{
    tokens.expect(symbol)?;
    Ok(value)
}

/// The value, where it passes, and else the error.
pub fn verified<T: Drop, E: Drop>(value: T, passes: bool, error: E) -> Result<T, E>
    ensures { result ≡ (if passes then Ok value else Err error) }
{
    if passes { Ok(value) } else { Err(error) }
}

/// The tree, where no token is left behind it and it nests within the limit.
pub fn entire<T: Drop>(tree: T, tokens: &Cursor<'_>, nests: bool) -> Result<T, Halt<NoTree>>
    ensures { Entire (spec.is_done tokens.now) nests tree result }
{
    verified(tree, tokens.is_empty() && nests, Halt::Because(NoTree))
}

/// Both values, where there is a second one.
pub fn paired<T: Drop, U, E>(first: T, second: Result<U, E>) -> Result<(T, U), E>
    ensures { MatchResult second (λ second. result ≡ Ok (first, second)) (λ error. result ≡ Err error) }
{
    match second {
        Ok(second) => Ok((first, second)),
        Err(error) => Err(error),
    }
}

/// Both values, each in a box.
pub fn boxed_pair<T: Drop, U: Drop>(
    alloc: Global,
    first: T,
    second: U,
) -> Result<(Boxed<T>, Boxed<U>), AllocError>
    ensures { IfOk result (λ pair. pair ≡ (first, second)) }
{
    let first = Boxed::new(alloc, first)?;
    Ok((first, Boxed::new(alloc, second)?))
}
