//! A term under a condition.
ghost use Rattle.std.specs.Prelude.{◌≡◌, Err, IfOk, Ok};
ghost use Rattle.elm_base.specs.declared.memory.Halt.TheVariants as halt;
ghost use Rattle.type_terms.specs.declared.no_solution.NoSolution.{NoSolution};

use elm_base::Halt;
use type_terms::{NoSolution, TermId};

/// The term, where the condition wasn't refused.
pub fn given(done: Result<(), Halt<NoSolution>>, at: TermId) -> Result<TermId, Halt<NoSolution>>
    ensures done { IfOk result (λ to. (to ≡ at) × (done ≡ Ok tt)) }
    ensures refused { (why : NoSolution) → result ≡ Err (halt.Because why)
        → done ≡ Err (halt.Because why) }
{
    match done {
        Ok(()) => Ok(at),
        Err(halt) => Err(halt),
    }
}
