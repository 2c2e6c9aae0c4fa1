//! Laws of a project's visits.
ghost use Rattle.std.specs.Prelude.{ℕ, List};
ghost use Rattle.reactor_outside.specs.Shelf.{Files};
ghost use Rattle.module_visits.specs.Visits.{Agree, Loads, Outcome};

/// The visits of a project have one outcome: its modules in their order or its first fault, and not both. Only a failed
/// read may stand in its place.
pub fn one_outcome()
    ensures { (files : Files) (folder : List ℕ) (o p : Outcome)
        → Loads files folder o → Loads files folder p → Agree o p }
{}
