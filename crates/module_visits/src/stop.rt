//! Why a project isn't loaded.
use elm_base::{Name, NoMemory, ProjectFault};
use std::alloc::{AllocError, AllocFailed};

/// Why a project isn't loaded.
#[derive(Drop)]
pub enum LoadStop {
    /// The project has this fault.
    Fault(ProjectFault),
    /// A call on the shelf failed, on this file.
    Shelf(Name),
    NoMemory,
}

impl From<NoMemory> for LoadStop {
    ghost use Rattle.std.specs.Prelude.{◌≡◌};
    ghost use Rattle.module_visits.specs.declared.stop.LoadStop.TheVariants as stop;

    ghost from_gives = { λ _ given. given ≡ stop.NoMemory };

    fn from(_: NoMemory) -> LoadStop {
        LoadStop::NoMemory
    }
}

impl From<AllocError> for LoadStop {
    ghost use Rattle.std.specs.Prelude.{◌≡◌};
    ghost use Rattle.module_visits.specs.declared.stop.LoadStop.TheVariants as stop;

    ghost from_gives = { λ _ given. given ≡ stop.NoMemory };

    fn from(_: AllocError) -> LoadStop {
        LoadStop::NoMemory
    }
}
