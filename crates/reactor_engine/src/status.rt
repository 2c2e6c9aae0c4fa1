//! How a run ends.
ghost use Rattle.std.specs.Prelude.{◌≡◌};
ghost use Rattle.reactor_engine.specs.Status.{code_of};

use elm_base::NoMemory;

/// How a run of the program ends.
#[derive(Clone, Copy, Debug, PartialEq, Eq)]
pub enum Status {
    /// All was read and answered.
    Done,
    /// The words of the command line are of no form.
    Usage,
    /// The project has a fault.
    ProjectRefused,
    /// A read of the script failed.
    ReadFault,
    /// A write to the screen failed.
    WriteFault,
    /// A read of the project's file failed.
    ShelfFault,
    /// The script has more than 2^30 bytes.
    ScriptTooLong,
    NoMemory,
}

impl Status {
    /// The code with which the program ends: 0 for a whole run, and from 2 on for the others in order.
    pub fn code(self) -> u8
        ensures { result ≡ code_of self }
    {
        match self {
            Status::Done => 0,
            Status::Usage => 2,
            Status::ProjectRefused => 3,
            Status::ReadFault => 4,
            Status::WriteFault => 5,
            Status::ShelfFault => 6,
            Status::ScriptTooLong => 7,
            Status::NoMemory => 8,
        }
    }
}

impl From<NoMemory> for Status {
    ghost use Rattle.std.specs.Prelude.{◌≡◌};
    ghost use Rattle.reactor_engine.specs.declared.status.Status.TheVariants as status;

    ghost from_gives = { λ _ given. given ≡ status.NoMemory };

    fn from(_: NoMemory) -> Status {
        Status::NoMemory
    }
}
