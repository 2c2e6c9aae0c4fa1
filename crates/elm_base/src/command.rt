use crate::event::PortType;
use crate::fault::ProjectFault;
use crate::name::Name;

/// What a line of a script asks for.
#[derive(Drop)]
pub enum Command {
    /// The input of this name takes the value that the text spells.
    Input { name: Name, text: Name },
    /// The oldest waiting change of this async is delivered.
    Deliver { number: u32 },
    /// The cursor moves behind this many of the recorded events.
    Goto { cursor: u32 },
    /// The cursor moves behind all recorded events.
    Latest,
    /// The events behind the cursor are dropped.
    Resume,
    /// The program is exchanged for this project's; events and cursor stay.
    Swap { project: Name },
    /// The session is written to this file.
    Save { file: Name },
    /// Events and cursor are taken from this file's session; the program stays.
    Load { file: Name },
    /// The frame is shown again.
    Show,
    /// The script ends here.
    Quit,
}

/// Why a line of a script is refused. A refused line changes nothing.
#[derive(Drop)]
pub enum CommandRefusal {
    /// The cursor stands before the end of the events, so no event can be added.
    Rewound { cursor: u32, events: u32 },
    /// No device and no inbound port of the program has the name.
    UnknownInput { name: Name },
    /// The text is no literal of the input's type.
    BadValue { name: Name, port: PortType },
    /// The async has nothing that waits, or there is no such async.
    NothingPending { number: u32 },
    /// So many events are recorded as may be.
    TooManyEvents { limit: u32 },
    /// The texts of all recorded values would have more bytes than they may.
    RecordTooLarge { limit: u32 },
    /// The cursor that is asked for is above the number of events.
    NoSuchCursor { cursor: u32, events: u32 },
    /// A call on the shelf failed, on this file.
    Shelf { file: Name },
    /// The file isn't there.
    MissingFile { file: Name },
    /// The project has this fault.
    ProjectRefused { fault: ProjectFault },
    /// The file spells no session.
    BadSession,
    /// The event, counted from 1, is the first that doesn't fit the program: no input has its name.
    InputMissing { event: u32, name: Name },
    /// The event, counted from 1, is the first that doesn't fit: its input has another type.
    InputType { event: u32, name: Name },
    /// The program doesn't serve such a line so far.
    Unsupported,
}
