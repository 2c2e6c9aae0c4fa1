use elm_base::Name;
use sqlite_items::Items;

/// What a frame shows of a run at a cursor. A fresh run of the program on the first events gives the same.
#[derive(Drop)]
pub struct Parts {
    /// How many of the recorded events the frame shows.
    pub cursor: u32,
    /// How many events are recorded.
    pub events: u32,
    /// The rows of the screen from top to bottom. Spaces at the end of a row aren't shown.
    pub rows: Items<Name>,
    /// Each outbound port with the text of its value, by line of declaration.
    pub outs: Items<(Name, Name)>,
    /// Each async for which changes wait, with their number.
    pub pending: Items<(u32, u32)>,
    /// Each tag that is watched with the last text that was noted under it, in the order of first notes.
    pub watches: Items<(Name, Name)>,
    /// The tags and texts that were logged in the event before the cursor, in order.
    pub logs: Items<(Name, Name)>,
    /// Where and why the run has stopped, if it has: the event, the place and the fault.
    pub stop: Option<Name>,
}
