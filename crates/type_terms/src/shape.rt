use crate::TermId;
use elm_base::Name;
use elm_typing::Flag;
use sqlite_items::Items;

/// What a term is, over terms of the same store.
#[derive(Drop)]
pub enum Shape {
    /// Some type that has the flag.
    Variable {
        flag: Flag,
    },
    /// The opaque type of this number and flag, or the record without fields whose opaque rest it is.
    Opaque {
        number: u32,
        flag: Flag,
    },
    /// A base type, a union or `Signal.Signal`, by its name with its module.
    Named {
        name: Name,
        arguments: Items<TermId>,
    },
    Arrow {
        from: TermId,
        to: TermId,
    },
    /// A tuple; without parts `()`.
    Tuple {
        parts: Items<TermId>,
    },
    /// A record: these fields over its rest, of one label the newest first. Without a rest it has these fields alone.
    Row {
        fields: Items<(Name, TermId)>,
        rest: Option<TermId>,
    },
}
