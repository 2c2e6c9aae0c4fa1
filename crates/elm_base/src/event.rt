use crate::name::Name;
use sqlite_items::{Boxed, Items};

/// The type of a port or a device. The fields of a record stand in byte order of their labels.
#[derive(Drop)]
pub enum PortType {
    Unit,
    Int,
    Bool,
    Text,
    Maybe(Boxed<PortType>),
    List(Boxed<PortType>),
    Tuple(Items<PortType>),
    Fields(Items<(Name, PortType)>),
}

/// A value of a port type. The fields of a record stand in byte order of their labels.
#[derive(Drop)]
pub enum PortValue {
    Unit,
    Int(i64),
    Bool(bool),
    Text(Name),
    Nothing,
    Just(Boxed<PortValue>),
    List(Items<PortValue>),
    Tuple(Items<PortValue>),
    Fields(Items<(Name, PortValue)>),
}

/// One event of a run. Programs change at events alone.
#[derive(Drop)]
pub enum Event {
    /// An input or a device takes the value, which is one of the type.
    Input {
        name: Name,
        port: PortType,
        value: PortValue,
    },
    /// The oldest waiting change of this async is delivered.
    Deliver {
        number: u32,
    },
}
