use elm_base::{Name, Spot};

/// What a name of a value stands for in the module that defines it.
#[derive(Drop)]
pub enum Kind {
    /// A definition, a port, a native or a device.
    Value,
    /// A constructor of this type.
    Constructor { of: Name },
    /// The function that an alias of a closed record makes.
    Maker,
}

/// A name that a module defines at its top level.
#[derive(Drop)]
pub struct Top {
    pub spot: Spot,
    pub kind: Kind,
}
