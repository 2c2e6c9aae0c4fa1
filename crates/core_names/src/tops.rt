//! Names at the top level of modules.
ghost use Rattle.std.specs.Prelude.{◌≡◌, option_map};
ghost use Rattle.core_names.specs.Tables as spec;

use elm_base::{Name, NativeId};

/// What a definition at the top level is, of those that the code knows by a number.
#[derive(Clone, Copy)]
pub enum TopThing {
    /// A native of the library.
    Native { number: NativeId },
    /// A top value, by its place among them. An inbound port and a device are top values, too: they have an input as their term.
    Value { number: u32 },
}

/// A name at the top level of a module.
#[derive(Drop)]
pub struct TopName {
    pub module: Name,
    pub name: Name,
    pub thing: TopThing,
}

/// What the module's name stands for, if it is among these.
pub fn top_called(tops: &[TopName], module: &[u8], name: &[u8]) -> Option<TopThing>
    ensures { result ≡ spec.top_called tops.now «module».now name.now }
{
    let mut left = tops;
    while let [top, more @ ..] = left {
        if top.module.bytes() == module && top.name.bytes() == name {
            return Some(top.thing);
        }
        left = more;
    }
    None
}
