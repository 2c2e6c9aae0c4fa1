//! What is declared of operators.
ghost use Rattle.std.specs.Prelude.{◌≡◌, [], ◌∷◌, ◌++◌, map, OnOk};
ghost use Rattle.operator_trees.specs.Levels as spec;

use crate::binding::Binding;
use elm_base::{Name, NoMemory, Side};
use sqlite_items::Items;
use std::alloc::Global;

/// What the language declares before every module.
const STANDARD: [(&[u8], u32, Side); 21] = [
    (b"<<", 9, Side::Right),
    (b">>", 9, Side::Left),
    (b"*", 7, Side::Left),
    (b"//", 7, Side::Left),
    (b"%", 7, Side::Left),
    (b"+", 6, Side::Left),
    (b"-", 6, Side::Left),
    (b"++", 5, Side::Right),
    (b"::", 5, Side::Right),
    (b"==", 4, Side::Neither),
    (b"/=", 4, Side::Neither),
    (b"<", 4, Side::Neither),
    (b">", 4, Side::Neither),
    (b"<=", 4, Side::Neither),
    (b">=", 4, Side::Neither),
    (b"<~", 4, Side::Left),
    (b"~", 4, Side::Left),
    (b"&&", 3, Side::Right),
    (b"||", 2, Side::Right),
    (b"|>", 0, Side::Left),
    (b"<|", 0, Side::Right),
];

/// What the language declares of this spelling.
fn standard(entries: &[(&[u8], u32, Side)], name: &[u8]) -> Option<Binding>
    ensures { result ≡ spec.found (map (λ e. (e.0.now, spec.at_level e.1 e.2)) entries.now) name.now }
{
    match entries {
        [] => None,
        [(spelling, level, side), rest @ ..] => {
            if name == *spelling {
                Some(Binding {
                    level: *level,
                    side: *side,
                })
            } else {
                standard(rest, name)
            }
        }
    }
}

/// What the first of these says of the spelling.
fn found(entries: &[(Name, Binding)], name: &[u8]) -> Option<Binding>
    ensures { result ≡ spec.found entries.now name.now }
{
    match entries {
        [] => None,
        [(spelling, binding), rest @ ..] => {
            if name == spelling.bytes() {
                Some(*binding)
            } else {
                found(rest, name)
            }
        }
    }
}

/// The levels and sides of the operators of a project.
#[derive(Drop)]
pub struct Levels {
    declared: Items<(Name, Binding)>,
}

impl Levels {
    /// What the language itself declares, and nothing besides.
    pub fn new(alloc: Global) -> Levels
        ensures { result.declared ≡ [] }
    {
        Levels {
            declared: Items::new(alloc),
        }
    }

    /// The level and side of the operator with this spelling.
    pub fn binding(&self, name: &[u8]) -> Binding
        ensures { result ≡ spec.binding_of self.now.declared name.now }
    {
        let declared = found(self.declared.as_slice(), name).unwrap_or(Binding {
            level: 9,
            side: Side::Left,
        });
        standard(&STANDARD, name).unwrap_or(declared)
    }

    /// Declares the level and side of an operator. What was declared of it before counts on.
    pub fn declare(&mut self, name: Name, binding: Binding) -> Result<(), NoMemory>
        ensures { OnOk result (self.new.declared ≡ self.old.declared ++ (name, binding) ∷ []) }
    {
        self.declared.push((name, binding))?;
        Ok(())
    }
}
