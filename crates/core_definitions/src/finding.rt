//! Modules by their names, and definitions by their places.
ghost use Rattle.std.specs.Prelude.{◌≡◌, option_copied};
ghost use Rattle.core_definitions.specs.Definitions as spec;

use core_names::same_place;
use elm_base::{At, Declaration, Module};

/// Whether the declaration defines a value and stands at this place.
fn stands_at(declaration: &Declaration, at: At) -> bool
    ensures { result ≡ spec.stands_at at declaration.now }
{
    match declaration {
        Declaration::Definition { at: place, .. } => same_place(*place, at),
        Declaration::PortDefinition { at: place, .. } => same_place(*place, at),
        Declaration::PortAnnotation { at: place, .. } => same_place(*place, at),
        Declaration::Device { at: place, .. } => same_place(*place, at),
        _ => false,
    }
}

/// The first of these declarations that defines a value at this place.
pub fn declared_at(declarations: &[Declaration], at: At) -> Option<&Declaration>
    ensures { option_copied result ≡ spec.declared_at at declarations.now }
{
    let mut left = declarations;
    while let [declaration, more @ ..] = left {
        if stands_at(declaration, at) {
            return Some(declaration);
        }
        left = more;
    }
    None
}

/// The first of these modules that has this name.
pub fn module_named<'a>(modules: &'a [Module], home: &[u8]) -> Option<&'a Module>
    ensures { option_copied result ≡ spec.module_named home.now modules.now }
{
    let mut left = modules;
    while let [module, more @ ..] = left {
        if module.name.bytes() == home {
            return Some(module);
        }
        left = more;
    }
    None
}
