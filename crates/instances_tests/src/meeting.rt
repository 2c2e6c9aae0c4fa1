//! Whether two written types have an instance in common.
use elm_base::{Declaration, Halt, NoMemory, TypeTree};
use layout_lexer::tokens;
use module_parser::module;
use std::alloc::Global;
use std::test::Fail;
use type_conditions::Conditions;
use type_instances::instance;
use type_sense::makes_sense;

/// What becomes of two types.
#[derive(Clone, Copy, Debug, PartialEq, Eq)]
pub enum Meeting {
    /// They have an instance in common.
    Common,
    /// What they have in common is not well sorted.
    IllSorted,
    /// They have nothing in common.
    None,
    /// One of them makes no sense.
    Senseless,
}

fn meet(alloc: Global, left: &TypeTree, right: &TypeTree) -> Result<Meeting, NoMemory> {
    if !makes_sense(alloc, left)? {
        return Ok(Meeting::Senseless);
    }
    if !makes_sense(alloc, right)? {
        return Ok(Meeting::Senseless);
    }
    let mut conditions = Conditions::new(alloc)?;
    let first = instance(alloc, left, &mut conditions)?;
    let second = instance(alloc, right, &mut conditions)?;
    match conditions.equate(alloc, first, second) {
        Err(Halt::Because(_)) => return Ok(Meeting::None),
        Err(Halt::NoMemory) => return Err(NoMemory),
        Ok(()) => {}
    }
    if conditions.are_satisfiable(alloc)? {
        return Ok(Meeting::Common);
    }
    Ok(Meeting::IllSorted)
}

/// What becomes of the types of a module's two ports.
pub fn meet_written(alloc: Global, text: &str) -> Result<Meeting, Fail> {
    let cut = tokens(alloc, text.as_bytes())?;
    let tree = module(alloc, cut.as_slice())?;
    match tree.declarations.as_slice() {
        [
            Declaration::PortAnnotation { written: left, .. },
            Declaration::PortAnnotation { written: right, .. },
        ] => Ok(meet(alloc, left, right)?),
        _ => Ok(Meeting::Senseless),
    }
}
