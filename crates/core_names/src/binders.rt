//! The binders of a definition.
ghost use Rattle.std.specs.Prelude.{◌≡◌, OnOk, pos};
ghost use Rattle.plain_form.specs.Numbering.{no_binders, one, further, both};
ghost use Rattle.core_names.specs.Binding.{listed};

use elm_base::{At, NoMemory};
use sqlite_items::Items;
use std::alloc::Global;

/// The places of a definition's binders, and the places at which further binders are wanted, with how many: at field functions,
/// tuple makers and makers.
#[derive(Drop)]
pub struct Binders {
    places: Items<At>,
    own: Items<(At, u32)>,
}

impl Binders {
    pub fn new(alloc: Global) -> Binders
        ensures { listed result ≡ no_binders }
    {
        Binders {
            places: Items::new(alloc),
            own: Items::new(alloc),
        }
    }

    /// A binder at a place.
    pub fn push(&mut self, at: At) -> Result<(), NoMemory>
        ensures { OnOk result (listed self.new ≡ both (listed self.old) (one at)) }
    {
        self.places.push(at)?;
        Ok(())
    }

    /// So many further binders, wanted at a place.
    pub fn push_further(&mut self, at: At, count: u32) -> Result<(), NoMemory>
        ensures { OnOk result (listed self.new ≡ both (listed self.old) (further at count)) }
    {
        self.own.push((at, count))?;
        Ok(())
    }

    /// The places of the binders, from left to right.
    pub fn places(&self) -> &[At]
        ensures { result.now ≡ (listed self.now).places }
    {
        self.places.as_slice()
    }

    /// The places at which further binders are wanted, with how many.
    pub fn further(&self) -> &[(At, u32)]
        ensures { result.now ≡ (listed self.now).own }
    {
        self.own.as_slice()
    }
}
