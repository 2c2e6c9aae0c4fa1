//! The tables in which the names of a definition are looked up.
ghost use Rattle.std.specs.Prelude.{◌≡◌, option_copied};
ghost use Rattle.plain_form.specs.Naming.{same_place as same};
ghost use Rattle.core_names.specs.Tables.{naming, tables_of};

use crate::tops::TopName;
use alias_expansion::PlainAlias;
use elm_base::{At, Group, Meaning, Thing, UnionOf};
use type_names::TypeScope;

/// Where the names of one top-level definition are looked up.
#[derive(Clone, Copy)]
pub struct Names<'a> {
    /// The module that the definition stands in.
    pub module: &'a [u8],
    /// What each of its names stands for. Those of other definitions may be left out.
    pub meanings: &'a [Meaning],
    /// The groups of its blocks. Those of other definitions may be left out.
    pub groups: &'a [Group],
    /// The top-level names of all modules, but for constructors and makers.
    pub tops: &'a [TopName],
    /// The unions of all modules.
    pub unions: &'a [UnionOf],
    /// The aliases of all modules.
    pub aliases: &'a [PlainAlias],
    /// What the names of types stand for in its module.
    pub scope: TypeScope<'a>,
}

/// Whether both are one place.
pub fn same_place(a: At, b: At) -> bool
    ensures { result ≡ same a b }
{
    a.line == b.line && a.column == b.column
}

impl<'a> Names<'a> {
    /// What the name at a place stands for.
    #[tactic(auto, unfolding(crate::specs::Tables::naming))]
    pub fn thing(&self, at: At) -> Option<&'a Thing>
        ensures { option_copied result ≡ (naming (tables_of self.now)).thing at }
    {
        let mut left = self.meanings;
        while let [meaning, more @ ..] = left {
            if meaning.module.bytes() == self.module && same_place(meaning.at, at) {
                return Some(&meaning.thing);
            }
            left = more;
        }
        None
    }
}
