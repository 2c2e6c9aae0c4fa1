//! Numbers of binders, and what the names of a numbered definition stand for.
ghost use Rattle.std.specs.Prelude.{◌≡◌, ◌+◌, IfOk, map, take, option_copied, IsTrue, true, false};
ghost use Rattle.plain_form.specs.Numbering.{comes_before as before, number_before, own_before};
ghost use Rattle.plain_form.specs.Naming.{same_place as same, groups_at};
ghost use Rattle.type_sense.specs.WrittenOf.{written_of};
ghost use Rattle.core_names.specs.Tables.{naming, tables_of, maker_in, top_core};
ghost use Rattle.core_names.specs.Binding as spec;

use crate::binders::Binders;
use crate::constructors::constructor_of;
use crate::makers::{Made, maker_called, written_type};
use crate::names::{Names, same_place};
use crate::tops::{TopThing, top_called};
use alias_expansion::Room;
use elm_base::{At, Group, Name, NoMemory, Thing, TypeTree};
use sqlite_items::Items;
use std::alloc::Global;

/// The names of a definition with its binders, which are numbered from 0 by their places. The further ones of field functions,
/// tuple makers and makers come after all others.
#[derive(Clone, Copy)]
pub struct Numbered<'a> {
    pub names: Names<'a>,
    pub binders: &'a Binders,
}

/// A number that doesn't fit is want of memory.
pub fn small(number: usize) -> Result<u32, NoMemory>
    ensures { IfOk result (λ found. found ≡ number) }
{
    if number > u32::MAX as usize {
        return Err(NoMemory);
    }
    Ok(number as u32)
}

fn comes_before(a: At, b: At) -> bool
    ensures { result ≡ before a b }
{
    a.line < b.line || (a.line == b.line && a.column < b.column)
}

/// How many of these places come before one.
fn count_before(at: At, places: &[At]) -> Result<usize, NoMemory>
    ensures { IfOk result (λ count. count ≡ number_before at places.now) }
{
    let mut count: usize = 0;
    let mut left = places;
    while let [place, more @ ..] = left {
        if comes_before(*place, at) {
            count = count.checked_add(1).ok_or(NoMemory)?;
        }
        left = more;
    }
    Ok(count)
}

/// How many further binders come before a place.
fn further_before(at: At, own: &[(At, u32)]) -> Result<usize, NoMemory>
    ensures { IfOk result (λ count. count ≡ own_before at own.now) }
{
    let mut count: usize = 0;
    let mut left = own;
    while let [(place, further), more @ ..] = left {
        if comes_before(*place, at) {
            count = count.checked_add(*further as usize).ok_or(NoMemory)?;
        }
        left = more;
    }
    Ok(count)
}

impl<'a> Numbered<'a> {
    /// What the name at a place stands for.
    #[tactic(auto, unfolding(crate::specs::Tables::naming, crate::specs::Binding::names_of))]
    pub fn thing(&self, at: At) -> Option<&'a Thing>
        ensures { option_copied result ≡ (spec.names_of self.now).thing at }
    {
        self.names.thing(at)
    }

    /// The number of the binder at a place.
    #[tactic(auto, unfolding(crate::specs::Binding::names_of))]
    pub fn number(&self, at: At) -> Result<u32, NoMemory>
        ensures { IfOk result (λ number. number ≡ (spec.names_of self.now).number at) }
    {
        small(count_before(at, self.binders.places())?)
    }

    /// The number of a further binder that is wanted at a place, counted from 0.
    #[tactic(auto, unfolding(crate::specs::Binding::names_of))]
    pub fn own(&self, at: At, further: u32) -> Result<u32, NoMemory>
        ensures { IfOk result (λ number. number ≡ (spec.names_of self.now).own at further) }
    {
        let before = further_before(at, self.binders.further())?;
        let all = self.binders.places().len();
        let count = all.checked_add(before).ok_or(NoMemory)?;
        small(count.checked_add(further as usize).ok_or(NoMemory)?)
    }

    /// The groups of the block at a place, in order, each by the places of its definitions.
    #[tactic(auto, unfolding(crate::specs::Tables::naming, crate::specs::Binding::names_of))]
    pub fn groups(&self, alloc: Global, at: At) -> Result<Items<&'a [At]>, NoMemory>
        ensures { IfOk result (λ groups. map (λ members. members.now) groups
            ≡ (spec.names_of self.now).groups at) }
    {
        groups_of(alloc, self.names.groups, self.names.module, at)
    }

    /// What a name at the top level of a module is.
    #[tactic(auto, unfolding(crate::specs::Tables::naming, crate::specs::Binding::names_of))]
    pub fn top(&self, module: &[u8], name: &[u8]) -> Option<TopThing>
        ensures { top_core result ≡ (spec.names_of self.now).top «module».now name.now }
    {
        top_called(self.names.tops, module, name)
    }

    /// The union of a module's constructor, by its name behind that of its module, and how many arguments it takes.
    #[tactic(auto, unfolding(crate::specs::Tables::naming, crate::specs::Binding::names_of))]
    pub fn constructor(
        &self,
        alloc: Global,
        module: &[u8],
        name: &[u8],
    ) -> Result<(Name, u32), NoMemory>
        ensures { IfOk result (λ found. found
            ≡ (spec.names_of self.now).constructor «module».now name.now) }
    {
        let (union, count) = constructor_of(alloc, self.names.unions, module, name)?;
        Ok((union, small(count)?))
    }

    /// The function that an alias of a module makes.
    #[tactic(auto, unfolding(crate::specs::Tables::naming, crate::specs::Binding::names_of))]
    pub fn maker(&self, alloc: Global, module: &[u8], name: &[u8]) -> Result<Made, NoMemory>
        ensures { IfOk result (λ made. maker_in made
            ≡ (spec.names_of self.now).maker «module».now name.now) }
    {
        maker_called(alloc, self.names.aliases, module, name)
    }

    /// A type text of the definition without aliases. It takes room where it names aliases.
    #[tactic(auto, unfolding(crate::specs::Tables::naming, crate::specs::Binding::names_of))]
    pub fn written(
        &self,
        alloc: Global,
        tree: &TypeTree,
        room: &mut Room,
    ) -> Result<TypeTree, NoMemory>
        ensures { IfOk result (λ written. written_of written
            ≡ (spec.names_of self.now).written tree.now) }
    {
        written_type(alloc, tree, self.names.aliases, &self.names.scope, room)
    }
}

/// The groups of the block at this place of the module, in order.
fn groups_of<'a>(
    alloc: Global,
    groups: &'a [Group],
    module: &[u8],
    at: At,
) -> Result<Items<&'a [At]>, NoMemory>
    ensures { IfOk result (λ found. map (λ members. members.now) found
        ≡ groups_at «module».now at groups.now) }
{
    let mut found = Items::new(alloc);
    let mut left = groups;
    while let [group, more @ ..] = left {
        if group.module.bytes() == module && same_place(group.block, at) {
            found.push(group.members.as_slice())?;
        }
        left = more;
    }
    Ok(found)
}
