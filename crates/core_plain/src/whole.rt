//! A whole definition at the top level.
ghost use Rattle.std.specs.Prelude.{◌≡◌, map, IfOk};
ghost use Rattle.plain_form.specs.PlainForm.{plain as plain_of, plain_pattern, lambdas as nested};
ghost use Rattle.plain_form.specs.Numbering.{numbered, binders_in as wanted_in};
ghost use Rattle.core_trees.specs.Reading.{core_of};
ghost use Rattle.core_names.specs.Tables.{naming, tables_of};
ghost use Rattle.core_plain.specs.Whole.{definition_of};

use crate::walk::plain;
use alias_expansion::Room;
use core_names::{Names, Numbered, binders_in};
use core_parts::plain_patterns;
use core_trees::{CoreTree, lambdas};
use elm_base::{Expr, NoMemory, Pattern};
use std::alloc::Global;

/// The plain form of a definition with these parameters and this body, where its names stand for what `names` says. Its binders
/// are numbered from 0. It takes room where its annotations name aliases.
pub fn plain_definition(
    alloc: Global,
    names: &Names<'_>,
    parameters: &[Pattern],
    body: &Expr,
    room: &mut Room,
) -> Result<CoreTree, NoMemory>
    ensures { IfOk result (λ made. core_of made
        ≡ definition_of (naming (tables_of names.now)) parameters.now body.now) }
{
    let binders = binders_in(alloc, names, parameters, body)?;
    let of = Numbered {
        names: *names,
        binders: &binders,
    };
    let patterns = plain_patterns(alloc, parameters, &of)?;
    let tree = plain(alloc, body, &of, room)?;
    lambdas(alloc, patterns, tree)
}
