//! Blank rectangles.
ghost use Rattle.std.specs.Prelude.{◌≡◌, ◌≤◌, pos, replicate, IfOk, [], ◌∷◌};
ghost use Rattle.elm_meaning.specs.Values.{Int};
ghost use Rattle.elm_meaning.specs.Layout.{spacer as spacer_native};
ghost use Rattle.cell_rows.specs.Elements.{LaysOut};

use crate::bytes::padded;
use crate::types::Cells;
use elm_base::{Name, NoMemory};
use sqlite_items::Items;
use std::alloc::Global;

/// Spaces, so wide and so high: at most 1,000 either way.
pub fn spacer(alloc: Global, width: u32, height: u32) -> Result<Cells, NoMemory>
    requires wide { width ≤ 1000 }
    requires high { height ≤ 1000 }
    ensures { IfOk result (LaysOut (spacer_native (Int (pos width) ∷ Int (pos height) ∷ []))) }
{
    let rows = blank_rows(alloc, width, height)?;
    Ok(Cells {
        width,
        height,
        rows,
    })
}

fn blank_rows(alloc: Global, width: u32, height: u32) -> Result<Items<Name>, NoMemory>
    ensures { IfOk result (λ rows. rows ≡ replicate height (replicate width 32)) }
{
    let mut rows = Items::new(alloc);
    for at in 0..height {
        rows.push(padded(alloc, b"", width as usize)?)?;
    }
    Ok(rows)
}
