//! Lists of items that a function value reads. It is named by the parser that it gives, which each caller picks.
ghost use Rattle.std.specs.Prelude.{◌≡◌, [], ◌∷◌};
ghost use Rattle.grammar.specs.declared.terminal.Terminal.TheVariants as k;
ghost use Rattle.grammar.specs.Reader as spec;
ghost use Rattle.grammar.specs.Reader.{Parser, Reads, with_front};
ghost use Rattle.grammar.specs.Lists as lists;
ghost use Rattle.grammar.specs.Lists.{IsReader, ReadsItems};

use crate::cursor::{Cursor, NoTree};
use crate::terminal::Terminal;
use elm_base::Halt;
use sqlite_items::Items;
use std::alloc::Global;

/// Those found before, and an item as long as the next token is one of these.
pub fn many_more<T: Drop, F: Fn(&mut Cursor<'_>) -> Result<T, Halt<NoTree>>>(
    mut found: Items<T>,
    set: &[Terminal],
    next: F,
    tokens: &mut Cursor<'_>,
) -> Result<Items<T>, Halt<NoTree>>
    requires { IsReader (F.pre next) (F.post next) }
    ensures { (p : Parser T) → ReadsItems p (F.pre next) (F.post next) →
        Reads (with_front found (spec.many set.now p tokens.old)) result tokens.new }
{
    'turns: while tokens.sees_any(set) {
        found.push(next(tokens)?)?;
    }
    Ok(found)
}

/// An item as long as the next token is one of these.
pub fn many<T: Drop, F: Fn(&mut Cursor<'_>) -> Result<T, Halt<NoTree>>>(
    alloc: Global,
    set: &[Terminal],
    next: F,
    tokens: &mut Cursor<'_>,
) -> Result<Items<T>, Halt<NoTree>>
    requires { IsReader (F.pre next) (F.post next) }
    ensures { (p : Parser T) → ReadsItems p (F.pre next) (F.post next) →
        Reads (spec.many set.now p tokens.old) result tokens.new }
{
    many_more(Items::new(alloc), set, next, tokens)
}

/// One item, and more as long as the next token is one of these.
#[tactic(auto, unfolding(crate::specs::Lists::some))]
pub fn some<T: Drop, F: Fn(&mut Cursor<'_>) -> Result<T, Halt<NoTree>>>(
    alloc: Global,
    set: &[Terminal],
    next: F,
    tokens: &mut Cursor<'_>,
) -> Result<Items<T>, Halt<NoTree>>
    requires { IsReader (F.pre next) (F.post next) }
    ensures { (p : Parser T) → ReadsItems p (F.pre next) (F.post next) →
        Reads (lists.some set.now p tokens.old) result tokens.new }
{
    let mut found = Items::new(alloc);
    found.push(next(tokens)?)?;
    many_more(found, set, next, tokens)
}

/// An item behind a comma.
fn behind_comma<T: Drop, F: Fn(&mut Cursor<'_>) -> Result<T, Halt<NoTree>>>(
    next: &F,
    tokens: &mut Cursor<'_>,
) -> Result<T, Halt<NoTree>>
    requires { IsReader (F.pre next.now) (F.post next.now) }
    ensures { (p : Parser T) → ReadsItems p (F.pre next.now) (F.post next.now) →
        Reads ((spec.◌▷◌ (spec.mark k.Comma) p) tokens.old) result tokens.new }
{
    tokens.expect(Terminal::Comma)?;
    next(tokens)
}

/// Those found before, and an item as long as a comma stands before it.
fn behind_commas<T: Drop, F: Fn(&mut Cursor<'_>) -> Result<T, Halt<NoTree>>>(
    mut found: Items<T>,
    next: &F,
    tokens: &mut Cursor<'_>,
) -> Result<Items<T>, Halt<NoTree>>
    requires { IsReader (F.pre next.now) (F.post next.now) }
    ensures { (p : Parser T) → ReadsItems p (F.pre next.now) (F.post next.now) →
        Reads (with_front found (spec.many (k.Comma ∷ []) (spec.◌▷◌ (spec.mark k.Comma) p) tokens.old)) result tokens.new }
{
    'turns: while tokens.sees(Terminal::Comma) {
        found.push(behind_comma(next, tokens)?)?;
    }
    Ok(found)
}

/// One item or more, with commas between.
#[tactic(auto, unfolding(crate::specs::Lists::separated))]
pub fn separated<T: Drop, F: Fn(&mut Cursor<'_>) -> Result<T, Halt<NoTree>>>(
    alloc: Global,
    next: F,
    tokens: &mut Cursor<'_>,
) -> Result<Items<T>, Halt<NoTree>>
    requires { IsReader (F.pre next) (F.post next) }
    ensures { (p : Parser T) → ReadsItems p (F.pre next) (F.post next) →
        Reads (lists.separated p tokens.old) result tokens.new }
{
    let mut found = Items::new(alloc);
    found.push(next(tokens)?)?;
    behind_commas(found, &next, tokens)
}

/// Whether the next token stands in the column and is one of these.
fn begins(tokens: &Cursor<'_>, column: u32, set: &[Terminal]) -> bool
    ensures { result ≡ spec.begins column set.now tokens.now }
{
    tokens.stands_in(column) && tokens.sees_any(set)
}

/// An item whose tokens behind the first stand to the right of the column.
fn item<T: Drop, F: Fn(&mut Cursor<'_>) -> Result<T, Halt<NoTree>>>(
    column: u32,
    next: &F,
    tokens: &mut Cursor<'_>,
) -> Result<T, Halt<NoTree>>
    requires { IsReader (F.pre next.now) (F.post next.now) }
    ensures { (p : Parser T) → ReadsItems p (F.pre next.now) (F.post next.now) →
        Reads (spec.item column p tokens.old) result tokens.new }
{
    let len = tokens.extent(column);
    let mut front = tokens.front(len);
    let found = next(&mut front)?;
    tokens.advance(len - front.len());
    Ok(found)
}

/// Those found before, and an item as long as one of these tokens begins it in the column.
fn items<T: Drop, F: Fn(&mut Cursor<'_>) -> Result<T, Halt<NoTree>>>(
    mut found: Items<T>,
    column: u32,
    set: &[Terminal],
    next: &F,
    tokens: &mut Cursor<'_>,
) -> Result<Items<T>, Halt<NoTree>>
    requires { IsReader (F.pre next.now) (F.post next.now) }
    ensures { (p : Parser T) → ReadsItems p (F.pre next.now) (F.post next.now) →
        Reads (with_front found (spec.items set.now p column tokens.old)) result tokens.new }
{
    'turns: while begins(tokens, column, set) {
        found.push(item(column, next, tokens)?)?;
    }
    Ok(found)
}

/// One item or more, each begun in the column of the first by one of these tokens.
#[tactic(auto, unfolding(crate::specs::Reader::block))]
pub fn block<T: Drop, F: Fn(&mut Cursor<'_>) -> Result<T, Halt<NoTree>>>(
    alloc: Global,
    set: &[Terminal],
    next: F,
    tokens: &mut Cursor<'_>,
) -> Result<Items<T>, Halt<NoTree>>
    requires { IsReader (F.pre next) (F.post next) }
    ensures { (p : Parser T) → ReadsItems p (F.pre next) (F.post next) →
        Reads (spec.block set.now p tokens.old) result tokens.new }
{
    let column = tokens.here()?.column;
    let mut found = Items::new(alloc);
    found.push(item(column, &next, tokens)?)?;
    items(found, column, set, &next, tokens)
}
