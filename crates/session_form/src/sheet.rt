//! The object of a session, with exactly its keys.
ghost use Rattle.std.specs.Prelude.{◌≡◌, ◌≢◌, ℕ, List, map, option_map, IfSome, IfNone};
ghost use Rattle.serde_json.specs.Data.{Data};
ghost use Rattle.serde_json.specs.Find.{as_array, as_str};
ghost use Rattle.serde_json.specs.View.{view, items_view, members_view};
ghost use Rattle.session_form.specs.Form as form;
ghost use Rattle.session_form.specs.Reader as spec;

use serde_json::Value;
use std::collections::btree_map::Iter;

/// What the keys of a session have, but for the format and the version, which are always the same.
#[derive(Drop)]
pub struct Sheet<'a> {
    pub cursor: u64,
    pub events: &'a [Value],
    pub inputs: &'a [Value],
}

/// The value of the next member, where it has this key.
fn taken<'a>(key: &str, left: &mut Iter<'a, String, Value>) -> Option<&'a Value>
    ensures { spec.Reads (λ value. view value.now)
        (spec.taken key.now (members_view left.old)) result (members_view left.new) }
{
    let (own, value) = left.next()?;
    if own.as_str() == key {
        Some(value)
    } else {
        None
    }
}

fn number_at(key: &str, left: &mut Iter<'_, String, Value>) -> Option<u64>
    ensures { spec.Reads (λ number. number)
        (spec.taken_as spec.number_in key.now (members_view left.old)) result
        (members_view left.new) }
{
    let value = taken(key, left)?;
    value.as_u64()
}

fn text_at<'a>(key: &str, left: &mut Iter<'a, String, Value>) -> Option<&'a str>
    ensures { spec.Reads (λ text. text.now)
        (spec.taken_as as_str key.now (members_view left.old)) result (members_view left.new) }
{
    let value = taken(key, left)?;
    value.as_str()
}

fn list_at<'a>(key: &str, left: &mut Iter<'a, String, Value>) -> Option<&'a [Value]>
    ensures { spec.Reads (λ items. items_view items.now)
        (spec.taken_as as_array key.now (members_view left.old)) result
        (members_view left.new) }
{
    let items = taken(key, left)?.as_array()?;
    Some(items.as_slice())
}

/// The parts of an object with these members.
#[tactic(auto, unfolding(crate::specs::Reader::parts_in))]
fn parts_in<'a>(left: &mut Iter<'a, String, Value>) -> Option<Sheet<'a>>
    ensures { option_map (λ sheet.
        (sheet.cursor, (items_view sheet.events.now, items_view sheet.inputs.now))) result
        ≡ spec.parts_in (members_view left.old) }
{
    let cursor = number_at("cursor", left)?;
    let events = list_at("events", left)?;
    let format = text_at("format", left)?;
    let inputs = list_at("inputs", left)?;
    let version = number_at("version", left)?;
    if format == "reactor-session" && version == 1 && left.next().is_none() {
        Some(Sheet {
            cursor,
            events,
            inputs,
        })
    } else {
        None
    }
}

fn sheet_in(value: &Value) -> Option<Sheet<'_>>
    ensures { option_map (λ sheet.
        (sheet.cursor, (items_view sheet.events.now, items_view sheet.inputs.now))) result
        ≡ spec.sheet_in (view value.now) }
{
    let members = value.as_object()?;
    let mut left = members.iter();
    parts_in(&mut left)
}

/// The parts of the object with exactly the keys of a session.
pub fn sheet_of(value: &Value) -> Option<Sheet<'_>>
    ensures found { IfSome result (λ sheet. view value.now
        ≡ form.sheet sheet.cursor (map view sheet.events.now) (map view sheet.inputs.now)) }
    ensures none { IfNone result ((cursor : ℕ) (events inputs : List Data)
        → view value.now ≢ form.sheet cursor events inputs) }
{
    sheet_in(value)
}
