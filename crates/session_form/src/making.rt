//! The parts of a session, made as JSON. Those of events take no more room than they need, since there may be a million.
ghost use Rattle.std.specs.Prelude.{◌≡◌, IfOk, map, string_bytes};
ghost use Rattle.serde_json.specs.View.{view};
ghost use Rattle.session_form.specs.Form as form;

use serde_json::{Value, json};
use std::alloc::{AllocError, Global};

/// A delivery, `[K]`.
pub fn delivery_value(alloc: Global, number: u64) -> Result<Value, AllocError>
    ensures { IfOk result (λ value. view value ≡ form.delivery number) }
{
    let mut items = Vec::with_capacity(alloc, 1)?;
    items.push(Value::from(number))?;
    Ok(Value::from(items))
}

/// An input event, `[I, TEXT]`: the place of its input and the text of its value.
pub fn input_value(alloc: Global, place: u64, text: String) -> Result<Value, AllocError>
    ensures { IfOk result (λ value. view value ≡ form.input place (string_bytes text)) }
{
    let mut items = Vec::with_capacity(alloc, 2)?;
    items.push(Value::from(place))?;
    items.push(Value::from(text))?;
    Ok(Value::from(items))
}

/// An input, `[NAME, TYPE]`.
pub fn named_value(alloc: Global, name: String, port: String) -> Result<Value, AllocError>
    ensures { IfOk result (λ value. view value
        ≡ form.named (string_bytes name) (string_bytes port)) }
{
    json!(in alloc; [name, port])
}

/// The object with exactly the keys of a session.
pub fn sheet_value(
    alloc: Global,
    cursor: u64,
    events: Vec<Value>,
    inputs: Vec<Value>,
) -> Result<Value, AllocError>
    ensures { IfOk result (λ value. view value
        ≡ form.sheet cursor (map view events.items) (map view inputs.items)) }
{
    json!(in alloc; {
        "cursor": cursor,
        "events": events,
        "format": "reactor-session",
        "inputs": inputs,
        "version": 1u64
    })
}
