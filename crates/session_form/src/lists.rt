//! The lists of a session: `[K]`, `[I, TEXT]` and `[NAME, TYPE]`.
ghost use Rattle.std.specs.Prelude.{◌≡◌, ◌≢◌, ℕ, List, IfSome, IfNone, option_map};
ghost use Rattle.serde_json.specs.View.{view, items_view};
ghost use Rattle.session_form.specs.Form as form;
ghost use Rattle.session_form.specs.Reader as spec;

use serde_json::Value;

/// The one number of a list.
fn number_alone(items: &[Value]) -> Option<u64>
    ensures { result ≡ spec.number_alone (items_view items.now) }
{
    let [first, rest @ ..] = items else {
        return None;
    };
    if rest.is_empty() {
        first.as_u64()
    } else {
        None
    }
}

/// The one text of a list.
fn text_alone(items: &[Value]) -> Option<&str>
    ensures { option_map (λ text. text.now) result ≡ spec.text_alone (items_view items.now) }
{
    let [first, rest @ ..] = items else {
        return None;
    };
    if rest.is_empty() {
        first.as_str()
    } else {
        None
    }
}

fn number_and_text(items: &[Value]) -> Option<(u64, &str)>
    ensures { option_map (λ pair. (pair.0, pair.1.now)) result
        ≡ spec.number_and_text (items_view items.now) }
{
    let [first, rest @ ..] = items else {
        return None;
    };
    let number = first.as_u64()?;
    let text = text_alone(rest)?;
    Some((number, text))
}

fn two_texts(items: &[Value]) -> Option<(&str, &str)>
    ensures { option_map (λ pair. (pair.0.now, pair.1.now)) result
        ≡ spec.two_texts (items_view items.now) }
{
    let [first, rest @ ..] = items else {
        return None;
    };
    let one = first.as_str()?;
    let other = text_alone(rest)?;
    Some((one, other))
}

fn delivery_in(value: &Value) -> Option<u64>
    ensures { result ≡ spec.delivery_in (view value.now) }
{
    let items = value.as_array()?;
    number_alone(items.as_slice())
}

fn input_in(value: &Value) -> Option<(u64, &str)>
    ensures { option_map (λ pair. (pair.0, pair.1.now)) result ≡ spec.input_in (view value.now) }
{
    let items = value.as_array()?;
    number_and_text(items.as_slice())
}

fn named_in(value: &Value) -> Option<(&str, &str)>
    ensures { option_map (λ pair. (pair.0.now, pair.1.now)) result
        ≡ spec.named_in (view value.now) }
{
    let items = value.as_array()?;
    two_texts(items.as_slice())
}

/// The place of an input that an event of a session names, if it names one.
pub fn place_of(value: &Value) -> Option<u64>
    ensures { result ≡ spec.place_in (view value.now) }
{
    let (place, _) = input_in(value)?;
    Some(place)
}

/// The number of a delivery, `[K]`.
pub fn delivery_of(value: &Value) -> Option<u64>
    ensures found { IfSome result (λ number. view value.now ≡ form.delivery number) }
    ensures none { IfNone result ((number : ℕ) → view value.now ≢ form.delivery number) }
{
    delivery_in(value)
}

/// The place of an input and the text of a value, `[I, TEXT]`.
pub fn input_of(value: &Value) -> Option<(u64, &str)>
    ensures found { IfSome result (λ pair. view value.now ≡ form.input pair.0 pair.1.now) }
    ensures none { IfNone result ((place : ℕ) (text : List ℕ)
        → view value.now ≢ form.input place text) }
{
    input_in(value)
}

/// The name of an input and the text of its type, `[NAME, TYPE]`.
pub fn named_of(value: &Value) -> Option<(&str, &str)>
    ensures found { IfSome result (λ pair. view value.now ≡ form.named pair.0.now pair.1.now) }
    ensures none { IfNone result ((name port : List ℕ) → view value.now ≢ form.named name port) }
{
    named_in(value)
}
