//! Texts without the spaces at their ends.
ghost use Rattle.std.specs.Prelude.{◌≡◌, ◌≢◌, ◌<◌, ◌-◌, [], ◌∷◌, ◌++◌, length, slice_index, IfSome, IfNone};
ghost use Rattle.elm_base.specs.Spaces as spaces;

/// A text without its last byte, if that is this byte.
pub fn without_last(text: &[u8], byte: u8) -> Option<&[u8]>
    ensures last { IfSome result (λ front. text.now ≡ front.now ++ byte ∷ []) }
    ensures other { IfNone result (0 < length text.now → slice_index text.now (length text.now - 1) ≢ byte) }
{
    let Some(last) = text.len().checked_sub(1) else {
        return None;
    };
    if text[last] == byte {
        Some(&text[..last])
    } else {
        None
    }
}

/// A text without the spaces before it.
pub fn trim_start(text: &[u8]) -> &[u8]
    ensures { result.now ≡ spaces.trim_start text.now }
{
    let mut text = text;
    while let [b' ', rest @ ..] = text {
        text = rest;
    }
    text
}

/// A text without the spaces after it.
pub fn trim_end(text: &[u8]) -> &[u8]
    ensures { result.now ≡ spaces.trim_end text.now }
{
    let mut text = text;
    while let Some(front) = without_last(text, b' ') {
        text = front;
    }
    text
}
