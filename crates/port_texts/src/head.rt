//! With what the text of a type begins.
ghost use Rattle.std.specs.Prelude.{◌≡◌, Some, None, map, MatchOption};
ghost use Rattle.port_texts.specs.Reader as spec;

/// With what the text of a type begins.
#[derive(Clone, Copy, Debug, PartialEq, Eq)]
pub enum Head {
    Unit,
    Int,
    Bool,
    Text,
    Maybe,
    List,
    /// An opening bracket.
    Parts,
    NoFields,
    /// An opening brace and a space.
    Fields,
}

const HEADS: [(&[u8], Head); 9] = [
    (b"()", Head::Unit),
    (b"Int", Head::Int),
    (b"Bool", Head::Bool),
    (b"String", Head::Text),
    (b"Maybe ", Head::Maybe),
    (b"List ", Head::List),
    (b"(", Head::Parts),
    (b"{}", Head::NoFields),
    (b"{ ", Head::Fields),
];

/// The first of these heads with whose text a text begins, and what follows it.
fn head_among<'a>(heads: &[(&[u8], Head)], text: &'a [u8]) -> Option<(Head, &'a [u8])>
    ensures { MatchOption result
        (spec.head_among (map (λ head. (head.0.now, head.1)) heads.now) text.now ≡ None)
        (λ found. spec.head_among (map (λ head. (head.0.now, head.1)) heads.now) text.now
        ≡ Some (found.0, found.1.now)) }
{
    match heads {
        [] => None,
        [(start, head), others @ ..] => match text.strip_prefix(*start) {
            Some(rest) => Some((*head, rest)),
            None => head_among(others, text),
        },
    }
}

/// With what a text begins, and what follows it.
pub fn find_head(text: &[u8]) -> Option<(Head, &[u8])>
    ensures { MatchOption result (spec.head text.now ≡ None)
        (λ found. spec.head text.now ≡ Some (found.0, found.1.now)) }
{
    head_among(&HEADS, text)
}
