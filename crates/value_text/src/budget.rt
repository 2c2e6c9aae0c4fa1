//! Chars counted byte by byte. A char counts once its last byte is seen.
ghost use Rattle.std.specs.Prelude.{◌≡◌, ◌<◌, ◌≤◌, ◌+◌, length, MatchOption, [], ◌∷◌};
ghost use Rattle.std.specs.Str.{chars, continuation_len as following_bytes};
ghost use Rattle.value_text.specs.Counting.{completed, open_after};

/// How many chars may still come, and how many bytes of a char that has begun.
#[derive(Clone, Copy, Debug, PartialEq, Eq)]
pub struct Budget {
    pub left: u32,
    /// At most 3; 0 where no char has begun.
    pub following: u8,
}

/// What is left of a budget after these bytes; None where they complete more chars than it has.
pub fn spent(budget: Budget, bytes: &[u8]) -> Option<Budget>
    ensures { MatchOption result (budget.left < completed budget.following bytes.now)
        (λ b. (b.left + completed budget.following bytes.now ≡ budget.left)
        × (b.following ≡ open_after budget.following bytes.now)) }
{
    let mut left = budget.left;
    let mut following = budget.following;
    for byte in bytes {
        following = next_following(following, *byte);
        if following == 0 {
            left = left.checked_sub(1)?;
        }
    }
    Some(Budget { left, following })
}

/// How many bytes of the char at hand follow this one.
fn next_following(following: u8, byte: u8) -> u8
    ensures { result ≡ open_after following (byte ∷ []) }
{
    match following {
        0 => continuation_len(byte),
        _ => following - 1,
    }
}

/// How many chars a text has.
pub fn count_chars(bytes: &[u8]) -> usize
    ensures count { result ≡ length (chars bytes.now) }
    ensures within { result ≤ length bytes.now }
{
    let mut count = 0usize;
    let mut following = 0u8;
    for byte in bytes {
        following = next_following(following, *byte);
        if following == 0 {
            count += 1;
        }
    }
    count
}

/// How many bytes follow the first one of a char.
fn continuation_len(lead: u8) -> u8
    ensures { result ≡ following_bytes lead }
{
    match lead {
        0..128 => 0,
        128..224 => 1,
        224..240 => 2,
        240.. => 3,
    }
}
