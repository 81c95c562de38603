//! How members are called.

ghost use Rattle.std.specs.Prelude.{◌≡◌, ◌<◌, ◌^◌, ℕ, IfOk, IfSome, IfNone, MatchOption, List, ◌∷◌, ◌≢◌, bytes_eq, decimal};
ghost use Rattle.kb_groups.specs.MemberId.{member_id};

use crate::bytes::Bytes;
use itoa::Buffer;
use std::alloc::{AllocError, Global};

/// The id of the member of that number: `m-` and the number in decimal.
pub fn member_id(alloc: Global, number: u64) -> Result<Bytes, AllocError>
    ensures { IfOk result (λ id. id ≡ member_id number) }
{
    let mut buffer = Buffer::new();
    let mut id = Vec::from_slice(alloc, b"m-")?;
    id.extend_from_slice(buffer.format(number).as_bytes())?;
    Ok(Bytes::from_vec(id))
}

/// The number of the member of that id; `None` for a text that is no member's id. Numbers begin at 1.
pub fn member_number(id: &str) -> Option<u64>
    ensures found { IfSome result (λ n. (0 < n) × (id.now ≡ member_id n)) }
    ensures stranger { IfNone result ((n : ℕ) → 0 < n → n < 2 ^ 64 → id.now ≡ member_id n → ⊥) }
{
    let Some(digits) = digits_of(id) else {
        return None;
    };
    let Ok(number) = digits.parse::<u64>() else {
        return None;
    };
    if number > 0 && is_spelling(digits, number) {
        Some(number)
    } else {
        None
    }
}

/// What stands behind `m-`.
fn digits_of(id: &str) -> Option<&str>
    ensures { MatchOption result ((rest : List ℕ) → id.now ≢ 109 ∷ 45 ∷ rest) (λ digits. id.now ≡ 109 ∷ 45 ∷ digits.now) }
{
    let Some(rest) = id.strip_prefix('m') else {
        return None;
    };
    let Some(digits) = rest.strip_prefix('-') else {
        return None;
    };
    Some(digits)
}

/// Whether these are the number's decimal digits.
fn is_spelling(digits: &str, number: u64) -> bool
    ensures { result ≡ bytes_eq (decimal number) digits.now }
{
    let mut buffer = Buffer::new();
    buffer.format(number) == digits
}
