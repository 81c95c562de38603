//! The primitives, as functions on the bytes that are left.

ghost use Rattle.std.specs.Prelude.{◌≡◌, ℕ, List};
ghost use Rattle.std.specs.Int.{w8, w16, w32, w64};
ghost use Rattle.kb_wire.specs.Codec.{int, boolean, count, nullable_count, octets, utf8};
ghost use Rattle.kb_wire.specs.Reads.{Answers};

use crate::fault::WireFault;

#[inline]
#[tactic(auto, unfolding(crate::specs::Codec::int))]
pub(crate) fn i8_at(bytes: &[u8]) -> Result<(i8, &[u8]), WireFault>
    ensures { Answers (λ x. (x.0, x.1.now)) result ((int w8).read bytes.now) }
{
    match bytes {
        [a, rest @ ..] => Ok((i8::from_be_bytes([*a]), rest)),
        _ => Err(WireFault::Short),
    }
}

#[tactic(auto, unfolding(crate::specs::Codec::int))]
pub(crate) fn i16_at(bytes: &[u8]) -> Result<(i16, &[u8]), WireFault>
    ensures { Answers (λ x. (x.0, x.1.now)) result ((int w16).read bytes.now) }
{
    match bytes {
        [a, b, rest @ ..] => Ok((i16::from_be_bytes([*a, *b]), rest)),
        _ => Err(WireFault::Short),
    }
}

#[tactic(auto, unfolding(crate::specs::Codec::int))]
pub(crate) fn i32_at(bytes: &[u8]) -> Result<(i32, &[u8]), WireFault>
    ensures { Answers (λ x. (x.0, x.1.now)) result ((int w32).read bytes.now) }
{
    match bytes {
        [a, b, c, d, rest @ ..] => Ok((i32::from_be_bytes([*a, *b, *c, *d]), rest)),
        _ => Err(WireFault::Short),
    }
}

#[tactic(auto, unfolding(crate::specs::Codec::int))]
pub(crate) fn i64_at(bytes: &[u8]) -> Result<(i64, &[u8]), WireFault>
    ensures { Answers (λ x. (x.0, x.1.now)) result ((int w64).read bytes.now) }
{
    match bytes {
        [a, b, c, d, e, f, g, h, rest @ ..] => Ok((
            i64::from_be_bytes([*a, *b, *c, *d, *e, *f, *g, *h]),
            rest,
        )),
        _ => Err(WireFault::Short),
    }
}

#[tactic(auto, unfolding(crate::specs::Codec::boolean))]
pub(crate) fn boolean_at(bytes: &[u8]) -> Result<(bool, &[u8]), WireFault>
    ensures { Answers (λ x. (x.0, x.1.now)) result (boolean.read bytes.now) }
{
    match bytes {
        [b, rest @ ..] => Ok((*b != 0, rest)),
        _ => Err(WireFault::Short),
    }
}

#[tactic(auto, unfolding(crate::specs::Codec::counted))]
pub(crate) fn length_at(bytes: &[u8]) -> Result<(usize, &[u8]), WireFault>
    ensures { Answers (λ x. (x.0, x.1.now)) result ((count w16).read bytes.now) }
{
    let (length, rest) = i16_at(bytes)?;
    if length < 0 {
        return Err(WireFault::Bad);
    }
    Ok((length as usize, rest))
}

#[tactic(auto, unfolding(crate::specs::Codec::counted))]
pub(crate) fn count_at(bytes: &[u8]) -> Result<(u32, &[u8]), WireFault>
    ensures { Answers (λ x. (x.0, x.1.now)) result ((count w32).read bytes.now) }
{
    let (count, rest) = i32_at(bytes)?;
    if count < 0 {
        return Err(WireFault::Bad);
    }
    Ok((count as u32, rest))
}

#[tactic(auto, unfolding(crate::specs::Codec::nullable_counted))]
pub(crate) fn nullable_length_at(bytes: &[u8]) -> Result<(Option<usize>, &[u8]), WireFault>
    ensures { Answers (λ x. (x.0, x.1.now)) result ((nullable_count w16).read bytes.now) }
{
    let (length, rest) = i16_at(bytes)?;
    if length == -1 {
        return Ok((None, rest));
    }
    if length < 0 {
        return Err(WireFault::Bad);
    }
    Ok((Some(length as usize), rest))
}

#[tactic(auto, unfolding(crate::specs::Codec::nullable_counted))]
pub(crate) fn nullable_count_at(bytes: &[u8]) -> Result<(Option<u32>, &[u8]), WireFault>
    ensures { Answers (λ x. (x.0, x.1.now)) result ((nullable_count w32).read bytes.now) }
{
    let (count, rest) = i32_at(bytes)?;
    if count == -1 {
        return Ok((None, rest));
    }
    if count < 0 {
        return Err(WireFault::Bad);
    }
    Ok((Some(count as u32), rest))
}

#[inline]
#[tactic(auto, unfolding(crate::specs::Codec::octets))]
pub(crate) fn octets_at(n: usize, bytes: &[u8]) -> Result<(&[u8], &[u8]), WireFault>
    ensures { Answers (λ x. (x.0.now, x.1.now)) result (octets.read n bytes.now) }
{
    if bytes.len() < n {
        return Err(WireFault::Short);
    }
    Ok(bytes.split_at(n))
}

#[tactic(auto, unfolding(crate::specs::Codec::utf8))]
pub(crate) fn utf8_at(n: usize, bytes: &[u8]) -> Result<(&str, &[u8]), WireFault>
    ensures { Answers (λ x. (x.0.now, x.1.now)) result (utf8.read n bytes.now) }
{
    let (front, rest) = octets_at(n, bytes)?;
    match str::from_utf8(front) {
        Ok(text) => Ok((text, rest)),
        Err(_) => Err(WireFault::Bad),
    }
}
