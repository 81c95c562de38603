//! Numbers in groups of seven bits, the low group first.

ghost use Rattle.std.specs.Prelude.{◌≡◌, List, ℕ, ◌+◌, ◌≤◌, ◌<◌, ◌^◌, ◌++◌, length, IfOk, OnOk, IsOk, vec_len, vec_capacity};
ghost use Rattle.kb_wire.specs.Varint.{groups, from_zigzag, to_zigzag, varint, varlong};
ghost use Rattle.kb_wire.specs.Laws.{OneValue, BadStays, ShortEnds};
ghost use Rattle.kb_wire.specs.Reads.{Answers};

use crate::fault::WireFault;
use std::alloc::AllocError;

/// The number at the front, of at most `limit` bytes.
#[tactic(auto, unfolding(crate::specs::Varint::groups, crate::specs::Varint::groups_at))]
fn groups_at(limit: u32, bytes: &[u8]) -> Result<(u128, &[u8]), WireFault>
    requires { limit ≤ 10 }
    ensures read { Answers (λ x. (x.0, x.1.now)) result ((groups limit).read bytes.now) }
    ensures below { IfOk result (λ x. x.0 < 128 ^ limit) }
{
    if limit == 0 {
        return Err(WireFault::Bad);
    }
    match bytes {
        [] => Err(WireFault::Short),
        [b, rest @ ..] => {
            if *b < 128 {
                return Ok((*b as u128, rest));
            }
            let (high, rest) = groups_at(limit - 1, rest)?;
            Ok(((*b % 128) as u128 + 128 * high, rest))
        }
    }
}

#[inline(always)]
#[tactic(auto, unfolding(crate::specs::Varint::from_zigzag))]
fn from_zigzag_32(n: u32) -> i32
    ensures { result ≡ from_zigzag n }
{
    let half = (n / 2) as i32;
    if n % 2 == 0 { half } else { -half - 1 }
}

#[inline(always)]
#[tactic(auto, unfolding(crate::specs::Varint::from_zigzag))]
fn from_zigzag_64(n: u64) -> i64
    ensures { result ≡ from_zigzag n }
{
    let half = (n / 2) as i64;
    if n % 2 == 0 { half } else { -half - 1 }
}

#[tactic(auto, unfolding(crate::specs::Varint::to_zigzag))]
pub(crate) fn to_zigzag_32(value: i32) -> u64
    ensures { result ≡ to_zigzag value }
{
    if value >= 0 {
        2 * value as u64
    } else {
        2 * (-(value + 1)) as u64 + 1
    }
}

#[tactic(auto, unfolding(crate::specs::Varint::to_zigzag))]
pub(crate) fn to_zigzag_64(value: i64) -> u64
    ensures { result ≡ to_zigzag value }
{
    if value >= 0 {
        2 * value as u64
    } else {
        2 * (-(value + 1)) as u64 + 1
    }
}

/// The number at the front. Most have one byte or two.
#[inline(always)]
#[tactic(auto, unfolding(crate::specs::Varint::zigzag, crate::specs::Varint::groups, crate::specs::Varint::groups_at, crate::specs::Codec::refined))]
pub(crate) fn varint_at(bytes: &[u8]) -> Result<(i32, &[u8]), WireFault>
    ensures { Answers (λ x. (x.0, x.1.now)) result (varint.read bytes.now) }
{
    match bytes {
        [b, rest @ ..] if *b < 128 => Ok((from_zigzag_32(*b as u32), rest)),
        [b, high, rest @ ..] if *high < 128 => {
            let number = (*b % 128) as u32 + 128 * *high as u32;
            Ok((from_zigzag_32(number), rest))
        }
        _ => long_varint_at(bytes),
    }
}

/// The number at the front, of however many bytes.
#[inline(never)]
#[tactic(auto, unfolding(crate::specs::Varint::zigzag, crate::specs::Codec::refined))]
fn long_varint_at(bytes: &[u8]) -> Result<(i32, &[u8]), WireFault>
    ensures { Answers (λ x. (x.0, x.1.now)) result (varint.read bytes.now) }
{
    let (number, rest) = groups_at(5, bytes)?;
    if number < 1 << 32 {
        Ok((from_zigzag_32(number as u32), rest))
    } else {
        Err(WireFault::Bad)
    }
}

/// The number at the front. Most have one byte or two.
#[inline(always)]
#[tactic(auto, unfolding(crate::specs::Varint::zigzag, crate::specs::Varint::groups, crate::specs::Varint::groups_at, crate::specs::Codec::refined))]
pub(crate) fn varlong_at(bytes: &[u8]) -> Result<(i64, &[u8]), WireFault>
    ensures { Answers (λ x. (x.0, x.1.now)) result (varlong.read bytes.now) }
{
    match bytes {
        [b, rest @ ..] if *b < 128 => Ok((from_zigzag_64(*b as u64), rest)),
        [b, high, rest @ ..] if *high < 128 => {
            let number = (*b % 128) as u64 + 128 * *high as u64;
            Ok((from_zigzag_64(number), rest))
        }
        _ => long_varlong_at(bytes),
    }
}

/// The number at the front, of however many bytes.
#[inline(never)]
#[tactic(auto, unfolding(crate::specs::Varint::zigzag, crate::specs::Codec::refined))]
fn long_varlong_at(bytes: &[u8]) -> Result<(i64, &[u8]), WireFault>
    ensures { Answers (λ x. (x.0, x.1.now)) result (varlong.read bytes.now) }
{
    let (number, rest) = groups_at(10, bytes)?;
    if number < 1 << 64 {
        Ok((from_zigzag_64(number as u64), rest))
    } else {
        Err(WireFault::Bad)
    }
}

/// How many bytes the number takes, of `limit` at most.
#[tactic(auto, unfolding(crate::specs::Varint::groups, crate::specs::Varint::written_groups))]
pub(crate) fn groups_len(limit: u32, n: u64) -> usize
    ensures len { result ≡ length ((groups limit).written n) }
    ensures few { result ≤ limit }
{
    if limit == 0 {
        0
    } else if n < 128 {
        1
    } else {
        1 + groups_len(limit - 1, n / 128)
    }
}

/// Adds the number in at most `limit` bytes, or some of them.
#[tactic(auto, unfolding(crate::specs::Varint::groups, crate::specs::Varint::written_groups))]
pub(crate) fn push_groups(out: &mut Vec<u8>, limit: u32, n: u64) -> Result<(), AllocError>
    ensures ok { OnOk result (out.new.items ≡ out.old.items ++ (groups limit).written n) }
    ensures succeeds { vec_len out.old + length ((groups limit).written n) ≤ vec_capacity out.old → IsOk result }
    ensures len { OnOk result (vec_len out.new ≡ vec_len out.old + length ((groups limit).written n)) }
    ensures capacity { vec_capacity out.old ≤ vec_capacity out.new }
{
    if limit == 0 {
        return Ok(());
    }
    if n < 128 {
        out.push(n as u8)?;
        return Ok(());
    }
    out.push((n % 128 + 128) as u8)?;
    push_groups(out, limit - 1, n / 128)
}

/// No spelling of a number is shorter than the one that is written.
pub fn shortest_is_written()
    ensures { (k n : ℕ) (s : List ℕ) → (groups k).Spells s n → length ((groups k).written n) ≤ length s }
{}

/// No bytes spell two numbers, and no spelling of a number begins another.
pub fn one_number()
    ensures varint { OneValue varint }
    ensures varlong { OneValue varlong }
{}

/// A front that is `Bad` stays so whatever follows it, and `Short` is said only where bytes are missing.
pub fn number_faults_stand()
    ensures varint { BadStays varint × ShortEnds varint }
    ensures varlong { BadStays varlong × ShortEnds varlong }
{}
