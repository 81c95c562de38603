//! The message of SASL PLAIN (RFC 4616).

ghost use Rattle.std.specs.Prelude.{◌≡◌, Some, IfSome, option_map, ◌==◌};
ghost use Rattle.std.specs.List.{position};
ghost use Rattle.kb_api_group.specs.declared.plain.PlainLogin.{PlainLogin};
ghost use Rattle.kb_api_group.specs.Plain.{IsPlain, at_nul, plain};

use kb_wire::Blob;

/// Who logs in, and with which password.
#[derive(Drop)]
pub struct PlainLogin<'a> {
    pub authcid: Blob<'a>,
    pub passwd: Blob<'a>,
}

/// The login that a PLAIN message asks for: `[authzid] NUL authcid NUL passwd` (RFC 4616, section 2).
///
/// There are exactly two NULs, `authcid` and `passwd` are not empty, and an `authzid` is the `authcid` itself. The texts
/// are compared byte by byte. It takes no memory.
pub fn read_plain(message: &[u8]) -> Option<PlainLogin<'_>>
    ensures found { IfSome result (IsPlain message.now) }
    ensures only { (login : PlainLogin) → IsPlain message.now login → result ≡ Some login }
    ensures exact { result ≡ plain message.now }
{
    read_parts(message)
}

/// The login that the parts around the NULs make.
#[tactic(auto, unfolding(crate::specs::Plain::plain))]
fn read_parts(message: &[u8]) -> Option<PlainLogin<'_>>
    ensures { result ≡ plain message.now }
{
    let (authzid, rest) = split_at_nul(message)?;
    let (authcid, passwd) = split_at_nul(rest)?;
    if split_at_nul(passwd).is_some() || authcid.is_empty() || passwd.is_empty() {
        return None;
    }
    if !authzid.is_empty() && authzid != authcid {
        return None;
    }
    Some(PlainLogin {
        authcid: Blob::new(authcid),
        passwd: Blob::new(passwd),
    })
}

/// The bytes before the first NUL and those behind it.
fn split_at_nul(bytes: &[u8]) -> Option<(&[u8], &[u8])>
    ensures { option_map (λ x. (x.0.now, x.1.now)) result ≡ at_nul bytes.now }
{
    match first_nul(bytes) {
        Some(i) => Some((&bytes[..i], &bytes[i + 1..])),
        None => None,
    }
}

/// The place of the first NUL.
fn first_nul(bytes: &[u8]) -> Option<usize>
    ensures { result ≡ position (λ b. b == 0) bytes.now }
{
    bytes.iter().position(|b| *b == 0)
}
