//! Which page a request gets.

ghost use Rattle.std.specs.Prelude.{◌≡◌, IfOk, option_copied, option_map};
ghost use Rattle.std.specs.Str.{bytes_eq};
ghost use Rattle.kb_pages.specs.Route.{authorization, by_get, is_named, may_see, named_page, named_in, only_get, page_at, page_for};

use percent_encoding::percent_decode;
use std::alloc::{AllocError, Global};

/// What a request gets.
#[derive(Clone, Copy, Debug, PartialEq, Eq)]
pub enum Page {
    /// The loop turns.
    Health,
    /// Whether the broker is ready.
    Ready,
    /// What the broker does.
    Metrics,
    /// The partitions of the tenant that the query names.
    Partitions,
    /// The status page.
    Status,
    /// The status page of the tenant that the query names.
    Tenant,
    /// The request does not name the token.
    Unauthorized,
    /// There is no such page.
    NotFound,
    /// A page is asked for by GET alone.
    NotAllowed,
}

/// What a request with a token has in its field `authorization` (RFC 6750, section 2.1).
pub fn authorization(alloc: Global, token: &str) -> Result<Vec<u8>, AllocError>
    ensures { IfOk result (λ field. field.items ≡ authorization token.now) }
{
    let mut field = Vec::from_slice(alloc, b"Bearer ")?;
    field.extend_from_slice(token.as_bytes())?;
    Ok(field)
}

/// What a request gets, of a method, a path and a query, with that field. Where a field is asked for, each page but the first wants it.
pub fn page_for(
    asked: Option<&[u8]>,
    given: Option<&[u8]>,
    method: &str,
    path: &str,
    query: Option<&str>,
) -> Page
    ensures { result ≡ page_for (option_map (λ f. f.now) asked.entry) (option_map (λ f. f.now) given.entry) method.now path.now
        (option_copied query.entry) }
{
    if path == "/healthz" {
        only_get(method, Page::Health)
    } else if !may_see(asked, given) {
        Page::Unauthorized
    } else {
        by_get(method, page_at(path, query))
    }
}

/// The page of a path and a query.
fn page_at(path: &str, query: Option<&str>) -> Page
    ensures { result ≡ page_at path.now (option_copied query.entry) }
{
    if path == "/readyz" {
        Page::Ready
    } else if path == "/metrics" {
        Page::Metrics
    } else if path == "/metrics/partitions" {
        named(query, Page::NotFound, Page::Partitions)
    } else if path == "/" {
        named(query, Page::Status, Page::Tenant)
    } else {
        Page::NotFound
    }
}

/// A page without a query, or that of a tenant where the query names one.
fn named(query: Option<&str>, page: Page, of_tenant: Page) -> Page
    ensures { result ≡ named_page (option_copied query.entry) page of_tenant }
{
    match query {
        None => page,
        Some(query) if is_named(query) => of_tenant,
        Some(_) => Page::NotFound,
    }
}

/// Whether a query names a tenant: `tenant=NAME`.
fn is_named(query: &str) -> bool
    ensures { result ≡ is_named query.now }
{
    let bytes = query.as_bytes();
    bytes.len() >= 7 && &bytes[..7] == b"tenant=".as_slice()
}

/// A page that is there is asked for by GET.
fn by_get(method: &str, page: Page) -> Page
    ensures { result ≡ by_get method.now page }
{
    match page {
        Page::NotFound => Page::NotFound,
        page => only_get(method, page),
    }
}

fn only_get(method: &str, page: Page) -> Page
    ensures { result ≡ only_get method.now page }
{
    if method == "GET" {
        page
    } else {
        Page::NotAllowed
    }
}

/// The name in a query that names a tenant, percent-decoded (RFC 3986, section 2.1): none in any other.
pub fn name_in(alloc: Global, query: Option<&str>) -> Result<Vec<u8>, AllocError>
    ensures { IfOk result (λ name. name.items ≡ named_in (option_copied query.entry)) }
{
    let mut name = Vec::new(alloc);
    if let Some(query) = query
        && is_named(query)
    {
        percent_decode(&query.as_bytes()[7..]).append_to(&mut name)?;
    }
    Ok(name)
}

/// Whether the field that is asked for is given.
fn may_see(asked: Option<&[u8]>, given: Option<&[u8]>) -> bool
    ensures { result ≡ may_see (option_map (λ f. f.now) asked.entry) (option_map (λ f. f.now) given.entry) }
{
    match (asked, given) {
        (None, _) => true,
        (Some(asked), Some(given)) => are_same(asked, given),
        (Some(_), None) => false,
    }
}

/// Whether two texts are the same. What it takes is a matter of their lengths alone: it compares on behind the first difference, so that
/// time does not tell where a wrong token begins to differ.
fn are_same(asked: &[u8], given: &[u8]) -> bool
    ensures { result ≡ bytes_eq asked.now given.now }
{
    match (asked, given) {
        ([], []) => true,
        ([a, asked @ ..], [b, given @ ..]) => {
            let rest = are_same(asked, given);
            rest & (*a == *b)
        }
        _ => false,
    }
}
