//! What is on the pages.

ghost use Rattle.std.specs.Prelude.{◌≡◌, [], ◌∷◌, OnOk, IfOk, codes, option_copied, option_map, true, false};
ghost use Rattle.http_server.specs.Response.{IsBlank, IsResponse};
ghost use Rattle.kb_pages.specs.Answer.{InForm, IsResponseTo, IsHtml, IsNoMemory, IsOfTenant, IsPage, IsReadiness, IsTextWith};
ghost use Rattle.kb_pages.specs.Answer.{IsPageOrNoMemory, Told};
ghost use Rattle.kb_pages.specs.Answer.{all_told, allow_field, close_field, page_of, tenant_told, text_field, token_field};
ghost use Rattle.kb_pages.specs.Route.{named_in};

use crate::route::{Page, name_in, page_for};
use bytes::Bytes;
use http::{HeaderValue, Request, StatusCode, header};
use http_server::{Response, Service};
use std::alloc::{AllocError, Global};
use std::io;
use std::os::fd::RawFd;

/// The form in which something is told.
#[derive(Clone, Copy, Debug, PartialEq, Eq)]
pub enum Form {
    /// Metrics, as text for Prometheus: those of all tenants, or those of the partitions of one.
    Metrics,
    /// A status page for a browser: that of the broker, or that of a tenant.
    Status,
}

/// What the pages tell of, and by what they are woken. A page is written behind nothing, and after an `Err`, which is want of memory, some
/// of it may be there.
pub trait Source {
    // What is said of it, and of its tenants.
    ghost told: { Self → Told };

    /// Writes what is told of all: the metrics, or the status page.
    fn push_all(&self, alloc: Global, form: Form, out: &mut Vec<u8>) -> Result<(), AllocError>
        requires { out.old.items ≡ [] }
        ensures { OnOk result (all_told (told self.now) form out.new.items) };

    /// Writes a line for each cause why the broker is not ready.
    fn push_causes(&self, out: &mut Vec<u8>) -> Result<(), AllocError>
        requires { out.old.items ≡ [] }
        ensures { OnOk result ((told self.now).causes out.new.items) };

    /// Writes what is told of the tenant of a name, and answers whether there is one.
    fn push_tenant(
        &self,
        alloc: Global,
        form: Form,
        tenant: &[u8],
        out: &mut Vec<u8>,
    ) -> Result<bool, AllocError>
        requires { out.old.items ≡ [] }
        ensures known { IfOk result (λ is_known. is_known ≡ true → tenant_told (told self.now) form tenant.now out.new.items) }
        ensures unknown { IfOk result (λ is_known. is_known ≡ false → (told self.now).is_unknown tenant.now) };

    /// The pages are to be turned once this file becomes ready.
    fn wake_by(&self, file: RawFd) -> io::Result<()>;
}

/// The pages of a source, for who names what is asked for, if something is.
#[derive(Drop)]
pub struct Site<'a, S: Source> {
    pub alloc: Global,
    pub asked: &'a Option<Vec<u8>>,
    pub source: &'a S,
}

impl<'a, S: Source> Service for Site<'a, S> {
    ghost answers = { λ old request response new. (new ≡ old)
        × IsResponseTo (S.told old.source.now) (option_map (λ f. f.items) old.asked.now) request response };

    fn call(
        &mut self,
        request: &Request<Bytes>,
        response: &mut Response,
    ) -> Result<(), AllocError> {
        let page = page_of(self.asked, request);
        let query = request.uri().query();
        fill_page(self.alloc, self.source, page, query, response)
    }
}

/// The page that a request gets, where that field is asked for.
fn page_of(asked: &Option<Vec<u8>>, request: &Request<Bytes>) -> Page
    ensures { result ≡ page_of (option_map (λ f. f.items) asked.now) request.now }
{
    let asked = match asked {
        Some(field) => Some(field.as_slice()),
        None => None,
    };
    let given = match request.headers().get(header::AUTHORIZATION) {
        Some(value) => Some(value.as_bytes()),
        None => None,
    };
    let uri = request.uri();
    page_for(
        asked,
        given,
        request.method().as_str(),
        uri.path(),
        uri.query(),
    )
}

/// A page, of the tenant that a query names where it is one of a tenant.
fn fill_page<S: Source>(
    alloc: Global,
    source: &S,
    page: Page,
    query: Option<&str>,
    response: &mut Response,
) -> Result<(), AllocError>
    requires { IsBlank response.old }
    ensures { OnOk result (IsPage (S.told source.now) (named_in (option_copied query.entry)) page response.new) }
{
    match page {
        Page::Health => fill(response, StatusCode::OK, b"ok\n"),
        Page::Ready => fill_ready(alloc, source, response),
        Page::Metrics => fill_all(alloc, source, Form::Metrics, response),
        Page::Partitions => fill_tenant(alloc, source, Form::Metrics, query, response),
        Page::Status => fill_all(alloc, source, Form::Status, response),
        Page::Tenant => fill_tenant(alloc, source, Form::Status, query, response),
        Page::Unauthorized => fill_unauthorized(response),
        Page::NotFound => fill(response, StatusCode::NOT_FOUND, b"no such page\n"),
        Page::NotAllowed => fill_not_allowed(response),
    }
}

/// Whether the broker is ready: `ready`, or a line for each cause why it is not.
fn fill_ready<S: Source>(
    alloc: Global,
    source: &S,
    response: &mut Response,
) -> Result<(), AllocError>
    requires { IsBlank response.old }
    ensures { OnOk result (IsReadiness (S.told source.now).causes response.new) }
{
    let mut causes = Vec::new(alloc);
    if source.push_causes(&mut causes).is_err() {
        fill_no_memory(response)
    } else if causes.is_empty() {
        fill(response, StatusCode::OK, b"ready\n")
    } else {
        let causes = Bytes::from_vec(causes)?;
        fill_text(response, StatusCode::SERVICE_UNAVAILABLE, causes)
    }
}

/// What is told of all. Where memory was refused for a page there is nothing of it, and the answer says so.
fn fill_all<S: Source>(
    alloc: Global,
    source: &S,
    form: Form,
    response: &mut Response,
) -> Result<(), AllocError>
    requires { IsBlank response.old }
    ensures { OnOk result (IsPageOrNoMemory (InForm form) (all_told (S.told source.now) form) response.new) }
{
    let mut page = Vec::new(alloc);
    match source.push_all(alloc, form, &mut page) {
        Ok(()) => fill_form(form, response, page),
        Err(_) => fill_no_memory(response),
    }
}

/// What is told of the tenant that a query names.
fn fill_tenant<S: Source>(
    alloc: Global,
    source: &S,
    form: Form,
    query: Option<&str>,
    response: &mut Response,
) -> Result<(), AllocError>
    requires { IsBlank response.old }
    ensures { let name = named_in (option_copied query.entry) in let told = S.told source.now in
        OnOk result (IsOfTenant (InForm form) (tenant_told told form name) (told.is_unknown name) response.new) }
{
    let mut page = Vec::new(alloc);
    let Ok(name) = name_in(alloc, query) else {
        return fill_no_memory(response);
    };
    match source.push_tenant(alloc, form, &name, &mut page) {
        Ok(true) => fill_form(form, response, page),
        Ok(false) => fill(response, StatusCode::NOT_FOUND, b"no such tenant\n"),
        Err(_) => fill_no_memory(response),
    }
}

/// A page in a form. It is not copied.
fn fill_form(form: Form, response: &mut Response, page: Vec<u8>) -> Result<(), AllocError>
    requires { IsBlank response.old }
    ensures { OnOk result (InForm form page.items response.new) }
{
    let text = Bytes::from_vec(page)?;
    match form {
        Form::Metrics => fill_text(response, StatusCode::OK, text),
        Form::Status => fill_html(response, text),
    }
}

fn fill_no_memory(response: &mut Response) -> Result<(), AllocError>
    requires { IsBlank response.old }
    ensures { OnOk result (IsNoMemory response.new) }
{
    fill(
        response,
        StatusCode::SERVICE_UNAVAILABLE,
        b"out of memory\n",
    )
}

fn fill_unauthorized(response: &mut Response) -> Result<(), AllocError>
    requires { IsBlank response.old }
    ensures { OnOk result (IsTextWith 401 token_field (codes "the token is missing or wrong\n") response.new) }
{
    fill(
        response,
        StatusCode::UNAUTHORIZED,
        b"the token is missing or wrong\n",
    )?;
    response.add_header(header::WWW_AUTHENTICATE, HeaderValue::from_static("Bearer"))
}

fn fill_not_allowed(response: &mut Response) -> Result<(), AllocError>
    requires { IsBlank response.old }
    ensures { OnOk result (IsTextWith 405 allow_field (codes "only GET\n") response.new) }
{
    fill(response, StatusCode::METHOD_NOT_ALLOWED, b"only GET\n")?;
    response.add_header(header::ALLOW, HeaderValue::from_static("GET"))
}

/// A page of this status and a text that is always the same.
fn fill(response: &mut Response, status: StatusCode, text: &'static [u8]) -> Result<(), AllocError>
    requires { IsBlank response.old }
    ensures { OnOk result (IsResponse status (close_field ∷ text_field ∷ []) text.now response.new) }
{
    fill_text(response, status, Bytes::from_static(text))
}

/// A page of this status and this text, behind which the connection is closed.
fn fill_text(response: &mut Response, status: StatusCode, text: Bytes) -> Result<(), AllocError>
    requires { IsBlank response.old }
    ensures { OnOk result (IsResponse status (close_field ∷ text_field ∷ []) text response.new) }
{
    response.status = status;
    response.add_header(header::CONNECTION, HeaderValue::from_static("close"))?;
    let kind = HeaderValue::from_static("text/plain; version=0.0.4; charset=utf-8");
    response.add_header(header::CONTENT_TYPE, kind)?;
    response.body.push(text)
}

/// A page that a browser shows, and that loads and runs nothing else.
fn fill_html(response: &mut Response, text: Bytes) -> Result<(), AllocError>
    requires { IsBlank response.old }
    ensures { OnOk result (IsHtml text response.new) }
{
    response.add_header(header::CONNECTION, HeaderValue::from_static("close"))?;
    let kind = HeaderValue::from_static("text/html; charset=utf-8");
    response.add_header(header::CONTENT_TYPE, kind)?;
    let policy = HeaderValue::from_static("default-src 'none'; style-src 'unsafe-inline'");
    response.add_header(header::CONTENT_SECURITY_POLICY, policy)?;
    response.body.push(text)
}
