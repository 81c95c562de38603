//! Pages over HTTP/1.1 for who runs the broker: whether it is well, and what it does.
//!
//! [`Pages`] listens on an address of its own and serves at most 16 connections, one page each, within 5 seconds. It never waits: it is
//! turned by hand. What is on a page comes from a [`Source`]. Which page a request gets is `page_for` of `specs/Route.antt`, and what is
//! answered is the contract of [`Site`], by which `http_server` says what is sent.
#![tactic(auto)]

mod pages;
mod peer;
mod route;
mod site;

pub use pages::Pages;
pub use route::Page;
pub use site::{Form, Site, Source};
