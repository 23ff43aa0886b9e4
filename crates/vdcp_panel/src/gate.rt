//! Which requests are let in, and which may make calls.
ghost use Rattle.std.specs.Prelude.{◌≡◌, option_copied};
ghost use Rattle.vdcp_panel.specs.Asked.{has_token, is_let_in, is_of, is_text, may_be_at, may_be_text, shows_token};

use bytes::Bytes;
use http::header::GetAll;
use http::uri::Authority;
use http::{HeaderValue, Request};

#[derive(Clone, Copy, Debug)]
pub struct Name<'a> {
    /// As `127.0.0.1:8080`.
    pub host: &'a str,
    /// As `http://127.0.0.1:8080`.
    pub origin: &'a str,
}

/// Lets in a request to one of these names that no page of another name makes; a call needs the token, too.
#[derive(Clone, Copy, Debug)]
pub struct Gate<'a> {
    pub address: Name<'a>,
    pub local: Name<'a>,
    pub token: &'a str,
}

impl Name<'_> {
    fn is_of(&self, request: &Request<Bytes>) -> bool
        ensures { result ≡ is_of self.now request.now }
    {
        let headers = request.headers();
        is_text(headers.get("host"), self.host)
            && may_be_at(request.uri().authority(), self.host)
            && may_be_text(headers.get_all("origin"), self.origin)
    }
}

impl Gate<'_> {
    /// Whether the request is for this server, and from no page of another one.
    pub fn lets_in(&self, request: &Request<Bytes>) -> bool
        ensures { result ≡ is_let_in self.now request.now }
    {
        self.address.is_of(request) || self.local.is_of(request)
    }

    pub fn has_token(&self, request: &Request<Bytes>) -> bool
        ensures { result ≡ has_token self.now request.now }
    {
        is_text(request.headers().get("x-panel-token"), self.token)
    }

    pub fn shows_token(&self, request: &Request<Bytes>) -> bool
        ensures { result ≡ shows_token self.now request.now }
    {
        self.lets_in(request) && self.has_token(request)
    }
}

pub fn is_text(value: Option<&HeaderValue>, text: &str) -> bool
    ensures { result ≡ is_text (option_copied value.entry) text.now }
{
    match value {
        Some(value) => value.as_bytes() == text.as_bytes(),
        None => false,
    }
}

fn may_be_at(target: Option<&Authority>, host: &str) -> bool
    ensures { result ≡ may_be_at (option_copied target.entry) host.now }
{
    match target {
        Some(target) => target.as_str() == host,
        None => true,
    }
}

// The header may be missing, but not stand twice.
fn may_be_text(values: GetAll<'_, HeaderValue>, text: &str) -> bool
    ensures { result ≡ may_be_text values.entry text.now }
{
    let mut values = values.iter();
    let Some(value) = values.next() else {
        return true;
    };
    values.next().is_none() && value.as_bytes() == text.as_bytes()
}
