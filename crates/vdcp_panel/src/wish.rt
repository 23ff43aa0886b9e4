//! What a request wants, by its method, its path and its headers.
ghost use Rattle.std.specs.Prelude.{◌≡◌, ◌&&◌, ℕ, List, None, Some, false, if◌then◌else◌};
ghost use Rattle.vdcp_panel.specs.Asked.{called, called_at, has_token, is_about, is_let_in, place_of, place_to_skip, shown, shown_at, verb_of};
ghost use Rattle.vdcp_panel.specs.Wishes.{shown_by, wish_call};

use crate::call::Call;
use crate::gate::{Gate, is_text};
use crate::number::number_in;
use bytes::Bytes;
use http::Request;
use itoa::Buffer;

#[derive(Clone, Copy)]
pub enum Verb {
    Read,
    Post,
    Other,
}

#[derive(Clone, Copy)]
pub enum Place {
    Page,
    State,
    Call(Call),
    Nowhere,
}

#[derive(Clone, Copy)]
pub enum Wish {
    Page,
    State,
    Call(Call),
    /// The request isn't let in, or has no token.
    Forbidden,
    NotFound,
    NotAllowed,
    /// The call is about another event.
    Conflict,
}

impl Verb {
    fn of(method: &str) -> Verb
        ensures { result ≡ verb_of method.now }
    {
        if method == "GET" || method == "HEAD" {
            Verb::Read
        } else if method == "POST" {
            Verb::Post
        } else {
            Verb::Other
        }
    }
}

impl Place {
    fn of(path: &str) -> Place
        ensures { result ≡ place_of path.now }
    {
        if path == "/" {
            Place::Page
        } else if path == "/state" {
            Place::State
        } else if path == "/take" {
            Place::Call(Call::Take)
        } else if path == "/stop" {
            Place::Call(Call::Stop)
        } else if path == "/hold" {
            Place::Call(Call::Hold)
        } else if path == "/go" {
            Place::Call(Call::Go)
        } else if let Some(digits) = path.as_bytes().strip_prefix(b"/skip/") {
            number_in(digits).map_or(Place::Nowhere, place_to_skip)
        } else {
            Place::Nowhere
        }
    }
}

fn place_to_skip(event: usize) -> Place
    ensures { result ≡ place_to_skip (Some event) }
{
    Place::Call(Call::Skip(event))
}

impl Wish {
    /// `event` is the one that a call has to be about.
    pub fn of(gate: &Gate<'_>, event: Option<u64>, request: &Request<Bytes>) -> Wish
        ensures call { wish_call result ≡ called gate.now event request.now }
        ensures shows { (page state : List ℕ) → shown_by page state result ≡ shown gate.now page state request.now }
        ensures outside { is_let_in gate.now request.now ≡ false → result ≡ Wish.Forbidden }
    {
        if !gate.lets_in(request) {
            return Wish::Forbidden;
        }
        let verb = Verb::of(request.method().as_str());
        wish_at(Place::of(request.uri().path()), verb, gate, event, request)
    }
}

fn wish_at(
    place: Place,
    verb: Verb,
    gate: &Gate<'_>,
    event: Option<u64>,
    request: &Request<Bytes>,
) -> Wish
    ensures call { wish_call result
        ≡ (if has_token gate.now request.now && is_about event request.now then called_at place verb else None) }
    ensures shows { (page state : List ℕ) → shown_by page state result ≡ shown_at page state place verb }
{
    match (place, verb) {
        (Place::Page, Verb::Read) => Wish::Page,
        (Place::State, Verb::Read) => Wish::State,
        (Place::Call(call), Verb::Post) => wish_to(call, gate, event, request),
        (Place::Nowhere, _) => Wish::NotFound,
        (Place::Page | Place::State | Place::Call(_), _) => Wish::NotAllowed,
    }
}

fn wish_to(call: Call, gate: &Gate<'_>, event: Option<u64>, request: &Request<Bytes>) -> Wish
    ensures call { wish_call result
        ≡ (if has_token gate.now request.now && is_about event request.now then Some call else None) }
    ensures shows { (page state : List ℕ) → shown_by page state result ≡ None }
{
    if event.is_none() {
        return Wish::NotFound;
    }
    if !gate.has_token(request) {
        return Wish::Forbidden;
    }
    if !is_about(event, request) {
        return Wish::Conflict;
    }
    Wish::Call(call)
}

fn is_about(event: Option<u64>, request: &Request<Bytes>) -> bool
    ensures { result ≡ is_about event request.now }
{
    let Some(event) = event else {
        return false;
    };
    let mut buffer = Buffer::new();
    is_text(request.headers().get("x-panel-event"), buffer.format(event))
}
