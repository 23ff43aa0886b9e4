//! How a request is answered.
ghost use Rattle.std.specs.Prelude.{◌≡◌, ◌≢◌, ◌++◌, [], ◌∷◌, IsOk, IsTrue, List, OnErr, OnOk, Some};
ghost use Rattle.http1.specs.Fields.{Header};
ghost use Rattle.http.specs.FieldValue.{is_visible_text};
ghost use Rattle.http_server.specs.Response.{fields_of};
ghost use Rattle.vdcp_panel.specs.Answered.{IsHeld, body_of, calls_after, guards};
ghost use Rattle.vdcp_panel.specs.Wishes.{shown_by, wish_call};

use crate::call::{Call, Calls};
use crate::gate::Gate;
use crate::view::View;
use crate::wish::Wish;
use bytes::{BufMut, Bytes};
use http::{HeaderName, HeaderValue, Request, StatusCode, header};
use http_server::{Response, Service};
use std::alloc::{AllocError, Global};

// A page gets only what is its own, and no frame may hold it.
const POLICY: &'static str =
    "default-src 'none'; style-src 'unsafe-inline'; script-src 'unsafe-inline'; connect-src 'self'; img-src data:; frame-ancestors 'none'; base-uri 'none'; form-action 'none'";

/// Answers requests by a view, and holds the calls that they make.
#[derive(Drop)]
pub struct Desk<'a, V: View> {
    pub alloc: Global,
    pub gate: Gate<'a>,
    pub view: &'a V,
    pub calls: Calls,
    /// Whether a request by the connection whose turn it is had the token.
    pub is_known: bool,
}

impl<V: View> Desk<'_, V> {
    fn answer(&mut self, wish: Wish, response: &mut Response) -> Result<(), AllocError>
        requires fresh { response.old.status ≡ 200 }
        requires empty { response.old.body.items ≡ [] }
        requires bare { fields_of response.old ≡ [] }
        ensures stays { self.new ≡ record self.old { calls = self.new.calls } }
        ensures body { OnOk result (response.new.body.items
            ≡ body_of (shown_by (V.page_bytes self.old.view.now) (V.state_bytes self.old.view.now) wish)) }
        ensures guarded { OnOk result ((more : List Header) × (fields_of response.new ≡ guards ++ more)) }
        ensures held { OnOk result (self.new.calls.items ≡ calls_after self.old.calls.items (wish_call wish)) }
        ensures accepted { OnOk result (response.new.status ≡ 204 → IsHeld self.old.calls.items self.new.calls.items) }
        ensures refused { OnOk result (response.new.status ≢ 204 → self.new.calls.items ≡ self.old.calls.items) }
        ensures forbidden { wish ≡ Wish.Forbidden → OnOk result (response.new.status ≡ 403) }
        ensures err { OnErr result (self.new ≡ self.old) }
    {
        add_guards(response)?;
        match wish {
            Wish::Page => {
                add(response, header::CONTENT_TYPE, "text/html; charset=utf-8")?;
                response
                    .body
                    .push(Bytes::from_static(self.view.page().as_bytes()))
            }
            Wish::State => {
                add(response, header::CONTENT_TYPE, "application/json")?;
                let state = self.view.state(self.alloc)?;
                response.body.put_slice(state.as_bytes())
            }
            Wish::Call(call) => {
                response.status = self.hold(call);
                Ok(())
            }
            Wish::Forbidden => refuse(response, StatusCode::FORBIDDEN),
            Wish::NotFound => refuse(response, StatusCode::NOT_FOUND),
            Wish::NotAllowed => refuse(response, StatusCode::METHOD_NOT_ALLOWED),
            Wish::Conflict => refuse(response, StatusCode::CONFLICT),
        }
    }

    fn hold(&mut self, call: Call) -> StatusCode
        ensures stays { self.new ≡ record self.old { calls = self.new.calls } }
        ensures held { self.new.calls.items ≡ calls_after self.old.calls.items (Some call) }
        ensures accepted { result ≡ 204 → IsHeld self.old.calls.items self.new.calls.items }
        ensures refused { result ≢ 204 → self.new.calls.items ≡ self.old.calls.items }
    {
        match self.calls.try_push(call) {
            Ok(()) => StatusCode::NO_CONTENT,
            Err(_) => StatusCode::SERVICE_UNAVAILABLE,
        }
    }
}

fn refuse(response: &mut Response, status: StatusCode) -> Result<(), AllocError>
    ensures status { response.new.status ≡ status }
    ensures body { response.new.body ≡ response.old.body }
    ensures headers { fields_of response.new ≡ fields_of response.old }
    ensures done { IsOk result }
{
    response.status = status;
    Ok(())
}

// These keep other pages from showing an answer or making anything of it.
fn add_guards(response: &mut Response) -> Result<(), AllocError>
    ensures status { response.new.status ≡ response.old.status }
    ensures body { response.new.body ≡ response.old.body }
    ensures headers { OnOk result (fields_of response.new ≡ fields_of response.old ++ guards) }
{
    add(response, header::CACHE_CONTROL, "no-store")?;
    add(response, header::X_CONTENT_TYPE_OPTIONS, "nosniff")?;
    add(response, header::REFERRER_POLICY, "no-referrer")?;
    add(response, header::CONTENT_SECURITY_POLICY, POLICY)?;
    add(response, header::X_FRAME_OPTIONS, "DENY")?;
    let policy = HeaderName::from_static("cross-origin-resource-policy");
    add(response, policy, "same-origin")?;
    Ok(())
}

fn add(response: &mut Response, name: HeaderName, value: &'static str) -> Result<(), AllocError>
    requires visible { IsTrue (is_visible_text value.now) }
    ensures status { response.new.status ≡ response.old.status }
    ensures body { response.new.body ≡ response.old.body }
    ensures headers { OnOk result (fields_of response.new ≡ fields_of response.old ++ (name, value.now) ∷ []) }
{
    response.add_header(name, HeaderValue::from_static(value))
}

impl<V: View> Service for Desk<'_, V> {
    ghost use Rattle.vdcp_panel.specs.Seen.{AnswersAtDesk};

    ghost answers = { AnswersAtDesk V.page_bytes V.state_bytes V.about };

    fn call(
        &mut self,
        request: &Request<Bytes>,
        response: &mut Response,
    ) -> Result<(), AllocError> {
        let shows_token = self.gate.shows_token(request);
        let wish = Wish::of(&self.gate, self.view.event(), request);
        self.answer(wish, response)?;
        self.is_known |= shows_token;
        Ok(())
    }
}
