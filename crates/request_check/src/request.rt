// The check of a request.
ghost use Rattle.std.specs.Prelude.{◌≡◌, ◌+◌, ◌≤◌, length, IfOk};
ghost use Rattle.words.specs.Bytes.{part};
ghost use Rattle.format.specs.Layout.{request_bytes};
ghost use Rattle.format.specs.Request.{context_of, depth_of, good_request, request_fault};
ghost use Rattle.format.specs.Code.{fault_of};

use crate::context;
use crate::context::good_context;
use fields::layout::{CONTEXT_AT, REQUEST_BYTES};
use fields::request;
use format::answer::Refusal;

// The depth of the request's context.
pub fn depth(s: &[u8], at: usize) -> u32
    requires { at + request_bytes ≤ length s.now }
    ensures { result ≡ depth_of (context_of (part s.now at request_bytes)) }
{
    context::depth(s, at + CONTEXT_AT)
}

// The request's fields.
pub fn good_request(s: &[u8], at: usize) -> bool
    requires { at + request_bytes ≤ length s.now }
    ensures { result ≡ good_request (part s.now at request_bytes) }
{
    if request::user(s, at).0 == 0 {
        return false;
    }
    if request::roles(s, at).0 == 0 {
        return false;
    }
    if !request::full_privilege(s, at) {
        return false;
    }
    good_context(s, at + CONTEXT_AT)
}

// The check of a request: its length, and then its fields. One that has passed comes back as an array.
pub fn request_fault(q: &[u8]) -> Result<&[u8; REQUEST_BYTES], Refusal>
    ensures fault { fault_of result ≡ request_fault q.now }
    ensures request { IfOk result (λ request. request.now ≡ q.now) }
{
    let Ok(request) = <&[u8; REQUEST_BYTES]>::try_from(q) else {
        return Err(Refusal::Length);
    };
    if !good_request(request, 0) {
        return Err(Refusal::Field);
    }
    Ok(request)
}
