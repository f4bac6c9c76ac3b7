//! Theorems that other crates may use.

ghost use Rattle.std.specs.Prelude.{◌≡◌, List, Ok, ℕ};
ghost use Rattle.mx_request.specs.declared.request.Head3.{Head3};
ghost use Rattle.mx_request.specs.declared.request.Request.{Request};
ghost use Rattle.mx_msgpack.specs.Maps.{pairs_in};
ghost use Rattle.mx_request.specs.Requests.{request_in};
ghost use Rattle.mx_request.specs.Spelling.{IsAskable, IsRequestHead, IsShared, body_pairs, request_body_text, header_pairs, type_number, map_text};

/// A theorem, which does nothing when it is called: a request that is written is read again.
pub fn what_is_asked_is_read_again()
    ensures { (head : Head3) (request : Request) → IsRequestHead head → IsAskable request → IsShared request → head.kind ≡ type_number request
        → request_in (pairs_in (map_text (header_pairs head))) (pairs_in (request_body_text (body_pairs request))) ≡ Ok (head, request) }
{}

/// A theorem, which does nothing when it is called: a request that is read can be asked, and its header
/// has its type's number.
pub fn what_is_read_can_be_asked()
    ensures { (header body : List ℕ) (head : Head3) (request : Request) → request_in (pairs_in header) (pairs_in body) ≡ Ok (head, request)
        → IsAskable request × (head.kind ≡ type_number request) }
{}
