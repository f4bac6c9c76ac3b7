//! Request types.

ghost use Rattle.std.specs.Prelude.{◌^◌, ◌<◌, IfOk};
ghost use Rattle.mx_msgpack.specs.Maps.{pairs_in, value_under};
ghost use Rattle.mx_base.specs.Keys.{clock_key};
ghost use Rattle.mx_request.specs.Requests.{request_type_of, zero_type};
ghost use Rattle.mx_msgpack.specs.Reading.{Gives};

use mx_base::{Refusal, Unsupported, keys};
use mx_msgpack::values_at;

/// A request type.
#[derive(Clone, Copy)]
pub(crate) enum RequestType {
    Ack,
    Select,
    Insert,
    Replace,
    Update,
    Delete,
    Upsert,
    Nop,
    Begin,
    Commit,
    Rollback,
    Ping,
    Join,
    Subscribe,
    Id,
}

#[tactic(auto, unfolding(crate::specs::Requests::request_type_of))]
pub(crate) fn request_type_of(number: u64, body: &[u8]) -> Result<RequestType, Refusal>
    ensures known { Gives (λ x. x) result (request_type_of number (pairs_in body.now)) }
    ensures small { IfOk result (λ _. number < 2 ^ 8) }
{
    match number {
        0 => zero_type(body),
        1 => Ok(RequestType::Select),
        2 => Ok(RequestType::Insert),
        3 => Ok(RequestType::Replace),
        4 => Ok(RequestType::Update),
        5 => Ok(RequestType::Delete),
        7 => Err(Refusal::Unsupported {
            what: Unsupported::Authentication,
        }),
        9 => Ok(RequestType::Upsert),
        12 => Ok(RequestType::Nop),
        14 => Ok(RequestType::Begin),
        15 => Ok(RequestType::Commit),
        16 => Ok(RequestType::Rollback),
        64 => Ok(RequestType::Ping),
        65 => Ok(RequestType::Join),
        66 => Ok(RequestType::Subscribe),
        73 => Ok(RequestType::Id),
        _ => Err(Refusal::UnknownRequestType { kind: number }),
    }
}

/// The type that has the number 0: an acknowledgement, where the body has a vclock.
fn zero_type(body: &[u8]) -> Result<RequestType, Refusal>
    ensures { Gives (λ x. x) result (zero_type (value_under clock_key (pairs_in body.now))) }
{
    let mut values = [None; 1];
    values_at(&[keys::CLOCK], body, &mut values);
    let [clock] = values;
    match clock {
        Some(_) => Ok(RequestType::Ack),
        None => Err(Refusal::UnknownRequestType { kind: 0 }),
    }
}
