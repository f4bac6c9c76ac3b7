//! What the body of each request type asks.

ghost use Rattle.std.specs.Prelude.{◌≡◌, Ok, None, map};
ghost use Rattle.std.specs.Option.{option_copied};
ghost use Rattle.mx_msgpack.specs.Maps.{AreValues, pairs_in, value_under};
ghost use Rattle.mx_request.specs.Requests.{ack_in, begin_in, body_request, delete_in, insert_in, join_in, shaped_operations, replace_in, select_in, subscribe_in, update_in, upsert_in};
ghost use Rattle.mx_request.specs.InPlace.{request_view};
ghost use Rattle.mx_request.specs.PacketParts.{is_body};
ghost use Rattle.mx_msgpack.specs.Reading.{Gives};

use crate::fields::{
    optional_number, required_array, required_clock, required_number, required_uuid,
};
use crate::operators::shape_fault;
use crate::request_ref::RequestRef;
use crate::request_type::RequestType;
use mx_base::{IndexId, Refusal, SpaceId, keys};
use mx_msgpack::values_at;

/// The greatest number of an iterator.
const MAX_ITERATOR: u32 = 6;

/// The greatest number of a tuple's first field.
const MAX_BASE: u32 = 1;

/// The greatest number of an isolation level.
const MAX_ISOLATION: u32 = 4;

/// What a body asks with this request type: its keys in ascending order, then its operations; and
/// whether the body is whole, with no bytes or one map and nothing else.
pub(crate) fn body_request<'a>(
    request_type: RequestType,
    body: &'a [u8],
    is_whole: &mut bool,
) -> Result<RequestRef<'a>, Refusal>
    ensures asked { Gives request_view result (body_request request_type (pairs_in body.now)) }
    ensures whole { is_whole.new ≡ is_body body.now }
{
    match request_type {
        RequestType::Ack => ack_in(body, is_whole),
        RequestType::Select => select_in(body, is_whole),
        RequestType::Insert => insert_in(body, is_whole),
        RequestType::Replace => replace_in(body, is_whole),
        RequestType::Update => update_in(body, is_whole),
        RequestType::Delete => delete_in(body, is_whole),
        RequestType::Upsert => upsert_in(body, is_whole),
        RequestType::Nop => {
            *is_whole = is_body(body);
            Ok(RequestRef::Nop)
        }
        RequestType::Begin => begin_in(body, is_whole),
        RequestType::Commit => {
            *is_whole = is_body(body);
            Ok(RequestRef::Commit)
        }
        RequestType::Rollback => {
            *is_whole = is_body(body);
            Ok(RequestRef::Rollback)
        }
        RequestType::Ping => {
            *is_whole = is_body(body);
            Ok(RequestRef::Ping)
        }
        RequestType::Join => join_in(body, is_whole),
        RequestType::Subscribe => subscribe_in(body, is_whole),
        RequestType::Id => {
            *is_whole = is_body(body);
            Ok(RequestRef::Id)
        }
    }
}

#[inline(never)]
#[tactic(auto, unfolding(crate::specs::Requests::select_in))]
fn select_in<'a>(body: &'a [u8], is_whole: &mut bool) -> Result<RequestRef<'a>, Refusal>
    ensures asked { Gives request_view result (select_in (pairs_in body.now)) }
    ensures whole { is_whole.new ≡ is_body body.now }
{
    let mut values = [None; 6];
    *is_whole = body_values(
        &[
            keys::SPACE,
            keys::INDEX,
            keys::LIMIT,
            keys::OFFSET,
            keys::ITERATOR,
            keys::PARTS,
        ],
        body,
        &mut values,
    );
    let [space, index, limit, offset, iterator, key] = values;
    Ok(RequestRef::Select {
        space: SpaceId(required_number(keys::SPACE, space)?),
        index: IndexId(optional_number(keys::INDEX, 0, u32::MAX, index)?),
        limit: optional_number(keys::LIMIT, u32::MAX, u32::MAX, limit)?,
        offset: optional_number(keys::OFFSET, 0, u32::MAX, offset)?,
        iterator: optional_number(keys::ITERATOR, 0, MAX_ITERATOR, iterator)? as u8,
        key: required_array(keys::PARTS, key)?,
    })
}

#[inline(never)]
#[tactic(auto, unfolding(crate::specs::Requests::insert_in))]
fn insert_in<'a>(body: &'a [u8], is_whole: &mut bool) -> Result<RequestRef<'a>, Refusal>
    ensures asked { Gives request_view result (insert_in (pairs_in body.now)) }
    ensures whole { is_whole.new ≡ is_body body.now }
{
    let mut values = [None; 2];
    *is_whole = body_values(&[keys::SPACE, keys::TUPLE], body, &mut values);
    let [space, tuple] = values;
    Ok(RequestRef::Insert {
        space: SpaceId(required_number(keys::SPACE, space)?),
        tuple: required_array(keys::TUPLE, tuple)?,
    })
}

#[inline(never)]
#[tactic(auto, unfolding(crate::specs::Requests::replace_in))]
fn replace_in<'a>(body: &'a [u8], is_whole: &mut bool) -> Result<RequestRef<'a>, Refusal>
    ensures asked { Gives request_view result (replace_in (pairs_in body.now)) }
    ensures whole { is_whole.new ≡ is_body body.now }
{
    let mut values = [None; 2];
    *is_whole = body_values(&[keys::SPACE, keys::TUPLE], body, &mut values);
    let [space, tuple] = values;
    Ok(RequestRef::Replace {
        space: SpaceId(required_number(keys::SPACE, space)?),
        tuple: required_array(keys::TUPLE, tuple)?,
    })
}

#[inline(never)]
#[tactic(auto, unfolding(crate::specs::Requests::update_in))]
fn update_in<'a>(body: &'a [u8], is_whole: &mut bool) -> Result<RequestRef<'a>, Refusal>
    ensures asked { Gives request_view result (update_in (pairs_in body.now)) }
    ensures whole { is_whole.new ≡ is_body body.now }
{
    let mut values = [None; 5];
    *is_whole = body_values(
        &[
            keys::SPACE,
            keys::INDEX,
            keys::BASE,
            keys::PARTS,
            keys::TUPLE,
        ],
        body,
        &mut values,
    );
    let [space, index, base, key, ops] = values;
    Ok(RequestRef::Update {
        space: SpaceId(required_number(keys::SPACE, space)?),
        index: IndexId(optional_number(keys::INDEX, 0, u32::MAX, index)?),
        base: optional_number(keys::BASE, 0, MAX_BASE, base)?,
        key: required_array(keys::PARTS, key)?,
        ops: shaped(required_array(keys::TUPLE, ops)?)?,
    })
}

#[inline(never)]
#[tactic(auto, unfolding(crate::specs::Requests::delete_in))]
fn delete_in<'a>(body: &'a [u8], is_whole: &mut bool) -> Result<RequestRef<'a>, Refusal>
    ensures asked { Gives request_view result (delete_in (pairs_in body.now)) }
    ensures whole { is_whole.new ≡ is_body body.now }
{
    let mut values = [None; 3];
    *is_whole = body_values(&[keys::SPACE, keys::INDEX, keys::PARTS], body, &mut values);
    let [space, index, key] = values;
    Ok(RequestRef::Delete {
        space: SpaceId(required_number(keys::SPACE, space)?),
        index: IndexId(optional_number(keys::INDEX, 0, u32::MAX, index)?),
        key: required_array(keys::PARTS, key)?,
    })
}

#[inline(never)]
#[tactic(auto, unfolding(crate::specs::Requests::upsert_in))]
fn upsert_in<'a>(body: &'a [u8], is_whole: &mut bool) -> Result<RequestRef<'a>, Refusal>
    ensures asked { Gives request_view result (upsert_in (pairs_in body.now)) }
    ensures whole { is_whole.new ≡ is_body body.now }
{
    let mut values = [None; 4];
    *is_whole = body_values(
        &[keys::SPACE, keys::BASE, keys::TUPLE, keys::OPERATIONS],
        body,
        &mut values,
    );
    let [space, base, tuple, ops] = values;
    Ok(RequestRef::Upsert {
        space: SpaceId(required_number(keys::SPACE, space)?),
        base: optional_number(keys::BASE, 0, MAX_BASE, base)?,
        tuple: required_array(keys::TUPLE, tuple)?,
        ops: shaped(required_array(keys::OPERATIONS, ops)?)?,
    })
}

/// The isolation level is checked and not kept, since there is only one.
#[inline(never)]
#[tactic(auto, unfolding(crate::specs::Requests::begin_in))]
fn begin_in<'a>(body: &'a [u8], is_whole: &mut bool) -> Result<RequestRef<'a>, Refusal>
    ensures asked { Gives request_view result (begin_in (pairs_in body.now)) }
    ensures whole { is_whole.new ≡ is_body body.now }
{
    let mut values = [None; 1];
    *is_whole = body_values(&[keys::ISOLATION], body, &mut values);
    let [level] = values;
    optional_number(keys::ISOLATION, 0, MAX_ISOLATION, level)?;
    Ok(RequestRef::Begin)
}

#[inline(never)]
#[tactic(auto, unfolding(crate::specs::Requests::join_in))]
fn join_in<'a>(body: &'a [u8], is_whole: &mut bool) -> Result<RequestRef<'a>, Refusal>
    ensures asked { Gives request_view result (join_in (pairs_in body.now)) }
    ensures whole { is_whole.new ≡ is_body body.now }
{
    let mut values = [None; 1];
    *is_whole = body_values(&[keys::INSTANCE], body, &mut values);
    let [instance] = values;
    Ok(RequestRef::Join {
        instance: required_uuid(keys::INSTANCE, instance)?,
    })
}

#[inline(never)]
#[tactic(auto, unfolding(crate::specs::Requests::subscribe_in))]
fn subscribe_in<'a>(body: &'a [u8], is_whole: &mut bool) -> Result<RequestRef<'a>, Refusal>
    ensures asked { Gives request_view result (subscribe_in (pairs_in body.now)) }
    ensures whole { is_whole.new ≡ is_body body.now }
{
    let mut values = [None; 3];
    *is_whole = body_values(
        &[keys::INSTANCE, keys::REPLICA_SET, keys::CLOCK],
        body,
        &mut values,
    );
    let [instance, set, clock] = values;
    Ok(RequestRef::Subscribe {
        instance: required_uuid(keys::INSTANCE, instance)?,
        set: required_uuid(keys::REPLICA_SET, set)?,
        clock: required_clock(keys::CLOCK, clock)?,
    })
}

#[inline(never)]
#[tactic(auto, unfolding(crate::specs::Requests::ack_in))]
fn ack_in<'a>(body: &'a [u8], is_whole: &mut bool) -> Result<RequestRef<'a>, Refusal>
    ensures asked { Gives request_view result (ack_in (pairs_in body.now)) }
    ensures whole { is_whole.new ≡ is_body body.now }
{
    let mut values = [None; 1];
    *is_whole = body_values(&[keys::CLOCK], body, &mut values);
    let [clock] = values;
    Ok(RequestRef::Ack {
        clock: required_clock(keys::CLOCK, clock)?,
    })
}

/// Whether these are no bytes, or one map and nothing else.
pub(crate) fn is_body(bytes: &[u8]) -> bool
    ensures { result ≡ is_body bytes.now }
{
    body_values(&[], bytes, &mut [])
}

/// The values under these keys, each in its key's place, and whether the body is whole.
#[inline(always)]
fn body_values<'a>(keys: &[u8], body: &'a [u8], values: &mut [Option<&'a [u8]>]) -> bool
    requires { map option_copied values.old ≡ map (λ key. None) keys.now }
    ensures values { map option_copied values.new ≡ map (λ key. value_under key (pairs_in body.now)) keys.now }
    ensures are { AreValues (map option_copied values.new) }
    ensures whole { result ≡ is_body body.now }
{
    match values_at(keys, body, values) {
        Some(rest) => rest.is_empty(),
        None => body.is_empty(),
    }
}

fn shaped(operations: &[u8]) -> Result<&[u8], Refusal>
    ensures { Gives (λ shaped. shaped.now) result (shaped_operations operations.now) }
{
    match shape_fault(operations) {
        None => Ok(operations),
        Some(fault) => Err(fault),
    }
}
