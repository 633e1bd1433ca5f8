// The access request (document 003, 5.1).
ghost use Rattle.std.specs.Prelude.{◌≡◌};
ghost use Rattle.std.specs.Option.{option_map};
ghost use Rattle.object.specs.declared.family.Family.TheVariants.{Misauth};
ghost use Rattle.message.specs.Writing.{Writes};
ghost use Rattle.misauth.specs.AccessRequest.{read_access_request, access_request_bytes, access_request_given, given_in_range};

use crate::run::is_run;
use message::field::Message;
use message::misauth::{
    ACCOUNT, AUTHENTICATION, CHECK, GROUPS, POSITION, PROXY, REQUEST, ROUTER, SECURITY, SEED, SIX,
};
use message::reading::vet;
use message::writing::{Object, below, is_list, is_name, optional, perhaps, write};
use object::family::Family;
use octets::number::byte_at;
use octets::part::Part;
use position::Position;
use refusal::Refusal;

// The Identifier; the parts that are account, authentication data, check value and seed; the security type, the position, the router's IPv4
// address; how many proxy and IPv6 objects there are; the groups.
#[derive(Clone, Copy)]
pub struct AccessRequest {
    pub identifier: u8,
    pub account: Part,
    pub authentication: Part,
    pub check: Part,
    pub seed: Part,
    pub security: u16,
    pub position: Position,
    pub router: Option<u64>,
    pub proxies: usize,
    pub sixes: usize,
    pub groups: Option<Part>,
}

// The fields of an access request that a writer takes by value.
#[derive(Clone, Copy)]
pub struct AccessRequestFields {
    pub identifier: u8,
    pub authentication: [u8; 16],
    pub check: [u8; 16],
    pub seed: [u8; 16],
    pub security: u16,
    pub position: Position,
    pub router: Option<u64>,
}

// The fields of an access request, or 1 to 6.
#[tactic(auto, using(crate::proofs::AccessRequestLaws::groups_place), unfolding(crate::specs::AccessRequest::read_access_request, crate::specs::AccessRequest::access_request_at, crate::specs::AccessRequest::groups_in))]
pub fn read_access_request(m: &[u8]) -> Result<AccessRequest, Refusal>
    ensures { result ≡ read_access_request m.now }
{
    let end = vet(
        m,
        Family::Misauth,
        REQUEST,
        &[ACCOUNT, AUTHENTICATION, CHECK, SEED, SECURITY, POSITION],
    )?
    .end;
    let fields = Message {
        bytes: m,
        family: Family::Misauth,
        end,
    };
    Ok(AccessRequest {
        identifier: byte_at(m, 1),
        account: fields.part(ACCOUNT),
        authentication: fields.part(AUTHENTICATION),
        check: fields.part(CHECK),
        seed: fields.part(SEED),
        security: fields.number16(SECURITY),
        position: position::read(fields.value(POSITION)),
        router: fields.optional(ROUTER),
        proxies: crate::run::count(m, end, PROXY),
        sixes: crate::run::count(m, end, SIX),
        groups: fields.place(GROUPS),
    })
}

// Writes an access request; the Authenticator stays zero. `proxies` is a run of objects 33 and `sixes` one of objects 95.
pub fn write_access_request<'a>(
    out: &mut [u8],
    fields: &'a AccessRequestFields,
    account: &'a [u8],
    proxies: &'a [u8],
    sixes: &'a [u8],
    groups: Option<&'a [u8]>,
) -> Result<usize, Refusal>
    ensures { Writes Misauth (given_in_range fields.now account.now proxies.now sixes.now (option_map (λ g. g.now) groups.entry)) (access_request_bytes (access_request_given fields.now account.now proxies.now sixes.now (option_map (λ g. g.now) groups.entry))) out.old out.new result }
{
    if out.len() < Family::Misauth.limit() {
        return Err(Refusal::SmallOutput);
    }
    let in_range = is_name(account)
        && position::in_range(fields.position)
        && below(fields.router, 1 << 32)
        && groups.is_none_or(|g| is_list(g, 4))
        && is_run(proxies, PROXY)
        && is_run(sixes, SIX);
    let place = position::bytes(fields.position);
    let second = fields.identifier;
    let objects = [
        Object::Bytes(ACCOUNT, account),
        Object::Bytes(AUTHENTICATION, &fields.authentication),
        Object::Bytes(CHECK, &fields.check),
        Object::Bytes(SEED, &fields.seed),
        Object::Number(SECURITY, 2, u64::from(fields.security)),
        Object::Bytes(POSITION, &place),
        optional(ROUTER, 4, fields.router),
        Object::Run(proxies),
        Object::Run(sixes),
        perhaps(GROUPS, groups),
    ];
    write(out, Family::Misauth, REQUEST, second, in_range, &objects)
}
