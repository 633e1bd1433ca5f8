// The authentication request message (document 000, 4.5.3).
ghost use Rattle.std.specs.Prelude.{◌≡◌};
ghost use Rattle.misp.specs.Request.{read_request, request_bytes, request_in_range, request_values};
ghost use Rattle.message.specs.Writing.{Writes};
ghost use Rattle.object.specs.declared.family.Family.TheVariants.{Misp};

use message::field::{Message, flag_of};
use message::misp::{ACCOUNT, CHECK, LAYERS, LOCAL, REQUEST, SECURITY, SEED, STAMP};
use message::reading::vet;
use message::writing::{Object, below, flag, is_list, is_name, optional, write};
use object::family::Family;
use octets::part::Part;
use refusal::Refusal;

// Which key S names, the beacon's stamp, and the parts that are security types, check value, account, seed and network numbers.
#[derive(Clone, Copy)]
pub struct Request {
    pub s: bool,
    pub stamp: u64,
    pub security: Part,
    pub check: Part,
    pub account: Part,
    pub seed: Part,
    pub layers: Part,
    pub local: Option<u64>,
}

// The fields of a request, or 1 to 6.
#[tactic(auto, unfolding(crate::specs::Request::read_request, crate::specs::Request::request_at))]
pub fn read_request(m: &[u8]) -> Result<Request, Refusal>
    ensures { result ≡ read_request m.now }
{
    let end = vet(
        m,
        Family::Misp,
        REQUEST,
        &[STAMP, SECURITY, CHECK, ACCOUNT, SEED, LAYERS],
    )?
    .end;
    let fields = Message {
        bytes: m,
        family: Family::Misp,
        end,
    };
    Ok(Request {
        s: flag_of(m),
        stamp: fields.number64(STAMP),
        security: fields.part(SECURITY),
        check: fields.part(CHECK),
        account: fields.part(ACCOUNT),
        seed: fields.part(SEED),
        layers: fields.part(LAYERS),
        local: fields.optional(LOCAL),
    })
}

// Writes a request, or refuses with 20 or 18. Inlined, as the smaller writers are without being told: else one with short fields takes a fifth longer.
#[tactic(auto, unfolding(crate::specs::Request::request_in_range, crate::specs::Request::request_bytes, message::specs::Writing::encoded, message::specs::Laid::laid_all))]
#[inline(always)]
pub fn write_request<'a>(
    out: &mut [u8],
    s: bool,
    stamp: u64,
    security: &'a [u8],
    check: [u8; 16],
    account: &'a [u8],
    seed: [u8; 16],
    layers: &'a [u8],
    local: Option<u64>,
) -> Result<usize, Refusal>
    ensures { Writes Misp (request_in_range (request_values s stamp security.now check account.now seed layers.now local)) (request_bytes (request_values s stamp security.now check account.now seed layers.now local)) out.old out.new result }
{
    let in_range = is_list(security, 2)
        && is_list(layers, 2)
        && is_name(account)
        && below(local, 1 << 32);
    let objects = [
        Object::Number(STAMP, 8, stamp),
        Object::Bytes(SECURITY, security),
        Object::Bytes(CHECK, &check),
        Object::Bytes(ACCOUNT, account),
        Object::Bytes(SEED, &seed),
        Object::Bytes(LAYERS, layers),
        optional(LOCAL, 4, local),
    ];
    write(out, Family::Misp, REQUEST, flag(s), in_range, &objects)
}
