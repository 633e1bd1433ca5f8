// The authentication success message (document 000, 4.5.4).
ghost use Rattle.std.specs.Prelude.{◌≡◌};
ghost use Rattle.misp.specs.Success.{read_success, success_bytes, success_in_range, success_values};
ghost use Rattle.message.specs.Writing.{Writes};
ghost use Rattle.object.specs.declared.family.Family.TheVariants.{Misp};

use message::field::{Message, flag_of};
use message::misp::{CHECK, LAYERS, LIFETIME, LOCAL, REMOTE, STAMP, SUCCESS};
use message::reading::vet;
use message::writing::{Object, below, flag, is_list, optional, write};
use object::family::Family;
use octets::part::Part;
use refusal::Refusal;

// Which key S names, the beacon's stamp, the key's lifetime, and the parts that are check value and network numbers.
#[derive(Clone, Copy)]
pub struct Success {
    pub s: bool,
    pub stamp: u64,
    pub lifetime: u16,
    pub check: Part,
    pub layers: Part,
    pub local: Option<u64>,
    pub remote: Option<u64>,
}

// The fields of a success, or 1 to 6.
#[tactic(auto, unfolding(crate::specs::Success::read_success, crate::specs::Success::success_at))]
pub fn read_success(m: &[u8]) -> Result<Success, Refusal>
    ensures { result ≡ read_success m.now }
{
    let end = vet(m, Family::Misp, SUCCESS, &[STAMP, LIFETIME, CHECK, LAYERS])?.end;
    let fields = Message {
        bytes: m,
        family: Family::Misp,
        end,
    };
    Ok(Success {
        s: flag_of(m),
        stamp: fields.number64(STAMP),
        lifetime: fields.number16(LIFETIME),
        check: fields.part(CHECK),
        layers: fields.part(LAYERS),
        local: fields.optional(LOCAL),
        remote: fields.optional(REMOTE),
    })
}

// Writes a success, or refuses with 20 or 18.
#[tactic(auto, unfolding(crate::specs::Success::success_in_range, crate::specs::Success::success_bytes, message::specs::Writing::encoded, message::specs::Laid::laid_all))]
pub fn write_success(
    out: &mut [u8],
    s: bool,
    stamp: u64,
    lifetime: u16,
    check: [u8; 16],
    layers: &[u8],
    local: Option<u64>,
    remote: Option<u64>,
) -> Result<usize, Refusal>
    ensures { Writes Misp (success_in_range (success_values s stamp lifetime check layers.now local remote)) (success_bytes (success_values s stamp lifetime check layers.now local remote)) out.old out.new result }
{
    let in_range = is_list(layers, 2) && below(local, 1 << 32) && below(remote, 1 << 32);
    let objects = [
        Object::Number(STAMP, 8, stamp),
        Object::Number(LIFETIME, 2, u64::from(lifetime)),
        Object::Bytes(CHECK, &check),
        Object::Bytes(LAYERS, layers),
        optional(LOCAL, 4, local),
        optional(REMOTE, 4, remote),
    ];
    write(out, Family::Misp, SUCCESS, flag(s), in_range, &objects)
}
