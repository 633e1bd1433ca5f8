// The session terminating message (document 000, 4.5.6).
ghost use Rattle.std.specs.Prelude.{◌≡◌};
ghost use Rattle.misp.specs.Terminating.{read_terminating, terminating_bytes, terminating_in_range, terminating_values};
ghost use Rattle.message.specs.Writing.{Writes};
ghost use Rattle.object.specs.declared.family.Family.TheVariants.{Misp};

use message::field::{Message, flag_of};
use message::misp::{CHECK, REASON, STAMP, TERMINATING};
use message::reading::vet;
use message::writing::{Object, below, flag, optional, write};
use object::family::Family;
use octets::part::Part;
use refusal::Refusal;

// Which key S names, the stamp that the session began with, the part that is the check value, and the reason.
#[derive(Clone, Copy)]
pub struct Terminating {
    pub s: bool,
    pub stamp: u64,
    pub check: Part,
    pub reason: Option<u64>,
}

// The fields of a terminating message, or 1 to 6.
#[tactic(auto, unfolding(crate::specs::Terminating::read_terminating, crate::specs::Terminating::terminating_at))]
pub fn read_terminating(m: &[u8]) -> Result<Terminating, Refusal>
    ensures { result ≡ read_terminating m.now }
{
    let end = vet(m, Family::Misp, TERMINATING, &[STAMP, CHECK])?.end;
    let fields = Message {
        bytes: m,
        family: Family::Misp,
        end,
    };
    Ok(Terminating {
        s: flag_of(m),
        stamp: fields.number64(STAMP),
        check: fields.part(CHECK),
        reason: fields.optional(REASON),
    })
}

// Writes a terminating message, or refuses with 20 or 18.
#[tactic(auto, unfolding(crate::specs::Terminating::terminating_in_range, crate::specs::Terminating::terminating_bytes, message::specs::Writing::encoded, message::specs::Laid::laid_all))]
pub fn write_terminating(
    out: &mut [u8],
    s: bool,
    stamp: u64,
    check: [u8; 16],
    reason: Option<u64>,
) -> Result<usize, Refusal>
    ensures { Writes Misp (terminating_in_range (terminating_values s stamp check reason)) (terminating_bytes (terminating_values s stamp check reason)) out.old out.new result }
{
    let objects = [
        Object::Number(STAMP, 8, stamp),
        Object::Bytes(CHECK, &check),
        optional(REASON, 2, reason),
    ];
    write(
        out,
        Family::Misp,
        TERMINATING,
        flag(s),
        below(reason, 1 << 16),
        &objects,
    )
}
