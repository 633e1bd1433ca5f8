// The authentication failure message (document 000, 4.5.5).
ghost use Rattle.std.specs.Prelude.{◌≡◌, true};
ghost use Rattle.misp.specs.Failure.{read_failure, failure_bytes};
ghost use Rattle.message.specs.Writing.{Writes};
ghost use Rattle.object.specs.declared.family.Family.TheVariants.{Misp};

use message::field::Message;
use message::misp::{FAILURE, REASON, STAMP};
use message::reading::vet;
use message::writing::{Object, write};
use object::family::Family;
use refusal::Refusal;

// The beacon's stamp and the error reason.
#[derive(Clone, Copy, Debug, PartialEq, Eq)]
pub struct Failure {
    pub stamp: u64,
    pub reason: u16,
}

// The fields of a failure, or 1 to 5.
#[tactic(auto, unfolding(crate::specs::Failure::read_failure, crate::specs::Failure::failure_at))]
pub fn read_failure(m: &[u8]) -> Result<Failure, Refusal>
    ensures { result ≡ read_failure m.now }
{
    let end = vet(m, Family::Misp, FAILURE, &[STAMP, REASON])?.end;
    let fields = Message {
        bytes: m,
        family: Family::Misp,
        end,
    };
    Ok(Failure {
        stamp: fields.number64(STAMP),
        reason: fields.number16(REASON),
    })
}

// Writes a failure, or refuses with 20.
#[tactic(auto, unfolding(crate::specs::Failure::failure_bytes, message::specs::Writing::encoded, message::specs::Laid::laid_all))]
pub fn write_failure(out: &mut [u8], stamp: u64, reason: u16) -> Result<usize, Refusal>
    ensures { Writes Misp true (failure_bytes stamp reason) out.old out.new result }
{
    let objects = [
        Object::Number(STAMP, 8, stamp),
        Object::Number(REASON, 2, u64::from(reason)),
    ];
    write(out, Family::Misp, FAILURE, 0, true, &objects)
}
