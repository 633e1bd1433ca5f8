// The access reject (document 003, 5.3).
ghost use Rattle.std.specs.Prelude.{◌≡◌};
ghost use Rattle.object.specs.declared.family.Family.TheVariants.{Misauth};
ghost use Rattle.message.specs.Writing.{Writes};
ghost use Rattle.misauth.specs.Run.{is_run, run_values};
ghost use Rattle.misauth.specs.Reject.{read_reject, reject_values, reject_bytes};

use crate::run::is_run;
use message::misauth::{PROXY, REJECT};
use message::reading::vet;
use message::writing::{Object, write};
use object::family::Family;
use octets::number::byte_at;
use refusal::Refusal;

// The Identifier, and how many proxy objects there are.
#[derive(Clone, Copy, Debug, PartialEq, Eq)]
pub struct Reject {
    pub identifier: u8,
    pub proxies: usize,
}

// The fields of a reject, or 1 to 4.
#[tactic(auto, unfolding(crate::specs::Reject::read_reject, crate::specs::Reject::reject_at))]
pub fn read_reject(m: &[u8]) -> Result<Reject, Refusal>
    ensures { result ≡ read_reject m.now }
{
    let end = vet(m, Family::Misauth, REJECT, &[])?.end;
    Ok(Reject {
        identifier: byte_at(m, 1),
        proxies: crate::run::count(m, end, PROXY),
    })
}

// Writes a reject; the Authenticator stays zero. `proxies` is a run of objects 33.
pub fn write_reject(out: &mut [u8], identifier: u8, proxies: &[u8]) -> Result<usize, Refusal>
    ensures { Writes Misauth (is_run 33 proxies.now) (reject_bytes (reject_values identifier (run_values proxies.now))) out.old out.new result }
{
    if out.len() < Family::Misauth.limit() {
        return Err(Refusal::SmallOutput);
    }
    write(
        out,
        Family::Misauth,
        REJECT,
        identifier,
        is_run(proxies, PROXY),
        &[Object::Run(proxies)],
    )
}
