// The access accept (document 003, 5.2).
ghost use Rattle.std.specs.Prelude.{◌≡◌};
ghost use Rattle.object.specs.declared.family.Family.TheVariants.{Misauth};
ghost use Rattle.message.specs.Writing.{Writes};
ghost use Rattle.misauth.specs.Run.{is_run, run_values};
ghost use Rattle.misauth.specs.Accept.{read_accept, accept_values, accept_bytes};

use crate::run::is_run;
use message::field::Message;
use message::misauth::{ACCEPT, CHECK, KEY, PROXY};
use message::reading::vet;
use message::writing::{Object, write};
use object::family::Family;
use octets::number::byte_at;
use octets::part::Part;
use refusal::Refusal;

// The Identifier, the parts that are masked session key and check value, and how many proxy objects there are.
#[derive(Clone, Copy)]
pub struct Accept {
    pub identifier: u8,
    pub key: Part,
    pub check: Part,
    pub proxies: usize,
}

// The fields of an accept, or 1 to 6.
#[tactic(auto, unfolding(crate::specs::Accept::read_accept, crate::specs::Accept::accept_at))]
pub fn read_accept(m: &[u8]) -> Result<Accept, Refusal>
    ensures { result ≡ read_accept m.now }
{
    let end = vet(m, Family::Misauth, ACCEPT, &[KEY, CHECK])?.end;
    let fields = Message {
        bytes: m,
        family: Family::Misauth,
        end,
    };
    Ok(Accept {
        identifier: byte_at(m, 1),
        key: fields.part(KEY),
        check: fields.part(CHECK),
        proxies: crate::run::count(m, end, PROXY),
    })
}

// Writes an accept; the Authenticator stays zero. `proxies` is a run of objects 33.
pub fn write_accept(
    out: &mut [u8],
    identifier: u8,
    key: [u8; 16],
    check: [u8; 16],
    proxies: &[u8],
) -> Result<usize, Refusal>
    ensures { Writes Misauth (is_run 33 proxies.now) (accept_bytes (accept_values identifier key check (run_values proxies.now))) out.old out.new result }
{
    if out.len() < Family::Misauth.limit() {
        return Err(Refusal::SmallOutput);
    }
    let objects = [
        Object::Bytes(KEY, &key),
        Object::Bytes(CHECK, &check),
        Object::Run(proxies),
    ];
    write(
        out,
        Family::Misauth,
        ACCEPT,
        identifier,
        is_run(proxies, PROXY),
        &objects,
    )
}
