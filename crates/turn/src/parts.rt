// What a request and a reply both need: the success of a session.
ghost use Rattle.std.specs.Prelude.{true};
ghost use Rattle.object.specs.declared.family.Family.TheVariants.{Misp};
ghost use Rattle.message.specs.Writing.{Writes};
ghost use Rattle.turn.specs.Writes.{success_for};

use places::place::Session;
use places::state::Settings;
use refusal::Refusal;

// The success of a session.
pub fn write_success(
    settings: Settings,
    to: [u8; 6],
    session: Session,
    out: &mut [u8],
) -> Result<usize, Refusal>
    ensures { Writes Misp true (success_for settings to session) out.old out.new result }
{
    checked::write_success(
        out,
        &session.key,
        settings.address,
        to,
        session.stamp,
        settings.lifetime,
        settings.network,
    )
}
