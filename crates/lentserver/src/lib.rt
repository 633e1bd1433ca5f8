// The login server's call over buffers that the caller lends: the books, the message, an output; one number comes back.
#![tactic(auto)]

ghost use Rattle.server.specs.Login.{logged_in};
ghost use Rattle.lentserver.specs.Server.{Answers};

use handed::wrote;
use refusal::To;

// A login: `message` came from the router at `source`; what is written goes back to it, so the number names no destination.
pub fn login<'a>(
    mill: &'a [u8],
    visitors: &'a [u8],
    source: &[u8; 4],
    message: &[u8],
    out: &mut [u8],
) -> u32
    ensures { Answers (logged_in mill.now visitors.now source.now message.now out.old) result out.new }
{
    let w = server::login(mill, visitors, *source, message, out);
    wrote(w, To::Nobody)
}
