// The login server (the paper, 'Steps').
#![tactic(auto)]

ghost use Rattle.std.specs.Prelude.{◌≡◌, ◌≤◌, [], length, nat_lt};
ghost use Rattle.octets.specs.Choice.{both};
ghost use Rattle.octets.specs.Same.{same_bytes};
ghost use Rattle.object.specs.declared.family.Family.TheVariants.{Misauth};
ghost use Rattle.object.specs.Family.{limit_of};
ghost use Rattle.terms.specs.Terms.{takes_type};
ghost use Rattle.misauth.specs.Accept.{accept_values, accept_bytes};
ghost use Rattle.misauth.specs.Reject.{reject_values, reject_bytes};
ghost use Rattle.authenticator.specs.Authenticator.{sealed};
ghost use Rattle.icv.specs.Icv.{check_value, session_key, masked};
ghost use Rattle.refusal.specs.Step.{Leaves};
ghost use Rattle.server.specs.Login.{sends, decided_login, judged_login, logged_in};
ghost use Rattle.server.specs.Parts.{by_written, Ready};

use message::field::sixteen_at;
use object::family::Family;
use refusal::Refusal;

// Whether the account is in a book, the check value is right and the security type is 2 or 3.
fn accepts(password: &[u8], authentication: [u8; 16], check: [u8; 16], security: u16) -> bool
    ensures { result ≡ both (nat_lt 0 (length password.now)) (both (same_bytes check (check_value password.now authentication)) (takes_type security)) }
{
    if password.len() == 0 {
        return false;
    }
    let right = icv::check_value(password, authentication);
    if !octets::same::same(&check, &right) {
        return false;
    }
    terms::takes_type(security)
}

// What was written goes out with its Authenticator. That the writer refuses does not occur: an accept has 56 bytes, a reject 20.
fn sealed_answer(w: Result<usize, Refusal>, out: &mut [u8], secret: &[u8]) -> Result<usize, Refusal>
    ensures { Leaves (by_written w secret.now out.old) result out.new }
{
    let n = w?;
    authenticator::seal(out, n, secret);
    Ok(n)
}

// The accept, with the masked session key and the check value.
fn accept(
    out: &mut [u8],
    secret: &[u8],
    password: &[u8],
    identifier: u8,
    check: [u8; 16],
    seed: [u8; 16],
) -> Result<usize, Refusal>
    requires { limit_of Misauth ≤ length out.old }
    ensures { Leaves (sends (sealed secret.now (accept_bytes (accept_values identifier (masked secret.now check (session_key password.now seed)) check []))) out.old) result out.new }
{
    let proxies = [0u8; 0];
    let key = icv::mask(secret, check, icv::session_key(password, seed));
    let w = misauth::accept::write_accept(out, identifier, key, check, &proxies);
    sealed_answer(w, out, secret)
}

// A bare reject.
fn reject(out: &mut [u8], secret: &[u8], identifier: u8) -> Result<usize, Refusal>
    requires { limit_of Misauth ≤ length out.old }
    ensures { Leaves (sends (sealed secret.now (reject_bytes (reject_values identifier []))) out.old) result out.new }
{
    let proxies = [0u8; 0];
    let w = misauth::reject::write_reject(out, identifier, &proxies);
    sealed_answer(w, out, secret)
}

// 4, 5 and 6; then the accept or the reject.
fn decide<'a>(
    mill: &'a [u8],
    visitors: &'a [u8],
    secret: &[u8],
    m: &[u8],
    out: &mut [u8],
) -> Result<usize, Refusal>
    requires { Ready mill.now visitors.now out.old }
    ensures { Leaves (decided_login mill.now visitors.now secret.now m.now out.old) result out.new }
{
    // Stays: the paper's form of a step that passes a refusal on (DECISIONS, 41) is a `match` whose refused arm returns.
    let r = match misauth::request::read_access_request(m) {
        Err(why) => return Err(why),
        Ok(r) => r,
    };
    let name = octets::part::bytes_at(m, r.account);
    let password = book::search::password_in(mill, visitors, name);
    let authentication = sixteen_at(m, r.authentication);
    let check = sixteen_at(m, r.check);
    if accepts(password, authentication, check, r.security) {
        let seed = sixteen_at(m, r.seed);
        return accept(out, secret, password, r.identifier, check, seed);
    }
    reject(out, secret, r.identifier)
}

// 3, 22 and 16 of a message whose header ends it at `end`; then what its objects decide.
fn judge<'a>(
    mill: &'a [u8],
    visitors: &'a [u8],
    source: [u8; 4],
    m: &[u8],
    end: usize,
    out: &mut [u8],
) -> Result<usize, Refusal>
    requires { Ready mill.now visitors.now out.old }
    ensures { Leaves (judged_login mill.now visitors.now source m.now end out.old) result out.new }
{
    if octets::number::byte_at(m, 0) != 1 {
        return Err(Refusal::OtherCode);
    }
    let secret = book::search::secret_in(mill, &source);
    if secret.len() == 0 {
        return Err(Refusal::UnknownRouter);
    }
    if !authenticator::is_authentic(secret, octets::number::part(m, 0, end)) {
        return Err(Refusal::WrongAuthenticator);
    }
    decide(mill, visitors, secret, m, out)
}

// A login: `m` came from the router at `source`; what is written into `out` goes back to it, and how many bytes these are is handed back. A refusal
// writes nothing. 20, 19, 1, 2, then the rest.
pub fn login<'a>(
    mill: &'a [u8],
    visitors: &'a [u8],
    source: [u8; 4],
    m: &[u8],
    out: &mut [u8],
) -> Result<usize, Refusal>
    ensures { Leaves (logged_in mill.now visitors.now source m.now out.old) result out.new }
{
    if out.len() < Family::Misauth.limit() {
        return Err(Refusal::SmallOutput);
    }
    if !book::whole::whole(mill) {
        return Err(Refusal::BrokenBook);
    }
    if !book::whole::whole(visitors) {
        return Err(Refusal::BrokenBook);
    }
    // Stays: as in `decide`.
    let end = match message::reading::head(m, Family::Misauth) {
        Err(why) => return Err(why),
        Ok(end) => end,
    };
    judge(mill, visitors, source, m, end, out)
}
