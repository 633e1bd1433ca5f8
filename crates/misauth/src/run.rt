// Objects that may repeat, as a run: whole objects of one type, one after the other (document 003, 5.1).
ghost use Rattle.std.specs.Prelude.{◌≡◌};
ghost use Rattle.object.specs.declared.family.Family.TheVariants.{Misauth};
ghost use Rattle.misauth.specs.Run.{is_run, count_in};

use message::reading::body;
use object::family::Family;
use object::objects::{Mine, Objects};
use object::rule::rule_of;
use object::walk::is_mine;

// Whether a byte string is a run of objects of a type.
pub fn is_run(run: &[u8], kind: u8) -> bool
    ensures { result ≡ is_run kind run.now }
{
    let rule = rule_of(Family::Misauth, kind);
    let mut objects = Objects {
        rest: run,
        at: 0,
        padding: false,
    };
    objects.all(|o| is_mine(rule, kind, o.kind, o.value)) && objects.rest.is_empty()
}

// How many objects of a type a message has that ends at `end`.
pub fn count(m: &[u8], end: usize, kind: u8) -> usize
    ensures { result ≡ count_in kind end m.now }
{
    Mine::of(body(m, Family::Misauth, end), Family::Misauth, kind).count()
}
