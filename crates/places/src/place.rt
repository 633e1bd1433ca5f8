// A place: one for each node address, with perhaps a waiting attempt and perhaps an open session.
ghost use Rattle.std.specs.Prelude.{◌≡◌};
ghost use Rattle.places.specs.Place.{no_attempt, no_session, fresh_place, attempt_at, session_at, kept_place, place_at};

// Stays: here and below a flag beside the values, and no Option: a stored state may hold something under a cleared flag, and with an Option fewer buffers
// would be `RouterStored`, of which `RouterLeaves` says every byte (DECISIONS, 18, 29 and 53).

// An attempt that waits for the server: the request's stamp and check value.
#[derive(Clone, Copy)]
pub struct Attempt {
    pub waiting: bool,
    pub stamp: u64,
    pub check: [u8; 16],
}

// A session: stamp and check value of the request that opened it, its key, and when it was opened.
#[derive(Clone, Copy)]
pub struct Session {
    pub live: bool,
    pub stamp: u64,
    pub check: [u8; 16],
    pub key: [u8; 16],
    pub since: u64,
}

// Whether it is taken, for which node address, the last stamp there; its attempt and its session.
#[derive(Clone, Copy)]
pub struct Place {
    pub taken: bool,
    pub address: [u8; 6],
    pub last: u64,
    pub attempt: Attempt,
    pub session: Session,
}

impl Attempt {
    // No attempt.
    pub fn none() -> Self
        ensures { result ≡ no_attempt }
    {
        Self {
            waiting: false,
            stamp: 0,
            check: [0u8; 16],
        }
    }
}

impl Session {
    // No session.
    pub fn none() -> Self
        ensures { result ≡ no_session }
    {
        Self {
            live: false,
            stamp: 0,
            check: [0u8; 16],
            key: [0u8; 16],
            since: 0,
        }
    }
}

impl Place {
    // How many places a router has.
    pub const COUNT: usize = 64;

    // The fresh place.
    pub fn fresh() -> Self
        ensures { result ≡ fresh_place }
    {
        Self {
            taken: false,
            address: [0u8; 6],
            last: 0,
            attempt: Attempt::none(),
            session: Session::none(),
        }
    }
}

// An attempt lapses when more than the window has passed since its stamp.
#[tactic(auto, unfolding(crate::specs::Place::attempt_at))]
fn attempt_at(a: Attempt, now: u64, window: u32) -> Attempt
    ensures { result ≡ attempt_at now window a }
{
    if clock::stale(now, a.stamp, window) {
        Attempt::none()
    } else {
        a
    }
}

// A session lapses when more than its lifetime has passed since it was opened.
#[tactic(auto, unfolding(crate::specs::Place::session_at))]
fn session_at(s: Session, now: u64, lifetime: u16, unit: u32) -> Session
    ensures { result ≡ session_at now lifetime unit s }
{
    if clock::over(now, s.since, lifetime, unit) {
        Session::none()
    } else {
        s
    }
}

// A taken place with the address and last stamp of p, and this attempt and session.
pub fn kept(p: Place, attempt: Attempt, session: Session) -> Place
    ensures { result ≡ kept_place p attempt session }
{
    Place {
        taken: true,
        attempt,
        session,
        ..p
    }
}

// What has lapsed goes: the attempt, the session, then a place with no session whose last stamp is stale.
#[tactic(auto, unfolding(crate::specs::Place::place_at))]
pub fn place_at(p: Place, now: u64, window: u32, lifetime: u16, unit: u32) -> Place
    ensures { result ≡ place_at now window lifetime unit p }
{
    if !p.taken {
        return p;
    }
    let session = session_at(p.session, now, lifetime, unit);
    if !session.live && clock::stale(now, p.last, window) {
        return Place::fresh();
    }
    kept(p, attempt_at(p.attempt, now, window), session)
}
