// What a router is set up with; of an angle a flag, and its number where there is one.
ghost use Rattle.std.specs.Prelude.{◌≡◌};
ghost use Rattle.storedrouter.specs.Settings.{angle_from, angle_bytes, position_from, position_stored, settings_from, settings_bytes};

use laid::stored::{Stored, read};
use octets::number::part;
use octets::put::put_bytes;
use places::state::Settings;
use position::Position;

// How many bytes the settings have.
pub const SIZE: usize = 371;

// The angle that a byte string holds.
#[tactic(auto, unfolding(crate::specs::Settings::angle_from))]
fn angle_from(s: &[u8]) -> Option<i32>
    ensures { result ≡ angle_from s.now }
{
    read::<bool>(s, 0).then_some(read(s, 1))
}

// The bytes of an angle; zeros where it is missing.
fn angle_bytes(a: Option<i32>) -> [u8; 5]
    ensures { result ≡ angle_bytes a }
{
    let mut t = [0u8; 5];
    if let Some(z) = a {
        true.put(&mut t, 0);
        z.put(&mut t, 1);
    }
    t
}

// The position that a byte string holds.
#[tactic(auto, unfolding(crate::specs::Settings::position_from))]
fn position_from(s: &[u8]) -> Position
    ensures { result ≡ position_from s.now }
{
    Position {
        latitude: angle_from(part(s, 0, 5)),
        longitude: angle_from(part(s, 5, 5)),
        sea: read(s, 10),
        land: read(s, 12),
    }
}

// The bytes of a position.
fn position_bytes(p: Position) -> [u8; 14]
    ensures { result ≡ position_stored p }
{
    let mut t = [0u8; 14];
    put_bytes(&mut t, 0, &angle_bytes(p.latitude));
    put_bytes(&mut t, 5, &angle_bytes(p.longitude));
    p.sea.put(&mut t, 10);
    p.land.put(&mut t, 12);
    t
}

// The settings that a byte string holds.
#[tactic(auto, unfolding(crate::specs::Settings::settings_from))]
pub fn settings_from(s: &[u8]) -> Settings
    ensures { result ≡ settings_from s.now }
{
    Settings {
        window: read(s, 0),
        unit: read(s, 4),
        lifetime: read(s, 8),
        network: read(s, 10),
        address: read(s, 12),
        ipv4: read(s, 18),
        secret: read(s, 22),
        position: position_from(part(s, 283, 14)),
        interval: read(s, 297),
        groups: read(s, 299),
        grouped: read(s, 363),
    }
}

// The bytes of the settings.
pub fn settings_bytes(v: Settings) -> [u8; SIZE]
    ensures { result ≡ settings_bytes v }
{
    let mut t = [0u8; SIZE];
    v.window.put(&mut t, 0);
    v.unit.put(&mut t, 4);
    v.lifetime.put(&mut t, 8);
    v.network.put(&mut t, 10);
    v.address.put(&mut t, 12);
    v.ipv4.put(&mut t, 18);
    v.secret.put(&mut t, 22);
    put_bytes(&mut t, 283, &position_bytes(v.position));
    v.interval.put(&mut t, 297);
    v.groups.put(&mut t, 299);
    v.grouped.put(&mut t, 363);
    t
}
