// Where an antenna stands (the paper, 'Position'): latitude and longitude that may be missing, and two heights.
#![tactic(auto)]

ghost use Rattle.std.specs.Prelude.{◌≡◌};
ghost use Rattle.position.specs.Position.{angle_of, angle_number, position_of, position_bytes, can_say, in_range};

use octets::number::{number16, number32};
use octets::put::put_number;

// Two angles in 1/65,536 degree, each of which may be missing; heights above the sea and above the ground, in metres.
#[derive(Clone, Copy, Debug, Default, PartialEq, Eq, Hash)]
pub struct Position {
    pub latitude: Option<i32>,
    pub longitude: Option<i32>,
    pub sea: i16,
    pub land: i16,
}

// The angle that a number says, and the number of an angle.
#[tactic(auto, using(octets::proofs::SignedLaws::signed_cast), unfolding(crate::specs::Position::angle_of))]
fn angle_from(n: u32) -> Option<i32>
    ensures { result ≡ angle_of n }
{
    if n == 0x80000000 {
        None
    } else {
        Some(n.cast_signed())
    }
}

#[tactic(auto, using(octets::proofs::SignedLaws::unsigned_cast), unfolding(crate::specs::Position::angle_number))]
fn angle_number(a: Option<i32>) -> u32
    ensures { result ≡ angle_number a }
{
    match a {
        None => 0x80000000,
        Some(z) => z.cast_unsigned(),
    }
}

// The position in the twelve bytes of a value.
#[tactic(auto, using(octets::proofs::SignedLaws::signed_cast), unfolding(crate::specs::Position::position_of))]
pub fn read(value: &[u8]) -> Position
    ensures { result ≡ position_of value.now }
{
    Position {
        latitude: angle_from(number32(value, 0)),
        longitude: angle_from(number32(value, 4)),
        sea: number16(value, 8).cast_signed(),
        land: number16(value, 10).cast_signed(),
    }
}

// The twelve bytes of a position.
pub fn bytes(p: Position) -> [u8; 12]
    ensures { result ≡ position_bytes p }
{
    let mut t = [0u8; 12];
    put_number(&mut t, 0, 4, u64::from(angle_number(p.latitude)));
    put_number(&mut t, 4, 4, u64::from(angle_number(p.longitude)));
    put_number(&mut t, 8, 2, u64::from(p.sea.cast_unsigned()));
    put_number(&mut t, 10, 2, u64::from(p.land.cast_unsigned()));
    t
}

// Whether an angle is not the mark for none.
#[tactic(auto, using(octets::proofs::SignedLaws::unsigned_cast), unfolding(crate::specs::Position::can_say))]
fn sayable(a: Option<i32>) -> bool
    ensures { result ≡ can_say a }
{
    match a {
        None => true,
        Some(z) => z.cast_unsigned() != 0x80000000,
    }
}

// Whether a position can be written so that it is read back: no angle is the mark for none.
#[tactic(auto, unfolding(crate::specs::Position::in_range))]
pub fn in_range(p: Position) -> bool
    ensures { result ≡ in_range p }
{
    sayable(p.latitude) && sayable(p.longitude)
}
