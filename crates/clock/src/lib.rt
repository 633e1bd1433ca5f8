// Clocks and stamps: 64-bit ticks (the paper, 'Steps').
#![tactic(auto)]

ghost use Rattle.std.specs.Prelude.{◌≡◌, ◌-◌};
ghost use Rattle.clock.specs.Clock.{is_ahead, is_stale, is_over};

// How much later one moment is than another; a difference below zero counts as 0.
pub fn elapsed(now: u64, then: u64) -> u64
    ensures { result ≡ now - then }
{
    if now < then { 0 } else { now - then }
}

// Refusal 11: the stamp is above the clock.
pub fn ahead(now: u64, stamp: u64) -> bool
    ensures { result ≡ is_ahead now stamp }
{
    now < stamp
}

// Refusal 12, and an attempt or a place that lapses: more than the window has passed since the stamp.
pub fn stale(now: u64, stamp: u64, window: u32) -> bool
    ensures { result ≡ is_stale now stamp window }
{
    (window as u64) < elapsed(now, stamp)
}

// A session that lapses: more than its lifetime has passed since it was opened.
#[tactic(auto, unfolding(crate::specs::Clock::is_over))]
pub fn over(now: u64, since: u64, lifetime: u16, unit: u32) -> bool
    ensures { result ≡ is_over now since lifetime unit }
{
    (lifetime as u64) * (unit as u64) < elapsed(now, since)
}
