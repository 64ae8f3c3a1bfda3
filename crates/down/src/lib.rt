// Marks and packets on links that are down: in whole blocks, the last of which ends with the last place.
// Public for `formed` alone, which tests the limits first, so these may require them: docs/EXCEPTIONS.md.
#![tactic(auto)]

ghost use Rattle.std.specs.Prelude.{◌≡◌, false, not, ◌&&◌, ◌||◌, ℕ, ◌+◌, ◌*◌, ◌/◌, ◌≤◌, ◌<◌, get_or, length};
ghost use Rattle.model.specs.Limits.{links_most, ends_most, flight_most};
ghost use Rattle.model.specs.Below.{any};

use arrays::{BLOCK, SLOTS};

// Some of these links is down with a marked end.
fn marked_in<'a>(live: &'a [bool], mark: &'a [bool]) -> bool
    requires { 2 * length live.now ≤ length mark.now }
    ensures { result ≡ any (λ l. not (get_or live.now l false) && (get_or mark.now (2 * l) false || get_or mark.now (2 * l + 1) false)) (length live.now) }
{
    let mut bad = false;
    for (l, &up) in live.iter().enumerate() {
        bad |= !up & (mark[2 * l] | mark[2 * l + 1]);
    }
    bad
}

// Some end of a link that is down is marked.
pub fn down_marked<'a>(
    live: &'a [bool; model::LINKS],
    mark: &'a [bool; model::ENDS],
    links: usize,
) -> bool
    requires { links ≤ links_most }
    ensures { result ≡ any (λ l. not (get_or live.now l false) && (get_or mark.now (2 * l) false || get_or mark.now (2 * l + 1) false)) links }
{
    if links < BLOCK {
        return marked_in(&live[..links], mark);
    }
    let mut bad = false;
    for b in 0..links.div_ceil(BLOCK) {
        let from = (b * BLOCK).min(links - BLOCK);
        bad |= marked_in(
            &live[from..from + BLOCK],
            &mark[2 * from..2 * from + 2 * BLOCK],
        );
    }
    bad
}

// Some of these packets is on a link that is down: flags joined as bytes are one load for each.
fn lane_in<'a>(lane: &'a [u16], live: &'a [bool; model::LINKS]) -> bool
    requires { (i : ℕ) → i < length lane.now → get_or lane.now i 0 < ends_most }
    ensures { result ≡ any (λ i. not (get_or live.now (get_or lane.now i 0 / 2) false)) (length lane.now) }
{
    let mut up = 1;
    for &a in lane {
        up &= u8::from(live[usize::from(a) / 2]);
    }
    up == 0
}

// Some packet is on a lane of a link that is down.
pub fn lane_down<'a>(lane: &'a [u16; SLOTS], live: &'a [bool; model::LINKS], flying: usize) -> bool
    requires { (flying ≤ flight_most) × ((i : ℕ) → i < flying → get_or lane.now i 0 < ends_most) }
    ensures { result ≡ any (λ i. not (get_or live.now (get_or lane.now i 0 / 2) false)) flying }
{
    if flying < BLOCK {
        return lane_in(&lane[..flying], live);
    }
    let mut bad = false;
    for b in 0..flying.div_ceil(BLOCK) {
        let from = (b * BLOCK).min(flying - BLOCK);
        bad |= lane_in(&lane[from..from + BLOCK], live);
    }
    bad
}
