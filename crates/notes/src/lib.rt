// What the calls of a burst gave, as numbers in lists.
// Public for `bursts` alone, so these functions may require lists that are long enough: docs/EXCEPTIONS.md.
#![tactic(auto)]

ghost use Rattle.std.specs.Prelude.{◌≡◌, not, ◌+◌, ◌≤◌, ◌<◌, eqb, length, get_or, set};
ghost use Rattle.model.specs.Limits.{ends_most, events_most};
ghost use Rattle.model.specs.Below.{any};
ghost use Rattle.notes.specs.Bursts.{packet_code, way_code, least, filled};

use model::{Handled, Went};
use steps::Step;

// The answer of a record that is not well formed.
const NOT_FORMED: u32 = 1;

// The least number that no packet has stands for none.
fn packet_code(h: Handled) -> u32
    ensures { result ≡ packet_code h }
{
    match h {
        Handled::Packet(n) => n,
        Handled::Nothing => model::EVENTS,
    }
}

// A lane is its own number; the other ways come after the lanes.
fn way_code(w: Went) -> usize
    ensures { result ≡ way_code w }
{
    match w {
        Went::Lane(x) => x,
        Went::Delivered => model::ENDS,
        Went::Lost => model::ENDS + 1,
        Went::Stranded => model::ENDS + 2,
        Went::Nowhere => model::ENDS + 3,
    }
}

// As many calls are made as the shortest of five lists holds.
pub fn shortest(a: usize, b: usize, c: usize, d: usize, e: usize) -> usize
    ensures { result ≡ least a (least b (least c (least d e))) }
{
    a.min(b.min(c.min(d.min(e))))
}

// What call k gave, into the lists.
pub fn note(answers: &mut [u32], packets: &mut [u32], ways: &mut [usize], k: usize, r: Step)
    requires { (k < length answers.old) × (k < length packets.old) × (k < length ways.old) }
    ensures { (answers.new ≡ set answers.old k r.answer) × (packets.new ≡ set packets.old k (packet_code r.handled)) × (ways.new ≡ set ways.old k (way_code r.went)) }
{
    answers[k] = r.answer;
    packets[k] = packet_code(r.handled);
    ways[k] = way_code(r.went);
}

// Whether every call was refused: told by the first that was not, as a rule the first of all.
pub fn all_refused(answers: &[u32], count: usize) -> bool
    requires { count ≤ length answers.now }
    ensures { result ≡ not (any (λ i. eqb (get_or answers.now i 0) 0) count) }
{
    for &answer in &answers[..count] {
        if answer == 0 {
            return false;
        }
    }
    true
}

// A record that is not well formed: every call is refused with 1.
pub fn refuse_all(answers: &mut [u32], packets: &mut [u32], ways: &mut [usize], count: usize)
    requires { (count ≤ length answers.old) × (count ≤ length packets.old) × (count ≤ length ways.old) }
    ensures { (answers.new ≡ filled (λ i. 1) count answers.old) × (packets.new ≡ filled (λ i. events_most) count packets.old) × (ways.new ≡ filled (λ i. ends_most + 3) count ways.old) }
{
    answers[..count].fill(NOT_FORMED);
    packets[..count].fill(model::EVENTS);
    ways[..count].fill(model::ENDS + 3);
}
