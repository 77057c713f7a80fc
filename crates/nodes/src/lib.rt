// What a step does: to the state, and to the slots of the node on top.
#![tactic(auto)]

ghost use Rattle.std.specs.Prelude.{◌≡◌, ◌+◌, ◌-◌, ◌*◌, ◌≤◌, ◌<◌, length};
ghost use Rattle.lists.specs.Parts.{block, patch};
ghost use Rattle.boxes.specs.Boxes.{second_halved};
ghost use Rattle.machine.specs.Machine.{choose, is_first, is_second};
ghost use Rattle.states.specs.States.{deepened, at_end1, at_end2};
ghost use Rattle.regions.specs.Regions.{flat};
ghost use Rattle.nodes.specs.Geometry.{region_with};
ghost use Rattle.nodes.specs.Nets.{both_boxes};
ghost use Rattle.nodes.specs.Moves.{settled_tally, given_tally, stopped_tally, halved_tally, moved_tally, moved_state, MayMove};
ghost use Rattle.nodes.specs.Writes.{slots_after, ranges_after, depths_after, Above};

use boxes::Aabb;
use regions::Region;
use states::{Depths, State, Tally};
use verdicts::{Side, Test};

// What a step does with the node on top.
#[derive(Clone, Copy, Debug, PartialEq, Eq)]
pub enum Move {
    Settled(Test),
    GivenUp,
    // no allowance is left: it stays, and the search ends
    Kept,
    Halved,
}

// ---- what a step does to the numbers

fn settled(t: Tally, k: u32, by: Test) -> Tally
    requires { MayMove (Move.Settled by) t k }
    ensures { result ≡ settled_tally by k t }
{
    let mut next = t;
    next.waiting = k;
    next.visits = t.visits + 1;
    next.settled = t.settled + 1;
    match by {
        Test::Box => {
            next.boxes = t.boxes + 1;
            next
        }
        Test::Plane => {
            next.planes = t.planes + 1;
            next
        }
        Test::Line => {
            next.lines = t.lines + 1;
            next
        }
    }
}

fn given_up(t: Tally, k: u32) -> Tally
    requires { MayMove Move.GivenUp t k }
    ensures { result ≡ given_tally k t }
{
    let mut next = t;
    next.waiting = k;
    next.visits = t.visits + 1;
    next.given = t.given + 1;
    next
}

fn stopped(t: Tally) -> Tally
    requires { (t.unspent ≡ 0) × (t.visits < 18446744073709551615) }
    ensures { result ≡ stopped_tally t }
{
    let mut next = t;
    next.visits = t.visits + 1;
    next.stopped = true;
    next
}

fn halved(t: Tally, k: u32) -> Tally
    requires { MayMove Move.Halved t k }
    ensures { result ≡ halved_tally k (t.unspent - 1) t }
{
    let mut next = t;
    next.waiting = k + 2;
    next.visits = t.visits + 1;
    next.splits = t.splits + 1;
    next.unspent = t.unspent - 1;
    next
}

// The numbers after this was done with node k, the top.
fn moved_tally(t: Tally, k: u32, m: Move) -> Tally
    requires { MayMove m t k }
    ensures { result ≡ moved_tally m k t }
{
    match m {
        Move::Settled(by) => settled(t, k, by),
        Move::GivenUp => given_up(t, k),
        Move::Kept => stopped(t),
        Move::Halved => halved(t, k),
    }
}

// The state after it.
pub fn moved(st: State, k: u32, m: Move) -> State
    requires { MayMove m st.tally k }
    ensures { result ≡ moved_state m k st }
{
    let mut next = st;
    next.tally = moved_tally(st.tally, k, m);
    next
}

// ---- what it does to the memory

// The region of node k, whose nets have the boxes a and b.
pub fn region_of(a: Aabb, b: Aabb, ranges: &[f64], k: usize) -> Region
    requires { (k + 1) * 4 ≤ length ranges.now }
    ensures { result ≡ region_with (both_boxes a b) (block 4 k ranges.now) }
{
    let at = k * 4;
    Region {
        a0: ranges[at],
        a1: ranges[at + 1],
        b0: ranges[at + 2],
        b1: ranges[at + 3],
        x0: floats::min(a.x0, b.x0),
        y0: floats::min(a.y0, b.y0),
        z0: floats::min(a.z0, b.z0),
        x1: floats::max(a.x1, b.x1),
        y1: floats::max(a.y1, b.y1),
        z1: floats::max(a.z1, b.z1),
    }
}

// Slots k and k + 1 of both lines: the halves of the net in slot k, or that net twice on the line that isn't halved.
fn split_nets(nets1: &mut [f64], nets2: &mut [f64], k: usize, w1: usize, w2: usize, line: Side)
    requires { ((k + 2) * (4 * w1) ≤ length nets1.old) × ((k + 2) * (4 * w2) ≤ length nets2.old) }
    ensures { (nets1.new ≡ slots_after (is_first line) w1 k nets1.old) × (nets2.new ≡ slots_after (is_second line) w2 k nets2.old) }
{
    match line {
        Side::First => {
            nets::halve_slot(nets1, k, w1);
            nets::copy_slot(nets2, k, w2);
        }
        Side::Second => {
            nets::copy_slot(nets1, k, w1);
            nets::halve_slot(nets2, k, w2);
        }
    }
}

// Node k's ranges in halves along one line: the upper in slot k, the lower in slot k + 1.
fn split_ranges(ranges: &mut [f64], k: usize, line: Side)
    requires { (k + 2) * 4 ≤ length ranges.old }
    ensures { ranges.new ≡ ranges_after line k ranges.old }
{
    let at = k * 4;
    let a0 = ranges[at];
    let a1 = ranges[at + 1];
    let b0 = ranges[at + 2];
    let b1 = ranges[at + 3];
    match line {
        Side::First => {
            let mid = floats::mean(a0, a1);
            lists::put(ranges, at, [mid, a1, b0, b1]);
            lists::put(ranges, at + 4, [a0, mid, b0, b1]);
        }
        Side::Second => {
            let mid = floats::mean(b0, b1);
            lists::put(ranges, at, [a0, a1, mid, b1]);
            lists::put(ranges, at + 4, [a0, a1, b0, mid]);
        }
    }
}

// Which line is halved: the one with the larger box, the second where they are equal; the other where that line is at the limit; neither where both are.
pub fn choose(a: Aabb, b: Aabb, depth: Depths) -> Option<Side>
    ensures { result ≡ choose (second_halved a b) (at_end1 depth) (at_end2 depth) }
{
    if depth.first >= 32 {
        if depth.second >= 32 {
            return None;
        }
        return Some(Side::Second);
    }
    if depth.second >= 32 {
        return Some(Side::First);
    }
    if boxes::second_halved(a, b) {
        return Some(Side::Second);
    }
    Some(Side::First)
}

// One deeper on one line.
fn deeper(depth: Depths, line: Side) -> Depths
    requires { (depth.first ≤ 32) × (depth.second ≤ 32) }
    ensures { result ≡ deepened line depth }
{
    match line {
        Side::First => Depths {
            first: depth.first + 1,
            second: depth.second,
        },
        Side::Second => Depths {
            first: depth.first,
            second: depth.second + 1,
        },
    }
}

// Both halves are one deeper on the line that is halved.
fn deepen(depths: &mut [u8], k: usize, depth: Depths, line: Side)
    requires { ((k + 2) * 2 ≤ length depths.old) × (depth.first ≤ 32) × (depth.second ≤ 32) }
    ensures { depths.new ≡ depths_after line depth k depths.old }
{
    let d = deeper(depth, line);
    lists::put(depths, k * 2, [d.first, d.second, d.first, d.second]);
}

// Node k is given up: its region goes to the raw list.
pub fn give_up(st: State, k: u32, a: Aabb, b: Aabb, ranges: &[f64], raw: &mut [f64])
    requires { ((k + 1) * 4 ≤ length ranges.now) × ((st.tally.given + 1) * 10 ≤ length raw.old) }
    ensures { raw.new ≡ patch raw.old (st.tally.given * 10) (flat (region_with (both_boxes a b) (block 4 k ranges.now))) }
{
    regions::store(
        raw,
        st.tally.given as usize,
        region_of(a, b, ranges, k as usize),
    );
}

// Node k is halved along one of its lines. The lent memory stays slices side by side: a struct of them needs a clause for each field's loan, and is no plainer.
pub fn halve(
    st: State,
    k: u32,
    depth: Depths,
    line: Side,
    nets1: &mut [f64],
    nets2: &mut [f64],
    ranges: &mut [f64],
    depths: &mut [u8],
)
    requires above { Above st k
        (record { nets1 = length nets1.old; nets2 = length nets2.old; ranges = length ranges.old; depths = length depths.old; raw = 0 }) }
    requires first_bound { (depth.first ≤ 32) × (depth.second ≤ 32) }
    ensures { (nets1.new ≡ slots_after (is_first line) st.width1 k nets1.old)
        × (nets2.new ≡ slots_after (is_second line) st.width2 k nets2.old)
        × (ranges.new ≡ ranges_after line k ranges.old)
        × (depths.new ≡ depths_after line depth k depths.old) }
{
    let at = k as usize;
    split_nets(
        nets1,
        nets2,
        at,
        st.width1 as usize,
        st.width2 as usize,
        line,
    );
    split_ranges(ranges, at, line);
    deepen(depths, at, depth, line);
}
