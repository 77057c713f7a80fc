// The state of a search, and number 19's tests of it and of the lent memory.
#![tactic(auto)]

ghost use Rattle.std.specs.Prelude.{◌≡◌, ◌+◌, ◌*◌, ◌≤◌, eqb, get_or};
ghost use Rattle.states.specs.States.{step_error_number, allowance_of, records_of, needed, enough, enough_own, top_depth, top_fits, search_with, over, counts_of, top_of, first_state};

use terms::Terms;

// The whole numbers of a search.
#[derive(Clone, Copy)]
pub struct Tally {
    // starting pairs, P
    pub pairs: u16,
    // splits per pair, S
    pub quota: u16,
    // nodes waiting
    pub waiting: u32,
    // steps taken
    pub visits: u64,
    // halving steps, and what is left of S × P
    pub splits: u32,
    pub unspent: u32,
    // nodes settled, and nodes given up
    pub settled: u32,
    pub given: u32,
    // a split came due with no allowance left
    pub stopped: bool,
    // of the nodes settled, those by their boxes, by a plane, along one line
    pub boxes: u32,
    pub planes: u32,
    pub lines: u32,
}

// All that a search is, but for the nodes and regions in the lent memory.
#[derive(Clone, Copy)]
pub struct State {
    pub tally: Tally,
    // points of each line's nets
    pub width1: u8,
    pub width2: u8,
    pub gap: f64,
    // what only the report reads
    pub terms: Terms,
}

// A search's result: document 01's counts, and the allowance left.
#[derive(Clone, Copy)]
pub struct Counts {
    pub pairs: u16,
    pub visits: u64,
    pub splits: u32,
    pub settled: u32,
    pub boxes: u32,
    pub planes: u32,
    pub lines: u32,
    pub given: u32,
    // nodes waiting at the end; 0 before it
    pub left: u32,
    pub unspent: u32,
}

// A node's two depths: how often the first line was halved, and the second.
#[derive(Clone, Copy)]
pub struct Depths {
    pub first: u8,
    pub second: u8,
}

// What a call finds on top: the node's place among those waiting, from the bottom, and its depths.
#[derive(Clone, Copy)]
pub struct Top {
    pub place: u32,
    pub depth: Depths,
}

// Why a step or the own verdict is refused.
#[derive(Clone, Copy, Debug, PartialEq, Eq)]
pub enum StepError {
    // the search has ended
    Ended,
    // a lent slice is too short, or the state is no search's
    NoRoom,
}

// The number that is printed of a refusal.
impl From<StepError> for u8 {
    ghost from_gives = { λ e n. n ≡ step_error_number e };

    fn from(e: StepError) -> u8 {
        match e {
            StepError::Ended => 20,
            StepError::NoRoom => 19,
        }
    }
}

// The state of a fresh search of so many pairs.
pub fn fresh(pairs: usize, splits: u32, w1: usize, w2: usize, gap: f64, terms: Terms) -> State
    requires { (pairs ≤ 65025) × (splits ≤ 256) × (w1 ≤ 26) × (w2 ≤ 26) }
    ensures { result ≡ first_state pairs splits w1 w2 gap terms }
{
    State {
        tally: Tally {
            pairs: pairs as u16,
            quota: splits as u16,
            waiting: pairs as u32,
            visits: 0,
            splits: 0,
            unspent: splits * pairs as u32,
            settled: 0,
            boxes: 0,
            planes: 0,
            lines: 0,
            given: 0,
            stopped: false,
        },
        width1: w1 as u8,
        width2: w2 as u8,
        gap,
        terms,
    }
}

pub fn ended(t: Tally) -> bool
    ensures { result ≡ over t }
{
    t.stopped || t.waiting == 0
}

// The result: "pairs, visits (steps taken), splits, settled, given, left".
pub fn result(t: Tally) -> Counts
    ensures { result ≡ counts_of t }
{
    let left = if ended(t) { t.waiting } else { 0 };
    Counts {
        pairs: t.pairs,
        visits: t.visits,
        splits: t.splits,
        settled: t.settled,
        boxes: t.boxes,
        planes: t.planes,
        lines: t.lines,
        given: t.given,
        left,
        unspent: t.unspent,
    }
}

// The splits that a search may make, S × P.
fn allowance(t: Tally) -> u32
    ensures { result ≡ allowance_of t }
{
    t.quota as u32 * t.pairs as u32
}

// How many regions there can be: one a starting pair, and one more a split.
pub fn records(t: Tally) -> usize
    ensures { result ≡ records_of t }
{
    t.pairs as usize + allowance(t) as usize
}

// Whether nets and depths of these lengths are enough for the own verdict.
pub fn has_room_to_judge(st: State, nets1: usize, nets2: usize, depths: usize) -> bool
    ensures { result ≡ enough_own (needed st) (record { nets1 = nets1; nets2 = nets2; ranges = 0; depths = depths; raw = 0 }) }
{
    let nodes = st.tally.pairs as usize + 64;
    nodes * (4 * (st.width1 as usize)) <= nets1
        && nodes * (4 * (st.width2 as usize)) <= nets2
        && nodes * 2 <= depths
}

// Whether lent slices of these lengths are enough for a step.
pub fn has_room(
    st: State,
    nets1: usize,
    nets2: usize,
    ranges: usize,
    depths: usize,
    raw: usize,
) -> bool
    ensures { result ≡ enough (needed st) (record { nets1 = nets1; nets2 = nets2; ranges = ranges; depths = depths; raw = raw }) }
{
    has_room_to_judge(st, nets1, nets2, depths)
        && (st.tally.pairs as usize + 64) * 4 <= ranges
        && records(st.tally) * 10 <= raw
}

// The depth in place i; 0 where it isn't lent.
fn depth_at(depths: &[u8], i: usize) -> u8
    ensures { result ≡ get_or depths.now i 0 }
{
    depths.get(i).copied().unwrap_or(0)
}

// The depths of the top node of so many waiting.
pub fn top_depth(depths: &[u8], waiting: u32) -> Depths
    ensures { result ≡ top_depth waiting depths.now }
{
    if waiting == 0 {
        return Depths {
            first: 0,
            second: 0,
        };
    }
    let k = waiting as usize - 1;
    Depths {
        first: depth_at(depths, k * 2),
        second: depth_at(depths, k * 2 + 1),
    }
}

// Whether a count waiting is one that a search can have, with the top node's depths.
fn top_fits(pairs: u16, waiting: u32, depth: Depths) -> bool
    ensures { result ≡ top_fits pairs waiting depth }
{
    waiting == 0
        || waiting <= pairs as u32 + (depth.first as u32 + depth.second as u32)
            && depth.first <= 32
            && depth.second <= 32
}

// Whether the nodes settled by box, plane and line are all that were settled.
fn tags_sum(settled: u32, boxes: u32, planes: u32, lines: u32) -> bool
    ensures { result ≡ eqb settled (boxes + planes + lines) }
{
    settled as u64 == boxes as u64 + planes as u64 + lines as u64
}

// Whether the state, with the top node's depths, is some search's.
pub fn is_search(t: Tally, depth: Depths) -> bool
    ensures { result ≡ search_with t depth }
{
    let splits = t.splits as u64;
    let settled = t.settled as u64;
    let given = t.given as u64;
    let waiting = t.waiting as u64;
    top_fits(t.pairs, t.waiting, depth)
        && t.pairs as u64 + splits == settled + given + waiting
        && splits + t.unspent as u64 == allowance(t) as u64
        && tags_sum(t.settled, t.boxes, t.planes, t.lines)
        && t.visits <= splits + settled + given + 1
}

// What a step or the own verdict finds on top, the slices lent to it being long enough or not: 20, then 19, else the top node.
pub fn top_node(t: Tally, room: bool, depths: &[u8]) -> Result<Top, StepError>
    ensures { result ≡ top_of t room depths.now }
{
    if ended(t) {
        return Err(StepError::Ended);
    }
    let depth = top_depth(depths, t.waiting);
    if !(room && is_search(t, depth)) {
        return Err(StepError::NoRoom);
    }
    Ok(Top {
        place: t.waiting - 1,
        depth,
    })
}
