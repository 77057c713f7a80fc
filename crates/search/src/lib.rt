// The search: its own verdict, a step, and the loop that gives each step the own verdict.
#![tactic(auto)]

ghost use Rattle.std.specs.Prelude.{◌≡◌, [], Ok, suc, ◌+◌, ◌*◌, ◌≤◌, length};
ghost use Rattle.lists.specs.Parts.{block};
ghost use Rattle.boxes.specs.Nets.{box_of};
ghost use Rattle.clearing.specs.Verdicts.{judged_of};
ghost use Rattle.states.specs.States.{memory, sizes, needed, enough, depth_at, top_of};
ghost use Rattle.nodes.specs.Nets.{geometry};
ghost use Rattle.nodes.specs.Moves.{moved_state, MayMove};
ghost use Rattle.nodes.specs.Writes.{Room};
ghost use Rattle.search.specs.Steps.{Stepping, stepping, act_on, step_def, own_def};
ghost use Rattle.search.specs.Runs.{own_step_def, run_def};

use boxes::Aabb;
use clearing::Judged;
use nodes::Move;
use states::{State, StepError, Top};
use verdicts::Verdict;

// ---- the own verdict

// What the clearing tests give for the top node's nets and the asked gap.
pub fn own_verdict<'a>(
    st: State,
    nets1: &'a [f64],
    nets2: &'a [f64],
    depths: &[u8],
) -> Result<Verdict, StepError>
    ensures { result ≡ own_def geometry st (memory nets1.now nets2.now [] depths.now []) }
{
    let room = states::has_room_to_judge(st, nets1.len(), nets2.len(), depths.len());
    let top = states::top_node(st.tally, room, depths)?;
    let k = top.place as usize;
    Ok(clearing::judge(
        nets::net_of(nets1, nets2, 1, k, st.width1 as usize),
        nets::net_of(nets1, nets2, 2, k, st.width2 as usize),
        st.gap,
    ))
}

// The own verdict on node k, and the boxes of its nets, which are divided into the room p and q.
fn judge_node<'a>(
    st: State,
    k: usize,
    nets1: &'a [f64],
    nets2: &'a [f64],
    p: &mut [f64],
    q: &mut [f64],
) -> Judged
    requires p_len { (length p.old ≡ 78) × (length q.old ≡ 78) }
    requires w1_in_bounds { ((k + 1) * (4 * st.width1) ≤ length nets1.now) × ((k + 1) * (4 * st.width2) ≤ length nets2.now) }
    ensures { result ≡ judged_of st.gap (block (4 * st.width1) k nets1.now) (block (4 * st.width2) k nets2.now) }
{
    let np = boxes::measure(nets::net_of(nets1, nets2, 1, k, st.width1 as usize), p);
    let nq = boxes::measure(nets::net_of(nets1, nets2, 2, k, st.width2 as usize), q);
    let a = boxes::measured_box(&p[..np]);
    let b = boxes::measured_box(&q[..nq]);
    let verdict = clearing::judge_measured(&p[..np], a, &q[..nq], b, st.gap);
    Judged { verdict, a, b }
}

// ---- a step

// What a step finds on top: 20, then 19, else a node. The lent memory stays five slices: a struct of them needs a clause for each field's loan, and is no plainer.
fn find_top(
    st: State,
    nets1: &[f64],
    nets2: &[f64],
    ranges: &[f64],
    depths: &[u8],
    raw: &[f64],
) -> Result<Top, StepError>
    ensures { let u = memory nets1.now nets2.now ranges.now depths.now raw.now in
        result ≡ top_of st.tally (enough (needed st) (sizes u)) depths.now }
{
    let room = states::has_room(
        st,
        nets1.len(),
        nets2.len(),
        ranges.len(),
        depths.len(),
        raw.len(),
    );
    states::top_node(st.tally, room, depths)
}

// What a step that isn't refused does to the memory, and with the top node, whose nets have these boxes.
fn advance(
    st: State,
    v: Verdict,
    top: Top,
    a: Aabb,
    b: Aabb,
    nets1: &mut [f64],
    nets2: &mut [f64],
    ranges: &mut [f64],
    depths: &mut [u8],
    raw: &mut [f64],
) -> Move
    requires room { Room st top.place top.depth (sizes (memory nets1.old nets2.old ranges.old depths.old raw.old)) }
    requires a_value { (a ≡ box_of (block (4 * st.width1) top.place nets1.old)) × (b ≡ box_of (block (4 * st.width2) top.place nets2.old)) × (top.depth ≡ depth_at depths.old top.place) }
    ensures fact { ◌≡◌ {A = Stepping}
        (stepping (Ok (moved_state result top.place st))
        (memory nets1.new nets2.new ranges.new depths.new raw.new))
        (act_on geometry (suc top.place) v st
        (memory nets1.old nets2.old ranges.old depths.old raw.old)) }
    ensures may_move { MayMove result st.tally top.place }
{
    match v {
        Verdict::Settled(t) => Move::Settled(t),
        Verdict::Unseparated => {
            nodes::give_up(st, top.place, a, b, ranges, raw);
            Move::GivenUp
        }
        Verdict::Split => {
            let Some(line) = nodes::choose(a, b, top.depth) else {
                nodes::give_up(st, top.place, a, b, ranges, raw);
                return Move::GivenUp;
            };
            if st.tally.unspent == 0 {
                return Move::Kept;
            }
            nodes::halve(st, top.place, top.depth, line, nets1, nets2, ranges, depths);
            Move::Halved
        }
    }
}

// A verdict taken for the top node, whose nets have these boxes: the state after it.
fn take_verdict(
    st: State,
    v: Verdict,
    top: Top,
    a: Aabb,
    b: Aabb,
    nets1: &mut [f64],
    nets2: &mut [f64],
    ranges: &mut [f64],
    depths: &mut [u8],
    raw: &mut [f64],
) -> State
    requires room { Room st top.place top.depth (sizes (memory nets1.old nets2.old ranges.old depths.old raw.old)) }
    requires a_value { (a ≡ box_of (block (4 * st.width1) top.place nets1.old)) × (b ≡ box_of (block (4 * st.width2) top.place nets2.old)) × (top.depth ≡ depth_at depths.old top.place) }
    ensures { ◌≡◌ {A = Stepping}
        (stepping (Ok result) (memory nets1.new nets2.new ranges.new depths.new raw.new))
        (act_on geometry (suc top.place) v st
        (memory nets1.old nets2.old ranges.old depths.old raw.old)) }
{
    let m = advance(st, v, top, a, b, nets1, nets2, ranges, depths, raw);
    nodes::moved(st, top.place, m)
}

// A step with a verdict for the top node: 20, then 19, else the verdict is taken.
pub fn step(
    st: State,
    v: Verdict,
    nets1: &mut [f64],
    nets2: &mut [f64],
    ranges: &mut [f64],
    depths: &mut [u8],
    raw: &mut [f64],
) -> Result<State, StepError>
    ensures { ◌≡◌ {A = Stepping}
        (stepping result (memory nets1.new nets2.new ranges.new depths.new raw.new))
        (step_def geometry st (memory nets1.old nets2.old ranges.old depths.old raw.old) v) }
{
    let top = find_top(st, nets1, nets2, ranges, depths, raw)?;
    let k = top.place as usize;
    let a = boxes::net_box(nets::net_of(nets1, nets2, 1, k, st.width1 as usize));
    let b = boxes::net_box(nets::net_of(nets1, nets2, 2, k, st.width2 as usize));
    Ok(take_verdict(st, v, top, a, b, nets1, nets2, ranges, depths, raw))
}

// A step that is given the search's own verdict. The nets are divided once for the verdict and the boxes, where `own_verdict` and then `step` would divide them twice.
fn own_step(
    st: State,
    nets1: &mut [f64],
    nets2: &mut [f64],
    ranges: &mut [f64],
    depths: &mut [u8],
    raw: &mut [f64],
    p: &mut [f64],
    q: &mut [f64],
) -> Result<State, StepError>
    requires { (length p.old ≡ 78) × (length q.old ≡ 78) }
    ensures { ◌≡◌ {A = Stepping}
        (stepping result (memory nets1.new nets2.new ranges.new depths.new raw.new))
        (own_step_def geometry st (memory nets1.old nets2.old ranges.old depths.old raw.old)) }
{
    let top = find_top(st, nets1, nets2, ranges, depths, raw)?;
    let own = judge_node(st, top.place as usize, nets1, nets2, p, q);
    let v = own.verdict;
    Ok(take_verdict(st, v, top, own.a, own.b, nets1, nets2, ranges, depths, raw))
}

// ---- the loop

// Steps with the search's own verdicts until the search ends; the state then, or the refusal of a step.
pub fn run(
    st: State,
    nets1: &mut [f64],
    nets2: &mut [f64],
    ranges: &mut [f64],
    depths: &mut [u8],
    raw: &mut [f64],
) -> Result<State, StepError>
    ensures { ◌≡◌ {A = Stepping}
        (stepping result (memory nets1.new nets2.new ranges.new depths.new raw.new))
        (run_def geometry st (memory nets1.old nets2.old ranges.old depths.old raw.old)) }
{
    let mut p = boxes::scratch();
    let mut q = boxes::scratch();
    let mut s = st;
    // no `for`: how many steps there are is not known before
    while !states::ended(s.tally) {
        s = own_step(s, nets1, nets2, ranges, depths, raw, &mut p, &mut q)?;
    }
    Ok(s)
}
