// The answer to one pair of lines of a sheet: the lines read, the opening, the search, and what is printed.
#![tactic(auto)]

ghost use Rattle.std.specs.Prelude.{◌≡◌, ◌+◌, ◌*◌, ◌≤◌, length};
ghost use Rattle.lines.specs.Lines.{seen, with_datum};
ghost use Rattle.opening.specs.Opens.{open_error_number, open_error_line, line_number, question_of};
ghost use Rattle.states.specs.States.{memory};
ghost use Rattle.report.specs.Reports.{output};
ghost use Rattle.walks.specs.Places.{line_in, LineInside};
ghost use Rattle.texts.specs.Texts.{Wrote};
ghost use Rattle.printing.specs.Printed.{refusal_length, refusal_line};
ghost use Rattle.sheet.specs.Answers.{lent_regions, longest, report_text, search_text, opened_on, range_at, asking_at, held_line, Answered};

use lines::Line;
use opening::{OpenError, Question};
use points::Interval;
use states::State;

// The answer to two lines: what their opening says, and how many bytes of text were written.
#[derive(Clone, Copy)]
pub struct Pair {
    pub opened: Result<State, OpenError>,
    pub length: usize,
}

// Room for a line's numbers: as many floats, and words, as a sheet of 16,384 bytes can hold.
#[derive(Drop)]
struct LineRoom {
    knots: [f64; 2048],
    mults: [u32; 4096],
    coords: [f64; 2048],
    weights: [f64; 2048],
}

const EMPTY: LineRoom = LineRoom {
    knots: [0.0f64; 2048],
    mults: [0u32; 4096],
    coords: [0.0f64; 2048],
    weights: [0.0f64; 2048],
};

// ---- from a search to its text

// The report of a search that has ended. The lent memory stays slices side by side: a struct of `&mut` needs a clause on the end of each loan.
fn answer_report<'a>(
    st: State,
    nets1: &'a [f64],
    nets2: &'a [f64],
    ranges: &[f64],
    depths: &[u8],
    raw: &mut [f64],
    list: &mut [f64],
    marks: &mut [u32],
    out: &mut [u8],
) -> usize
    requires { (longest ≤ length out.old) × (length list.old ≤ lent_regions * 10) }
    ensures { let u = memory nets1.now nets2.now ranges.now depths.now raw.old in
        Wrote out.old 0 (report_text st u (output list.old marks.old)) out.new result }
{
    match report::report(st, nets1, nets2, ranges, depths, raw, list, marks) {
        Ok(r) => {
            let at = printing::put_counts(out, r.word, r.counts, r.regions);
            printing::put_regions(out, at, list, marks, r.regions)
        }
        Err(e) => printing::put_refusal(out, u8::from(e), 0),
    }
}

// An open search run to its end, and its report.
fn answer_search(
    st: State,
    nets1: &mut [f64],
    nets2: &mut [f64],
    ranges: &mut [f64],
    depths: &mut [u8],
    raw: &mut [f64],
    list: &mut [f64],
    marks: &mut [u32],
    out: &mut [u8],
) -> usize
    requires { (longest ≤ length out.old) × (length list.old ≤ lent_regions * 10) }
    ensures { let u = memory nets1.old nets2.old ranges.old depths.old raw.old in
        Wrote out.old 0 (search_text st u (output list.old marks.old)) out.new result }
{
    match search::run(st, nets1, nets2, ranges, depths, raw) {
        Ok(end) => answer_report(end, nets1, nets2, ranges, depths, raw, list, marks, out),
        Err(refused) => printing::put_refusal(out, u8::from(refused), 0),
    }
}

// The line of a refused opening.
fn put_error(out: &mut [u8], e: OpenError) -> usize
    requires { refusal_length ≤ length out.old }
    ensures { Wrote out.old 0 (refusal_line (open_error_number e) (line_number (open_error_line e))) out.new result }
{
    let line = e.line().map_or(0, u8::from);
    printing::put_refusal(out, u8::from(e), line)
}

// The opening on memory of its own.
fn open_lines(q: Question, l1: Line, l2: Line) -> Result<State, OpenError>
    ensures { result ≡ opened_on (question_of q (seen l1.entry) (seen l2.entry)) }
{
    let mut pieces1 = [0.0f64; 8112];
    let mut pieces2 = [0.0f64; 8112];
    let mut nets1 = [0.0f64; 7904];
    let mut nets2 = [0.0f64; 7904];
    let mut ranges = [0.0f64; 304];
    let mut depths = [0u8; 152];
    opening::open(
        q,
        l1,
        l2,
        &mut pieces1,
        &mut pieces2,
        &mut nets1,
        &mut nets2,
        &mut ranges,
        &mut depths,
        &[0.0f64; 8190],
    )
}

// The opening, the search and its report on memory of their own.
fn answer_lines(q: Question, l1: Line, l2: Line, out: &mut [u8]) -> Pair
    requires { longest ≤ length out.old }
    ensures { Answered (question_of q (seen l1.entry) (seen l2.entry)) out.old out.new result }
{
    let mut pieces1 = [0.0f64; 8112];
    let mut pieces2 = [0.0f64; 8112];
    let mut nets1 = [0.0f64; 7904];
    let mut nets2 = [0.0f64; 7904];
    let mut ranges = [0.0f64; 304];
    let mut depths = [0u8; 152];
    let mut raw = [0.0f64; 8190];
    let mut list = [0.0f64; 8190];
    let mut marks = [0u32; 819];
    let opened = opening::open(
        q,
        l1,
        l2,
        &mut pieces1,
        &mut pieces2,
        &mut nets1,
        &mut nets2,
        &mut ranges,
        &mut depths,
        &raw,
    );
    let length = match opened {
        Ok(st) => answer_search(
            st,
            &mut nets1,
            &mut nets2,
            &mut ranges,
            &mut depths,
            &mut raw,
            &mut list,
            &mut marks,
            out,
        ),
        Err(e) => put_error(out, e),
    };
    Pair { opened, length }
}

// ---- from a sheet's bytes to two lines

// The range whose ends stand at `at`.
#[tactic(auto, unfolding(crate::specs::Answers::range_at))]
fn range_at(s: &[u8], at: usize) -> Interval
    requires { at + 16 ≤ length s.now }
    ensures { result ≡ range_at s.now at }
{
    Interval {
        lo: walks::float_at(s, at),
        hi: walks::float_at(s, at + 8),
    }
}

// The question of two lines; its floats start at `at`, and the second line's range at `range`.
#[tactic(auto, unfolding(crate::specs::Answers::asking_at))]
pub fn question_at(
    s: &[u8],
    at: usize,
    range: usize,
    splits: u32,
    datum1: u32,
    datum2: u32,
) -> Question
    requires { (at + 40 ≤ length s.now) × (range + 16 ≤ length s.now) }
    ensures { result ≡ asking_at s.now at range splits datum1 datum2 }
{
    Question {
        datum1,
        datum2,
        range1: range_at(s, at),
        range2: range_at(s, range),
        gap: walks::float_at(s, at + 32),
        splits,
    }
}

impl LineRoom {
    // The numbers of the line at these places, read to the fronts.
    fn read(&mut self, s: &[u8], l: walks::Line)
        requires { LineInside (length s.now) l × (length s.now ≤ 16384) }
        ensures { held_line l self.new ≡ with_datum 1 (line_in s.now l) }
    {
        walks::read_line(
            s,
            l,
            &mut self.knots,
            &mut self.mults,
            &mut self.coords,
            &mut self.weights,
        )
    }

    // The line that was read from these places.
    fn line(&self, l: walks::Line) -> Line<'_>
        requires { (l.knots.count ≤ 2048) × (l.mults.count ≤ 4096) × (3 * l.poles.count ≤ 2048) × (l.weights.count ≤ 2048) }
        ensures { seen result ≡ held_line l self.now }
    {
        Line {
            closed: l.closed,
            degree: l.degree,
            knots: &self.knots[..l.knots.count],
            mults: &self.mults[..l.mults.count],
            coords: &self.coords[..3 * l.poles.count],
            weights: &self.weights[..l.weights.count],
        }
    }
}

// The opening of two lines that stand in a sheet, and nothing more.
pub fn opens(
    s: &[u8],
    q: Question,
    first: walks::Line,
    second: walks::Line,
) -> Result<State, OpenError>
    requires { (length s.now ≤ 16384) × LineInside (length s.now) first × LineInside (length s.now) second }
    ensures { let l1 = line_in s.now first in
        let l2 = line_in s.now second in
        result ≡ opened_on (question_of q l1 l2) }
{
    let mut room1 = EMPTY;
    let mut room2 = EMPTY;
    room1.read(s, first);
    room2.read(s, second);
    open_lines(q, room1.line(first), room2.line(second))
}

// The answer to two lines that stand in a sheet, searched and printed, with what their opening says: of a refusal its number and line.
pub fn answer_pair(
    s: &[u8],
    q: Question,
    first: walks::Line,
    second: walks::Line,
    out: &mut [u8],
) -> Pair
    requires { (longest ≤ length out.old) × (length s.now ≤ 16384) × LineInside (length s.now) first × LineInside (length s.now) second }
    ensures { let l1 = line_in s.now first in
        let l2 = line_in s.now second in
        Answered (question_of q l1 l2) out.old out.new result }
{
    let mut room1 = EMPTY;
    let mut room2 = EMPTY;
    room1.read(s, first);
    room2.read(s, second);
    answer_lines(q, room1.line(first), room2.line(second), out)
}
