// The answer to any sheet, in instalments of at most one report: a pair's report; a chart's, the track against each of its lines, and the last line; or a refusal.
#![tactic(auto)]

ghost use Rattle.std.specs.Prelude.{◌≡◌, true, false, ◌+◌, ◌≤◌, ◌<◌, eqb, length, get_or, drop};
ghost use Rattle.opening.specs.Opens.{open_error_number, line_number};
ghost use Rattle.walks.specs.Places.{ChartLineInside, LinesInside, PairInside, question_in, chart_line_at, behind_at};
ghost use Rattle.texts.specs.Texts.{Wrote};
ghost use Rattle.sheet.specs.Answers.{longest, asking_at, lines_text};
ghost use Rattle.charts.specs.Charts.{pair_for, first_met, tests, last_line};
ghost use Rattle.charts.specs.Found.{HasTrack, HasLines, chart_error_number, chart_error_place, place_of, rank_of, tested_of, refused_of, chart_seen, earlier_of, opened_at, lines_met, chart_met, line_place};
ghost use Rattle.charts.specs.Answers.{last, line_part, chart_part, first_part, Left, Given};

use opening::{OpenError, Question};
use questions::QuestionError;
use verdicts::Side;
use walks::{ChartPlaces, Line, PairPlaces, Sheet};

// What the opening of the track and a line meets, and the place that is printed with it.
#[derive(Clone, Copy)]
struct Met {
    error: OpenError,
    place: u8,
}

// What refuses a chart: that it has no line or more than 64, or what is met first of the openings.
#[derive(Clone, Copy)]
enum ChartError {
    LineCount,
    Opening(Met),
}

// A chart: its bytes, and where its parts stand in them.
#[derive(Clone, Copy)]
struct Chart<'a> {
    bytes: &'a [u8],
    parts: ChartPlaces,
}

// What an instalment leaves: how many bytes it has, whether more follow, and whether each report so far says complete. Two flags and no Option, since each is
// told whatever the other is.
#[derive(Clone, Copy)]
pub struct Instalment {
    pub length: usize,
    pub more: bool,
    pub good: bool,
}

// The table's number of a refusal.
impl From<ChartError> for u8 {
    ghost from_gives = { λ e n. n ≡ chart_error_number e };

    fn from(e: ChartError) -> u8 {
        match e {
            ChartError::LineCount => 24,
            ChartError::Opening(met) => u8::from(met.error),
        }
    }
}

impl ChartError {
    // The place that is printed with it.
    fn place(self) -> u8
        ensures { result ≡ chart_error_place self }
    {
        match self {
            ChartError::LineCount => 0,
            ChartError::Opening(met) => met.place,
        }
    }
}

// ---- the first test that a chart meets

// The place of a pair's line at fault, its second line being at place `k`.
fn place_of(k: u8, line: Option<Side>) -> u8
    ensures { result ≡ place_of k (line_number line) }
{
    match line {
        Some(Side::First) => 1,
        Some(Side::Second) => k,
        None => 0,
    }
}

impl Met {
    // How many stages of the order of tests come before this one.
    #[tactic(auto, unfolding(crate::specs::Found::rank_of))]
    fn rank(self) -> u8
        ensures { result ≡ rank_of (open_error_number self.error) self.place }
    {
        let track = self.place == 1;
        match self.error {
            OpenError::NoRoom => 8,
            OpenError::BadQuestion(QuestionError::BreaksTooClose(_)) => if track { 6 } else { 7 },
            OpenError::BadQuestion(QuestionError::TooManySplits) => 5,
            OpenError::BadQuestion(QuestionError::GapOutOfRange) => 4,
            OpenError::BadQuestion(QuestionError::RangeOutOfBounds(_)) => if track { 2 } else { 3 },
            OpenError::BadLine(_, _) | OpenError::BadDatum => if track { 0 } else { 1 },
        }
    }
}

// The one that is tested first.
fn earlier(a: Option<Met>, b: Option<Met>) -> Option<Met>
    ensures { tested_of result ≡ earlier_of (tested_of a) (tested_of b) }
{
    let Some(first) = a else {
        return b;
    };
    let Some(second) = b else {
        return a;
    };
    if second.rank() < first.rank() {
        return b;
    }
    a
}

// The place behind the line at `at` and its range.
fn behind(s: &[u8], at: usize) -> usize
    requires { ChartLineInside s.now at }
    ensures { result ≡ behind_at s.now at }
{
    let l = walks::line_at(s, at);
    l.next + 20
}

impl Chart<'_> {
    // The question of the track and this line, whose range stands behind it.
    fn question(self, l: Line) -> Question
        requires { HasTrack self × (l.next + 20 ≤ length self.bytes.now) }
        ensures { let s = self.entry in
            result ≡ asking_at s.bytes.now s.parts.asked (l.next + 4) s.parts.splits s.parts.first.datum l.datum }
    {
        let w = self.parts;
        sheet::question_at(
            self.bytes,
            w.asked,
            l.next + 4,
            w.splits,
            w.first.datum,
            l.datum,
        )
    }

    // What the opening of the track and the line at `at` meets, which is at place `k` of the sheet.
    fn line_met(self, at: usize, k: u8) -> Option<Met>
        requires { HasTrack self × ChartLineInside self.bytes.now at }
        ensures { let s = self.entry in
            tested_of result ≡ opened_at (chart_seen s) (chart_line_at s.bytes.now at) k }
    {
        let l = walks::line_at(self.bytes, at);
        let q = self.question(l);
        match sheet::opens(self.bytes, q, self.parts.first, l) {
            Ok(_) => None,
            Err(error) => Some(Met {
                error,
                place: place_of(k, error.line()),
            }),
        }
    }

    // What is met first of the openings of all lines, of which there are one or more.
    fn lines_met(self) -> Option<Met>
        requires { HasLines self × (1 ≤ self.parts.lines) × (self.parts.lines ≤ 64) }
        ensures { let c = chart_seen self.entry in
            tested_of result ≡ lines_met c c.lines 2 }
    {
        let mut at = self.parts.first.next;
        let mut met = self.line_met(at, 2);
        for k in 1..self.parts.lines {
            at = behind(self.bytes, at);
            met = earlier(met, self.line_met(at, (k + 2) as u8));
        }
        met
    }

    // What a chart meets first of all tests.
    fn tests(self) -> Result<(), ChartError>
        requires { HasLines self }
        ensures { refused_of result ≡ chart_met (chart_seen self.entry) }
    {
        if self.parts.lines < 1 || self.parts.lines > 64 {
            return Err(ChartError::LineCount);
        }
        match self.lines_met() {
            Some(met) => Err(ChartError::Opening(met)),
            None => Ok(()),
        }
    }

    // The place of line `k`, counted from 0.
    fn line_place(self, k: usize) -> usize
        requires { LinesInside self.bytes.now self.parts.lines self.parts.first.next × (k ≤ self.parts.lines) }
        ensures { let s = self.entry in
            result ≡ line_place s.bytes.now k s.parts.first.next }
    {
        let mut at = self.parts.first.next;
        for _ in 0..k {
            at = behind(self.bytes, at);
        }
        at
    }

    // The report of the track and the line at place `at`.
    fn line_report(self, at: usize, out: &mut [u8]) -> usize
        requires { (longest ≤ length out.old) × HasTrack self × ChartLineInside self.bytes.now at }
        ensures { let s = self.entry in
            Wrote out.old 0 (lines_text (pair_for (chart_seen s) (chart_line_at s.bytes.now at))) out.new result }
    {
        let l = walks::line_at(self.bytes, at);
        let q = self.question(l);
        sheet::answer_pair(self.bytes, q, self.parts.first, l, out).length
    }

    // The report of line `k`, counted from 0.
    fn report(self, k: usize, good: bool, out: &mut [u8]) -> Instalment
        requires { (longest ≤ length out.old) × HasLines self × (k < self.parts.lines) }
        ensures { let c = chart_seen self.entry in
            Left (line_part c (drop k c.lines) good) out.old out.new result }
    {
        let at = self.line_place(k);
        let length = self.line_report(at, out);
        let complete = says_complete(out);
        Instalment {
            length,
            more: true,
            good: good && complete,
        }
    }

    // Instalment `k`, counted from 0, of a chart that meets no test.
    fn part(self, k: usize, good: bool, out: &mut [u8]) -> Instalment
        requires { (longest ≤ length out.old) × HasLines self }
        ensures { Left (chart_part (chart_seen self.entry) k good) out.old out.new result }
    {
        if k < self.parts.lines {
            return self.report(k, good, out);
        }
        if k == self.parts.lines {
            return no_more(put_last(out, good), good);
        }
        no_more(0, good)
    }

    // The first instalment: a refusal, or the first line's report.
    fn start(self, out: &mut [u8]) -> Instalment
        requires { (longest ≤ length out.old) × HasLines self }
        ensures { let c = chart_seen self.entry in
            Left (first_part c (first_met (tests c))) out.old out.new result }
    {
        match self.tests() {
            Err(e) => no_more(printing::put_refusal(out, u8::from(e), e.place()), true),
            Ok(()) => self.part(0, true, out),
        }
    }
}

// ---- instalments

fn put_last(out: &mut [u8], good: bool) -> usize
    requires { longest ≤ length out.old }
    ensures { Wrote out.old 0 (last_line good) out.new result }
{
    if good {
        return texts::put_bytes(out, 0, b"chart complete\n");
    }
    texts::put_bytes(out, 0, b"chart incomplete\n")
}

// Whether a report says complete: by its first byte, since budget, unseparated and refused start with others.
fn says_complete(out: &[u8]) -> bool
    requires { 1 ≤ length out.now }
    ensures { result ≡ eqb (get_or out.now 0 0) 99 }
{
    out[0] == 99
}

fn no_more(length: usize, good: bool) -> Instalment
    ensures { (result.length ≡ length) × (result.more ≡ false) × (result.good ≡ good) }
{
    Instalment {
        length,
        more: false,
        good,
    }
}

// The answer to a sheet of two lines.
fn pair_start(s: &[u8], w: PairPlaces, out: &mut [u8]) -> Instalment
    requires { (longest ≤ length out.old) × (length s.now ≤ 16384) × PairInside s.now w }
    ensures { Left (last (lines_text (question_in s.now w)) true) out.old out.new result }
{
    let q = sheet::question_at(
        s,
        w.asked,
        w.asked + 16,
        w.splits,
        w.first.datum,
        w.second.datum,
    );
    no_more(
        sheet::answer_pair(s, q, w.first, w.second, out).length,
        true,
    )
}

// Instalment `k`, counted from 0, of the answer to any bytes, from the front of `out`; `good` is what the instalment before it answered. The tests of a chart
// are made for the first one alone: a further one is asked for only where the one before it said that more follow. In a buffer that the longest instalment
// doesn't fit nothing is written.
pub fn next(s: &[u8], k: usize, good: bool, out: &mut [u8]) -> Instalment
    ensures { Given s.now k good out.old out.new result }
{
    if out.len() < 162446 {
        return no_more(0, good);
    }
    match walks::walk(s) {
        Ok(Sheet::Chart(parts)) => {
            let chart = Chart { bytes: s, parts };
            if k == 0 {
                chart.start(out)
            } else {
                chart.part(k, good, out)
            }
        }
        Ok(Sheet::Pair(w)) => {
            if k == 0 {
                pair_start(s, w, out)
            } else {
                no_more(0, good)
            }
        }
        Err(e) => {
            if k == 0 {
                no_more(printing::put_refusal(out, u8::from(e), 0), true)
            } else {
                no_more(0, good)
            }
        }
    }
}
