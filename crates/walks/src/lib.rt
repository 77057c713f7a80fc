// Words and floats out of bytes, and where the parts of a sheet stand.
#![tactic(auto)]

ghost use Rattle.std.specs.Prelude.{ℕ, List, IfOk, ◌≡◌, ◌+◌, ◌*◌, ◌<◌, ◌≤◌, length};
ghost use Rattle.std.specs.Int.{from_le_bytes, w32};
ghost use Rattle.lists.specs.Parts.{patch};
ghost use Rattle.walks.specs.Words.{word_at, float_at, values_from, words_from, floats_from};
ghost use Rattle.walks.specs.Sheets.{bad_count, bad_length, size_of, part_of, word_stands, weights_of, line_kind, line_stands, walk_of};
ghost use Rattle.walks.specs.Places.{sheet_error_number, onward, part_at, weights_at, line_at, sheet_in, LineInside, ChartLineInside, SheetInside, PartFits, LineFits, ChartLineFits, LinesFits, ClosingFits};

// What refuses a sheet.
#[derive(Clone, Copy, Debug, PartialEq, Eq)]
pub enum SheetError {
    // Its length is 0, no multiple of 4, or over 16,384 bytes.
    BadLength,
    // A word's kind is out of order, or its count may not stand there.
    BadWord,
    // It ends before an expected word or counted part, or words follow the end.
    BadEnd,
}

// The number that is printed of it.
impl From<SheetError> for u8 {
    ghost from_gives = { λ e n. n ≡ sheet_error_number e };

    fn from(e: SheetError) -> u8 {
        match e {
            SheetError::BadLength => 1,
            SheetError::BadWord => 2,
            SheetError::BadEnd => 3,
        }
    }
}

// A counted part: the count in its word, where it starts, and the place behind it.
#[derive(Clone, Copy)]
pub struct Part {
    pub count: usize,
    pub at: usize,
    pub next: usize,
}

// The parts of a line, and its datum.
#[derive(Clone, Copy)]
pub struct Line {
    pub closed: bool,
    pub degree: u32,
    pub knots: Part,
    pub mults: Part,
    pub poles: Part,
    pub weights: Part,
    pub datum: u32,
    pub next: usize,
}

// The lines of a chart: how many they are, and the place behind them.
#[derive(Clone, Copy)]
struct Lines {
    count: usize,
    next: usize,
}

// The question and the end: the splits per pair, and where the question's five floats start.
#[derive(Clone, Copy)]
struct Closing {
    splits: u32,
    asked: usize,
}

// The parts of a sheet of two lines; the question's five floats start at `asked`.
#[derive(Clone, Copy)]
pub struct PairPlaces {
    pub first: Line,
    pub second: Line,
    pub splits: u32,
    pub asked: usize,
}

// The parts of a chart: `first` is its track, and its `lines` lines, each with its range, stand from `first.next` on.
#[derive(Clone, Copy)]
pub struct ChartPlaces {
    pub first: Line,
    pub lines: usize,
    pub splits: u32,
    pub asked: usize,
}

// The parts of a sheet.
#[derive(Clone, Copy)]
pub enum Sheet {
    Pair(PairPlaces),
    Chart(ChartPlaces),
}

// The word that these four bytes are, low byte first.
fn word_of_bytes(bytes: &[u8]) -> u32
    requires { length bytes.now ≡ 4 }
    ensures { result ≡ from_le_bytes w32 bytes.now }
{
    u32::from_le_bytes([bytes[0], bytes[1], bytes[2], bytes[3]])
}

fn word(s: &[u8], at: usize) -> u32
    requires { at + 4 ≤ length s.now }
    ensures { (result ≡ word_at s.now at) × (result < 4294967296) }
{
    word_of_bytes(&s[at..at + 4])
}

pub fn float_at(s: &[u8], at: usize) -> f64
    requires { at + 8 ≤ length s.now }
    ensures { result ≡ float_at s.now at }
{
    patterns::float_of_bytes(&s[at..at + 8])
}

// The values of w bytes each from `at` on fill `out`.
fn read<T: Copy, F: Fn(&[u8]) -> T>(s: &[u8], at: usize, w: usize, out: &mut [T], value: F)
    requires in_bounds { at + w * length out.old ≤ length s.now }
    requires callable { (bytes : _) → length bytes.now ≡ w → F.pre value bytes }
    ensures { (g : List ℕ → T) → ((bytes : _) (r : T) → F.post value bytes r → r ≡ g bytes.now)
        → out.new ≡ values_from g w s.now at (length out.old) }
{
    for i in 0..out.len() {
        let from = at + w * i;
        out[i] = value(&s[from..from + w]);
    }
}

// The four parts of a line, each read to the front of its slice.
pub fn read_line(
    s: &[u8],
    l: Line,
    knots: &mut [f64],
    mults: &mut [u32],
    coords: &mut [f64],
    weights: &mut [f64],
)
    requires line_inside { LineInside (length s.now) l × (length s.now ≤ 16384) }
    requires count_in_bounds { (l.knots.count ≤ length knots.old)
        × (l.mults.count ≤ length mults.old)
        × (3 * l.poles.count ≤ length coords.old)
        × (l.weights.count ≤ length weights.old) }
    ensures { (knots.new ≡ patch knots.old 0 (floats_from s.now l.knots.at l.knots.count))
        × (mults.new ≡ patch mults.old 0 (words_from s.now l.mults.at l.mults.count))
        × (coords.new ≡ patch coords.old 0 (floats_from s.now l.poles.at (3 * l.poles.count)))
        × (weights.new ≡ patch weights.old 0 (floats_from s.now l.weights.at l.weights.count)) }
{
    read(
        s,
        l.knots.at,
        8,
        &mut knots[..l.knots.count],
        patterns::float_of_bytes,
    );
    read(s, l.mults.at, 4, &mut mults[..l.mults.count], word_of_bytes);
    read(
        s,
        l.poles.at,
        8,
        &mut coords[..3 * l.poles.count],
        patterns::float_of_bytes,
    );
    read(
        s,
        l.weights.at,
        8,
        &mut weights[..l.weights.count],
        patterns::float_of_bytes,
    );
}

// Whether a word of this kind may not have this count.
#[tactic(auto, unfolding(crate::specs::Sheets::bad_count))]
fn bad_count(kind: u32, n: usize) -> bool
    ensures { result ≡ bad_count kind n }
{
    match kind {
        5 => n == 0,
        7 | 11 => n != 0,
        _ => false,
    }
}

// The bytes that follow a word of this kind and count.
#[tactic(auto, unfolding(crate::specs::Sheets::size_of))]
fn size(kind: u32, n: usize) -> usize
    requires { n < 268435456 }
    ensures { (result ≡ size_of kind n) × (result < 6442450944) }
{
    match kind {
        2 | 5 => 8 * n,
        3 => 4 * n,
        4 => 24 * n,
        6 => 40,
        11 => 16,
        _ => 0,
    }
}

// The part of this kind at `at`.
fn part_after(s: &[u8], at: usize, kind: u32) -> Result<Part, SheetError>
    requires { at ≤ length s.now }
    ensures { PartFits s.now (part_of s.now kind at) (size_of kind) (part_at s.now kind at) result }
{
    if s.len() - at < 4 {
        return Err(SheetError::BadEnd);
    }
    let w = word(s, at);
    let count = (w % 268435456) as usize;
    if w / 268435456 != kind || bad_count(kind, count) {
        return Err(SheetError::BadWord);
    }
    let from = at + 4;
    let room = size(kind, count);
    if s.len() - from < room {
        return Err(SheetError::BadEnd);
    }
    Ok(Part {
        count,
        at: from,
        next: from + room,
    })
}

// Whether a word of this kind stands at `at`.
fn word_stands(s: &[u8], kind: u32, at: usize) -> bool
    requires { at ≤ length s.now }
    ensures { result ≡ word_stands s.now kind at }
{
    s.len() - at >= 4 && word(s, at) / 268435456 == kind
}

// The weights at `at`, an empty part where another word stands.
fn weights_after(s: &[u8], at: usize) -> Result<Part, SheetError>
    requires { at ≤ length s.now }
    ensures { PartFits s.now (weights_of s.now at) (size_of 5) (weights_at s.now at) result }
{
    if word_stands(s, 5, at) {
        return part_after(s, at, 5);
    }
    Ok(Part {
        count: 0,
        at,
        next: at,
    })
}

// The kind of the word that opens a line.
#[tactic(auto, unfolding(crate::specs::Sheets::line_kind))]
fn line_kind(closed: bool) -> u32
    ensures { result ≡ line_kind closed }
{
    if closed { 8 } else { 1 }
}

// The line at `at`.
fn line_after(s: &[u8], at: usize) -> Result<Line, SheetError>
    requires { at ≤ length s.now }
    ensures { LineFits s.now at result }
{
    let closed = word_stands(s, 8, at);
    let degree = part_after(s, at, line_kind(closed))?;
    let knots = part_after(s, degree.next, 2)?;
    let mults = part_after(s, knots.next, 3)?;
    let poles = part_after(s, mults.next, 4)?;
    let weights = weights_after(s, poles.next)?;
    let datum = part_after(s, weights.next, 9)?;
    Ok(Line {
        closed,
        degree: degree.count as u32,
        knots,
        mults,
        poles,
        weights,
        datum: datum.count as u32,
        next: datum.next,
    })
}

// The line at `at` that a walk has passed, as one of a chart.
pub fn line_at(s: &[u8], at: usize) -> Line
    requires { ChartLineInside s.now at }
    ensures { result ≡ line_at s.now at }
{
    line_after(s, at).unwrap()
}

// Whether a line starts at `at`.
#[tactic(auto, unfolding(crate::specs::Sheets::line_stands))]
fn line_stands(s: &[u8], at: usize) -> bool
    requires { at ≤ length s.now }
    ensures { result ≡ line_stands s.now at }
{
    word_stands(s, 1, at) || word_stands(s, 8, at)
}

// The range of the chart's line at `at`.
fn chart_line_after(s: &[u8], at: usize) -> Result<Part, SheetError>
    requires { at ≤ length s.now }
    ensures { ChartLineFits s.now at result }
{
    let line = line_after(s, at)?;
    part_after(s, line.next, 11)
}

// The lines of a chart from `at` on.
fn lines_after(s: &[u8], at: usize) -> Result<Lines, SheetError>
    requires { at ≤ length s.now }
    ensures { LinesFits s.now at result }
{
    let mut count = 0usize;
    let mut place = at;
    // By `while`: where the next line starts, and whether there is one, is known only behind the line before it.
    while line_stands(s, place) {
        let range = chart_line_after(s, place)?;
        place = range.next;
        count += 1;
    }
    Ok(Lines { count, next: place })
}

// Whether no sheet has this length.
#[tactic(auto, unfolding(crate::specs::Sheets::bad_length))]
fn bad_length(n: usize) -> bool
    ensures { result ≡ bad_length n }
{
    n == 0 || n % 4 != 0 || n > 16384
}

// The question and the end at `at`.
fn closing_after(s: &[u8], at: usize) -> Result<Closing, SheetError>
    requires { at ≤ length s.now }
    ensures { ClosingFits s.now at result }
{
    let question = part_after(s, at, 6)?;
    let end = part_after(s, question.next, 7)?;
    if end.next != s.len() {
        return Err(SheetError::BadEnd);
    }
    Ok(Closing {
        splits: question.count as u32,
        asked: question.at,
    })
}

// The parts of any bytes that are a sheet, or what refuses them.
pub fn walk(s: &[u8]) -> Result<Sheet, SheetError>
    ensures s_value { walk_of s.now ≡ onward result (sheet_in s.now) }
    ensures sheet_inside { IfOk result (SheetInside s.now) }
{
    if bad_length(s.len()) {
        return Err(SheetError::BadLength);
    }
    let first = line_after(s, 0)?;
    if !line_stands(s, first.next) {
        let end = closing_after(s, first.next)?;
        return Ok(Sheet::Chart(ChartPlaces {
            first,
            lines: 0,
            splits: end.splits,
            asked: end.asked,
        }));
    }
    let second = line_after(s, first.next)?;
    if word_stands(s, 11, second.next) {
        let lines = lines_after(s, first.next)?;
        let end = closing_after(s, lines.next)?;
        return Ok(Sheet::Chart(ChartPlaces {
            first,
            lines: lines.count,
            splits: end.splits,
            asked: end.asked,
        }));
    }
    let end = closing_after(s, second.next)?;
    Ok(Sheet::Pair(PairPlaces {
        first,
        second,
        splits: end.splits,
        asked: end.asked,
    }))
}
