// The library for programs that are not written in Rattle: each function is the one of the same name of `lovgurshem`, exported to C.
// include/lovgurshem.h says what each promises. In C a slice is two arguments, a pointer and a count; the parameters stay side by side,
// since that is the C interface.
#![tactic(auto)]

ghost use Rattle.std.specs.Prelude.{◌≡◌, true, [], ◌⊎◌, ◌<◌, length};
ghost use Rattle.states.specs.States.{memory};
ghost use Rattle.report.specs.Reports.{output};
ghost use Rattle.lines.specs.Lines.{line_of};
ghost use Rattle.opening.specs.Opens.{question_of};
ghost use Rattle.texts.specs.Texts.{Wrote};
ghost use Rattle.walks.specs.Sheets.{walk_of};
ghost use Rattle.sheet.specs.Answers.{longest};
ghost use Rattle.words.specs.Words.{is_state};
ghost use Rattle.lovgurshem.specs.Sheets.{is_chart, whole_text, NextCall, next_call, call_next};
ghost use Rattle.lovgurshem.specs.Calls.{is_closed, OpenCall, open_call, call_open, ExamineCall, examine_call, call_examine, call_own, StepCall, step_call, call_step, call_run, ReportCall, report_call, call_report};

// The answer to a sheet that is no chart, whole.
#[unsafe(no_mangle)]
pub extern "C" fn lovgurshem_answer(sheet: &[u8], out: &mut [u8]) -> usize
    ensures wrote { Wrote out.old 0 (whole_text sheet.now out.old) out.new result }
    ensures fact { result ≡ 0 → (length out.old < longest) ⊎ (is_chart (walk_of sheet.now) ≡ true) }
{
    lovgurshem::lovgurshem_answer(sheet, out)
}

// The next instalment of the answer to any sheet. An answer of 0 changes nothing.
#[unsafe(no_mangle)]
pub extern "C" fn lovgurshem_next(sheet: &[u8], cursor: &mut [u64], out: &mut [u8]) -> usize
    ensures { ◌≡◌ {A = NextCall}
        (next_call result cursor.new out.new)
        (call_next sheet.now cursor.old out.old) }
{
    lovgurshem::lovgurshem_next(sheet, cursor, out)
}

// `opening::examine`, and P. Without a word for it 19 with the pieces' 19: after 18, before any write.
#[unsafe(no_mangle)]
pub extern "C" fn lovgurshem_examine(
    lo1: f64,
    hi1: f64,
    lo2: f64,
    hi2: f64,
    gap: f64,
    splits: u32,
    closed1: u32,
    degree1: u32,
    knots1: &[f64],
    mults1: &[u32],
    coords1: &[f64],
    weights1: &[f64],
    datum1: u32,
    closed2: u32,
    degree2: u32,
    knots2: &[f64],
    mults2: &[u32],
    coords2: &[f64],
    weights2: &[f64],
    datum2: u32,
    pieces1: &mut [f64],
    pieces2: &mut [f64],
    pairs: &mut [u64],
) -> u32
    ensures { let l1 = line_of (is_closed closed1) degree1 knots1.now mults1.now coords1.now weights1.now in
        let l2 = line_of (is_closed closed2) degree2 knots2.now mults2.now coords2.now weights2.now in
        let q = question_of (record { datum1 = datum1; datum2 = datum2; range1 = record { lo = lo1; hi = hi1 }; range2 = record { lo = lo2; hi = hi2 }; gap = gap; splits = splits }) l1 l2 in
        ◌≡◌ {A = ExamineCall}
        (examine_call result pairs.new pieces1.new pieces2.new)
        (call_examine q pieces1.old pieces2.old pairs.old) }
{
    lovgurshem::lovgurshem_examine(
        lo1, hi1, lo2, hi2, gap, splits, closed1, degree1, knots1, mults1, coords1, weights1,
        datum1, closed2, degree2, knots2, mults2, coords2, weights2, datum2, pieces1, pieces2,
        pairs,
    )
}

// `opening::open`, and the open state's words. Too few words are 19 with the pieces' 19: after 18, before any write.
#[unsafe(no_mangle)]
pub extern "C" fn lovgurshem_open(
    lo1: f64,
    hi1: f64,
    lo2: f64,
    hi2: f64,
    gap: f64,
    splits: u32,
    closed1: u32,
    degree1: u32,
    knots1: &[f64],
    mults1: &[u32],
    coords1: &[f64],
    weights1: &[f64],
    datum1: u32,
    closed2: u32,
    degree2: u32,
    knots2: &[f64],
    mults2: &[u32],
    coords2: &[f64],
    weights2: &[f64],
    datum2: u32,
    pieces1: &mut [f64],
    pieces2: &mut [f64],
    nets1: &mut [f64],
    nets2: &mut [f64],
    ranges: &mut [f64],
    depths: &mut [u8],
    raw: &[f64],
    state: &mut [u64],
) -> u32
    ensures fact { let l1 = line_of (is_closed closed1) degree1 knots1.now mults1.now coords1.now weights1.now in
        let l2 = line_of (is_closed closed2) degree2 knots2.now mults2.now coords2.now weights2.now in
        let q = question_of (record { datum1 = datum1; datum2 = datum2; range1 = record { lo = lo1; hi = hi1 }; range2 = record { lo = lo2; hi = hi2 }; gap = gap; splits = splits }) l1 l2 in
        ◌≡◌ {A = OpenCall}
        (open_call result state.new pieces1.new pieces2.new
        (memory nets1.new nets2.new ranges.new depths.new raw.now))
        (call_open q pieces1.old pieces2.old
        (memory nets1.old nets2.old ranges.old depths.old raw.now)
        state.old) }
    ensures state_after { result ≡ 0 → is_state state.new ≡ true }
{
    lovgurshem::lovgurshem_open(
        lo1, hi1, lo2, hi2, gap, splits, closed1, degree1, knots1, mults1, coords1, weights1,
        datum1, closed2, degree2, knots2, mults2, coords2, weights2, datum2, pieces1, pieces2,
        nets1, nets2, ranges, depths, raw, state,
    )
}

// `search::own_verdict`: 1, 4 and 5 Settled by box, plane and line, 2 Split, 3 Unseparated, or a refusal.
#[unsafe(no_mangle)]
pub extern "C" fn lovgurshem_own_verdict<'a>(
    state: &[u64],
    nets1: &'a [f64],
    nets2: &'a [f64],
    depths: &[u8],
) -> u32
    ensures { result ≡ call_own state.now (memory nets1.now nets2.now [] depths.now []) }
{
    lovgurshem::lovgurshem_own_verdict(state, nets1, nets2, depths)
}

// `search::step`.
#[unsafe(no_mangle)]
pub extern "C" fn lovgurshem_step(
    verdict: u32,
    state: &mut [u64],
    nets1: &mut [f64],
    nets2: &mut [f64],
    ranges: &mut [f64],
    depths: &mut [u8],
    raw: &mut [f64],
) -> u32
    ensures fact { ◌≡◌ {A = StepCall}
        (step_call result state.new (memory nets1.new nets2.new ranges.new depths.new raw.new))
        (call_step verdict state.old
        (memory nets1.old nets2.old ranges.old depths.old raw.old)) }
    ensures state_unchanged { is_state state.new ≡ is_state state.old }
{
    lovgurshem::lovgurshem_step(verdict, state, nets1, nets2, ranges, depths, raw)
}

// `search::run`.
#[unsafe(no_mangle)]
pub extern "C" fn lovgurshem_run(
    state: &mut [u64],
    nets1: &mut [f64],
    nets2: &mut [f64],
    ranges: &mut [f64],
    depths: &mut [u8],
    raw: &mut [f64],
) -> u32
    ensures fact { ◌≡◌ {A = StepCall}
        (step_call result state.new (memory nets1.new nets2.new ranges.new depths.new raw.new))
        (call_run state.old
        (memory nets1.old nets2.old ranges.old depths.old raw.old)) }
    ensures state_unchanged { is_state state.new ≡ is_state state.old }
{
    lovgurshem::lovgurshem_run(state, nets1, nets2, ranges, depths, raw)
}

// `report::report`, and its word and counts. Too few counts are 19 after 21.
#[unsafe(no_mangle)]
pub extern "C" fn lovgurshem_report<'a>(
    state: &[u64],
    nets1: &'a [f64],
    nets2: &'a [f64],
    ranges: &[f64],
    depths: &[u8],
    raw: &mut [f64],
    report: &mut [f64],
    marks: &mut [u32],
    counts: &mut [u64],
) -> u32
    ensures { ◌≡◌ {A = ReportCall}
        (report_call result counts.new
        (memory nets1.now nets2.now ranges.now depths.now raw.new)
        (output report.new marks.new))
        (call_report state.now
        (memory nets1.now nets2.now ranges.now depths.now raw.old)
        (output report.old marks.old) counts.old) }
{
    lovgurshem::lovgurshem_report(
        state, nets1, nets2, ranges, depths, raw, report, marks, counts,
    )
}
