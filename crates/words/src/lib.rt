// A state as 23 words of 64 bits: how other programs hand it over.
#![tactic(auto)]

ghost use Rattle.std.specs.Prelude.{◌≡◌, true, ◌≤◌, length};
ghost use Rattle.lists.specs.Parts.{patch};
ghost use Rattle.words.specs.Words.{flag_of, words_of, moved_words, tally_in, word_terms, state_of, counts_fit, is_width, tags_fit, are_zero, turns_fit, is_state, Within};

use states::{State, Tally};
use terms::Terms;

// ---- which words are a state's

// Whether the numbers of a search are within their fields; visits has all 64 bits.
fn counts_fit(w: &[u64]) -> bool
    requires { 23 ≤ length w.now }
    ensures { result ≡ counts_fit w.now }
{
    w[0] <= 65535
        && w[1] <= 65535
        && w[2] <= 4294967295
        && w[4] <= 4294967295
        && w[5] <= 4294967295
        && w[6] <= 4294967295
        && w[7] <= 4294967295
        && w[10] <= 1
}

// The nodes settled by box, plane and line.
fn tags_fit(w: &[u64]) -> bool
    requires { 23 ≤ length w.now }
    ensures { result ≡ tags_fit w.now }
{
    w[12] <= 4294967295 && w[13] <= 4294967295 && w[14] <= 4294967295
}

// The points of a net, degree + 1.
fn is_width(n: u64) -> bool
    ensures { result ≡ is_width n }
{
    n >= 2 && n <= 26
}

fn are_zero(w: &[u64]) -> bool
    ensures { result ≡ are_zero w.now }
{
    w.iter().all(|n| *n == 0)
}

fn turns_fit(w: &[u64]) -> bool
    requires { 23 ≤ length w.now }
    ensures { result ≡ turns_fit w.now }
{
    w[17] <= 1 && w[18] <= 1
}

// Whether the words are a state's: 23 or more, each within its bits. Words 15 and 16 have none.
pub fn is_state(w: &[u64]) -> bool
    ensures { result ≡ is_state w.now }
{
    w.len() >= 23
        && counts_fit(w)
        && tags_fit(w)
        && is_width(w[8])
        && is_width(w[9])
        && turns_fit(w)
        && are_zero(&w[15..17])
}

// ---- a state from words, and its words

fn read_terms(w: &[u64]) -> Terms
    requires { 23 ≤ length w.now }
    ensures { result ≡ word_terms w.now }
{
    Terms {
        turn1: w[17] == 1,
        turn2: w[18] == 1,
        lo1: patterns::float(w[19]),
        hi1: patterns::float(w[20]),
        lo2: patterns::float(w[21]),
        hi2: patterns::float(w[22]),
    }
}

fn read_tally(w: &[u64]) -> Tally
    requires { Within w.now }
    ensures { result ≡ tally_in w.now }
{
    Tally {
        pairs: w[0] as u16,
        quota: w[1] as u16,
        waiting: w[2] as u32,
        visits: w[3],
        splits: w[4] as u32,
        unspent: w[5] as u32,
        settled: w[6] as u32,
        given: w[7] as u32,
        stopped: w[10] == 1,
        boxes: w[12] as u32,
        planes: w[13] as u32,
        lines: w[14] as u32,
    }
}

pub fn read_state(w: &[u64]) -> State
    requires { Within w.now }
    ensures { result ≡ state_of w.now }
{
    State {
        tally: read_tally(w),
        width1: w[8] as u8,
        width2: w[9] as u8,
        gap: patterns::float(w[11]),
        terms: read_terms(w),
    }
}

fn state_words(st: State) -> [u64; 23]
    ensures { (result ≡ words_of st) × (counts_fit (words_of st) ≡ true) × (tags_fit (words_of st) ≡ true) }
{
    let t = st.tally;
    [
        t.pairs as u64,
        t.quota as u64,
        t.waiting as u64,
        t.visits,
        t.splits as u64,
        t.unspent as u64,
        t.settled as u64,
        t.given as u64,
        u64::from(st.width1),
        u64::from(st.width2),
        u64::from(t.stopped),
        patterns::pattern(st.gap),
        t.boxes as u64,
        t.planes as u64,
        t.lines as u64,
        0,
        0,
        u64::from(st.terms.turn1),
        u64::from(st.terms.turn2),
        patterns::pattern(st.terms.lo1),
        patterns::pattern(st.terms.hi1),
        patterns::pattern(st.terms.lo2),
        patterns::pattern(st.terms.hi2),
    ]
}

// Words over the first of `w`.
pub fn put_words(words: &[u64], w: &mut [u64])
    requires { length words.now ≤ length w.old }
    ensures { w.new ≡ patch w.old 0 words.now }
{
    w[..words.len()].copy_from_slice(words);
}

// All words of a state; they are a state's where the widths are.
pub fn put_state(st: State, w: &mut [u64])
    requires { 23 ≤ length w.old }
    ensures w_after { w.new ≡ patch w.old 0 (words_of st) }
    ensures w_after_2 { is_width st.width1 ≡ true → is_width st.width2 ≡ true → is_state w.new ≡ true }
{
    let words = state_words(st);
    put_words(&words, w);
}

// The words that a step moves: P, S, the widths, the gap, the whole turns and the asked ends stay.
pub fn move_state(st: State, w: &mut [u64])
    requires { 23 ≤ length w.old }
    ensures w_after { w.new ≡ moved_words w.old st }
    ensures w_after_2 { is_state w.old ≡ true → is_state w.new ≡ true }
{
    let words = state_words(st);
    lists::put(
        w,
        2,
        [words[2], words[3], words[4], words[5], words[6], words[7]],
    );
    w[10] = words[10];
    lists::put(w, 12, [words[12], words[13], words[14]]);
}
