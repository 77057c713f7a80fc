// A sheet on standard input, its answer on standard output.
#![tactic(auto)]

ghost use Rattle.std.specs.Prelude.{◌≡◌, ◌≤◌, true, length};
ghost use Rattle.std.specs.Io.KnownBytes.{Appends};
ghost use Rattle.sheet.specs.Answers.{longest};
ghost use Rattle.charts.specs.Answers.{answer_of};

use std::io;
use std::io::Write;

// A word more than the longest sheet, so that a longer input is seen to be one.
fn sheet_room() -> [u8; 16388]
    ensures { length result ≡ 16388 }
{
    [0u8; 16388]
}

// The longest instalment: what `print_answer` promises rests on this.
fn answer_room() -> [u8; 162446]
    ensures { length result ≡ longest }
{
    [0u8; 162446]
}

// An instalment on standard output; whether that took the whole of it, and a line on standard error where it didn't.
fn print_part<W: Write, E: Write>(to: &mut W, errors: &mut E, text: &[u8]) -> bool
    ensures { result ≡ true → Appends (W.contents to.old) (W.contents to.new) text.now }
{
    if to.write_all(text).is_ok() {
        return true;
    }
    let _ = errors.write_all(b"clearance: the answer could not be written whole\n");
    false
}

// The answer in instalments: at most 64 reports, the last line and one more. Whether it was written whole: then these bytes were, and no more.
fn print_answer<W: Write, E: Write>(to: &mut W, errors: &mut E, s: &[u8], out: &mut [u8]) -> bool
    ensures { result ≡ true → longest ≤ length out.old → Appends (W.contents to.old) (W.contents to.new) (answer_of s.now) }
{
    let mut good = true;
    for k in 0..66 {
        let part = charts::next(s, k, good, out);
        let n = part.length;
        if n > out.len() {
            return false;
        }
        if !print_part(to, errors, &out[..n]) {
            return false;
        }
        if !part.more {
            return true;
        }
        good = part.good;
    }
    true
}

fn main(rt: HostRuntime) -> io::Result<()> {
    let mut s = sheet_room();
    let mut out = answer_room();
    let n = streams::read_full(&mut rt.stdin(), &mut s);
    print_answer(&mut rt.stdout(), &mut rt.stderr(), &s[..n], &mut out);
    Ok(())
}
