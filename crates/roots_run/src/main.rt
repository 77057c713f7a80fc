// Reads patterns of eight bytes, low byte first, and writes the pattern of each one's root: sixteen hexadecimal digits to a line.
#![tactic(auto)]

ghost use Rattle.std.specs.Prelude.{◌≡◌, length};
ghost use Rattle.std.specs.Float.{binary64};
ghost use Rattle.std.specs.Float.Ieee.{of_bits, to_bits};
ghost use Rattle.std.specs.Int.{from_le_bytes, w64};
ghost use Rattle.roots.specs.Root.{root_of};

use std::io;
use std::io::Write;

// The pattern of the root of the float whose pattern is these eight bytes; of NaN, the quiet one.
fn root_pattern(bytes: &[u8]) -> u64
    requires { length bytes.now ≡ 8 }
    ensures { result ≡ to_bits binary64 (root_of (of_bits binary64 (from_le_bytes w64 bytes.now))) }
{
    patterns::pattern(roots::sqrt(patterns::float_of_bytes(bytes)))
}

// Sixteen hexadecimal digits and the line's end in one write: standard output has no buffer, and `writeln!` hands it each part by itself.
fn print_line<W: Write>(to: &mut W, n: u64) -> io::Result<()> {
    let mut line = [b'\n'; 17];
    let mut digits = &mut line[..16];
    write!(digits, "{n:016X}")?;
    to.write_all(&line)
}

fn print_roots<W: Write>(to: &mut W, s: &[u8]) -> io::Result<()> {
    for bytes in s.chunks_exact(8) {
        print_line(to, root_pattern(bytes))?;
    }
    Ok(())
}

fn main(rt: HostRuntime) -> io::Result<()> {
    let mut buf = [0u8; 65536];
    let n = streams::read_full(&mut rt.stdin(), &mut buf);
    print_roots(&mut rt.stdout(), &buf[..n])
}
