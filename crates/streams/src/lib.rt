// Reading an input into lent memory, and numbers as text: what the programs share.
#![tactic(auto)]

ghost use Rattle.std.specs.Prelude.{◌≡◌, ◌≢◌, ◌<◌, ◌≤◌, length, take, IfErr, OnOk};
ghost use Rattle.std.specs.IoError.{error_kind};
ghost use Rattle.std.specs.Io.KnownBytes.{Appends, Consumes, IsAtEnd};
ghost use Rattle.std.specs.Fmt.{decimal};

use std::io::{Error, ErrorKind, Read, Result, Write};

// Reads until `buf` is full, the input ends or a read fails: how many bytes were read, which stand at the front of `buf`, and whether a read failed.
// A read that a signal interrupts is made again. Into an empty `buf` nothing is read.
pub fn read_on<R: Read>(from: &mut R, buf: &mut [u8]) -> (usize, Result<()>)
    ensures bound { result.0 ≤ length buf.new }
    ensures same_length { length buf.new ≡ length buf.old }
    ensures bytes { Consumes (R.remaining from.old) (R.remaining from.new) (take result.0 buf.new) }
    ensures end { OnOk result.1 (result.0 < length buf.new → IsAtEnd (R.remaining from.new)) }
    ensures retried { IfErr result.1 (λ e. error_kind e ≢ ErrorKind.Interrupted) }
{
    let mut done = 0;
    for _ in 0..u64::MAX {
        if done >= buf.len() {
            return (done, Ok(()));
        }
        match from.read(&mut buf[done..]) {
            Ok(0) => return (done, Ok(())),
            Ok(n) => done += n,
            Err(e) => {
                if e.kind() != ErrorKind::Interrupted {
                    return (done, Err(e));
                }
            }
        }
    }
    let message = "gave up reading after 2^64 tries";
    (done, Err(Error::new(ErrorKind::TimedOut, message)))
}

// The same where an input that can't be read is one that ends: how many bytes were read.
pub fn read_full<R: Read>(from: &mut R, buf: &mut [u8]) -> usize
    ensures bound { result ≤ length buf.new }
    ensures same_length { length buf.new ≡ length buf.old }
    ensures bytes { Consumes (R.remaining from.old) (R.remaining from.new) (take result buf.new) }
{
    let (n, fault) = read_on(from, buf);
    let _ = fault;
    n
}

// Writes the decimal digits of n, with no line end.
pub fn print_decimal<W: Write>(to: &mut W, n: u64) -> Result<()>
    ensures { OnOk result (Appends (W.contents to.old) (W.contents to.new) (decimal n)) }
{
    write!(to, "{n}")
}

#[cfg(test)]
mod tests {
    use super::*;

    // An input that comes a byte at a time, 1 and 3, with a signal between them; then it ends, or fails.
    #[derive(Drop)]
    struct Pieces {
        turn: u8,
        fails: bool,
    }

    impl Read for Pieces {
        fn read(&mut self, buf: &mut [u8]) -> Result<usize> {
            self.turn = self.turn.saturating_add(1);
            if self.turn == 2 {
                return Err(Error::new(ErrorKind::Interrupted, "a signal"));
            }
            if self.turn > 3 && self.fails {
                return Err(Error::other("a fault"));
            }
            if self.turn > 3 || buf.is_empty() {
                return Ok(0);
            }
            buf[0] = self.turn;
            Ok(1)
        }
    }

    #[test]
    fn reads_in_pieces(rt: HostRuntime) {
        for (room, want) in [(0, 0), (1, 1), (2, 2), (5, 2)] {
            let mut from = Pieces {
                turn: 0,
                fails: false,
            };
            let mut buf = [9u8; 5];
            let n = read_full(&mut from, &mut buf[..room]);
            assert_eq!(rt; n, want, "with room for {room}");
            for i in 0..5usize {
                let byte = if i < n { 1 + 2 * (i as u8) } else { 9 };
                assert_eq!(rt; buf[i], byte, "with room for {room}, at {i}");
            }
        }
    }

    #[test]
    fn tells_a_fault(rt: HostRuntime) {
        let mut from = Pieces {
            turn: 0,
            fails: true,
        };
        let mut buf = [0u8; 5];
        let (n, fault) = read_on(&mut from, &mut buf);
        let kind = match fault {
            Ok(()) => None,
            Err(e) => Some(e.kind()),
        };
        assert!(rt; kind == Some(ErrorKind::Other));
        assert_eq!(rt; n, 2);
    }

    #[test]
    fn prints_decimals(rt: HostRuntime) -> Result<()> {
        let mut text = Vec::new(rt.alloc());
        for n in [0, 7, 10, 4096, u64::MAX] {
            print_decimal(&mut text, n)?;
            text.push(b' ')?;
        }
        assert!(rt; text.as_slice() == b"0 7 10 4096 18446744073709551615 ".as_slice());
        Ok(())
    }
}
