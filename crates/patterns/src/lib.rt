// Floats and their patterns of 64 bits.
#![tactic(auto)]

ghost use Rattle.std.specs.Prelude.{◌≡◌, length};
ghost use Rattle.std.specs.Int.{from_le_bytes, w64};
ghost use Rattle.std.specs.Float.{binary64};
ghost use Rattle.std.specs.Float.Ieee.{of_bits, to_bits};

// The float of any pattern: a NaN's pattern is never handed to `from_bits`.
pub fn float(n: u64) -> f64
    ensures { result ≡ of_bits binary64 n }
{
    if n % 0x8000_0000_0000_0000 > 0x7ff0_0000_0000_0000 {
        return f64::NAN;
    }
    f64::from_bits(n)
}

// The float whose pattern is these eight bytes, low byte first.
pub fn float_of_bytes(bytes: &[u8]) -> f64
    requires { length bytes.now ≡ 8 }
    ensures { result ≡ of_bits binary64 (from_le_bytes w64 bytes.now) }
{
    let mut word = [0u8; 8];
    word.copy_from_slice(bytes);
    float(u64::from_le_bytes(word))
}

// The pattern of any float. There is one NaN, so its pattern is one too.
pub fn pattern(x: f64) -> u64
    ensures { result ≡ to_bits binary64 x }
{
    if x.is_nan() {
        return 0x7ff8_0000_0000_0000;
    }
    x.to_bits()
}
