// Words of a line as numbers: 16 upper-case hex digits, or a decimal number with no needless zero in front, so that what `text` writes is read
// back and nothing looser is taken. A word that is anything else stands for none.
#![tactic(auto)]

ghost use Rattle.std.specs.Prelude.{◌≡◌, ◌<◌};
ghost use Rattle.words.specs.Words.{digit_of, number_from, hex_of, plain_of, decimal_of};

// The value of a digit by its code, and 16 for any other code.
#[tactic(auto, unfolding(crate::specs::Words::digit_of))]
fn digit(b: u8) -> u64
    ensures { result ≡ digit_of b }
{
    match b {
        b'0'..=b'9' => (b - b'0') as u64,
        b'A'..=b'F' => (b - b'A' + 10) as u64,
        _ => 16,
    }
}

// The number that digits make in a base, if all are digits of it and 64 bits hold the number.
fn number_in(base: u64, s: &[u8]) -> Option<u64>
    requires { 0 < base }
    ensures { result ≡ number_from base 0 s.now }
{
    let most = 0xffff_ffff_ffff_ffff / base;
    let mut v: u64 = 0;
    for b in s {
        let d = digit(*b);
        if d >= base {
            return None;
        }
        if v > most {
            return None;
        }
        let w = v * base;
        if d > 0xffff_ffff_ffff_ffff - w {
            return None;
        }
        v = w + d;
    }
    Some(v)
}

// The number of a hex word, or none.
pub fn hex(s: &[u8]) -> Option<u64>
    ensures { result ≡ hex_of s.now }
{
    if s.len() == 16 {
        return number_in(16, s);
    }
    None
}

// Whether a word is not empty and has no zero in front of other digits.
fn plain(s: &[u8]) -> bool
    ensures { result ≡ plain_of s.now }
{
    if s.len() == 0 {
        return false;
    }
    if s.len() == 1 {
        return true;
    }
    s[0] != 48
}

// The number of a decimal word, or none.
pub fn decimal(s: &[u8]) -> Option<u64>
    ensures { result ≡ decimal_of s.now }
{
    if plain(s) {
        return number_in(10, s);
    }
    None
}
