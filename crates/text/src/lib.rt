// Text put into lent bytes: whole numbers in decimal and in hex, and bytes as they are. Each call answers where the text ends.
#![tactic(auto)]

ghost use Rattle.std.specs.Prelude.{◌≡◌, ◌+◌, ◌<◌, ◌≤◌, length};
ghost use Rattle.std.proofs.lemmas.List.Edits.{sets};
ghost use Rattle.text.specs.Text.{digit_char, decimal, hex16};

// The character of a digit.
fn digit(d: u64) -> u8
    requires { d < 16 }
    ensures { result ≡ digit_char d }
{
    if d < 10 {
        return (48 + d) as u8;
    }
    (55 + d) as u8
}

// Puts n in decimal at `at`: the digits before the last are those of a tenth of it.
pub fn put_decimal(out: &mut [u8], at: usize, n: u64) -> usize
    requires { at + length (decimal n) ≤ length out.old }
    ensures { (result ≡ at + length (decimal n)) × (out.new ≡ sets out.old at (decimal n)) }
{
    if n < 10 {
        out[at] = digit(n);
        return at + 1;
    }
    let end = put_decimal(out, at, n / 10);
    out[end] = digit(n % 10);
    end + 1
}

// How many bytes n has in decimal.
pub fn decimal_len(n: u64) -> usize
    ensures { (result ≤ 20) × (result ≡ length (decimal n)) }
{
    let mut rest = n;
    let mut len = 1;
    // A while: no index is counted, the number loses a digit a turn.
    while rest >= 10 {
        rest /= 10;
        len += 1;
    }
    len
}

// Puts the sixteen hex digits of x at `at`, from the last to the first.
pub fn put_hex(out: &mut [u8], at: usize, x: u64) -> usize
    requires { at + 16 ≤ length out.old }
    ensures { (result ≡ at + 16) × (out.new ≡ sets out.old at (hex16 x)) }
{
    let mut rest = x;
    for i in (0..16).rev() {
        out[at + i] = digit(rest % 16);
        rest /= 16;
    }
    at + 16
}

// Puts bytes at `at`, as they are. A loop, since `copy_from_slice` becomes a call of `memmove` where the two slices are a caller's, and the archive for C wants nothing
// from outside but `memcpy` and `memset`.
pub fn put_bytes(out: &mut [u8], at: usize, text: &[u8]) -> usize
    requires { at + length text.now ≤ length out.old }
    ensures { (result ≡ at + length text.now) × (out.new ≡ sets out.old at text.now) }
{
    for (i, b) in text.iter().enumerate() {
        out[at + i] = *b;
    }
    at + text.len()
}
