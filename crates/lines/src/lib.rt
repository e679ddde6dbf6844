// The lines that the programs over house files print, put into lent bytes that have room for them: each call answers where its text ends. And how a whole text
// is handed to a caller.
#![tactic(auto)]

ghost use Rattle.std.specs.Prelude.{◌≡◌, ◌+◌, ◌*◌, ◌≤◌, ◌∷◌, [], length, take};
ghost use Rattle.float.specs.Refusal.{answer};
ghost use Rattle.form.specs.Form.{curve_numbers, record_numbers};
ghost use Rattle.text.specs.Put.{Put};
ghost use Rattle.lines.specs.Lines.{one_line, pair_line, two_line, numbers, piece_line, piece_lines, outline_lines, refusal_line};
ghost use Rattle.lines.specs.Handed.{handed, hand_over};

use float::refusal::Refusal;
use float::to_bits;
use form::{CURVE_NUMBERS, RECORD_NUMBERS};
use text::{put_bytes, put_decimal, put_hex};

// A word and a number, on a line.
pub fn put_one(out: &mut [u8], word: &[u8], a: u64) -> usize
    requires { length word.now + 21 ≤ length out.old }
    ensures { (result ≤ length word.now + 21) × Put out.old 0 (one_line word.now a) out.new result }
{
    let number = put_bytes(out, 0, word);
    let end = put_decimal(out, number, a);
    put_bytes(out, end, b"\n")
}

// Two words, each with a number behind it, on a line.
pub fn put_pair(out: &mut [u8], word: &[u8], a: u64, between: &[u8], b: u64) -> usize
    requires { length (pair_line word.now a between.now b) ≤ length out.old }
    ensures { Put out.old 0 (pair_line word.now a between.now b) out.new result }
{
    let first = put_bytes(out, 0, word);
    let second = put_decimal(out, first, a);
    let number = put_bytes(out, second, between);
    let end = put_decimal(out, number, b);
    put_bytes(out, end, b"\n")
}

// A word and two numbers, on a line.
pub fn put_two(out: &mut [u8], word: &[u8], a: u64, b: u64) -> usize
    requires { length word.now + 42 ≤ length out.old }
    ensures { (result ≤ length word.now + 42) × Put out.old 0 (two_line word.now a b) out.new result }
{
    put_pair(out, word, a, b" ", b)
}

// One number, after a blank.
fn put_number(out: &mut [u8], at: usize, x: f64) -> usize
    requires { at + 17 ≤ length out.old }
    ensures { Put out.old at (numbers (x ∷ [])) out.new result }
{
    let number = put_bytes(out, at, b" ");
    put_hex(out, number, to_bits(x))
}

// A curve's own numbers, the first of a slice, each after a blank.
fn put_numbers(out: &mut [u8], at: usize, curve: &[f64]) -> usize
    requires { (at + 136 ≤ length out.old) × (curve_numbers ≤ length curve.now) }
    ensures { Put out.old at (numbers (take curve_numbers curve.now)) out.new result }
{
    let mut end = at;
    for x in &curve[..CURVE_NUMBERS] {
        end = put_number(out, end, *x);
    }
    end
}

// A curve's line.
pub fn put_piece(out: &mut [u8], at: usize, first: u32, curve: &[f64]) -> usize
    requires { (at + 153 ≤ length out.old) × (curve_numbers ≤ length curve.now) }
    ensures { (result ≤ at + 153) × Put out.old at (piece_line first (take curve_numbers curve.now)) out.new result }
{
    let number = put_bytes(out, at, b"PIECE ");
    let numbers = put_decimal(out, number, first as u64);
    let end = put_numbers(out, numbers, curve);
    put_bytes(out, end, b"\n")
}

// A line for each of the first k curves. The distance that a record keeps behind them is not listed.
fn put_pieces(out: &mut [u8], at: usize, firsts: &[u32], curves: &[f64], k: usize) -> usize
    requires { (at + 153 * k ≤ length out.old) × ((k ≤ length firsts.now) × (record_numbers * k ≤ length curves.now)) }
    ensures { (result ≤ at + 153 * k) × Put out.old at (piece_lines (take k firsts.now) curves.now) out.new result }
{
    let mut end = at;
    for i in 0..k {
        let j = RECORD_NUMBERS * i;
        end = put_piece(out, end, firsts[i], &curves[j..]);
    }
    end
}

// An outline of n marks with its first k curves.
pub fn put_outline(out: &mut [u8], n: usize, firsts: &[u32], curves: &[f64], k: usize) -> usize
    requires { (50 + 153 * k ≤ length out.old) × ((k ≤ length firsts.now) × (record_numbers * k ≤ length curves.now)) }
    ensures { (result ≤ 50 + 153 * k) × Put out.old 0 (outline_lines n (take k firsts.now) curves.now) out.new result }
{
    let pieces = put_two(out, b"OUTLINE ", n as u64, k as u64);
    put_pieces(out, pieces, firsts, curves, k)
}

// The line of a refusal.
pub fn put_refusal(out: &mut [u8], q: u32) -> usize
    requires { 29 ≤ length out.old }
    ensures { (result ≤ 29) × Put out.old 0 (refusal_line q) out.new result }
{
    put_one(out, b"REFUSED ", q as u64)
}

// ---- a whole text

// A text into the first bytes of `out`, and how many they are. Where `out` is too short for it the call is refused, and `out` stays as it is.
pub fn hand_over(text: &[u8], out: &mut [u8]) -> Result<usize, Refusal>
    ensures { handed (answer result) out.new ≡ hand_over text.now out.old }
{
    if out.len() < text.len() {
        return Err(Refusal::NoRoom);
    }
    Ok(put_bytes(out, 0, text))
}

// Room for a refusal's line.
fn line_room() -> [u8; 29]
    ensures { 29 ≡ length result }
{
    [0; 29]
}

// A refusal's line as the whole text.
pub fn hand_refusal(q: u32, out: &mut [u8]) -> Result<usize, Refusal>
    ensures { handed (answer result) out.new ≡ hand_over (refusal_line q) out.old }
{
    let mut text = line_room();
    let size = put_refusal(&mut text, q);
    hand_over(&text[..size], out)
}
