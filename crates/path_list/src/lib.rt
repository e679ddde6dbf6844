// The listing of path data: its bytes in, the lines of its curves out.
#![tactic(auto)]

ghost use Rattle.std.specs.Prelude.{◌≡◌, ◌+◌, ◌*◌, ◌≤◌, length};
ghost use Rattle.float.specs.Refusal.{answer};
ghost use Rattle.form.specs.Form.{curve_numbers};
ghost use Rattle.text.specs.Put.{Put};
ghost use Rattle.lines.specs.Handed.{shown, handed, hand_over};
ghost use Rattle.path_list.specs.PathList.{closed_word, head_line, curve_lines, path_lines, drawn_lines, path_list_of};

use float::refusal::Refusal;
use form::CURVE_NUMBERS;
use import::{Imported, import_path};
use lines::{hand_over, put_piece, put_refusal};
use text::{put_bytes, put_decimal};

// The most bytes that are taken.
pub const MOST_BYTES: usize = 262144;

// Room for 512 curves: a function hides from its callers' proofs how the array is made.
fn curve_room() -> [f64; 4096]
    ensures { 4096 ≡ length result }
{
    [0.0; 4096]
}

// Room for the longest text.
fn list_room() -> [u8; 78369]
    ensures { 78369 ≡ length result }
{
    [0; 78369]
}

// Puts the end of the first line, which says whether Z closed the path.
fn put_closed(out: &mut [u8], at: usize, closed: bool) -> usize
    requires { at + 8 ≤ length out.old }
    ensures { (result ≤ at + 8) × Put out.old at (closed_word closed) out.new result }
{
    if closed {
        return put_bytes(out, at, b" CLOSED\n");
    }
    put_bytes(out, at, b" OPEN\n")
}

// Puts the first line.
fn put_head(out: &mut [u8], k: usize, closed: bool) -> usize
    requires { 33 ≤ length out.old }
    ensures { (result ≤ 33) × Put out.old 0 (head_line k closed) out.new result }
{
    let number = put_bytes(out, 0, b"PATH ");
    let word = put_decimal(out, number, k as u64);
    put_closed(out, word, closed)
}

// Puts a line for each of the first k curves.
fn put_curves(out: &mut [u8], at: usize, curves: &[f64], k: usize) -> usize
    requires { (at + 153 * k ≤ length out.old) × ((k ≤ 512) × (curve_numbers * k ≤ length curves.now)) }
    ensures { (result ≤ at + 153 * k) × Put out.old at (curve_lines k curves.now) out.new result }
{
    let mut end = at;
    for i in 0..k {
        let j = CURVE_NUMBERS * i;
        end = put_piece(out, end, i as u32, &curves[j..]);
    }
    end
}

// Puts the lines of k curves.
fn put_path(out: &mut [u8], curves: &[f64], k: usize, closed: bool) -> usize
    requires { (33 + 153 * k ≤ length out.old) × ((k ≤ 512) × (curve_numbers * k ≤ length curves.now)) }
    ensures { (result ≤ 33 + 153 * k) × Put out.old 0 (path_lines k closed curves.now) out.new result }
{
    let pieces = put_head(out, k, closed);
    put_curves(out, pieces, curves, k)
}

// Puts the lines of a text that is not too long.
fn put_drawn(text: &[u8], out: &mut [u8]) -> usize
    requires { 78369 ≤ length out.old }
    ensures { (result ≤ 78369) × Put out.old 0 (shown (drawn_lines text.now)) out.new result }
{
    let mut curves = curve_room();
    match import_path(text, &mut curves) {
        Ok(Imported { count, closed }) => put_path(out, &curves, count, closed),
        Err(q) => put_refusal(out, q.number()),
    }
}

// Puts the lines of any text: at most 33 bytes, and 153 for each of at most 512 curves.
fn put_list(text: &[u8], out: &mut [u8]) -> usize
    requires { 78369 ≤ length out.old }
    ensures { (result ≤ 78369) × Put out.old 0 (path_list_of text.now) out.new result }
{
    if text.len() > MOST_BYTES {
        return put_refusal(out, Refusal::NoRoom.number());
    }
    put_drawn(text, out)
}

// Lists the curves of path data in the first bytes of `out`: a line for how many there are and whether Z closed them, and one for each, or one line that names a
// refusal. Where `out` is too short for the text the call itself is refused, and `out` stays as it is.
pub fn list_path(text: &[u8], out: &mut [u8]) -> Result<usize, Refusal>
    ensures { handed (answer result) out.new ≡ hand_over (path_list_of text.now) out.old }
{
    let mut list = list_room();
    let size = put_list(text, &mut list);
    hand_over(&list[..size], out)
}
