// A house file, cleaned: a file's bytes in; out, the bytes of one with its tolerance and the marks kept, and the list of the marks dropped. That a fit takes what is kept is not promised.
#![tactic(auto)]

mod report;
mod walks;

ghost use Rattle.std.specs.Prelude.{◌≡◌, ◌+◌, ◌-◌, ◌*◌, ◌^◌, ◌<◌, ◌≤◌, length};
ghost use Rattle.float.specs.Refusal.{answer, number};
ghost use Rattle.float.specs.Slices.{written};
ghost use Rattle.form.specs.declared.Form.TheVariants as form;
ghost use Rattle.house.specs.Limits.{mark_numbers, mark_bytes, marks_at};
ghost use Rattle.house.specs.File.{bytes_of};
ghost use Rattle.house.specs.Held.{file_at};
ghost use Rattle.lines.specs.Lines.{refusal_line};
ghost use Rattle.lines.specs.Handed.{hand_over};
ghost use Rattle.sieve.specs.Sieve.{kept_of, drops_of};
ghost use Rattle.salvaging.specs.Report.{report_of};
ghost use Rattle.salvaging.specs.Salvage.{cleaned, texts_of, salvage as salvage_left, hand_both, salvage_of, printed_of};
ghost use Rattle.salvaging.specs.Layout.{marks_of, alone};

use float::refusal::Refusal;
use house::bytes::{eight, put_eight, put_head};
use house::sizes;
use limits::MOST_READ;
use lines::put_pair;
use packed_heads::find_held;
use report::count_len;
use walks::{Part, measure, put_part};

// The most marks that the program cleans.
const MOST_CLEANED: usize = 512;

// How many bytes of the cleaned file and of the list were written.
#[derive(Clone, Copy)]
pub struct Sizes {
    pub file: usize,
    pub report: usize,
}

// The cleaned file of n marks, of which so many are kept, in the first bytes, which have room for it.
fn put_file(file: &[u8], n: usize, kept: usize, out: &mut [u8])
    requires { (marks_at + mark_bytes * n ≤ length file.now) × ((mark_numbers * kept ≡ length (kept_of (marks_of file.now n))) × (marks_at + mark_bytes * kept ≤ length out.old)) }
    ensures { out.new ≡ written (bytes_of (cleaned (file_at file.now form.Eight n 0))) out.old }
{
    put_head(out, 0, sizes::TOLERANCE_LENGTH, sizes::TOLERANCE_KIND);
    put_eight(out, sizes::HEAD_BYTES, eight(file, sizes::HEAD_BYTES));
    let size = sizes::KIND_FIELD + sizes::MARK_BYTES * kept;
    put_head(out, sizes::MARKS_HEAD, size as u64, sizes::MARKS_KIND);
    put_part(out, sizes::MARKS_AT, Part::Marks, file, n);
}

// The list of the marks dropped, in the first bytes, which have room for it.
fn put_report(file: &[u8], n: usize, kept: usize, report: &mut [u8])
    requires n_in_bounds { (marks_at + mark_bytes * n ≤ length file.now) × ((kept ≤ n) × (length (report_of kept (drops_of (marks_of file.now n))) ≤ length report.old)) }
    requires kept_value { n - kept ≡ length (drops_of (marks_of file.now n)) }
    ensures { report.new ≡ written (report_of kept (drops_of (marks_of file.now n))) report.old }
{
    let dropped = (n - kept) as u64;
    let lines = put_pair(report, b"KEPT ", kept as u64, b" DROPPED ", dropped);
    put_part(report, lines, Part::Lines, file, n);
}

// The file of n marks that is well formed, cleaned. Nothing is written before it is known that there is room for both.
fn clean(file: &[u8], n: usize, out: &mut [u8], report: &mut [u8]) -> Result<Sizes, Refusal>
    requires { (marks_at + mark_bytes * n ≤ length file.now) × (n < 2 ^ 28) }
    ensures { salvage_left (answer result) out.new report.new ≡ hand_both out.old report.old (texts_of (file_at file.now form.Eight n 0)) }
{
    let marks = measure(Part::Marks, file, n);
    let lines = measure(Part::Lines, file, n);
    let kept = marks / sizes::MARK_BYTES;
    let size = sizes::MARKS_AT + marks;
    let text = count_len(kept, n - kept) + lines;
    if out.len() < size {
        return Err(Refusal::NoRoom);
    }
    if report.len() < text {
        return Err(Refusal::NoRoom);
    }
    put_file(file, n, kept, out);
    put_report(file, n, kept, report);
    Ok(Sizes {
        file: size,
        report: text,
    })
}

// Cleans a house file, packed or not, of any number of marks: drops each mark with a coordinate that is not finite or exceeds 1,000,000 in magnitude, else each that is equal to the last one kept. The file of the others goes into the first
// bytes of `out`, and the list of what was dropped into those of `report`; where the call is refused, both stay as they are.
pub fn salvage(file: &[u8], out: &mut [u8], report: &mut [u8]) -> Result<Sizes, Refusal>
    ensures { salvage_left (answer result) out.new report.new ≡ salvage_of file.now out.old report.old }
{
    let Some(held) = find_held(file) else {
        return Err(Refusal::BadlyFormed);
    };
    clean(file, held.layout.marks, out, report)
}

// ---- what the program prints

// A refusal's line in place of the list, and no file.
fn refuse(q: Refusal, report: &mut [u8]) -> Result<Sizes, Refusal>
    ensures { (answer result ≡ alone (hand_over (refusal_line (number q)) report.old).answer) × (report.new ≡ (hand_over (refusal_line (number q)) report.old).out) }
{
    let size = lines::hand_refusal(q.number(), report)?;
    Ok(Sizes {
        file: 0,
        report: size,
    })
}

// Cleans a house file of at most 512 marks as the program does: a file that is refused gives no file, and in place of the list the one line that names its refusal. Where a slice is too short the call itself is refused, and both stay as they are.
pub fn salvage_file(file: &[u8], out: &mut [u8], report: &mut [u8]) -> Result<Sizes, Refusal>
    ensures { salvage_left (answer result) out.new report.new ≡ printed_of file.now out.old report.old }
{
    if file.len() > MOST_READ {
        return refuse(Refusal::BadlyFormed, report);
    }
    let Some(held) = find_held(file) else {
        return refuse(Refusal::BadlyFormed, report);
    };
    let n = held.layout.marks;
    if n > MOST_CLEANED {
        return refuse(Refusal::TooMany, report);
    }
    clean(file, n, out, report)
}
