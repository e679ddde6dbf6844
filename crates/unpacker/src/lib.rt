// A packed house file, unpacked: each joint is put twice again, as the records of curves have it.
#![tactic(auto)]

mod records;

ghost use Rattle.std.specs.Prelude.{◌≡◌};
ghost use Rattle.float.specs.Refusal.{answer};
ghost use Rattle.house.specs.File.{bytes_of};
ghost use Rattle.lines.specs.Handed.{handed, hand_over};
ghost use Rattle.packed.specs.Packed.{packed_bytes};
ghost use Rattle.packed.specs.Unpacked.{packed_at};
ghost use Rattle.unpacker.specs.Unpacker.{unpack_of};

use float::refusal::Refusal;
use form::Form;
use house::sizes::size_for;
use lines::hand_over;
use packed_heads::find_packed;
use records::put_unpacked;

// Packed bytes of n marks and k curves, unpacked into the first bytes of `out`, which stay as they are where they are too few. A file without curves stays as it is.
fn unpack_counted(
    file: &[u8],
    form: Form,
    n: usize,
    k: usize,
    out: &mut [u8],
) -> Result<usize, Refusal>
    requires { packed_bytes (packed_at file.now form n k) ≡ file.now }
    ensures { handed (answer result) out.new ≡ hand_over (bytes_of (packed_at file.now form n k)) out.old }
{
    if k == 0 {
        return hand_over(file, out);
    }
    let size = size_for(form, n, k);
    if out.len() < size {
        return Err(Refusal::NoRoom);
    }
    put_unpacked(file, form, n, k, out);
    Ok(size)
}

// Takes a packed file back to the kinds that it was packed from, in the first bytes of `out`, which stay as they are where it is refused. A file without curves stays as it is.
pub fn unpack_file(file: &[u8], out: &mut [u8]) -> Result<usize, Refusal>
    ensures { handed (answer result) out.new ≡ unpack_of file.now out.old }
{
    let Some(layout) = find_packed(file) else {
        return Err(Refusal::BadlyFormed);
    };
    unpack_counted(file, layout.form, layout.marks, layout.curves, out)
}
