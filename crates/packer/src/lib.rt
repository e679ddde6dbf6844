// A house file, packed: each joint once. Nothing is written before it is known that the file can be packed and that there is room.
#![tactic(auto)]

mod records;

ghost use Rattle.std.specs.Prelude.{◌≡◌};
ghost use Rattle.float.specs.Refusal.{answer};
ghost use Rattle.lines.specs.Handed.{handed};
ghost use Rattle.house.specs.Limits.{length_field};
ghost use Rattle.house.specs.Bytes.{fits};
ghost use Rattle.packer.specs.Packer.{pack_of};

use float::refusal::Refusal;
use heads::find_layout;
use house::sizes;
use lines::hand_over;
use packed::entry_at;
use records::{curves_meet, packed_length, put_packed};

// Whether a record's length fits its field.
fn length_fits(size: usize) -> bool
    ensures { result ≡ fits length_field size }
{
    size < 0x1_0000_0000
}

// Packs a house file into the first bytes of `out`, which stay as they are where it is refused. A file without curves stays as it is.
pub fn pack_file(file: &[u8], out: &mut [u8]) -> Result<usize, Refusal>
    ensures { handed (answer result) out.new ≡ pack_of file.now out.old }
{
    let Some(layout) = find_layout(file) else {
        return Err(Refusal::BadlyFormed);
    };
    let form = layout.form;
    let n = layout.marks;
    let k = layout.curves;
    if k == 0 {
        return hand_over(file, out);
    }
    if length_fits(packed_length(form, k)) {
        if curves_meet(file, form, n, k) {
            let size = entry_at(form, n, k) + sizes::HEAD_BYTES + sizes::NUMBER_FIELD * n;
            if out.len() < size {
                return Err(Refusal::NoRoom);
            }
            put_packed(file, form, n, k, out);
            return Ok(size);
        }
        return Err(Refusal::NotJoined);
    }
    Err(Refusal::BadlyFormed)
}
