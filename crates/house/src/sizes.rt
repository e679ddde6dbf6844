// Where things stand in a house file, and how much room they take.
ghost use Rattle.std.specs.Prelude.{◌≡◌, ◌+◌, ◌*◌, ◌^◌, ◌<◌};
ghost use Rattle.house.specs.Limits.{field_for, mark_field, number_field, curve_kind, beside_bytes, body_bytes};
ghost use Rattle.house.specs.Bytes.{fits};
ghost use Rattle.house.specs.Layout.{size_for};
ghost use Rattle.house.specs.Held.{form_of, params_at};
ghost use Rattle.house.specs.Slices.{room};

use form::{Form, width, worsts_for};

// The most marks of a file whose mark numbers have two bytes. Once no file had more, so none that is there already changes its bytes.
const MOST_SMALL: usize = 4096;

// The bytes of a record's length.
pub const LENGTH_FIELD: usize = 4;

// The bytes of a record's kind, which its length counts.
pub const KIND_FIELD: usize = 2;

// The bytes of any number that is no mark's.
pub const NUMBER_FIELD: usize = 8;

// A mark's numbers: x and y.
pub const MARK_NUMBERS: usize = 2;

// The kind that holds the tolerance.
pub const TOLERANCE_KIND: u64 = 1;

// The kind that holds the marks.
pub const MARKS_KIND: u64 = 2;

// The kind that holds the parameters.
pub const PARAMS_KIND: u64 = 4;

// The bytes of a record's head: its length and its kind.
pub const HEAD_BYTES: usize = LENGTH_FIELD + KIND_FIELD;

// The bytes of a mark.
pub const MARK_BYTES: usize = MARK_NUMBERS * NUMBER_FIELD;

// Where kind 2 starts, behind kind 1.
pub const MARKS_HEAD: usize = HEAD_BYTES + NUMBER_FIELD;

// Where the marks start.
pub const MARKS_AT: usize = MARKS_HEAD + HEAD_BYTES;

// What kind 1 states as its length: the kind and a number.
pub const TOLERANCE_LENGTH: u64 = 10;

// How many bytes the number of a first or a worst mark has.
#[derive(Clone, Copy)]
pub enum Field {
    Two,
    Four,
}

// The field of mark numbers in a file of n marks.
pub fn field_for(n: usize) -> Field
    ensures { result ≡ field_for n }
{
    if n > MOST_SMALL {
        return Field::Four;
    }
    Field::Two
}

// The bytes of a mark number.
pub fn mark_field(field: Field) -> usize
    ensures { result ≡ mark_field field }
{
    match field {
        Field::Two => 2,
        Field::Four => 4,
    }
}

// Whether the field of mark numbers holds x.
pub fn mark_fits(field: Field, x: u64) -> bool
    ensures { result ≡ fits (mark_field field) x }
{
    match field {
        Field::Two => x < 0x1_0000,
        Field::Four => x < 0x1_0000_0000,
    }
}

// The kind of a curve.
pub fn curve_kind(form: Form, field: Field) -> u64
    ensures { result ≡ curve_kind form field }
{
    match (form, field) {
        (Form::Eight, Field::Two) => 3,
        (Form::Eight, Field::Four) => 5,
        (Form::Nine, Field::Two) => 6,
        (Form::Nine, Field::Four) => 7,
    }
}

// How curves are stored that have this kind: eight numbers each, unless it is the kind of nine.
pub fn form_of(field: Field, kind: u64) -> Form
    ensures { result ≡ form_of field kind }
{
    if kind == curve_kind(Form::Nine, field) {
        return Form::Nine;
    }
    Form::Eight
}

// The bytes of a curve's mark numbers: its first mark's, and its worst mark's where it is kept.
pub fn beside_bytes(form: Form, field: Field) -> usize
    ensures { result ≡ beside_bytes form field }
{
    let bytes = mark_field(field);
    match form {
        Form::Eight => bytes,
        Form::Nine => 2 * bytes,
    }
}

// The bytes of a curve's body: its mark numbers and its other numbers.
pub fn body_bytes(form: Form, field: Field) -> usize
    ensures { result ≡ body_bytes form field }
{
    beside_bytes(form, field) + NUMBER_FIELD * width(form)
}

// Whether slices of these lengths have places for n marks' parameters and for k curves. No product is made of k, which a caller only claims.
pub fn has_room(
    form: Form,
    n: usize,
    k: usize,
    firsts: usize,
    worsts: usize,
    curves: usize,
    params: usize,
) -> bool
    ensures { result ≡ room form n k firsts worsts curves params }
{
    if firsts < k {
        return false;
    }
    if worsts < worsts_for(form, k) {
        return false;
    }
    if curves / width(form) < k {
        return false;
    }
    if k == 0 {
        return true;
    }
    params >= n
}

// How many bytes a file of n marks and k curves has.
pub fn size_for(form: Form, n: usize, k: usize) -> usize
    requires { params_at form n k + number_field * n < 2 ^ 64 }
    ensures { result ≡ size_for form n k }
{
    let end = MARKS_AT + MARK_BYTES * n;
    if k == 0 {
        return end;
    }
    let step = HEAD_BYTES + body_bytes(form, field_for(n));
    end + step * k + HEAD_BYTES + NUMBER_FIELD * n
}
