// How a curve is stored: by its eight numbers alone, or in a record that also keeps how far off its marks are, and which of them is the worst.
#![tactic(auto)]

ghost use Rattle.std.specs.Prelude.{◌≡◌};
ghost use Rattle.form.specs.Form.{width, worsts_for};

// A curve's own numbers: x and y of its four points.
pub const CURVE_NUMBERS: usize = 8;

// The numbers of the record that a fit stores: the curve's, and the largest distance of a mark under it.
pub const RECORD_NUMBERS: usize = 9;

// Lists of eight numbers a curve, as older files hold them; or of nine, with a worst mark beside each first mark, as the fits store them.
#[derive(Clone, Copy)]
pub enum Form {
    Eight,
    Nine,
}

// How many numbers a curve has.
pub fn width(form: Form) -> usize
    ensures { result ≡ width form }
{
    match form {
        Form::Eight => CURVE_NUMBERS,
        Form::Nine => RECORD_NUMBERS,
    }
}

// How many worst marks stand beside the first marks of k curves.
pub fn worsts_for(form: Form, k: usize) -> usize
    ensures { result ≡ worsts_for form k }
{
    match form {
        Form::Eight => 0,
        Form::Nine => k,
    }
}
