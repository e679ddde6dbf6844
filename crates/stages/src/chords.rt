// chords_for_points: the length along the marks up to each, as a part of the whole.
ghost use Rattle.std.specs.Prelude.{◌≡◌, ◌+◌, ◌-◌, ◌*◌, ◌<◌, length};
ghost use Rattle.stages.specs.Chords.{along, lengths, parts, chords_of, square_at};

// The square of the distance from the mark before mark k to mark k.
fn square_at(marks: &[f64], k: usize) -> f64
    requires { (0 < k) × (2 * k + 1 < length marks.now) }
    ensures { result ≡ (square_at marks.now k).val }
{
    let d = plane::sub(marks::mark_at(marks, k), marks::mark_at(marks, k - 1));
    plane::dot(d, d)
}

// Guesses at the distances, in a loop of their own that the compiler can run wide. Nothing is promised of them.
fn guess_distances(marks: &[f64], params: &mut [f64])
    requires { length marks.now ≡ 2 * length params.old }
{
    for k in 1..params.len() {
        params[k] = root::guess(square_at(marks, k));
    }
}

// The length along the marks up to each of them, by the guesses that stand there; the whole length.
fn sum_distances(marks: &[f64], params: &mut [f64]) -> f64
    requires { (0 < length params.old) × (length marks.now ≡ 2 * length params.old) }
    ensures { (result ≡ (along marks.now (length params.old - 1)).val) × (params.new ≡ lengths marks.now (length params.old)) }
{
    let mut total = 0.0;
    params[0] = total;
    for k in 1..params.len() {
        total += root::root_by(square_at(marks, k), params[k]);
        params[k] = total;
    }
    total
}

// Each number divided by the whole, and whether each quotient is finite.
fn divide_by(params: &mut [f64], total: f64) -> bool
    ensures { (result ≡ (parts params.old total).fine) × (params.new ≡ (parts params.old total).val) }
{
    let mut fine = true;
    for part in params.iter_mut() {
        *part /= total;
        fine = fine & float::finite(*part);
    }
    fine
}

// Chord-length parameters of the marks, and whether each operation gave a finite number.
pub fn chords_for_points(marks: &[f64], params: &mut [f64]) -> bool
    requires { (0 < length params.old) × (length marks.now ≡ 2 * length params.old) }
    ensures { (result ≡ (chords_of marks.now (length params.old)).fine) × (params.new ≡ (chords_of marks.now (length params.old)).val) }
{
    guess_distances(marks, params);
    let total = sum_distances(marks, params);
    let fine = divide_by(params, total);
    float::finite(total) & fine
}
