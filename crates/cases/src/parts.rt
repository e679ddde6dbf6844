// Parts of slices, for programs that read how much of a slice to lend: where it has fewer than are asked for, the whole slice. A function for each, so that
// whoever lends needs no test and no way out.

// The first n.
pub fn front<T>(xs: &[T], n: usize) -> &[T] {
    &xs[..n.min(xs.len())]
}

// The first n, lent.
pub fn lent<T>(xs: &mut [T], n: usize) -> &mut [T] {
    let held = n.min(xs.len());
    &mut xs[..held]
}

// The n from `from` on.
pub fn part<T>(xs: &[T], from: usize, n: usize) -> &[T] {
    if from <= xs.len() {
        return front(&xs[from..], n);
    }
    xs
}
