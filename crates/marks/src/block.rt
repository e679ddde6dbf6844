// How many marks are fitted at a time.
ghost use Rattle.std.specs.Prelude.{◌≡◌, ◌≤◌};
ghost use Rattle.marks.specs.Block.{block_size};

// The largest block, and a quarter of it: a last block with fewer marks would be flat.
pub const MAX_POINTS_TO_FIT: usize = 200;

const MIN_POINTS_TO_FIT: usize = 50;

// The bench's sheet serves to here, and above it the count-down decides: at 30,049 marks the two part.
const MAX_POINTS_TO_DIVIDE: usize = 20000;

// The size by the sheet's division. q blocks of 200 leave r marks over; where these are fewer than 50, the blocks give up what is missing, each as many as the next.
// At 30,049 marks, 150 blocks and 49 over, that would be one mark each, and blocks of 199 leave none over.
fn by_division(num_points: usize) -> usize
    requires { (200 ≤ num_points) × (num_points ≤ 30048) }
    ensures { result ≡ block_size num_points }
{
    let q = num_points / MAX_POINTS_TO_FIT;
    let r = num_points % MAX_POINTS_TO_FIT;
    if r >= MIN_POINTS_TO_FIT {
        return MAX_POINTS_TO_FIT;
    }
    // q - 1 more, so that the division rounds up
    MAX_POINTS_TO_FIT - (MIN_POINTS_TO_FIT - r + (q - 1)) / q
}

// The size as the Rust finds it: from the largest block down, the first that leaves a quarter of one or more.
fn by_count_down(num_points: usize) -> usize
    requires { 200 ≤ num_points }
    ensures { result ≡ block_size num_points }
{
    for size in (MIN_POINTS_TO_FIT + 1..=MAX_POINTS_TO_FIT).rev() {
        if num_points % size >= MIN_POINTS_TO_FIT {
            return size;
        }
    }
    MIN_POINTS_TO_FIT
}

// The size of a block for so many marks: the largest that leaves a quarter of a block at the end, or more.
pub fn max_points_to_fit(num_points: usize) -> usize
    ensures { result ≡ block_size num_points }
{
    if num_points < MAX_POINTS_TO_FIT {
        return MAX_POINTS_TO_FIT;
    }
    if num_points <= MAX_POINTS_TO_DIVIDE {
        return by_division(num_points);
    }
    by_count_down(num_points)
}
