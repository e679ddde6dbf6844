// A line, answered by the kind that its first word names. What is no case answers nothing: `None`.
use crate::cursor::Cursor;
use crate::kind::{Kind, Large, Single, Work, kind_of};
use crate::{listing, outline, packing, paths, room, single};
use cases::STDOUT;

// A case of one number or one curve.
fn single_case(single: Single, words: Cursor) -> Option<()> {
    match single {
        Single::Sqrt => single::sqrt_case(words),
        Single::Basis => single::basis_case(words),
        Single::DeCasteljau4 => single::casteljau4_case(words),
        Single::DeCasteljau3 => single::casteljau3_case(words),
        Single::DeCasteljau2 => single::casteljau2_case(words),
        Single::Coefficients => single::coefficients_case(words),
        Single::Subdivide4 => single::subdivide4_case(words),
        Single::Refine => single::refine_case(words),
        Single::Nearest => single::nearest_case(words),
        Single::Distance => single::distance_case(words),
        Single::Blocks => single::blocks_case(words),
        Single::Size => single::size_case(words),
    }
}

// One with room for curves; `export` writes over its line. One room serves all these kinds: rooms of their own might lie on the stack together, where the compiler makes one function of several.
fn case_in(large: Large, line: &mut [u8], end: usize, curves: &mut [f64]) -> Option<()> {
    match large {
        Large::Direct(engine) => { outline::direct_case(engine, Cursor::behind(line, end), curves) }
        Large::Fit(blocks) => outline::blocks_case(blocks, Cursor::behind(line, end), curves),
        Large::Check(outline, form) => {
            listing::check_case(outline, form, Cursor::behind(line, end), curves)
        }
        Large::Import => paths::import_case(Cursor::behind(line, end), curves),
        Large::Export => paths::export_case(line, end, curves),
    }
}

fn short_case(large: Large, line: &mut [u8], end: usize) -> Option<()> {
    let mut curves = room::short_curves();
    case_in(large, line, end, &mut curves)
}

fn long_case(large: Large, line: &mut [u8], end: usize) -> Option<()> {
    let mut curves = room::curves();
    case_in(large, line, end, &mut curves)
}

// The room is no larger than that of `long_case`, and made as it is: where the compiler makes one function of both, it gives them one place.
fn file_case(work: Work, line: &mut [u8], end: usize) -> Option<()> {
    let mut out = room::file();
    packing::file_case(work, line, end, &mut out)
}

// Answers a line that is a case.
fn answered(line: &mut [u8]) -> Option<()> {
    let end = line.iter().position(|b| *b == b' ').unwrap_or(line.len());
    match kind_of(&line[..end])? {
        Kind::Single(single) => single_case(single, Cursor::behind(line, end)),
        Kind::File(work) => file_case(work, line, end),
        Kind::Large(large) => {
            if room::is_short(line) {
                short_case(large, line, end)
            } else {
                long_case(large, line, end)
            }
        }
    }
}

// The answer to a line, and a newline. A line that is no case is bad.
pub fn answer(line: &mut [u8]) {
    if answered(line).is_none() {
        io::write_all(STDOUT, b"BAD");
    }
    cases::end_line();
}
