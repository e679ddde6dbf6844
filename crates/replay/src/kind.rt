// The kinds of cases by their names.
use form::Form;
use ring::Outline;

// Cases of one number or one curve.
#[derive(Clone, Copy)]
pub enum Single {
    Sqrt,
    Basis,
    DeCasteljau4,
    DeCasteljau3,
    DeCasteljau2,
    Coefficients,
    Subdivide4,
    Refine,
    Nearest,
    Distance,
    Blocks,
    Size,
}

// By which engine a fit is made: the flat one keeps its open parts in a lent slice.
#[derive(Clone, Copy)]
pub enum Engine {
    Nested,
    Flat,
}

// The fits by blocks.
#[derive(Clone, Copy)]
pub enum Blocks {
    Source,
    Loop,
    Joined(Engine),
    Ring(Engine),
}

// Cases that have room for curves.
#[derive(Clone, Copy)]
pub enum Large {
    Direct(Engine),
    Fit(Blocks),
    Check(Outline, Form),
    Import,
    Export,
}

// What is done to a house file.
#[derive(Clone, Copy)]
pub enum Work {
    Pack,
    Unpack,
    Salvage,
}

// What a line asks for.
#[derive(Clone, Copy)]
pub enum Kind {
    Single(Single),
    Large(Large),
    File(Work),
}

// Those of one number or one curve.
fn single_of(word: &[u8]) -> Option<Single> {
    match word {
        b"sqrt" => Some(Single::Sqrt),
        b"basis" => Some(Single::Basis),
        b"de_casteljau4" => Some(Single::DeCasteljau4),
        b"de_casteljau3" => Some(Single::DeCasteljau3),
        b"de_casteljau2" => Some(Single::DeCasteljau2),
        b"coefficients" => Some(Single::Coefficients),
        b"subdivide4" => Some(Single::Subdivide4),
        b"refine" => Some(Single::Refine),
        b"nearest" => Some(Single::Nearest),
        b"distance" => Some(Single::Distance),
        b"blocks" => Some(Single::Blocks),
        b"size" => Some(Single::Size),
        _ => None,
    }
}

// Those with room for curves.
fn large_of(word: &[u8]) -> Option<Large> {
    match word {
        b"direct" => Some(Large::Direct(Engine::Nested)),
        b"direct_flat" => Some(Large::Direct(Engine::Flat)),
        b"source" => Some(Large::Fit(Blocks::Source)),
        b"loop" => Some(Large::Fit(Blocks::Loop)),
        b"joined" => Some(Large::Fit(Blocks::Joined(Engine::Nested))),
        b"joined_flat" => Some(Large::Fit(Blocks::Joined(Engine::Flat))),
        b"ring" => Some(Large::Fit(Blocks::Ring(Engine::Nested))),
        b"ring_flat" => Some(Large::Fit(Blocks::Ring(Engine::Flat))),
        b"check" => Some(Large::Check(Outline::Open, Form::Eight)),
        b"check_ring" => Some(Large::Check(Outline::Closed, Form::Eight)),
        b"check_worst" => Some(Large::Check(Outline::Open, Form::Nine)),
        b"check_worst_ring" => Some(Large::Check(Outline::Closed, Form::Nine)),
        b"import" => Some(Large::Import),
        b"export" => Some(Large::Export),
        _ => None,
    }
}

// Those of house files.
fn work_of(word: &[u8]) -> Option<Work> {
    match word {
        b"pack" => Some(Work::Pack),
        b"unpack" => Some(Work::Unpack),
        b"salvage" => Some(Work::Salvage),
        _ => None,
    }
}

// The kind that a word names.
pub fn kind_of(word: &[u8]) -> Option<Kind> {
    if let Some(single) = single_of(word) {
        return Some(Kind::Single(single));
    }
    if let Some(large) = large_of(word) {
        return Some(Kind::Large(large));
    }
    let work = work_of(word)?;
    Some(Kind::File(work))
}
