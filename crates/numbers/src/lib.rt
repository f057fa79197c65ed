// Answers as the numbers that C gets: one total function for each kind of answer.
#![tactic(auto)]

pub mod answers;

ghost use Rattle.std.specs.Prelude.{◌≡◌, []};
ghost use Rattle.sixtap.specs.Refusals.{sample_outcome};
ghost use Rattle.fetch.specs.Refusals.{fetch_outcome};
ghost use Rattle.search.specs.Refusals.{sad_outcome, search_outcome, diamond_outcome};
ghost use Rattle.search.specs.Picture.{picture_outcome};
ghost use Rattle.search.specs.Allowance.{allowance_outcome};
ghost use Rattle.window.specs.Refusals.{checked_outcome, refusal_outcome};
ghost use Rattle.denoiser.specs.Build.{build_outcome};
ghost use Rattle.numbers.specs.Answers.{bit, filter_number, number_of, vector_numbers, sample_numbers, sad_numbers, ceiled_numbers, search_numbers, diamond_numbers, picture_numbers, allowed_numbers, build, build_numbers, check_numbers, place_number, search_number, picture_number, allowance_number};

use crate::answers::{Allowed, Build, Ceiled, Diamond, Picture, Sad, Sample, Search, Vector};
use denoiser::Built;
use fetch::FetchRefusal;
use filters::BadSelector;
use prediction::motion_comp::FilterSet;
use prediction::motion_vector::Mv;
use search::allowance::{AllowanceRefusal, PictureWork};
use search::picture::PictureRefusal;
use search::{DiamondResult, PlaceRefusal, SearchRefusal, SearchResult};
use window::{Refusal, Size};

// A truth value as 1 or 0.
pub fn bit_of(b: bool) -> u8
    ensures { result ≡ bit b }
{
    b as u8
}

// The number of a filter set.
pub fn filter_number(set: FilterSet) -> u32
    ensures { result ≡ filter_number set }
{
    match set {
        FilterSet::Sixtap => 0,
        FilterSet::Bilinear => 1,
    }
}

// The numbers of a vector.
pub fn vector_numbers(mv: Mv) -> Vector
    ensures { result ≡ vector_numbers mv }
{
    Vector {
        refusal: 0,
        row: mv.row,
        col: mv.col,
    }
}

// The numbers of a filtered sample.
pub fn sample_numbers(answer: Result<u8, BadSelector>) -> Sample
    ensures { result ≡ sample_numbers (sample_outcome answer) }
{
    match answer {
        Ok(s) => Sample {
            refusal: 0,
            sample: s as u32,
        },
        Err(BadSelector) => Sample {
            refusal: 13,
            ..Sample::default()
        },
    }
}

// The number of a fetch's refusal, 0 where it is accepted.
pub fn fetch_number(answer: Result<(), FetchRefusal>) -> u32
    ensures { result ≡ number_of (fetch_outcome answer []) }
{
    match answer {
        Ok(()) => 0,
        Err(FetchRefusal::BadSize) => 8,
        Err(FetchRefusal::ShortPlane) => 9,
        Err(FetchRefusal::BadOrigin) => 10,
    }
}

// The number of the refusal of a place.
pub fn place_number(refusal: PlaceRefusal) -> u32
    ensures { result ≡ place_number refusal }
{
    match refusal {
        PlaceRefusal::BadSize => 8,
        PlaceRefusal::ShortPlane => 9,
        PlaceRefusal::BadMacroblock => 10,
    }
}

// The number of the refusal of a SAD or of a refinement.
pub fn search_number(refusal: SearchRefusal) -> u32
    ensures { result ≡ search_number refusal }
{
    match refusal {
        SearchRefusal::Place(refusal) => place_number(refusal),
        SearchRefusal::OutOfRange => 11,
        SearchRefusal::OffGrid => 12,
        SearchRefusal::BadVersion => 23,
    }
}

// The numbers of a SAD's answer.
pub fn sad_numbers(answer: Result<u32, SearchRefusal>) -> Sad
    ensures { result ≡ sad_numbers (sad_outcome answer) }
{
    match answer {
        Ok(sad) => Sad { refusal: 0, sad },
        Err(refusal) => Sad {
            refusal: search_number(refusal),
            ..Sad::default()
        },
    }
}

// The numbers of a SAD up to a ceiling.
pub fn ceiled_numbers(read: prediction::ceiling::Ceiled) -> Ceiled
    ensures { result ≡ ceiled_numbers read }
{
    Ceiled {
        refusal: 0,
        sad: read.sad,
        rows: read.rows,
    }
}

// The numbers of a diamond's answer.
pub fn diamond_numbers(answer: Result<DiamondResult, PlaceRefusal>) -> Diamond
    ensures { result ≡ diamond_numbers (diamond_outcome answer) }
{
    match answer {
        Ok(d) => Diamond {
            refusal: 0,
            row: d.mv.row,
            col: d.mv.col,
            sad: d.sad,
            sads: d.sads,
            rounds: d.rounds,
        },
        Err(refusal) => Diamond {
            refusal: place_number(refusal),
            ..Diamond::default()
        },
    }
}

// The numbers of a refinement's answer.
pub fn search_numbers(answer: Result<SearchResult, SearchRefusal>) -> Search
    ensures { result ≡ search_numbers (search_outcome answer) }
{
    match answer {
        Ok(s) => Search {
            refusal: 0,
            row: s.mv.row,
            col: s.mv.col,
            sad: s.sad,
        },
        Err(refusal) => Search {
            refusal: search_number(refusal),
            ..Search::default()
        },
    }
}

// The number of the refusal of a picture.
pub fn picture_number(refusal: PictureRefusal) -> u32
    ensures { result ≡ picture_number refusal }
{
    match refusal {
        PictureRefusal::BadSize => 8,
        PictureRefusal::ShortPlane => 9,
        PictureRefusal::ShortSource => 14,
        PictureRefusal::ShortList => 15,
        PictureRefusal::BadVersion => 23,
    }
}

// The numbers of the answer to a search of a picture.
pub fn picture_numbers(answer: Result<u32, PictureRefusal>) -> Picture
    ensures { result ≡ picture_numbers (picture_outcome answer) }
{
    match answer {
        Ok(macroblocks) => Picture {
            refusal: 0,
            macroblocks,
        },
        Err(refusal) => Picture {
            refusal: picture_number(refusal),
            ..Picture::default()
        },
    }
}

// The number of the refusal of a picture or of its allowance.
pub fn allowance_number(refusal: AllowanceRefusal) -> u32
    ensures { result ≡ allowance_number refusal }
{
    match refusal {
        AllowanceRefusal::Picture(refusal) => picture_number(refusal),
        AllowanceRefusal::LowAllowance => 30,
    }
}

// The numbers of the answer to a search of a picture within an allowance.
pub fn allowed_numbers(answer: Result<PictureWork, AllowanceRefusal>) -> Allowed
    ensures { result ≡ allowed_numbers (allowance_outcome answer) }
{
    match answer {
        Ok(w) => Allowed {
            refusal: 0,
            macroblocks: w.macroblocks,
            comparisons: w.comparisons,
        },
        Err(refusal) => Allowed {
            refusal: allowance_number(refusal),
            ..Allowed::default()
        },
    }
}

// A refusal without values.
fn without_values(refusal: u32) -> Build
    ensures { result ≡ build refusal 0 0 0 0 0 0 }
{
    Build {
        refusal,
        ..Build::default()
    }
}

// A refusal that names a frame.
fn of_frame(refusal: u32, frame: u32) -> Build
    ensures { result ≡ build refusal 0 0 0 0 0 frame }
{
    Build {
        refusal,
        frame,
        ..Build::default()
    }
}

// The numbers of a refusal.
fn refusal_numbers(refusal: Refusal) -> Build
    ensures { result ≡ build_numbers (refusal_outcome refusal) }
{
    match refusal {
        Refusal::NoCentre => without_values(1),
        Refusal::TooManyFrames => without_values(2),
        Refusal::BadSize(s) => Build {
            refusal: 3,
            width: s.width,
            height: s.height,
            ..Build::default()
        },
        Refusal::OtherSize(s, c) => Build {
            refusal: 4,
            width: c.width,
            height: c.height,
            other_width: s.width,
            other_height: s.height,
            ..Build::default()
        },
        Refusal::CapTooHigh(g) => of_frame(29, g),
        Refusal::PlaneUnfit(g) => of_frame(5, g),
        Refusal::ShortOutput => without_values(6),
        Refusal::ShortWorking => without_values(7),
    }
}

// The numbers of what the checks find.
pub fn check_numbers(checked: Result<Size, Refusal>) -> Build
    ensures { result ≡ check_numbers (checked_outcome checked) }
{
    match checked {
        Ok(size) => Build {
            width: size.width,
            height: size.height,
            ..Build::default()
        },
        Err(refusal) => refusal_numbers(refusal),
    }
}

// The numbers of a builder's answer.
pub fn build_numbers(answer: Result<Built, Refusal>) -> Build
    ensures { result ≡ build_numbers (build_outcome answer) }
{
    match answer {
        Ok(b) => Build {
            width: b.width,
            height: b.height,
            accepted: b.accepted,
            ..Build::default()
        },
        Err(refusal) => refusal_numbers(refusal),
    }
}
