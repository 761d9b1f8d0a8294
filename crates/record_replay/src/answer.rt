//! Records, and what is answered of them.
ghost use Rattle.std.specs.Prelude.{◌≡◌};
ghost use Rattle.record_replay.specs.declared.answer.Replayed.TheVariants.{Broken};

use image_finding::BadImage;

/// Where a record begins, a byte of the device, and its number.
#[derive(Clone, Copy, Debug, PartialEq, Eq)]
pub struct Head {
    pub place: u64,
    pub number: u64,
}

/// What came of a record.
#[derive(Clone, Copy, Debug, PartialEq, Eq)]
pub enum Replayed {
    /// It passed.
    Passed,
    /// A rule of the image fails for it.
    Broken(BadImage),
}

/// What came of a change, beside what stands there.
#[derive(Clone, Copy, Debug, PartialEq, Eq)]
pub(crate) enum Tried {
    /// It was done.
    Done,
    /// It does not fit what stands there.
    Misfit,
    /// A number of a view's row would leave the HUGE range.
    OutOfRange,
}

// The rules of the image for which a record can fail.
const RECORD_FITS: u8 = 13;

const NUMBERS_FIT: u8 = 14;

/// A record that does not fit, by rule 13.
pub(crate) fn misfit(place: u64) -> Replayed
    ensures { result ≡ Broken (record { rule = 13; place = place }) }
{
    Replayed::Broken(BadImage {
        rule: RECORD_FITS,
        place,
    })
}

/// A record by which a number leaves the HUGE range, by rule 14.
pub(crate) fn out_of_range(place: u64) -> Replayed
    ensures { result ≡ Broken (record { rule = 14; place = place }) }
{
    Replayed::Broken(BadImage {
        rule: NUMBERS_FIT,
        place,
    })
}
