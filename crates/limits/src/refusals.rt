// The refusals of document 01, as in rules' Refusal: their one place in the code. 44 is not among them, since
// no call can answer it.
ghost use Rattle.std.specs.Prelude.{◌≡◌};
ghost use Rattle.limits.specs.Numbers.{number_of};

use std::error::Error;
use std::fmt;

#[derive(Clone, Copy, Debug, PartialEq, Eq)]
pub enum Refusal {
    // "Turned down because of what was handed in"
    HeaderShort,
    SizeRange,
    CountRange,
    StartWrong,
    LengthWrong,
    MemberWrong,
    BitDegree,
    FrameLength,
    FrameRange,
    CertificateWrong,
    ScaleRange,
    EntryRange,
    MaskWrong,
    EntryOrder,
    WordWrong,
    PointWrong,

    // A check number not below m, or rounds wanted above 1,024.
    AskedTooMuch,

    // "Turned down because of how the run stands"
    BufferShort,
    RunEnded,
    RunDamaged,
}

impl Refusal {
    // The refusal's number in document 01.
    pub fn number(self) -> u8
        ensures { result ≡ number_of self }
    {
        match self {
            Refusal::HeaderShort => 1,
            Refusal::SizeRange => 2,
            Refusal::CountRange => 3,
            Refusal::StartWrong => 4,
            Refusal::LengthWrong => 5,
            Refusal::MemberWrong => 6,
            Refusal::BitDegree => 7,
            Refusal::FrameLength => 8,
            Refusal::FrameRange => 9,
            Refusal::CertificateWrong => 10,
            Refusal::ScaleRange => 11,
            Refusal::EntryRange => 12,
            Refusal::MaskWrong => 13,
            Refusal::EntryOrder => 14,
            Refusal::WordWrong => 15,
            Refusal::PointWrong => 16,
            Refusal::AskedTooMuch => 17,
            Refusal::BufferShort => 41,
            Refusal::RunEnded => 42,
            Refusal::RunDamaged => 43,
        }
    }
}

// The number alone, as in a report.
impl fmt::Display for Refusal {
    fn fmt<W: fmt::Write>(&self, f: &mut fmt::Formatter<W>) -> fmt::Result {
        write!(f, "{}", self.number())
    }
}

impl Error for Refusal {}
