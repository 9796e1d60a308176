// Why something is refused: the one table of refusals of the house (N1), each with its number and what it says to a person; and a refusal
// with its place.
// It knows names, numbers and words. It must never know when anything is refused: each crate asks its own questions.
#![tactic(auto)]

ghost use Rattle.std.specs.Prelude.{◌≡◌};
ghost use Rattle.refusal.specs.Refusal.{number, named_by};

use std::error::Error;
use std::fmt;

/// Why a stream, a state, a call, a packet, a file or a capture is refused, in the order of the table (N1).
#[derive(Clone, Copy, Debug, PartialEq, Eq, PartialOrd, Ord, Hash)]
pub enum Refusal {
    /// 1: the rate code is not 1 to 8.
    Rate,
    /// 2: the schedule is neither 0 nor 1.
    Schedule,
    /// 3: the class is unknown, or against the schedule.
    Class,
    /// 4: the height is 0.
    Height,
    /// 5: the packets of a frame are none or too many, or odd where a frame has two fields.
    FramePackets,
    /// 6: MAXUDP is neither 1460 nor 8960.
    MaxUdp,
    /// 7: TRO is a period or longer, or the default where none may stand.
    Tro,
    /// 8: the edition of the test plan is neither 1 nor 2.
    Edition,
    /// 9: a state is out of its range.
    State,
    /// 10: the three slices of a call differ in length.
    Lengths,
    /// 11: a marker is neither 0 nor 1.
    Marker,
    /// 12: a packet arrives earlier than the one before it.
    Earlier,
    /// 13: a packet arrives more than 600 s after the first.
    Late,
    /// 14: more than 1,000,000,000 packets.
    Packets,
    /// 15: too little room is lent for the answer.
    Room,
    /// 16: a figure of the graph is above 2^53 in size.
    Figure,
    /// 20: the version of a record file is not known, or the file is empty.
    Version,
    /// 21: a record is cut short, or its length is 0.
    Cut,
    /// 22: a record of unknown kind or of a length that its kind does not have, or a profile of unknown kind.
    Kind,
    /// 23: the first record is not the parameters, or they come again.
    Misplaced,
    /// 24: too little room is lent for the file.
    FileRoom,
    /// 30: no header of a classic capture of Ethernet.
    Header,
    /// 31: a record of a capture is cut short.
    CutCapture,
    /// 32: the part of a record's time below a second is a second or more.
    SubSecond,
    /// 33: the offset of the capture's clock is above 99.
    Offset,
}

impl Refusal {
    /// The number of the table (N1), which is what is printed and what C sees.
    pub fn number(self) -> u8
        ensures { result ≡ number self }
    {
        match self {
            Refusal::Rate => 1,
            Refusal::Schedule => 2,
            Refusal::Class => 3,
            Refusal::Height => 4,
            Refusal::FramePackets => 5,
            Refusal::MaxUdp => 6,
            Refusal::Tro => 7,
            Refusal::Edition => 8,
            Refusal::State => 9,
            Refusal::Lengths => 10,
            Refusal::Marker => 11,
            Refusal::Earlier => 12,
            Refusal::Late => 13,
            Refusal::Packets => 14,
            Refusal::Room => 15,
            Refusal::Figure => 16,
            Refusal::Version => 20,
            Refusal::Cut => 21,
            Refusal::Kind => 22,
            Refusal::Misplaced => 23,
            Refusal::FileRoom => 24,
            Refusal::Header => 30,
            Refusal::CutCapture => 31,
            Refusal::SubSecond => 32,
            Refusal::Offset => 33,
        }
    }
}

/// What a program in C is answered.
impl From<Refusal> for u32 {
    ghost from_gives = { λ r n. n ≡ number r };

    fn from(refusal: Refusal) -> u32 {
        u32::from(refusal.number())
    }
}

/// A number that no refusal has.
#[derive(Clone, Copy, Debug, PartialEq, Eq)]
pub struct UnknownNumber(pub u8);

impl TryFrom<u8> for Refusal {
    type Error = UnknownNumber;

    ghost try_from_gives = { λ code r. r ≡ named_by code };

    #[tactic(auto, using(crate::proofs::Telling::unused))]
    fn try_from(code: u8) -> Result<Refusal, UnknownNumber> {
        match code {
            0 => Err(UnknownNumber(code)),
            1 => Ok(Refusal::Rate),
            2 => Ok(Refusal::Schedule),
            3 => Ok(Refusal::Class),
            4 => Ok(Refusal::Height),
            5 => Ok(Refusal::FramePackets),
            6 => Ok(Refusal::MaxUdp),
            7 => Ok(Refusal::Tro),
            8 => Ok(Refusal::Edition),
            9 => Ok(Refusal::State),
            10 => Ok(Refusal::Lengths),
            11 => Ok(Refusal::Marker),
            12 => Ok(Refusal::Earlier),
            13 => Ok(Refusal::Late),
            14 => Ok(Refusal::Packets),
            15 => Ok(Refusal::Room),
            16 => Ok(Refusal::Figure),
            17..=19 => Err(UnknownNumber(code)),
            20 => Ok(Refusal::Version),
            21 => Ok(Refusal::Cut),
            22 => Ok(Refusal::Kind),
            23 => Ok(Refusal::Misplaced),
            24 => Ok(Refusal::FileRoom),
            25..=29 => Err(UnknownNumber(code)),
            30 => Ok(Refusal::Header),
            31 => Ok(Refusal::CutCapture),
            32 => Ok(Refusal::SubSecond),
            33 => Ok(Refusal::Offset),
            34..=255 => Err(UnknownNumber(code)),
        }
    }
}

impl fmt::Display for UnknownNumber {
    fn fmt<W: fmt::Write>(&self, f: &mut fmt::Formatter<W>) -> fmt::Result {
        write!(f, "no refusal has the number {}", self.0)
    }
}

impl Error for UnknownNumber {}

impl fmt::Display for Refusal {
    fn fmt<W: fmt::Write>(&self, f: &mut fmt::Formatter<W>) -> fmt::Result {
        f.write_str(match self {
            Refusal::Rate => "the rate code is not 1 to 8",
            Refusal::Schedule => "the schedule is neither 0 nor 1",
            Refusal::Class => "the class is unknown, or against the schedule",
            Refusal::Height => "the height is 0",
            Refusal::FramePackets =>
                "the packets of a frame are none or too many, or odd of an interlaced stream",
            Refusal::MaxUdp => "MAXUDP is neither 1460 nor 8960",
            Refusal::Tro => "TRO is too long, or the default of an interlaced stream",
            Refusal::Edition => "the edition is neither 1 nor 2",
            Refusal::State => "the state is out of its range",
            Refusal::Lengths => "the three slices differ in length",
            Refusal::Marker => "a marker is neither 0 nor 1",
            Refusal::Earlier => "a packet arrives earlier than the one before it",
            Refusal::Late => "a packet arrives more than 600 s after the first",
            Refusal::Packets => "there are more than 1,000,000,000 packets",
            Refusal::Room => "too little room for the answer",
            Refusal::Figure => "a figure is above 2^53 in size",
            Refusal::Version => "the version of the file is not known",
            Refusal::Cut => "a record is cut short, or its length is 0",
            Refusal::Kind =>
                "a record or a profile of unknown kind, or a length that its kind does not have",
            Refusal::Misplaced => "the first record is not the parameters, or they come again",
            Refusal::FileRoom => "too little room for the file",
            Refusal::Header => "no header of a classic capture of Ethernet",
            Refusal::CutCapture => "a record of the capture is cut short",
            Refusal::SubSecond => "the part of a time below a second is a second or more",
            Refusal::Offset => "the offset of the clock is above 99",
        })
    }
}

impl Error for Refusal {}

/// A refusal and where it is: a packet's place in its history or a record's in its capture, from 0, or a record's offset in its file, in bytes.
#[derive(Clone, Copy, Debug, PartialEq, Eq)]
pub struct Refused {
    pub refusal: Refusal,
    pub place: u64,
}
