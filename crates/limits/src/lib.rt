// The numbers that a stream is set up with: the frame length of each rate, the share of a frame in
// which its packets are read, the offset TRO, the limits C_MAX and VRX_FULL, and what set-up refuses, 1 to 8;
// and the profiles, with the numbers that stand for them.
// It knows plain numbers, as the record file holds them, a frame length in grains, whatever its rate, and
// from `grain` how many grains a nanosecond has. It must never know a packet, an arrival or a state: what a
// limit is held against lies above.
#![tactic(auto)]

ghost use Rattle.std.specs.Prelude.{◌≡◌, ◌/◌, ◌<◌};
ghost use Rattle.laws.specs.Kit.{max};
ghost use Rattle.limits.specs.Fraction.{whole, ◌·◌, ◌÷◌, int};
ghost use Rattle.limits.specs.Steps.{Divides};
ghost use Rattle.limits.specs.Paper.{frame_length, active_ratio, seconds, strict_on, class_of, c_max, vrx_full, tro_grains, read_num, read_den};
ghost use Rattle.limits.specs.Paper.{within, class_fits, maxudp_known, packets_fit, tro_fits, set_up_refusal, edition_refusal, set_up_in};
ghost use Rattle.limits.specs.Paper.{has_buffer, periods, per_period, has_default, profile_kind, profile_of, profile_in};
ghost use Rattle.refusal.specs.Told.{number_in, by_number};

use refusal::Refusal;

const MICROSECOND: u64 = 1000 * grain::GRAINS_PER_NANOSECOND;

const SECOND: u64 = 1000000 * MICROSECOND;

const GAPPED: u8 = 0;

const LINEAR: u8 = 1;

const DEFAULT_TRO: u32 = 4294967295;

// The edition of the test plan that is meant where none is told.
pub const FIRST_EDITION: u32 = 1;

// The parameters that a stream is set up with, of the sizes that a record file has: class 0 and a TRO of all ones stay what they are.
#[derive(Clone, Copy, Debug, PartialEq, Eq)]
pub struct Parameters {
    pub rate: u8,
    pub schedule: u8,
    pub class: u8,
    pub height: u16,
    pub n: u32,
    pub maxudp: u16,
    pub tro: u32,
}

impl Parameters {
    // The grains of a frame at each rate: those of a second, times the rate's denominator, over its numerator. A rate is in
    // frames a second; one over 1001 has its usual name, 23.98 for 24000/1001.
    const FRAME_23_98: u64 = SECOND * 1001 / 24000;

    const FRAME_24: u64 = SECOND * 1 / 24;

    const FRAME_25: u64 = SECOND * 1 / 25;

    const FRAME_29_97: u64 = SECOND * 1001 / 30000;

    const FRAME_30: u64 = SECOND * 1 / 30;

    const FRAME_50: u64 = SECOND * 1 / 50;

    const FRAME_59_94: u64 = SECOND * 1001 / 60000;

    const FRAME_60: u64 = SECOND * 1 / 60;
}

// What a stream is: video, as in the base; compressed, to which the receiver buffer model does not apply; or interlaced, whose
// markers close fields, two a frame.
#[derive(Clone, Copy, Debug, PartialEq, Eq)]
pub enum Profile {
    Video,
    Compressed,
    Interlaced,
}

// An unknown class is refused at set-up; the limits give it 0, so that they answer for any number.
#[derive(Clone, Copy, Debug, PartialEq, Eq)]
pub enum Class {
    Narrow,
    NarrowLinear,
    Wide,
    Unknown,
}

impl Profile {
    // Whether the receiver buffer is judged.
    pub fn has_buffer(self) -> bool
        ensures { result ≡ has_buffer self }
    {
        !matches!(self, Profile::Compressed)
    }

    // Whether a default TRO may stand: it has to be given for fields.
    fn has_default(self) -> bool
        ensures { result ≡ has_default self }
    {
        !matches!(self, Profile::Interlaced)
    }

    // The kind of its parameter record, which stands for it wherever a profile is told.
    pub fn kind(self) -> u8
        ensures { result ≡ profile_kind self }
    {
        match self {
            Profile::Video => 1,
            Profile::Compressed => 3,
            Profile::Interlaced => 4,
        }
    }

    // How many periods a frame has.
    fn periods(self) -> u64
        ensures { result ≡ periods self }
    {
        match self {
            Profile::Video | Profile::Compressed => 1,
            Profile::Interlaced => 2,
        }
    }

    // What one period has of a frame's grains, or of its packets: all; of an interlaced stream half, since its periods are fields.
    pub fn per_period(self, all: u64) -> u64
        ensures { result ≡ per_period self all }
    {
        all / self.periods()
    }
}

// The one place that tells which kinds stand for a profile. One that stands for none is 22: a profile that is told by its kind has no
// number of its own.
impl TryFrom<u8> for Profile {
    type Error = Refusal;

    ghost try_from_gives = { λ kind r. by_number r ≡ profile_in kind };

    #[tactic(auto, unfolding(crate::specs::Paper::is_profile, crate::specs::Paper::profile_of))]
    fn try_from(kind: u8) -> Result<Profile, Refusal> {
        match kind {
            1 => Ok(Profile::Video),
            3 => Ok(Profile::Compressed),
            4 => Ok(Profile::Interlaced),
            _ => Err(Refusal::Kind),
        }
    }
}

// The profile that a kind stands for. One that stands for none is refused before it is asked, and goes with video.
#[tactic(auto, using(crate::proofs::Profiles::or_video))]
pub fn profile_of(kind: u8) -> Profile
    ensures { result ≡ profile_of kind }
{
    Profile::try_from(kind).unwrap_or(Profile::Video)
}

// The frame length in grains; a code that set-up refuses has none, and gets 0.
#[tactic(auto, unfolding(crate::specs::Paper::rate_of, crate::specs::Paper::frame_length))]
pub fn frame_length(rate: u8) -> u64
    ensures { result ≡ frame_length rate }
{
    match rate {
        1 => Parameters::FRAME_23_98,
        2 => Parameters::FRAME_24,
        3 => Parameters::FRAME_25,
        4 => Parameters::FRAME_29_97,
        5 => Parameters::FRAME_30,
        6 => Parameters::FRAME_50,
        7 => Parameters::FRAME_59_94,
        8 => Parameters::FRAME_60,
        0 | 9..=255 => 0,
    }
}

// The one place that tells what a class number means on a schedule; 0 is the strict class of the schedule. A record keeps 0 as
// written, and one of a file of version 1 is read as 3 before it comes here.
#[tactic(auto, unfolding(crate::specs::Paper::class_of))]
pub fn class_of(class: u8, schedule: u8) -> Class
    ensures { result ≡ class_of class schedule }
{
    match class {
        0 => strict_on(schedule),
        1 => Class::Narrow,
        2 => Class::NarrowLinear,
        3 => Class::Wide,
        4..=255 => Class::Unknown,
    }
}

#[tactic(auto, unfolding(crate::specs::Paper::strict_on))]
fn strict_on(schedule: u8) -> Class
    ensures { result ≡ strict_on schedule }
{
    match schedule {
        GAPPED => Class::Narrow,
        _ => Class::NarrowLinear,
    }
}

impl Parameters {
    // Whether set-up accepts these of a profile; else the first of 1 to 7, in their order, that is wrong (N2).
    #[tactic(auto, unfolding(crate::specs::Paper::set_up_refusal, crate::specs::Paper::first_no))]
    pub fn check(self, profile: Profile) -> Result<(), Refusal>
        ensures { number_in result ≡ set_up_refusal profile self }
    {
        if !matches!(self.rate, 1..=8) {
            return Err(Refusal::Rate);
        }
        if !matches!(self.schedule, 0..=1) {
            return Err(Refusal::Schedule);
        }
        if !class_fits(class_of(self.class, self.schedule), self.schedule) {
            return Err(Refusal::Class);
        }
        if !matches!(self.height, 1..=65535) {
            return Err(Refusal::Height);
        }
        if !packets_fit(profile, self.n) {
            return Err(Refusal::FramePackets);
        }
        if !maxudp_known(self.maxudp) {
            return Err(Refusal::MaxUdp);
        }
        if !tro_fits(profile, frame_length(self.rate), self.tro) {
            return Err(Refusal::Tro);
        }
        Ok(())
    }

    // The same, and then 8 of the edition that set-up is told beside them.
    #[tactic(auto, unfolding(crate::specs::Paper::set_up_in), using(refusal::proofs::Asking::number_in_both))]
    pub fn check_in(self, profile: Profile, edition: u32) -> Result<(), Refusal>
        ensures { number_in result ≡ set_up_in profile self edition }
    {
        let of_numbers = self.check(profile);
        let of_edition = check_edition(edition);
        of_numbers.and(of_edition)
    }
}

#[tactic(auto, unfolding(crate::specs::Paper::edition_refusal))]
fn check_edition(edition: u32) -> Result<(), Refusal>
    ensures { number_in result ≡ edition_refusal edition }
{
    if matches!(edition, 1..=2) {
        Ok(())
    } else {
        Err(Refusal::Edition)
    }
}

fn class_fits(class: Class, schedule: u8) -> bool
    ensures { result ≡ class_fits class schedule }
{
    match class {
        Class::Narrow => schedule == GAPPED,
        Class::NarrowLinear => schedule == LINEAR,
        Class::Wide => true,
        Class::Unknown => false,
    }
}

fn maxudp_known(maxudp: u16) -> bool
    ensures { result ≡ maxudp_known maxudp }
{
    matches!(maxudp, 1460 | 8960)
}

// The packets of a frame, n: where it has two fields, each has half of them.
#[tactic(auto, unfolding(crate::specs::Paper::packets_fit))]
fn packets_fit(profile: Profile, n: u32) -> bool
    ensures { result ≡ packets_fit profile n }
{
    matches!(n, 1..=20000) && u64::from(n) % profile.periods() == 0
}

// A TRO lies below one period: its grains in all periods of a frame are below the frame's, so that nothing is divided.
#[tactic(auto, unfolding(crate::specs::Paper::tro_fits))]
fn tro_fits(profile: Profile, frame: u64, tro: u32) -> bool
    ensures { result ≡ tro_fits profile frame tro }
{
    (profile.has_default() && tro == DEFAULT_TRO)
        || profile.periods() * (MICROSECOND * u64::from(tro)) < frame
}

// TRO in grains. The bound keeps 43·F within 64 bits: 2^32 grains are 159 ms, the longest frame 42 ms.
#[tactic(auto, unfolding(crate::specs::Paper::tro_grains, crate::specs::Paper::default_tro), using(crate::proofs::Laws::share))]
pub fn tro_grains(frame: u64, height: u16, tro: u32) -> u64
    requires { frame < 4294967296 }
    ensures { result ≡ tro_grains frame height tro }
{
    if tro != DEFAULT_TRO {
        return MICROSECOND * u64::from(tro);
    }
    let tall = 1080 <= height;
    if tall {
        43 * frame / 1125
    } else {
        28 * frame / 750
    }
}

// The reads of a frame lie R·F/n = read_num/read_den grains apart: dividing would lose the fraction.
#[tactic(auto, using(crate::proofs::Laws::num_small, crate::proofs::Laws::few_times))]
pub fn read_num(schedule: u8, frame: u64) -> u64
    requires { frame < 4294967296 }
    ensures { result ≡ read_num schedule frame }
{
    active_num(schedule) * frame
}

#[tactic(auto, using(crate::proofs::Laws::den_small, crate::proofs::Laws::few_times))]
pub fn read_den(schedule: u8, n: u32) -> u64
    ensures { result ≡ read_den schedule n }
{
    active_den(schedule) * u64::from(n)
}

// R, the share of a frame in which its packets are read, as a numerator and a denominator.
#[tactic(auto, unfolding(crate::specs::Paper::active_ratio))]
fn active_num(schedule: u8) -> u64
    ensures { result ≡ (active_ratio schedule).num }
{
    if schedule == GAPPED { 24 } else { 1 }
}

#[tactic(auto, unfolding(crate::specs::Paper::active_ratio))]
fn active_den(schedule: u8) -> u64
    ensures { result ≡ (active_ratio schedule).den }
{
    if schedule == GAPPED { 25 } else { 1 }
}

// C_MAX: a bucket that ever holds more has failed. R is 1 where document 01's formula has none.
#[tactic(auto, unfolding(crate::specs::Paper::c_max, crate::specs::Paper::active_ratio))]
pub fn c_max(class: Class, schedule: u8, frame: u64, n: u32) -> u64
    ensures { result ≡ c_max class schedule frame n }
{
    match class {
        Class::Narrow => int_over(n, 43200, schedule, frame).max(4),
        Class::NarrowLinear => int_over(n, 43200, LINEAR, frame).max(4),
        Class::Wide => int_over(n, 21600, LINEAR, frame).max(16),
        Class::Unknown => 0,
    }
}

// VRX_FULL: a receiver's buffer that ever holds more has failed.
#[tactic(auto, unfolding(crate::specs::Paper::vrx_full))]
pub fn vrx_full(class: Class, maxudp: u16, frame: u64, n: u32) -> u64
    ensures { result ≡ vrx_full class maxudp frame n }
{
    match class {
        Class::Narrow | Class::NarrowLinear => full(12000, maxudp, n, 27000, frame),
        Class::Wide => full(1080000, maxudp, n, 300, frame),
        Class::Unknown => 0,
    }
}

// MAX(INT(bytes/MAXUDP), INT(n/(k·T)))
#[tactic(auto, using(crate::proofs::Laws::ratio, crate::proofs::Laws::linear_limit))]
fn full(bytes: u64, maxudp: u16, n: u32, k: u64, frame: u64) -> u64
    requires { Divides k }
    ensures { result ≡ max (int (whole bytes ÷ whole maxudp)) (int (whole n ÷ (whole k · seconds frame))) }
{
    quotient(bytes, u64::from(maxudp)).max(int_over(n, k, LINEAR, frame))
}

// INT(n/(k·R·T)). A second is divided by k first, with nothing left over, and then by one divisor
// at a time: the whole number is the same, and no product leaves 64 bits, whatever the frame.
#[tactic(auto, using(crate::proofs::Laws::all_small, crate::proofs::Laws::limit))]
fn int_over(n: u32, k: u64, schedule: u8, frame: u64) -> u64
    requires { Divides k }
    ensures { result ≡ int (whole n ÷ (whole k · active_ratio schedule · seconds frame)) }
{
    let all = u64::from(n) * (SECOND / k) * active_den(schedule);
    quotient(quotient(all, active_num(schedule)), frame)
}

// a / b in whole numbers; over nothing it is 0, as it is in the definitions.
fn quotient(a: u64, b: u64) -> u64
    ensures { result ≡ a / b }
{
    a.checked_div(b).unwrap_or(0)
}
