// Exact arithmetic on times, in 64 bits: a time is a whole number of grains, 27 to the nanosecond, and
// 27·t does not fit; an instant is a fraction and is never rounded.
// It knows `laws`. It must never know a rate code, a class or a frame's packets: the frame length, the
// spacing and its denominator are parameters, so that each law is proved once for all of them.
#![tactic(auto)]

ghost use Rattle.std.specs.Prelude.{◌≡◌, ◌+◌, ◌*◌, ◌-◌, ◌/◌, ◌%◌, ◌≤◌, ◌<◌};
ghost use Rattle.laws.specs.Kit.{sub_ℕ};
ghost use Rattle.std.specs.Int.{w64};
ghost use Rattle.std.proofs.Common.{of_z};
ghost use Rattle.grain.specs.Paper.{nanosecond, grains, phase, wrap, since_encoded, latency};
ghost use Rattle.grain.specs.Carry.{taken_of, divided_of, ReadsAsks, carried_on, reads_onward};

// The one home of both numbers: every crate that needs them takes them from here.
pub const GRAINS_PER_NANOSECOND: u64 = 27;

// The grains of one tick of the 90 kHz RTP clock.
pub const GRAINS_PER_TICK: u64 = 300000;

// The grains of 2^32 ticks: RTP timestamps go round once in this time.
const WRAP: u64 = 4294967296 * GRAINS_PER_TICK;

// Instants or reads that lie num/den grains apart: a fraction, never divided out.
#[derive(Clone, Copy, Debug, PartialEq, Eq)]
pub struct Spacing {
    pub num: u64,
    pub den: u64,
}

// What is left of 27·t when whole m's are taken away. t is divided first: 27 times its rest is below 27·m and fits. In 128 bits the
// remainder would call a function of the host.
#[tactic(auto, using(crate::proofs::WideDivision::remainder))]
pub fn rest27(t: u64, m: u64) -> u64
    requires { (nanosecond ≤ m) × (m ≤ 576460752303423488) }
    ensures { result ≡ grains t % m }
{
    let part = GRAINS_PER_NANOSECOND * (t % m);
    part % m
}

// 27·t less the frame start that lies nearest, and one frame more, so that it is never below 0: where in
// the two frames around that start the time lies.
#[tactic(auto, using(crate::proofs::Rounding::phase_rest))]
pub fn frame_phase(t: u64, frame: u64) -> u64
    requires { (nanosecond ≤ frame) × (frame ≤ 576460752303423488) }
    ensures { result ≡ phase (grains t) frame }
{
    phase_of_rest(rest27(t, frame), frame)
}

// The phase of a time that is `past` after the last of the starts, which lie one period apart: frame starts,
// or the times that a timestamp encodes.
pub fn phase_of_rest(past: u64, period: u64) -> u64
    requires { (past < period) × (period ≤ 576460752303423488) }
    ensures { result ≡ phase past period }
{
    let left = period - past;
    if past < left { past + period } else { past }
}

// How far 27·t lies after the last time that its timestamp encodes. Those times lie a wrap apart.
#[tactic(auto, using(crate::proofs::EncodedTime::rest_after))]
pub fn since_encoded(t: u64, stamp: u32) -> u64
    ensures { result ≡ since_encoded (grains t) stamp % wrap }
{
    let past = rest27(t, WRAP);
    let ticks = GRAINS_PER_TICK * u64::from(stamp);
    if ticks <= past {
        past - ticks
    } else {
        past + (WRAP - ticks)
    }
}

// VL: 27·t less the nearest of the times that its timestamp encodes.
#[tactic(auto, using(crate::proofs::EncodedTime::turn_small, crate::proofs::EncodedTime::turn_is))]
pub fn video_latency(t: u64, stamp: u32) -> i64
    ensures { result ≡ latency (grains t) stamp }
{
    let past = since_encoded(t, stamp);
    difference(phase_of_rest(past, WRAP), WRAP)
}

// a less b, with its sign.
pub fn difference(a: u64, b: u64) -> i64
    requires { (a < b + 9223372036854775808) × (b ≤ a + 9223372036854775808) }
    ensures { result ≡ sub_ℕ a b }
{
    a.wrapping_sub(b).cast_signed()
}

// The two's complement bits of x: x itself, or 2^64 more where it is below 0.
pub fn bits(x: i64) -> u64
    ensures { result ≡ of_z w64 x }
{
    x.cast_unsigned()
}

// x in whole num's, and what is left.
#[derive(Clone, Copy, Debug, PartialEq, Eq)]
pub struct Division {
    pub whole: u64,
    pub rest: u64,
}

// One num taken off x, where it is in it. It is compiled without a branch: from packet to packet nobody can tell whether an instant comes by,
// and a processor that guesses wrong loses more than both ways cost.
#[tactic(auto, unfolding(crate::specs::Carry::taken_of))]
fn taken(x: u64, num: u64) -> Division
    ensures { result ≡ taken_of x num }
{
    if num <= x {
        Division {
            whole: 1,
            rest: x - num,
        }
    } else {
        Division { whole: 0, rest: x }
    }
}

// A division is the costly part, and from one packet to the next there are mostly no whole num's, one or two: those are taken off.
pub fn divided(x: u64, num: u64) -> Division
    requires { 0 < num }
    ensures { result ≡ divided_of x num }
{
    let once = taken(x, num);
    let twice = taken(once.rest, num);
    if twice.rest < num {
        return Division {
            whole: once.whole + twice.whole,
            rest: twice.rest,
        };
    }
    Division {
        whole: x / num,
        rest: x % num,
    }
}

// What is known of a frame's reads at a time: how many are over, and how long it is until the next, times den, if one is left. The wait is
// what a step goes on with: it is that of `next`, had the reads no end. So a step has no test for the last read, and who asks for no `next` pays for none.
#[derive(Clone, Copy, Debug, PartialEq, Eq)]
pub struct Reads {
    pub count: u64,
    pub next: Option<u64>,
    pub wait: u64,
}

// What a step keeps of them.
#[derive(Clone, Copy, Debug, PartialEq, Eq)]
struct Kept {
    count: u64,
    wait: u64,
}

// Of n reads `count` are over, and the next is `wait` away: `gone` goes by, told times den as `wait` is. Up to read 0 that is seen at
// once. Then mostly no read comes by, one or two: of the time that is left to the second read after the next, the spacings that are
// whole are those of reads that have not come.
fn carried_on(count: u64, wait: u64, n: u64, num: u64, gone: u64) -> Kept
    requires { ReadsAsks count wait n num gone }
    ensures { result ≡ carried_on count wait n num gone }
{
    if count == 0 && gone <= wait {
        return Kept {
            count,
            wait: wait - gone,
        };
    }
    let second = wait + 2 * num;
    if gone <= second {
        let once = taken(second - gone, num);
        let twice = taken(once.rest, num);
        return Kept {
            count: n.min(count + (2 - once.whole - twice.whole)),
            wait: twice.rest,
        };
    }
    let over = gone - wait;
    let passed = (over + (num - 1)) / num;
    Kept {
        count: n.min(count + passed),
        wait: passed * num - over,
    }
}

// The one rule about reads: how many are over, and how long it is until the next, when `gone` has gone by. A read at that very instant is
// not over: it is the next, at 0.
#[tactic(auto, using(crate::proofs::Carried::reads_left, crate::proofs::Carried::reads_over))]
pub fn reads_on(count: u64, wait: u64, n: u64, num: u64, gone: u64) -> Reads
    requires { ReadsAsks count wait n num gone }
    ensures { result ≡ reads_onward count wait n num gone }
{
    let on = carried_on(count, wait, n, num, gone);
    let next = if on.count < n { Some(on.wait) } else { None };
    Reads {
        count: on.count,
        next,
        wait: on.wait,
    }
}
