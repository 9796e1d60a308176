// The network bucket: how full it is after each packet, its peak, and the first run of packets that
// fills it above a limit.
// It knows `grain`, for when the drains are. It must never know a rate code, a class or a frame: a step
// is told how many drain instants came since the packet before, and the limit is a number.
#![tactic(auto)]

ghost use Rattle.std.specs.Prelude.{◌≡◌, ◌-◌, ◌≤◌, ◌<◌};
ghost use Rattle.laws.specs.Kit.{leb};
ghost use Rattle.laws.specs.Choose.{pick};
ghost use Rattle.laws.specs.Every.{every};
ghost use Rattle.bucket.specs.Paper.{network_number, network_first, network_last};
ghost use Rattle.bucket.specs.Range.{ranges};
ghost use Rattle.bucket.specs.Step.{empty_of, step_of, arrived_of, judged};

// The packets first .. last of the history, numbered from 0.
#[derive(Clone, Copy, Debug, PartialEq, Eq)]
pub struct Run {
    pub first: u64,
    pub last: u64,
}

#[derive(Clone, Copy, Debug, PartialEq, Eq)]
pub enum Network {
    Pass,
    Burst(Run),
}

// After some packets: the level, where the run that the level names began, the greatest level, the answer.
#[derive(Clone, Copy, Debug, PartialEq, Eq)]
pub struct Bucket {
    pub level: u64,
    pub start: u64,
    pub peak: u64,
    pub network: Network,
}

impl Network {
    // Document 01's numbers for the answer: 0 pass or 1 burst, the run's first and last packet, 0 where there is none.
    pub fn number(self) -> u64
        ensures { result ≡ network_number self }
    {
        match self {
            Network::Pass => 0,
            Network::Burst(_) => 1,
        }
    }

    pub fn first(self) -> u64
        ensures { result ≡ network_first self }
    {
        match self {
            Network::Pass => 0,
            Network::Burst(run) => run.first,
        }
    }

    pub fn last(self) -> u64
        ensures { result ≡ network_last self }
    {
        match self {
            Network::Pass => 0,
            Network::Burst(run) => run.last,
        }
    }

    // The same answer, put together anew. Copied whole it would take along the bytes between its tag and its numbers, which the compiler
    // keeps in memory and not in a register: each packet would wait until the one before has stored them.
    fn anew(self) -> Network
        ensures { result ≡ self }
    {
        match self {
            Network::Pass => Network::Pass,
            Network::Burst(run) => Network::Burst(run),
        }
    }
}

impl Bucket {
    pub fn empty() -> Bucket
        ensures { result ≡ empty_of }
    {
        Bucket {
            level: 0,
            start: 0,
            peak: 0,
            network: Network::Pass,
        }
    }

    // Whether each number is in its range, after `packets` packets: docs/STATE.md.
    #[tactic(auto, unfolding(laws::specs::Every::after))]
    pub fn in_range(self, packets: u64) -> bool
        ensures { result ≡ every (ranges self packets) }
    {
        (self.level <= packets)
            & (self.start <= packets)
            & (self.peak <= packets)
            & (self.network.first() <= packets)
            & (self.network.last() <= packets)
    }

    // The packet at `place` arrives, with `drains` drain instants since the packet before it.
    #[tactic(auto, unfolding(crate::specs::Step::step_of))]
    pub fn step(self, place: u64, drains: u64, limit: u64) -> Bucket
        requires { (self.level ≤ place) × (place < 1000000000) }
        ensures { result ≡ step_of self place drains limit }
    {
        // Drains that find nothing take nothing and are not saved up.
        let left = self.level.saturating_sub(drains);
        let start = began(self.level, drains, place, self.start);
        arrived(left + 1, start, self.peak, self.network, place, limit)
    }
}

// Where nothing is left, the run that the level names begins with this packet: of two starts with one
// excess it is the later.
fn began(level: u64, drains: u64, place: u64, start: u64) -> u64
    ensures { result ≡ pick (leb level drains) place start }
{
    if level <= drains { place } else { start }
}

// The bucket at a new level, whose run began at `start` and ends at `place`. The first level above the limit is a new peak, so no
// other level is judged.
fn arrived(level: u64, start: u64, peak: u64, network: Network, place: u64, limit: u64) -> Bucket
    ensures { result ≡ arrived_of level start peak network place limit }
{
    if peak < level {
        let answer = judge(network, limit < level, start, place);
        return Bucket {
            level,
            start,
            peak: level,
            network: answer,
        };
    }
    Bucket {
        level,
        start,
        peak,
        network: network.anew(),
    }
}

// The first burst stands; a pass turns into a burst by a run that is above the limit.
fn judge(network: Network, above: bool, first: u64, last: u64) -> Network
    ensures { result ≡ judged network above first last }
{
    match network {
        Network::Pass => {
            if above {
                Network::Burst(Run { first, last })
            } else {
                Network::Pass
            }
        }
        Network::Burst(run) => Network::Burst(run),
    }
}
