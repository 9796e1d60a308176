// What came before a packet, the refusals 11 to 14 of a packet against it, and the scan of three lent slices:
// the first refused packet's number and place, or how many frames close. The scan writes nothing.
// It knows arrivals, markers and how many packets there were. It must never know a rate, a frame length or a bucket.
#![tactic(auto)]

ghost use Rattle.std.specs.Prelude.{◌≡◌, ◌+◌, ◌-◌, ◌^◌, ◌≤◌, ◌<◌};
ghost use Rattle.laws.specs.Kit.{length};
ghost use Rattle.laws.specs.Every.{every};
ghost use Rattle.refusal.specs.Told.{number_in, told};
ghost use Rattle.packet.specs.Paper.{OneLength, lent, packets};
ghost use Rattle.packet.specs.Quick.{start_of, takes_of, runs_of, ran_of, admits_of, closed_by};
ghost use Rattle.packet.specs.Range.{ranges};
ghost use Rattle.packet.specs.Step.{nothing, first_of, elapsed_of, since_of, number_of, next_of, no_packets, tallied, Countable, scan_of, scanned_of};

use refusal::{Refusal, Refused};

// A packet: its arrival in nanoseconds since the SMPTE epoch, its RTP timestamp, and its marker, which is 0 or 1 where it is accepted.
#[derive(Clone, Copy, Debug, PartialEq, Eq)]
pub struct Packet {
    pub time: u64,
    pub stamp: u32,
    pub marker: u8,
}

// How many packets came before, and the first and the last arrival of them; all 0 where none did.
#[derive(Clone, Copy, Debug, PartialEq, Eq)]
pub struct Past {
    pub packets: u64,
    pub first: u64,
    pub last: u64,
}

// The packets so far: what came before the next, whether a marker did, and how many frames closed.
#[derive(Clone, Copy, Debug, PartialEq, Eq)]
pub struct Tally {
    pub past: Past,
    pub begun: bool,
    pub closed: usize,
}

// Packets that 11 and 12 accept, one after the other: the last arrival, and how many markers came.
#[derive(Clone, Copy, Debug, PartialEq, Eq)]
pub struct Run {
    pub last: u64,
    pub marks: usize,
}

// Packet `i` of three lent slices.
fn lent_packet(arrivals: &[u64], stamps: &[u32], markers: &[u8], i: usize) -> Packet
    requires { OneLength arrivals.now stamps.now markers.now × (i < length arrivals.now) }
    ensures { result ≡ lent arrivals.now stamps.now markers.now i }
{
    Packet {
        time: arrivals[i],
        stamp: stamps[i],
        marker: markers[i],
    }
}

impl Past {
    // Before the first packet.
    pub fn none() -> Past
        ensures { result ≡ nothing }
    {
        Past {
            packets: 0,
            first: 0,
            last: 0,
        }
    }

    // The first arrival, a packet at `t` included.
    fn first_with(self, t: u64) -> u64
        ensures { result ≡ first_of self t }
    {
        if self.packets == 0 { t } else { self.first }
    }

    // Nanoseconds from the first packet to one at `t`: 0 for a past no history has, whose first is after `t`.
    pub fn elapsed(self, t: u64) -> u64
        ensures { result ≡ elapsed_of self t }
    {
        t.saturating_sub(self.first_with(t))
    }

    // Nanoseconds from the packet before to one at `t`, which is no earlier; 0 for the first.
    pub fn since(self, t: u64) -> u64
        requires { self.last ≤ t }
        ensures { result ≡ since_of self t }
    {
        if self.packets == 0 { 0 } else { t - self.last }
    }

    // Whether each number is in its range: docs/STATE.md.
    #[tactic(auto, unfolding(laws::specs::Every::after))]
    pub fn in_range(self) -> bool
        ensures { result ≡ every (ranges self) }
    {
        let none = self.packets == 0;
        (self.packets <= 1000000000)
            & (!none | (self.first == 0))
            & (!none | (self.last == 0))
            & (self.first <= self.last)
            & (self.last.saturating_sub(self.first) <= 600000000000)
    }

    // Whether a packet is accepted; else the first of 11 to 14 that holds of it (N7).
    #[tactic(auto, unfolding(crate::specs::Step::refusal_of))]
    pub fn admit(self, p: Packet) -> Result<(), Refusal>
        ensures { number_in result ≡ number_of self p }
    {
        if 1 < p.marker {
            return Err(Refusal::Marker);
        }
        if p.time < self.last {
            return Err(Refusal::Earlier);
        }
        let over = 600000000000 < self.elapsed(p.time);
        if over {
            return Err(Refusal::Late);
        }
        if 1000000000 <= self.packets {
            return Err(Refusal::Packets);
        }
        Ok(())
    }

    // What came before the packet after one at `t`.
    pub fn next(self, t: u64) -> Past
        requires { self.packets < 1000000000 }
        ensures { result ≡ next_of self t }
    {
        Past {
            packets: self.packets + 1,
            first: self.first_with(t),
            last: t,
        }
    }

    // The run before the packets that come next; a marker that came before, where `begun`, is counted.
    pub fn start(self, begun: bool) -> Run
        ensures { result ≡ start_of self begun }
    {
        Run {
            last: self.last,
            marks: usize::from(begun),
        }
    }

    // Whether 13 and 14 accept all packets of a run, `count` of them from `first` to `last`: arrivals that never fall have their
    // greatest at the end.
    pub fn admits(self, count: u64, first: u64, last: u64) -> bool
        ensures { result ≡ admits_of self count first last }
    {
        (count <= 1000000000_u64.saturating_sub(self.packets))
            & (last.saturating_sub(self.first_with(first)) <= 600000000000)
    }

    // Three lent slices after these packets: how many frames close, or the first refusal of 10 to 14 with its place in the history.
    // `begun`: a marker came before. Mostly nothing is refused, and a run sees that with fewer tests; where it does not, the careful
    // scan tells what is refused.
    #[tactic(auto, using(crate::proofs::Latest::lent_laws))]
    pub fn scan(
        self,
        begun: bool,
        arrivals: &[u64],
        stamps: &[u32],
        markers: &[u8],
    ) -> Result<usize, Refused>
        ensures { told result ≡ scanned_of self begun arrivals.now stamps.now markers.now }
    {
        let count = arrivals.len();
        if stamps.len() != count || markers.len() != count {
            return Err(Refused {
                refusal: Refusal::Lengths,
                place: 0,
            });
        }
        if count != 0 {
            let ran = self.start(begun).over(arrivals, stamps, markers);
            if let Some(run) = ran {
                if self.admits(count as u64, arrivals[0], run.last) {
                    return Ok(run.closed());
                }
            }
        }
        let tally = Tally {
            past: self,
            begun,
            closed: 0,
        };
        tally.scan(arrivals, stamps, markers)
    }
}

impl Run {
    // Whether 11 and 12 accept a packet.
    pub fn takes(self, p: Packet) -> bool
        ensures { result ≡ takes_of self p }
    {
        (p.marker <= 1) & (self.last <= p.time)
    }

    // With one packet more, whose marker is 0 or 1.
    pub fn with(self, p: Packet) -> Run
        requires { self.marks + p.marker < 2 ^ 64 }
        ensures { result ≡ runs_of self p }
    {
        Run {
            last: p.time,
            marks: self.marks + usize::from(p.marker),
        }
    }

    // The frames that close: the first marker ends the lead-in.
    pub fn closed(self) -> usize
        ensures { result ≡ closed_by self }
    {
        self.marks.saturating_sub(1)
    }

    // Over three slices of one length; none where 11 or 12 refuses a packet.
    #[tactic(auto, using(crate::proofs::Latest::run_laws))]
    fn over(self, arrivals: &[u64], stamps: &[u32], markers: &[u8]) -> Option<Run>
        requires { OneLength arrivals.now stamps.now markers.now × (self.marks ≤ 1) }
        ensures { result ≡ ran_of self (packets arrivals.now stamps.now markers.now) }
    {
        let mut run = self;
        for i in 0..arrivals.len() {
            let p = lent_packet(arrivals, stamps, markers, i);
            if !run.takes(p) {
                return None;
            }
            run = run.with(p);
        }
        Some(run)
    }
}

impl Tally {
    // Before the first packet.
    pub fn none() -> Tally
        ensures { result ≡ no_packets }
    {
        Tally {
            past: Past::none(),
            begun: false,
            closed: 0,
        }
    }

    // With one packet more.
    #[tactic(auto, unfolding(crate::specs::Step::tallied))]
    pub fn with(self, p: Packet) -> Tally
        requires { Countable self }
        ensures { result ≡ tallied self p }
    {
        let past = self.past.next(p.time);
        if p.marker != 1 {
            return Tally { past, ..self };
        }
        let closes = self.begun;
        Tally {
            past,
            begun: true,
            closed: self.closed + usize::from(closes),
        }
    }

    // The scan of three slices of one length.
    #[tactic(auto, using(crate::proofs::Turn::scan_laws))]
    fn scan(self, arrivals: &[u64], stamps: &[u32], markers: &[u8]) -> Result<usize, Refused>
        requires { OneLength arrivals.now stamps.now markers.now × (self.closed ≤ self.past.packets) }
        ensures { told result ≡ scan_of self.past self.begun self.closed
            (packets arrivals.now stamps.now markers.now) }
    {
        let mut tally = self;
        for i in 0..arrivals.len() {
            let p = lent_packet(arrivals, stamps, markers, i);
            if let Err(refusal) = tally.past.admit(p) {
                return Err(Refused {
                    refusal,
                    place: tally.past.packets,
                });
            }
            tally = tally.with(p);
        }
        Ok(tally.closed)
    }
}
