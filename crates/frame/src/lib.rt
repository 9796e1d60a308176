// The frames of a stream: the open frame packet by packet, its row when a marker closes it, and the
// receiver buffer's answer.
// It knows `grain`. It must never know a rate code, a class or a schedule: the period, the packets of a
// period, the offset and the spacing of the reads, the limit, the edition and whether the buffer is judged
// at all come in a plan.
#![tactic(auto)]

ghost use Rattle.std.specs.Prelude.{◌≡◌, ◌+◌, ◌-◌, ◌≤◌, ◌<◌};
ghost use Rattle.laws.specs.Kit.{true, length, sets};
ghost use Rattle.laws.specs.Choose.{pick};
ghost use Rattle.laws.specs.Every.{every};
ghost use Rattle.frame.specs.Paper.{next_read_of, buffer_number, buffer_frame, buffer_place, has_failed, is_none, broken_fails};
ghost use Rattle.frame.specs.Step.{empty_of, opened_of, gone_of, differs_of, counted_of, ticked_of, push_of, kind_of, detail_of, whole_row};
ghost use Rattle.frame.specs.Step.{broken_row, row_of, numbers_of, row_width, closed_row, broken_answer, answer_of, joined};
ghost use Rattle.frame.specs.Step.{no_frames, arrive_of, close_of};
ghost use Rattle.frame.specs.Range.{Planned, PushAsks, NextAsks, RowAsks, FramesRowAsks, most_of, ranges};

use grain::{Reads, Spacing};

// How many numbers a row has: `row_width`.
pub const ROW: usize = 11;

// What a stream is measured by: frames start at multiples of `period` grains and have `packets` packets;
// the reads lie at tro + j·num/den grains after the start, by their spacing; `full` is the most that the buffer may hold;
// by the edition a frame that is not whole fails the buffer, or is not judged. `buffered`: the buffer is judged. Where it is
// not, nothing of reads is kept.
#[derive(Clone, Copy, Debug, PartialEq, Eq)]
pub struct Plan {
    pub period: u64,
    pub packets: u64,
    pub tro: u64,
    pub reads: Spacing,
    pub full: u64,
    pub edition: u32,
    pub buffered: bool,
}

// The open frame: how many packets it holds; of the first its arrival, timestamp and phase; the place of
// the first timestamp that differs, 0 where none does; the reads before the last packet, and the wait from it
// to the next, times den; the greatest level; the greatest lack of packets at an arrival; the place of the
// first late packet, 0 where no packet lacks.
#[derive(Clone, Copy, Debug, PartialEq, Eq)]
pub struct Frame {
    pub held: u64,
    pub first: u64,
    pub stamp: u32,
    pub phase: u64,
    pub differs: u64,
    pub reads: u64,
    pub wait: u64,
    pub top: u64,
    pub deficit: u64,
    pub late: u64,
}

// A closed frame's eleven numbers: document 01's ten, in its order, and then the place in the history of its first packet.
#[derive(Clone, Copy, Debug, PartialEq, Eq)]
pub struct Row {
    pub number: i64,
    pub kind: i64,
    pub detail: i64,
    pub fpt: i64,
    pub offset: i64,
    pub latency: i64,
    pub margin: i64,
    pub gap: i64,
    pub peak: i64,
    pub least: i64,
    pub began: i64,
}

// A frame's number, and the packet's place in it or the peak.
#[derive(Clone, Copy, Debug, PartialEq, Eq)]
pub struct Place {
    pub frame: u64,
    pub place: u64,
}

// The number of a frame that is not whole, and its kind, 1 to 3.
#[derive(Clone, Copy, Debug, PartialEq, Eq)]
pub struct BrokenFrame {
    pub frame: u64,
    pub kind: u64,
}

#[derive(Clone, Copy, Debug, PartialEq, Eq)]
pub enum Buffer {
    None,
    Pass,
    Under(Place),
    Over(Place),
    Broken(BrokenFrame),
}

// All that is kept of the frames: whether the lead-in is over, how many are closed, the arrival of the
// last marker packet, the open frame, and the answer so far.
#[derive(Clone, Copy, Debug, PartialEq, Eq)]
pub struct Frames {
    pub begun: bool,
    pub closed: u64,
    pub marked: u64,
    pub current: Frame,
    pub buffer: Buffer,
}

// The place that was hit first: this one, where none was before it.
fn first_hit(none: bool, place: u64, known: u64) -> u64
    ensures { result ≡ pick none place known }
{
    if none { place } else { known }
}

impl Frame {
    pub fn empty() -> Frame
        ensures { result ≡ empty_of }
    {
        Frame {
            held: 0,
            first: 0,
            stamp: 0,
            phase: 0,
            differs: 0,
            reads: 0,
            wait: 0,
            top: 0,
            deficit: 0,
            late: 0,
        }
    }

    // The first packet sets the frame's times, and the wait for read 0 from one period before the frame's start.
    #[tactic(auto, unfolding(crate::specs::Step::opened_of))]
    fn opened(mut self, plan: Plan, t: u64, stamp: u32) -> Frame
        requires { Planned plan }
        ensures { result ≡ opened_of plan self t stamp }
    {
        if self.held == 0 {
            self.first = t;
            self.stamp = stamp;
            self.phase = grain::frame_phase(t, plan.period);
            self.wait = (plan.tro + plan.period) * plan.reads.den;
        }
        self
    }

    // The grains that go by up to the next packet: `gone` since the packet before, or for the first those since a period before the start.
    fn gone_by(self, gone: u64) -> u64
        ensures { result ≡ gone_of self gone }
    {
        if self.held == 0 { self.phase } else { gone }
    }

    // The place of the first timestamp that differs, the next packet's included.
    fn differing(self, stamp: u32) -> u64
        ensures { result ≡ differs_of self stamp }
    {
        if stamp != self.stamp {
            return first_hit(self.differs == 0, self.held, self.differs);
        }
        self.differs
    }

    // One packet more, in a frame whose times are set, with the reads before it and the wait for the next. It lacks packets or it
    // has a level above 0, never both; the first that lacks is the first late one.
    #[tactic(auto, unfolding(crate::specs::Step::counted_of))]
    fn counted(mut self, stamp: u32, reads: Reads) -> Frame
        requires { self.held < 1000000000 }
        ensures { result ≡ counted_of self stamp reads }
    {
        let place = self.held;
        let held = place + 1;
        let count = reads.count;
        self.differs = self.differing(stamp);
        self.reads = count;
        self.wait = reads.wait;
        self.held = held;
        if count <= place {
            self.top = self.top.max(held - count);
            return self;
        }
        self.late = first_hit(self.deficit == 0, place, self.late);
        self.deficit = self.deficit.max(count - place);
        self
    }

    // One packet more, in a frame whose times are set, where the buffer is not judged: nothing of reads is kept.
    #[tactic(auto, unfolding(crate::specs::Step::ticked_of))]
    fn ticked(mut self, stamp: u32) -> Frame
        requires { self.held < 1000000000 }
        ensures { result ≡ ticked_of self stamp }
    {
        self.differs = self.differing(stamp);
        self.held += 1;
        self.reads = 0;
        self.wait = 0;
        self.top = 0;
        self.deficit = 0;
        self.late = 0;
        self
    }

    // One packet more, `gone` grains after the one before. What goes by is taken off the wait, so that nothing is long.
    // What is not judged is left out behind the counting: asked in front of it, a test costs more.
    pub fn push(self, plan: Plan, gone: u64, t: u64, stamp: u32) -> Frame
        requires { Planned plan × PushAsks plan self gone }
        ensures { result ≡ push_of plan self gone t stamp }
    {
        let f = self.opened(plan, t, stamp);
        let by = f.gone_by(gone) * plan.reads.den;
        let reads = grain::reads_on(f.reads, f.wait, plan.packets, plan.reads.num, by);
        let counted = f.counted(stamp, reads);
        if plan.buffered {
            return counted;
        }
        f.ticked(stamp)
    }

    // 1 short, 2 long, 3 stamp, 0 whole: tried in this order.
    #[tactic(auto, using(crate::proofs::FrameKinds::kinds))]
    pub fn kind(self, n: u64) -> u64
        ensures { result ≡ kind_of self n }
    {
        if self.held < n {
            return 1;
        }
        if n < self.held {
            return 2;
        }
        if self.differs == 0 { 0 } else { 3 }
    }

    // The place of the first differing timestamp for kind 3, the count for 1 and 2, else 0.
    fn detail(self, kind: u64) -> u64
        ensures { result ≡ detail_of self kind }
    {
        if kind == 3 {
            return self.differs;
        }
        if kind == 0 { 0 } else { self.held }
    }

    // The row of the frame, whose number is `number`, closed now; `marked` is the arrival of the marker
    // packet before its first, and `began` the place of its first in the history.
    pub fn row(self, plan: Plan, number: u64, marked: u64, began: u64) -> Row
        requires { Planned plan × RowAsks plan number marked began self }
        ensures { result ≡ row_of plan number marked began self }
    {
        let kind = self.kind(plan.packets);
        if kind == 0 {
            return self.whole_row(plan, number, marked, began);
        }
        broken_row(number, kind, self.detail(kind), began)
    }

    fn whole_row(self, plan: Plan, number: u64, marked: u64, began: u64) -> Row
        requires { Planned plan × RowAsks plan number marked began self }
        ensures { result ≡ whole_row plan number marked began self }
    {
        let fpt = grain::difference(self.phase, plan.period);
        let latency = grain::video_latency(self.first, self.stamp);
        let offset = fpt - latency;
        Row {
            number: number as i64,
            kind: 0,
            detail: 0,
            fpt,
            offset,
            latency,
            margin: grain::difference(plan.tro + plan.period, self.phase),
            gap: (grain::GRAINS_PER_NANOSECOND * (self.first - marked)) as i64,
            peak: self.top as i64,
            least: grain::difference(0, self.deficit),
            began: began as i64,
        }
    }

    // Nothing, where the buffer is not judged. A broken frame fails by being broken, or is not judged; of a whole one under goes first.
    // In one function: an answer that another one hands on takes along the bytes between its tag and its numbers.
    #[tactic(auto, unfolding(crate::specs::Step::answer_of))]
    pub fn answer(self, plan: Plan, number: u64) -> Buffer
        ensures { result ≡ answer_of plan number self }
    {
        if !plan.buffered {
            return Buffer::None;
        }
        let kind = self.kind(plan.packets);
        if kind != 0 {
            return broken_answer(plan.edition, number, kind);
        }
        if 0 < self.deficit {
            return Buffer::Under(Place {
                frame: number,
                place: self.late,
            });
        }
        if plan.full < self.top {
            return Buffer::Over(Place {
                frame: number,
                place: self.top,
            });
        }
        Buffer::Pass
    }
}

// The most that a state may hold of reads, in an open frame of so many packets, and as the number of its answer.
#[derive(Clone, Copy, Debug, PartialEq, Eq)]
struct Most {
    pub reads: u64,
    pub wait: u64,
    pub held: u64,
    pub number: u64,
}

impl Plan {
    // Where the buffer is not judged, nothing of them is kept.
    fn most(self, held: u64) -> Most
        requires { Planned self }
        ensures { result ≡ most_of self held }
    {
        if self.buffered {
            return Most {
                reads: self.packets,
                wait: 2 * self.period * self.reads.den,
                held,
                number: 4,
            };
        }
        Most {
            reads: 0,
            wait: 0,
            held: 0,
            number: 0,
        }
    }
}

impl Plan {
    // How long it is from a packet at `t` to the next read of its frame, whose first packet came at `first`, for the host's graph. It is the
    // rule of `Frame::push`, asked once for all that goes by since one period before the frame's start.
    pub fn next_read(self, first: u64, t: u64) -> Option<u64>
        requires { Planned self × NextAsks first t }
        ensures { result ≡ next_read_of self first t }
    {
        let f = Frame::empty().opened(self, first, 0);
        let gone = f.phase + grain::GRAINS_PER_NANOSECOND * (t - first);
        let by = gone * self.reads.den;
        let reads = grain::reads_on(f.reads, f.wait, self.packets, self.reads.num, by);
        reads.next
    }
}

// The one place that tells the editions apart. Set-up refuses any but 1 and 2.
fn broken_fails(edition: u32) -> bool
    ensures { result ≡ broken_fails edition }
{
    edition == 2
}

// A frame that is not whole fails, where the edition has it fail; else it answers nothing.
fn broken_answer(edition: u32, number: u64, kind: u64) -> Buffer
    ensures { result ≡ broken_answer edition number kind }
{
    if broken_fails(edition) {
        return Buffer::Broken(BrokenFrame {
            frame: number,
            kind,
        });
    }
    Buffer::None
}

// Nothing is measured of a broken frame, but where it began is told.
fn broken_row(number: u64, kind: u64, detail: u64, began: u64) -> Row
    requires { (number ≤ 1000000000) × (kind ≤ 3) × (detail ≤ 1000000000) × (began ≤ 1000000000) }
    ensures { result ≡ broken_row number kind detail began }
{
    Row {
        number: number as i64,
        kind: kind as i64,
        detail: detail as i64,
        fpt: 0,
        offset: 0,
        latency: 0,
        margin: 0,
        gap: 0,
        peak: 0,
        least: 0,
        began: began as i64,
    }
}

impl Row {
    // The numbers in their order: the one place that knows it.
    pub fn numbers(self) -> [i64; ROW]
        ensures { result ≡ numbers_of self }
    {
        [
            self.number,
            self.kind,
            self.detail,
            self.fpt,
            self.offset,
            self.latency,
            self.margin,
            self.gap,
            self.peak,
            self.least,
            self.began,
        ]
    }

    // The numbers into `rows`, from `at` on. One by one: `copy_from_slice` takes 39 instructions more.
    pub fn put(self, rows: &mut [i64], at: usize)
        requires { at + row_width ≤ length rows.old }
        ensures { rows.new ≡ sets rows.old at (numbers_of self) }
    {
        let numbers = self.numbers();
        for k in 0..ROW {
            rows[at + k] = numbers[k];
        }
    }
}

impl Buffer {
    // Document 01's numbers for the answer: 0 none, 1 pass, 2 under, 3 over, 4 broken; the frame, and the packet's place,
    // the peak or the kind, 0 where there is none.
    pub fn number(self) -> u64
        ensures { result ≡ buffer_number self }
    {
        match self {
            Buffer::None => 0,
            Buffer::Pass => 1,
            Buffer::Under(_) => 2,
            Buffer::Over(_) => 3,
            Buffer::Broken(_) => 4,
        }
    }

    pub fn frame(self) -> u64
        ensures { result ≡ buffer_frame self }
    {
        match self {
            Buffer::None | Buffer::Pass => 0,
            Buffer::Under(p) | Buffer::Over(p) => p.frame,
            Buffer::Broken(b) => b.frame,
        }
    }

    pub fn place(self) -> u64
        ensures { result ≡ buffer_place self }
    {
        match self {
            Buffer::None | Buffer::Pass => 0,
            Buffer::Under(p) | Buffer::Over(p) => p.place,
            Buffer::Broken(b) => b.kind,
        }
    }

    pub fn has_failed(self) -> bool
        ensures { result ≡ has_failed self }
    {
        matches!(self, Buffer::Under(_) | Buffer::Over(_) | Buffer::Broken(_))
    }

    pub fn is_none(self) -> bool
        ensures { result ≡ is_none self }
    {
        matches!(self, Buffer::None)
    }

    // The same answer, put together anew, as the bucket does with its own: no byte between tag and numbers is copied.
    fn anew(self) -> Buffer
        ensures { result ≡ self }
    {
        match self {
            Buffer::None => Buffer::None,
            Buffer::Pass => Buffer::Pass,
            Buffer::Under(p) => Buffer::Under(p),
            Buffer::Over(p) => Buffer::Over(p),
            Buffer::Broken(b) => Buffer::Broken(b),
        }
    }

    // The answer so far, and then the next frame's: the first that fails decides.
    #[tactic(auto, unfolding(crate::specs::Step::joined))]
    pub fn then(self, next: Buffer) -> Buffer
        ensures { result ≡ joined self next }
    {
        if self.has_failed() {
            return self.anew();
        }
        if next.is_none() {
            self.anew()
        } else {
            next.anew()
        }
    }
}

impl Frames {
    pub fn none() -> Frames
        ensures { result ≡ no_frames }
    {
        Frames {
            begun: false,
            closed: 0,
            marked: 0,
            current: Frame::empty(),
            buffer: Buffer::None,
        }
    }

    // Whether each number is in its range, by the first and the last arrival and how many packets came: docs/STATE.md.
    #[tactic(auto, unfolding(laws::specs::Every::after))]
    pub fn in_range(self, plan: Plan, first: u64, last: u64, packets: u64) -> bool
        requires { Planned plan }
        ensures { result ≡ every (ranges plan self first last packets) }
    {
        let periods = 2 * plan.period;
        let open = self.current;
        let answer = self.buffer;
        let lead_in = !self.begun;
        let none = !(0 < open.held);
        let most = plan.most(open.held);
        let numbers = (self.closed <= packets)
            & (lead_in | (0 < packets))
            & (lead_in | (first <= self.marked))
            & (lead_in | (self.marked <= last))
            & (open.held <= packets)
            & (none | (self.marked <= open.first))
            & (none | (open.first <= last))
            & (open.phase <= periods)
            & (open.reads <= most.reads)
            & (open.wait <= most.wait)
            & (open.differs <= open.held)
            & (open.top <= most.held)
            & (open.late <= most.held)
            & (open.deficit <= most.reads);
        let number = answer.number();
        let whole = number != 4;
        let named = answer.frame();
        let place = answer.place();
        numbers
            & (number <= most.number)
            & (whole | broken_fails(plan.edition))
            & (named <= packets)
            & (!whole | (place <= packets))
            & (whole | (0 < place))
            & (whole | (place <= 3))
    }

    // A packet arrives: it is in the open frame, or in the lead-in and in none.
    #[tactic(auto, unfolding(crate::specs::Step::arrive_of))]
    pub fn arrive(mut self, plan: Plan, gone: u64, t: u64, stamp: u32) -> Frames
        requires { Planned plan × (self.begun ≡ true → PushAsks plan self.current gone) }
        ensures { result ≡ arrive_of plan self gone t stamp }
    {
        if self.begun {
            self.current = self.current.push(plan, gone, t, stamp);
        }
        self
    }

    // The row of the open frame, which a marker closes now, the last of so many packets since set-up. The frame holds the last of
    // them, so where it began needs no number of its own in the state.
    pub fn row(self, plan: Plan, packets: u64) -> Row
        requires { Planned plan × FramesRowAsks plan self packets }
        ensures { result ≡ closed_row plan self packets }
    {
        let began = packets - self.current.held;
        self.current.row(plan, self.closed, self.marked, began)
    }

    // The packet that arrived at t is a marker: it ends the lead-in, or closes the open frame.
    #[tactic(auto, unfolding(crate::specs::Step::close_of))]
    pub fn close(self, plan: Plan, t: u64) -> Frames
        requires { self.closed ≤ 1000000000 }
        ensures { result ≡ close_of plan self t }
    {
        if self.begun {
            let answer = self.current.answer(plan, self.closed);
            return Frames {
                begun: true,
                closed: self.closed + 1,
                marked: t,
                current: Frame::empty(),
                buffer: self.buffer.then(answer),
            };
        }
        Frames {
            begun: true,
            marked: t,
            current: Frame::empty(),
            ..self
        }
    }
}
