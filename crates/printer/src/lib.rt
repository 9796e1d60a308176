// A record file that comes in pieces, as the program's lines: the start of the file set up, then the records of each piece
// measured, and each line put into lent bytes as it is known.
// It knows the reader, the measurement and the lines. It must never know where the bytes come from, nor where they go.
#![tactic(auto)]

ghost use Rattle.std.specs.Prelude.{◌≡◌, ◌+◌, ◌≤◌};
ghost use Rattle.laws.specs.Kit.{not, length};
ghost use Rattle.text.specs.Lines.{line_room, Line};
ghost use Rattle.refusal.specs.Told.{told};
ghost use Rattle.record.specs.Paper.{packet_bytes};
ghost use Rattle.record.specs.Step.{next_told};
ghost use Rattle.record.specs.Pieces.{wants_more};
ghost use Rattle.timing.specs.Feed.{closing, Going};
ghost use Rattle.printer.specs.Paper.{row_lines, sum_line};
ghost use Rattle.printer.specs.Step.{ready_of, begin_of, line_of, stops_at, walk_of, take_of, CloseAsks, TakeGives};

use limits::FIRST_EDITION;
use record::{Cursor, FileNumbers, Next, PACKET_BYTES, RefusedRecord};
use refusal::{Refusal, Refused};
use text::LINE;
use timing::{Rules, State, StreamNumbers};

// Where the reader stands, and what was measured up to there.
#[derive(Clone, Copy, Debug, PartialEq, Eq)]
pub struct Walk {
    pub at: Cursor,
    pub state: State,
}

// The walk after a piece: so many of its bytes were used, and so many bytes of whole lines were written. `ended`: the last line
// is among them.
#[derive(Clone, Copy, Debug, PartialEq, Eq)]
pub struct TakeAnswer {
    pub walk: Walk,
    pub used: usize,
    pub written: usize,
    pub ended: bool,
}

// What a file sets up with; it stands at offset 1, and so does what set-up refuses (1 to 7). A file carries no edition, and the first
// is meant.
#[tactic(auto, unfolding(crate::specs::Step::ready_of))]
fn ready(numbers: FileNumbers, next: Cursor) -> Result<Option<Walk>, Refused>
    ensures { told result ≡ ready_of numbers next }
{
    let stream = StreamNumbers {
        parameters: numbers.parameters,
        edition: FIRST_EDITION,
        profile: numbers.profile,
    };
    match stream.set_up() {
        Ok(state) => Ok(Some(Walk { at: next, state })),
        Err(refusal) => Err(Refused { refusal, place: 1 }),
    }
}

// A file from its first byte, of which `window` shows the front: the walk behind its head, or none where more bytes are wanted; or what
// refuses its head, 20 to 23 or 1 to 7, with its offset. `last`: no more will come (F6, X5).
#[tactic(auto, unfolding(crate::specs::Step::begin_of))]
pub fn begin(window: &[u8], last: bool) -> Result<Option<Walk>, Refused>
    ensures { told result ≡ begin_of window.now last }
{
    let Some(head) = record::read_head(window, last)? else {
        return Ok(None);
    };
    ready(
        record::set_with(head.version, head.kind, head.parameters),
        head.next,
    )
}

// A packet that is refused ends the reading as a refused record does, at its own offset.
fn refused(refusal: Refusal, at: Cursor) -> RefusedRecord
    ensures { result ≡ record { refusal = refusal; offset = at.at; size = packet_bytes } }
{
    RefusedRecord {
        refusal,
        offset: at.at,
        size: PACKET_BYTES as u64,
    }
}

// Whether reading ends where this stands; else it waits for more bytes.
fn ends(item: Result<Next, RefusedRecord>) -> bool
    ensures { result ≡ not (wants_more (next_told item)) }
{
    !matches!(item, Ok(Next::More))
}

// The counts, the peak and the verdict.
fn put_sum(s: State, out: &mut [u8], at: usize) -> usize
    requires { at + line_room ≤ length out.old }
    ensures { Line (sum_line s) at out.old result out.new }
{
    match s.verdict() {
        Ok(v) => text::put_summary(
            s.past.packets,
            s.frames.closed,
            s.bucket.peak,
            v.network,
            v.buffer,
            out,
            at,
        ),
        Err(refusal) => text::put_refusal(refusal.number(), 0, out, at),
    }
}

// The last line, where there is one.
#[tactic(auto, unfolding(crate::specs::Step::line_of))]
fn put_last(s: State, item: Result<Next, RefusedRecord>, out: &mut [u8], at: usize) -> usize
    requires { at + line_room ≤ length out.old }
    ensures { Line (line_of (next_told item) s) at out.old result out.new }
{
    match item {
        Ok(Next::Packet { .. } | Next::End) => put_sum(s, out, at),
        Ok(Next::More) => at,
        Err(r) => text::put_refusal(r.refusal.number(), r.offset, out, at),
    }
}

// The line of the row that a marker closes now, if the lead-in is over.
pub fn put_closed(s: State, rules: Rules, out: &mut [u8], at: usize) -> usize
    requires { CloseAsks rules s at (length out.old) }
    ensures { Line (row_lines (closing rules s)) at out.old result out.new }
{
    if s.frames.begun {
        return text::put_row(s.row(rules), out, at);
    }
    at
}

impl Walk {
    // Where no packet stands: the walk stays, and the last line is written if there is one.
    fn stop(
        self,
        item: Result<Next, RefusedRecord>,
        used: usize,
        out: &mut [u8],
        written: usize,
    ) -> TakeAnswer
        requires { written + line_room ≤ length out.old }
        ensures { TakeGives (stops_at (next_told item) self) used written out.old result out.new }
    {
        let next = put_last(self.state, item, out, written);
        TakeAnswer {
            walk: self,
            used,
            written: next,
            ended: ends(item),
        }
    }

    // The records of a piece, while there is room for a line. The heavy step has this one call site, and the walk is put together
    // only where the loop ends: else the whole state would be copied for each packet. A loop by hand: each item says where the next one stands,
    // and the room for lines ends it too.
    fn run(self, rules: Rules, window: &[u8], last: bool, out: &mut [u8]) -> TakeAnswer
        requires { Going rules self.state }
        ensures { TakeGives (walk_of rules self window.now last (length out.old)) 0 0
            out.old result out.new }
    {
        let mut at = self.at;
        let mut s = self.state;
        let mut used = 0;
        let mut written = 0;
        while LINE <= out.len() - written {
            let item = at.read_piece(&window[used..], last);
            let Ok(Next::Packet { packet, next }) = item else {
                let walk = Walk { at, state: s };
                return walk.stop(item, used, out, written);
            };
            if let Err(refusal) = s.past.admit(packet) {
                let walk = Walk { at, state: s };
                return walk.stop(Err(refused(refusal, at)), used, out, written);
            }
            s = s.arrive(rules, packet.time, packet.stamp);
            if packet.marker == 1 {
                written = put_closed(s, rules, out, written);
                s = s.mark(rules, packet.time);
            }
            at = next;
            used += PACKET_BYTES;
        }
        TakeAnswer {
            walk: Walk { at, state: s },
            used,
            written,
            ended: false,
        }
    }

    // The records at the front of `window`, which shows the bytes from where the walk stands; `last`: no more will come. It goes on
    // while `out` has room for a line, until more bytes are wanted or the last line is written.
    pub fn take(self, window: &[u8], last: bool, out: &mut [u8]) -> TakeAnswer
        ensures { TakeGives (take_of self window.now last (length out.old)) 0 0
            out.old result out.new }
    {
        if out.len() < LINE {
            return TakeAnswer {
                walk: self,
                used: 0,
                written: 0,
                ended: false,
            };
        }
        if !self.state.in_range() {
            let unmeasured = RefusedRecord {
                refusal: Refusal::State,
                offset: 0,
                size: 0,
            };
            return self.stop(Err(unmeasured), 0, out, 0);
        }
        self.run(self.state.numbers.rules(), window, last, out)
    }
}
