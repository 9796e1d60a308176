// A capture that comes in pieces, as the program's lines: set-up, the offset and the header, then the records of each piece measured, and
// each line put into lent bytes as it is known.
// It knows the capture's reader, the measurement and the lines. It must never know where the bytes come from, nor where they go.
#![tactic(auto)]

ghost use Rattle.std.specs.Prelude.{◌≡◌, ◌+◌, ◌≤◌};
ghost use Rattle.laws.specs.Kit.{length};
ghost use Rattle.text.specs.Lines.{line_room, Line, refusal_line};
ghost use Rattle.timing.specs.Feed.{Going};
ghost use Rattle.refusal.specs.Refusal.{number};
ghost use Rattle.refusal.specs.Told.{by_number};
ghost use Rattle.capture.specs.Step.{ahead_told};
ghost use Rattle.reel.specs.Paper.{captured_line};
ghost use Rattle.reel.specs.Step.{ready_of, begin_of, passed_by, line_ahead, stops_at, ends, roll_of, take_of, AheadFits, TakeGives};

use capture::{Ahead, Cursor, RefusedAhead, Setting};
use refusal::Refusal;
use text::LINE;
use timing::{Rules, State, Stated};

// What the program is asked: the stream as it is stated, its port, and the offset of the capture's clock.
#[derive(Clone, Copy, Debug, PartialEq, Eq)]
pub struct Asked {
    pub stated: Stated,
    pub port: u16,
    pub offset: u32,
}

// Where the reader stands, what was measured up to there, and how many records were read and skipped.
#[derive(Clone, Copy, Debug, PartialEq, Eq)]
pub struct Reel {
    pub setting: Setting,
    pub cursor: Cursor,
    pub state: State,
    pub records: u64,
    pub skipped: u64,
}

// The reel after a piece: so many of its bytes were used, and so many bytes of whole lines were written. `ended`: the last line is among
// them.
#[derive(Clone, Copy, Debug, PartialEq, Eq)]
pub struct TakeAnswer {
    pub reel: Reel,
    pub used: usize,
    pub written: usize,
    pub ended: bool,
}

// Behind the header, with the state of a stream that set-up accepts; or none where more bytes are wanted; or 30.
#[tactic(auto, unfolding(crate::specs::Step::ready_of))]
fn ready(asked: Asked, state: State, window: &[u8], last: bool) -> Result<Option<Reel>, Refusal>
    ensures { by_number result ≡ ready_of asked state window.now last }
{
    let Some(format) = capture::open(window, last)? else {
        return Ok(None);
    };
    Ok(Some(Reel {
        setting: Setting {
            format,
            port: asked.port,
            offset: asked.offset,
        },
        cursor: Cursor::start(),
        state,
        records: 0,
        skipped: 0,
    }))
}

// A capture from its first byte, of which `window` shows the front: the reel behind its header, or none where more bytes are wanted; or
// its refusal: what set-up refuses, 33 and 30 are asked in this order (R16). `last`: no more will come.
#[tactic(auto, unfolding(crate::specs::Step::begin_of))]
pub fn begin(asked: Asked, window: &[u8], last: bool) -> Result<Option<Reel>, Refusal>
    ensures { by_number result ≡ begin_of asked window.now last }
{
    let state = asked.stated.set_up()?;
    if 99 < asked.offset {
        return Err(Refusal::Offset);
    }
    ready(asked, state, window, last)
}

// The counts, the peak, the verdict, and the records.
fn put_sum(s: State, records: u64, skipped: u64, out: &mut [u8], at: usize) -> usize
    requires { at + line_room ≤ length out.old }
    ensures { Line (captured_line s records skipped) at out.old result out.new }
{
    match s.verdict() {
        Ok(v) => text::put_capture(
            s.past.packets,
            s.frames.closed,
            s.bucket.peak,
            v.network,
            v.buffer,
            records,
            skipped,
            out,
            at,
        ),
        Err(refusal) => text::put_refusal(refusal.number(), 0, out, at),
    }
}

impl Reel {
    // So many skipped records were passed over. A capture of 2^64 records would begin its counts anew.
    fn passed(self, cursor: Cursor, skips: u64) -> Reel
        ensures { result ≡ passed_by self cursor skips }
    {
        Reel {
            cursor,
            records: self.records.wrapping_add(skips),
            skipped: self.skipped.wrapping_add(skips),
            ..self
        }
    }

    // Where no packet lies ahead: the bytes used there, and whether the capture ends.
    #[tactic(auto, unfolding(crate::specs::Step::line_ahead))]
    fn put_ahead(self, ahead: Result<Ahead, RefusedAhead>, out: &mut [u8], at: usize) -> usize
        requires { at + line_room ≤ length out.old }
        ensures { Line (line_ahead self (ahead_told ahead)) at out.old result out.new }
    {
        match ahead {
            Ok(Ahead::Packet { .. } | Ahead::Wait { .. }) => at,
            Ok(Ahead::End { skipped }) => {
                let records = self.records.wrapping_add(skipped);
                let all_skipped = self.skipped.wrapping_add(skipped);
                put_sum(self.state, records, all_skipped, out, at)
            }
            Err(r) => {
                let place = self.records.wrapping_add(r.skipped);
                text::put_refusal(r.refusal.number(), place, out, at)
            }
        }
    }
}

impl Reel {
    // The call stops there: bytes of a record that is not all shown are used, and the last line is written if there is one.
    fn stop(
        self,
        ahead: Result<Ahead, RefusedAhead>,
        used: usize,
        out: &mut [u8],
        written: usize,
    ) -> TakeAnswer
        requires { (written + line_room ≤ length out.old) × AheadFits (ahead_told ahead) used }
        ensures { TakeGives (stops_at (ahead_told ahead) self) used written out.old result out.new }
    {
        let next = self.put_ahead(ahead, out, written);
        match ahead {
            Ok(Ahead::Packet { .. }) => TakeAnswer {
                reel: self,
                used,
                written: next,
                ended: false,
            },
            Ok(
                Ahead::Wait {
                    cursor,
                    skipped,
                    used: more,
                },
            ) => TakeAnswer {
                reel: self.passed(cursor, skipped),
                used: used + more,
                written: next,
                ended: false,
            },
            Ok(Ahead::End { .. }) | Err(_) => TakeAnswer {
                reel: self,
                used,
                written: next,
                ended: true,
            },
        }
    }

    // A refusal ends the call.
    fn refuse(
        self,
        refusal: Refusal,
        place: u64,
        used: usize,
        out: &mut [u8],
        written: usize,
    ) -> TakeAnswer
        requires { written + line_room ≤ length out.old }
        ensures { TakeGives (ends self (refusal_line (number refusal) place)) used written out.old result out.new }
    {
        let next = text::put_refusal(refusal.number(), place, out, written);
        TakeAnswer {
            reel: self,
            used,
            written: next,
            ended: true,
        }
    }

    // The packets of a piece, while there is room for a line. The heavy step has this one call site, and the reel is put together only
    // where the loop ends: else the whole state would be copied for each packet. A loop by hand: each packet says where the next one stands, and
    // the room for lines ends it too.
    fn run(self, rules: Rules, window: &[u8], last: bool, out: &mut [u8]) -> TakeAnswer
        requires { Going rules self.state }
        ensures { TakeGives (roll_of rules self window.now last (length out.old)) 0 0
            out.old result out.new }
    {
        let mut cursor = self.cursor;
        let mut s = self.state;
        let mut records = self.records;
        let mut skipped = self.skipped;
        let mut used = 0;
        let mut written = 0;
        while LINE <= out.len() - written {
            let ahead = cursor.ahead(self.setting, &window[used..], last);
            let Ok(
                Ahead::Packet {
                    packet,
                    skipped: skips,
                    used: more,
                },
            ) = ahead
            else {
                let reel = Reel {
                    cursor,
                    state: s,
                    records,
                    skipped,
                    ..self
                };
                return reel.stop(ahead, used, out, written);
            };
            if let Err(refusal) = s.past.admit(packet) {
                let reel = Reel {
                    cursor,
                    state: s,
                    records,
                    skipped,
                    ..self
                };
                return reel.refuse(refusal, s.past.packets, used, out, written);
            }
            s = s.arrive(rules, packet.time, packet.stamp);
            if packet.marker == 1 {
                written = printer::put_closed(s, rules, out, written);
                s = s.mark(rules, packet.time);
            }
            records = records.wrapping_add(skips).wrapping_add(1);
            skipped = skipped.wrapping_add(skips);
            cursor = Cursor::start();
            used += more;
        }
        TakeAnswer {
            reel: Reel {
                cursor,
                state: s,
                records,
                skipped,
                ..self
            },
            used,
            written,
            ended: false,
        }
    }

    // The records at the front of `window`, which shows the bytes from where the reel stands; `last`: no more will come. It goes on while
    // `out` has room for a line, until more bytes are wanted or the last line is written.
    pub fn take(self, window: &[u8], last: bool, out: &mut [u8]) -> TakeAnswer
        ensures { TakeGives (take_of self window.now last (length out.old)) 0 0
            out.old result out.new }
    {
        if out.len() < LINE {
            return TakeAnswer {
                reel: self,
                used: 0,
                written: 0,
                ended: false,
            };
        }
        if !self.state.in_range() {
            return self.refuse(Refusal::State, 0, 0, out, 0);
        }
        self.run(self.state.numbers.rules(), window, last, out)
    }
}
