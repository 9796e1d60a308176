// A capture file, classic pcap of Ethernet: its header, what stands in front of a window on its records, a reader for pieces as they come,
// and the check of a whole capture.
// It knows the file's layout, asks `headers` which frames are handed on and `packet` what is refused. It must never know what is measured.
// A captured length is compared with the bytes that are left, and never tested by a sum: in 64 bits, 16 and any captured length do not wrap.
#![tactic(auto)]

ghost use Rattle.std.specs.Prelude.{◌≡◌, ◌*◌, ◌≤◌, ◌<◌};
ghost use Rattle.laws.specs.Kit.{true, drop};
ghost use Rattle.endian.specs.Number.{Room};
ghost use Rattle.capture.specs.Paper.{header_bytes, linked_by, magic_by, header_of, second_of, arrival_of, records_in, seen_from, check_records};
ghost use Rattle.capture.specs.Paper.{checked_of};
ghost use Rattle.capture.specs.Step.{format_in, opened_of, told_of, front_of, between, settled_by, passed_of, next_of, sought_of};
ghost use Rattle.capture.specs.Step.{found_of, UsedFits, behind_by, ahead_told, ahead_of, Enough, refusal_of, admitted_of, seen_of};
ghost use Rattle.capture.specs.Step.{Room as SeenRoom};
ghost use Rattle.refusal.specs.Told.{by_number, told};

use endian::{Order, read32_by};
use headers::MATTER;
use packet::{Packet, Past, Tally};
use refusal::{Refusal, Refused};

// How a file writes its numbers: which byte stands first, and whether sub-seconds are nanoseconds or microseconds.
#[derive(Clone, Copy, Debug, PartialEq, Eq)]
pub struct Format {
    pub order: Order,
    pub nano: bool,
}

// What is asked of a capture, once its header is read.
#[derive(Clone, Copy, Debug, PartialEq, Eq)]
pub struct Setting {
    pub format: Format,
    pub port: u16,
    pub offset: u32,
}

// What a record says, once its captured bytes have passed: a packet that is handed on; another frame; or a sub-second of a second or more.
// An enum of its own, and no Result: a cursor keeps it until the bytes have passed, and it is no refusal before (R14).
#[derive(Clone, Copy, Debug, PartialEq, Eq)]
pub enum Told {
    Packet(Packet),
    Skipped,
    Late,
}

// What stands in front of a window, between two records. A record's size is that of its header and its captured bytes, of which the
// window may show the first only. More is answered where more may come; where none will, the record is refused as cut short.
#[derive(Clone, Copy, Debug, PartialEq, Eq)]
pub enum Front {
    Record { told: Told, size: usize },
    End,
    More,
}

// Where the reader stands: between two records, or within one, of which so many bytes are still to pass before it counts.
#[derive(Clone, Copy, Debug, PartialEq, Eq)]
pub struct Cursor {
    pub left: usize,
    pub told: Told,
}

// What the reader says of a window, and how many of its bytes are used. After a packet or a skipped record it stands between two records.
#[derive(Clone, Copy, Debug, PartialEq, Eq)]
pub enum Next {
    Packet { packet: Packet, used: usize },
    Skipped { used: usize },
    More { cursor: Cursor, used: usize },
    End,
}

// What lies ahead of the reader in a window, behind so many records that are skipped: a packet; the end of what is shown; or the end of
// the file.
#[derive(Clone, Copy, Debug, PartialEq, Eq)]
pub enum Ahead {
    Packet {
        packet: Packet,
        skipped: u64,
        used: usize,
    },
    Wait {
        cursor: Cursor,
        skipped: u64,
        used: usize,
    },
    End {
        skipped: u64,
    },
}

// A record that is refused there, and how many records that are skipped come before it.
#[derive(Clone, Copy, Debug, PartialEq, Eq)]
pub struct RefusedAhead {
    pub refusal: Refusal,
    pub skipped: u64,
}

// A packet that is handed on, and where the record behind it stands.
#[derive(Clone, Copy, Debug, PartialEq, Eq)]
pub struct HandedOn {
    pub packet: Packet,
    pub next: usize,
}

// The records so far: the packets handed on, how many records were read, and how many were skipped.
#[derive(Clone, Copy, Debug, PartialEq, Eq)]
pub struct Seen {
    pub tally: Tally,
    pub records: u64,
    pub skipped: u64,
}

// The bytes of the header, and of a record before its captured ones.
pub const HEADER: usize = 24;

pub const RECORD: usize = 16;

const MICROSECONDS: u32 = 0xa1b2c3d4;

const NANOSECONDS: u32 = 0xa1b23c4d;

const ETHERNET: u32 = 1;

// The format, once the order is known, where the link type is Ethernet.
#[tactic(auto, unfolding(crate::specs::Paper::linked_by))]
fn linked(order: Order, nano: bool, s: &[u8]) -> Option<Format>
    requires { Room header_bytes s.now 0 }
    ensures { result ≡ format_in (linked_by order nano s.now) }
{
    if read32_by(order, s, 20) != ETHERNET {
        return None;
    }
    Some(Format { order, nano })
}

//  0       4         20     24
//  | magic |         | link |
#[tactic(auto, unfolding(crate::specs::Paper::header_of, crate::specs::Paper::magic_by))]
fn known(s: &[u8]) -> Option<Format>
    requires { Room header_bytes s.now 0 }
    ensures { result ≡ format_in (header_of s.now) }
{
    let big = read32_by(Order::Big, s, 0);
    if big == MICROSECONDS {
        return linked(Order::Big, false, s);
    }
    if big == NANOSECONDS {
        return linked(Order::Big, true, s);
    }
    let little = read32_by(Order::Little, s, 0);
    if little == MICROSECONDS {
        return linked(Order::Little, false, s);
    }
    if little == NANOSECONDS {
        return linked(Order::Little, true, s);
    }
    None
}

// The header of a file, of which `window` shows the first bytes; `last`: no more will come. The capture's format, or none where more bytes
// are wanted; or 30 (R8).
#[tactic(auto, unfolding(crate::specs::Step::opened_of))]
pub fn open(window: &[u8], last: bool) -> Result<Option<Format>, Refusal>
    ensures { by_number result ≡ opened_of window.now last }
{
    if window.len() < HEADER {
        return if last { Err(Refusal::Header) } else { Ok(None) };
    }
    match known(window) {
        Some(format) => Ok(Some(format)),
        None => Err(Refusal::Header),
    }
}

// The format of a whole capture, or none where its header is not known.
#[tactic(auto, using(crate::proofs::Opening::format_opened))]
pub fn format_of(s: &[u8]) -> Option<Format>
    ensures { result ≡ format_in (header_of s.now) }
{
    open(s, true).unwrap_or(None)
}

impl Format {
    // How many sub-seconds a second has.
    #[tactic(auto, unfolding(crate::specs::Paper::second_of))]
    fn second(self) -> u32
        ensures { result ≡ second_of self }
    {
        if self.nano { 1000000000 } else { 1000000 }
    }
}

impl Setting {
    // When a frame arrived, in nanoseconds: 33 bits of seconds and 32 bits of milliseconds do not wrap.
    #[tactic(auto, unfolding(crate::specs::Paper::unit_of))]
    fn arrival(self, seconds: u32, sub: u32) -> u64
        ensures { result ≡ arrival_of self seconds sub }
    {
        let whole = (u64::from(seconds) + u64::from(self.offset)) * 1000000000;
        if self.format.nano {
            return whole + u64::from(sub);
        }
        whole + u64::from(sub) * 1000
    }

    //  0         4     8          12         16
    //  | seconds | sub | captured | original | captured bytes
    #[tactic(auto, unfolding(crate::specs::Step::told_of))]
    fn told(self, window: &[u8], captured: usize) -> Told
        requires { Enough self.format window.now captured }
        ensures { result ≡ told_of self window.now }
    {
        let order = self.format.order;
        let sub = read32_by(order, window, 4);
        if self.format.second() <= sub {
            return Told::Late;
        }
        match headers::hand_on_front(&window[RECORD..], captured, self.port) {
            Some(rtp) => Told::Packet(Packet {
                time: self.arrival(read32_by(order, window, 0), sub),
                stamp: rtp.stamp,
                marker: rtp.marker,
            }),
            None => Told::Skipped,
        }
    }

    // What stands in front of `window`, between two records; `last`: no more will come, and a record that ends before is refused by 31.
    // The setting is taken apart and put together again, so that its parts are read as they are: else the code reads it in odd pieces for
    // each record.
    #[tactic(auto, unfolding(crate::specs::Step::front_of))]
    pub fn front(self, window: &[u8], last: bool) -> Result<Front, Refusal>
        ensures { by_number result ≡ front_of self window.now last }
    {
        if window.is_empty() {
            return Ok(if last { Front::End } else { Front::More });
        }
        if window.len() < RECORD {
            return if last {
                Err(Refusal::CutCapture)
            } else {
                Ok(Front::More)
            };
        }
        let format = self.format;
        let captured = read32_by(format.order, window, 8) as usize;
        let shown = window.len() - RECORD;
        if last && shown < captured {
            return Err(Refusal::CutCapture);
        }
        if captured <= shown || MATTER <= shown {
            let setting = Setting {
                format,
                port: self.port,
                offset: self.offset,
            };
            let told = setting.told(window, captured);
            let size = RECORD + captured;
            return Ok(Front::Record { told, size });
        }
        Ok(Front::More)
    }
}

// A record that is not skipped ends the search for a packet.
#[tactic(auto, unfolding(crate::specs::Step::found_of))]
fn found(told: Told, next: usize) -> Option<HandedOn>
    ensures { result ≡ found_of told next }
{
    let Told::Packet(packet) = told else {
        return None;
    };
    Some(HandedOn { packet, next })
}

impl Setting {
    // The next packet of a whole file that is handed on, from the record at `from` on, or none: skipped records are passed over, and a
    // record that is refused ends it. A loop by hand: each record says where the next one stands.
    #[tactic(auto, using(crate::proofs::Seeking::seek_laws))]
    pub fn seek(self, s: &[u8], from: usize) -> Option<HandedOn>
        ensures { result ≡ sought_of self from s.now }
    {
        let mut at = from;
        while at < s.len() {
            let Ok(Front::Record { told, size }) = self.front(&s[at..], true) else {
                return None;
            };
            let Told::Skipped = told else {
                return found(told, at + size);
            };
            at += size;
        }
        None
    }
}

impl Cursor {
    // Between two records.
    pub fn start() -> Cursor
        ensures { result ≡ between }
    {
        Cursor {
            left: 0,
            told: Told::Skipped,
        }
    }

    // All bytes of the record have passed: now it counts, or is refused by 32.
    fn settle(self) -> Result<Next, Refusal>
        ensures { by_number result ≡ settled_by self.told self.left }
    {
        match self.told {
            Told::Packet(packet) => Ok(Next::Packet {
                packet,
                used: self.left,
            }),
            Told::Skipped => Ok(Next::Skipped { used: self.left }),
            Told::Late => Err(Refusal::SubSecond),
        }
    }

    // Some bytes of the record, or all that are left of it; 31 where the last of them are too few.
    #[tactic(auto, unfolding(crate::specs::Step::passed_of))]
    fn pass(self, window: &[u8], last: bool) -> Result<Next, Refusal>
        ensures { by_number result ≡ passed_of self window.now last }
    {
        if self.left <= window.len() {
            return self.settle();
        }
        if last {
            return Err(Refusal::CutCapture);
        }
        Ok(Next::More {
            cursor: Cursor {
                left: self.left - window.len(),
                ..self
            },
            used: window.len(),
        })
    }

    // What the bytes say that come next, of which `window` shows the first; `last`: no more will come. Refused by 31 or 32.
    #[tactic(auto, unfolding(crate::specs::Step::next_of))]
    pub fn read(self, setting: Setting, window: &[u8], last: bool) -> Result<Next, Refusal>
        ensures { by_number result ≡ next_of setting self window.now last }
    {
        if self.left != 0 {
            return self.pass(window, last);
        }
        match setting.front(window, last)? {
            Front::Record { told, size } => {
                let cursor = Cursor { left: size, told };
                cursor.pass(window, last)
            }
            Front::End => Ok(Next::End),
            Front::More => Ok(Next::More {
                cursor: Cursor::start(),
                used: 0,
            }),
        }
    }
}

// What was said behind so many bytes and skipped records.
#[tactic(auto, unfolding(crate::specs::Step::behind_by))]
fn behind(next: Next, used: usize, skipped: u64) -> Ahead
    requires { UsedFits next used }
    ensures { result ≡ behind_by used skipped next }
{
    match next {
        Next::Packet { packet, used: more } => Ahead::Packet {
            packet,
            skipped,
            used: used + more,
        },
        Next::Skipped { .. } => Ahead::End { skipped },
        Next::More { cursor, used: more } => Ahead::Wait {
            cursor,
            skipped,
            used: used + more,
        },
        Next::End => Ahead::End { skipped },
    }
}

impl Cursor {
    // The same over all skipped records of the window: so a call that waits for packets passes them over at once. Refused by 31 or 32. A loop
    // by hand, as in `seek`.
    #[tactic(auto, using(crate::proofs::Looking::ahead_laws))]
    pub fn ahead(self, setting: Setting, window: &[u8], last: bool) -> Result<Ahead, RefusedAhead>
        ensures { ahead_told result ≡ ahead_of setting self window.now last }
    {
        let mut cursor = self;
        let mut used = 0;
        let mut skipped = 0;
        loop {
            let read = cursor.read(setting, &window[used..], last);
            let next = read.map_err(|refusal| RefusedAhead { refusal, skipped })?;
            let Next::Skipped { used: more } = next else {
                return Ok(behind(next, used, skipped));
            };
            used += more;
            skipped += 1;
            cursor = Cursor::start();
        }
    }
}

impl Seen {
    // Whether a record is accepted; else 12 to 14 at its packet's place in the history, or 32 at the record's own (R8, R9).
    #[tactic(auto, using(crate::proofs::Checking::admitting))]
    fn admit(self, said: Told) -> Result<(), Refused>
        ensures { told result ≡ admitted_of self said }
    {
        match said {
            Told::Packet(packet) => {
                let past = self.tally.past;
                past.admit(packet).map_err(|refusal| Refused {
                    refusal,
                    place: past.packets,
                })
            }
            Told::Skipped => Ok(()),
            Told::Late => Err(Refused {
                refusal: Refusal::SubSecond,
                place: self.records,
            }),
        }
    }

    // With one record more.
    #[tactic(auto, using(crate::proofs::Checking::told_countable), unfolding(crate::specs::Step::seen_of))]
    fn with(self, told: Told) -> Seen
        requires { SeenRoom self × (refusal_of self told ≡ 0) }
        ensures { result ≡ seen_of self told }
    {
        match told {
            Told::Packet(packet) => Seen {
                tally: self.tally.with(packet),
                records: self.records + 1,
                ..self
            },
            Told::Skipped => Seen {
                records: self.records + 1,
                skipped: self.skipped + 1,
                ..self
            },
            Told::Late => self,
        }
    }

    // The records behind the header, up to the end or the first that is refused, by 31, 32 or 12 to 14. A loop by hand, as in `seek`.
    #[tactic(auto, using(crate::proofs::Checking::loop_laws))]
    fn check_records(self, setting: Setting, s: &[u8]) -> Result<Seen, Refused>
        requires { Room header_bytes s.now 0 × (self.records ≡ 0) × SeenRoom self }
        ensures { told result ≡ check_records self (records_in setting (drop header_bytes s.now)) }
    {
        let mut seen = self;
        let mut at = HEADER;
        loop {
            let place = seen.records;
            let read = setting.front(&s[at..], true);
            let front = read.map_err(|refusal| Refused { refusal, place })?;
            let Front::Record { told, size } = front else {
                return Ok(seen);
            };
            seen.admit(told)?;
            seen = seen.with(told);
            at += size;
        }
    }
}

// One pass over a whole capture that copies nothing and writes nothing: what came before its packets, and whether a marker did. Refused by
// 33, 30, then record by record 31, 32 and 12 to 14, with the place (R8, R9).
#[tactic(auto, using(crate::proofs::Checking::opening), unfolding(crate::specs::Paper::checked_of))]
pub fn check(past: Past, begun: bool, port: u16, offset: u32, s: &[u8]) -> Result<Seen, Refused>
    ensures { told result ≡ checked_of port offset (seen_from past begun) s.now }
{
    if 99 < offset {
        return Err(Refused {
            refusal: Refusal::Offset,
            place: 0,
        });
    }
    let Some(format) = format_of(s) else {
        return Err(Refused {
            refusal: Refusal::Header,
            place: 0,
        });
    };
    let seen = Seen {
        tally: Tally {
            past,
            begun,
            closed: 0,
        },
        records: 0,
        skipped: 0,
    };
    let setting = Setting {
        format,
        port,
        offset,
    };
    seen.check_records(setting, s)
}
