// The record file, of both versions: its head and a cursor that reads one record after the other, of a whole file or of pieces as they
// come, the check of a whole file, and the writer. It knows the file's layout, and asks `limits` and `packet` what they refuse.
// It must never know what is measured: no bucket, no frame, no verdict. No body is read before its length is checked.
#![tactic(auto)]

ghost use Rattle.std.specs.Prelude.{◌≡◌, ◌+◌, ◌*◌, ◌≤◌, ◌<◌, Ok};
ghost use Rattle.laws.specs.Kit.{true, false, length, drop, sets};
ghost use Rattle.endian.specs.Number.{Room};
ghost use Rattle.packet.specs.Paper.{packets};
ghost use Rattle.packet.specs.Quick.{start_of};
ghost use Rattle.packet.specs.Step.{nothing, no_packets};
ghost use Rattle.record.specs.Paper.{parameters_bytes, packet_bytes, head_bytes};
ghost use Rattle.record.specs.Paper.{version_known, heading, class_in, resolved_in, parameters_at, packet_at, is_parameters, kind_length};
ghost use Rattle.record.specs.Paper.{packets_in};
ghost use Rattle.refusal.specs.Told.{number_in, told};
ghost use Rattle.record.specs.Step.{next_told, scrap_of, framed_of, Whole, first_of, head_by, head_piece, after, packet_of, whole_of, next_piece, stands_in};
ghost use Rattle.record.specs.Layout.{packet_with, packet_record, head_of, records_of};
ghost use Rattle.record.specs.Write.{version_refusal, heading_refusal, written_of, WriteGives, Fitting};
ghost use Rattle.record.specs.Walk.{numbers_of, ran_in, records_left, finish, checked_of};

use endian::{read16, read32, read64, write16, write32, write64};
use limits::{Parameters, Profile};
use packet::{Packet, Past, Run, Tally};
use refusal::{Refusal, Refused};

// What a file sets up with, beside an edition: the profile that the kind of its parameter record chooses, and the parameters (`resolved`).
#[derive(Clone, Copy, Debug, PartialEq, Eq)]
pub struct FileNumbers {
    pub profile: Profile,
    pub parameters: Parameters,
}

// Where the reader stands after the head of a file: at a packet, or at the end.
#[derive(Clone, Copy, Debug, PartialEq, Eq)]
pub struct Cursor {
    pub at: u64,
}

// What stands in front, before what it holds is looked at: nothing; a record that is cut short or whose length is 0; a whole
// record. More is answered of a piece alone: it ends before the answer is known.
#[derive(Clone, Copy, Debug, PartialEq, Eq)]
pub enum Framed {
    Nothing,
    Cut,
    Whole { body: u16, kind: u8 },
    More,
}

// The head of a file, its version byte and its parameters; version and kind are kept as written. `next` stands behind it.
#[derive(Clone, Copy, Debug, PartialEq, Eq)]
pub struct Head {
    pub version: u8,
    pub kind: u8,
    pub parameters: Parameters,
    pub next: Cursor,
}

// What stands at a cursor. More is answered of a piece alone: it ends before the answer is known.
#[derive(Clone, Copy, Debug, PartialEq, Eq)]
pub enum Next {
    Packet { packet: Packet, next: Cursor },
    End,
    More,
}

// A record that is refused, its offset in the file, and its size, its length among it: the next one begins so far behind it. 0 is told
// where it has no length (X6).
#[derive(Clone, Copy, Debug, PartialEq, Eq)]
pub struct RefusedRecord {
    pub refusal: Refusal,
    pub offset: u64,
    pub size: u64,
}

impl From<RefusedRecord> for Refused {
    ghost from_gives = { λ r e. e ≡ record { refusal = r.refusal; place = r.offset } };

    fn from(r: RefusedRecord) -> Refused {
        Refused {
            refusal: r.refusal,
            place: r.offset,
        }
    }
}

// A whole file that is fine: what it sets up with, and the numbers of packets and of frames that close.
#[derive(Clone, Copy, Debug, PartialEq, Eq)]
pub struct CheckedFile {
    pub numbers: FileNumbers,
    pub packets: u64,
    pub closed: u64,
}

// The class number that a version 1 file's 0 stands for.
const WIDE: u8 = 3;

const PACKET: u8 = 2;

// The lengths of the bodies.
const PARAMETERS_LENGTH: u8 = 16;

const PACKET_LENGTH: u8 = 14;

// The bytes of a packet's record, its length among them: `packet_bytes`.
pub const PACKET_BYTES: usize = 2 + PACKET_LENGTH as usize;

// The three bytes that it begins with, its length and its kind, as one number.
const PACKET_FRONT: u32 = 256 * PACKET_LENGTH as u32 + PACKET as u32;

// The bytes of a file's head, its version byte and its parameters: `head_bytes`.
pub const HEAD_BYTES: usize = 1 + (2 + PARAMETERS_LENGTH as usize);

// The one place that tells which versions there are.
fn version_known(version: u8) -> bool
    ensures { result ≡ version_known version }
{
    matches!(version, 1 | 2)
}

// The class that a file of a version sets up with: one of version 1 keeps 0 as wide.
fn class_in(version: u8, class: u8) -> u8
    ensures { result ≡ class_in version class }
{
    let later = version != 1;
    if later {
        return class;
    }
    match class {
        0 | 3 => WIDE,
        1..=2 | 4..=255 => class,
    }
}

// The parameters that a file of a version sets up with. A state knows no version.
fn resolved(version: u8, written: Parameters) -> Parameters
    ensures { result ≡ resolved_in version written }
{
    Parameters {
        class: class_in(version, written.class),
        ..written
    }
}

// What a file of a version sets up with, whose parameter record is of a kind.
pub fn set_with(version: u8, kind: u8, written: Parameters) -> FileNumbers
    ensures { result ≡ numbers_of (heading version kind written) }
{
    FileNumbers {
        profile: limits::profile_of(kind),
        parameters: resolved(version, written),
    }
}

// The kinds that hold the parameters are those that stand for a profile.
fn is_parameters(kind: u8) -> bool
    ensures { result ≡ is_parameters kind }
{
    Profile::try_from(kind).is_ok()
}

// The one place that tells what lengths the kinds have; 0, which no record has, for an unknown kind.
fn kind_length(kind: u8) -> u16
    ensures { result ≡ kind_length kind }
{
    if is_parameters(kind) {
        return u16::from(PARAMETERS_LENGTH);
    }
    if kind == PACKET {
        return u16::from(PACKET_LENGTH);
    }
    0
}

//  0        2      3      4          5       6        8     12       14    18
//  | length | kind | rate | schedule | class | height | n   | MAXUDP | TRO |
//  | 0   16 | 1, 3 |      |          |       |        |     |        |     |
fn parameters_of(s: &[u8]) -> Parameters
    requires { Room parameters_bytes s.now 0 }
    ensures { result ≡ parameters_at s.now }
{
    Parameters {
        rate: s[3],
        schedule: s[4],
        class: s[5],
        height: read16(s, 6),
        n: read32(s, 8),
        maxudp: read16(s, 12),
        tro: read32(s, 14),
    }
}

//  0        2      3         11          15       16
//  | length | kind | arrival | timestamp | marker |
//  | 0   14 | 2    |         |           |        |
pub fn packet_at(s: &[u8]) -> Packet
    requires { Room packet_bytes s.now 0 }
    ensures { result ≡ packet_at s.now }
{
    Packet {
        time: read64(s, 3),
        stamp: read32(s, 11),
        marker: s[15],
    }
}

fn packet_of(s: &[u8], next: Cursor) -> Next
    requires { Room packet_bytes s.now 0 }
    ensures { Ok result ≡ packet_of s.now next }
{
    Next::Packet {
        packet: packet_at(s),
        next,
    }
}

// Whether a whole packet's record stands in front.
fn packet_stands(window: &[u8]) -> bool
    ensures { result ≡ stands_in window.now }
{
    if window.len() < PACKET_BYTES {
        return false;
    }
    packet_fits(window)
}

// The same of bytes that have room for one.
fn packet_fits(s: &[u8]) -> bool
    requires { Room packet_bytes s.now 0 }
    ensures { result ≡ stands_in s.now }
{
    // One test of four bytes: a jump less for each packet in a walk over a file.
    read32(s, 0) / 256 == PACKET_FRONT
}

// Behind a packet's record. An offset past 2^64 would wrap; no file is that long.
fn after_packet(at: u64) -> Cursor
    ensures { result ≡ after at packet_bytes }
{
    Cursor {
        at: at.wrapping_add(PACKET_BYTES as u64),
    }
}

// Too few bytes for a length.
fn scrap(size: usize, last: bool) -> Framed
    ensures { result ≡ scrap_of size last }
{
    if !last {
        return Framed::More;
    }
    if size == 0 {
        return Framed::Nothing;
    }
    Framed::Cut
}

// What stands in front of `window`; `last`: no more will come.
pub fn frame(window: &[u8], last: bool) -> Framed
    ensures { result ≡ framed_of window.now last }
{
    if window.len() < 2 {
        return scrap(window.len(), last);
    }
    let body = read16(window, 0);
    if body == 0 {
        return Framed::Cut;
    }
    if window.len() - 2 < usize::from(body) {
        if last {
            return Framed::Cut;
        }
        return Framed::More;
    }
    Framed::Whole {
        body,
        kind: window[2],
    }
}

// A refusal at an offset of the file.
fn refused_at(refusal: Refusal, offset: u64) -> Refused
    ensures { result ≡ record { refusal = refusal; place = offset } }
{
    Refused {
        refusal,
        place: offset,
    }
}

// A first record that is all there.
fn first_record(version: u8, body: u16, kind: u8, s: &[u8]) -> Result<Option<Head>, Refused>
    requires { Whole body kind s.now }
    ensures { told result ≡ first_of version body kind s.now }
{
    if body != kind_length(kind) {
        return Err(refused_at(Refusal::Kind, 1));
    }
    if !is_parameters(kind) {
        return Err(refused_at(Refusal::Misplaced, 1));
    }
    Ok(Some(Head {
        version,
        kind,
        parameters: parameters_of(s),
        next: Cursor {
            at: HEAD_BYTES as u64,
        },
    }))
}

// What follows the version byte.
fn first(version: u8, window: &[u8], last: bool) -> Result<Option<Head>, Refused>
    ensures { told result ≡ head_by version window.now (framed_of window.now last) }
{
    let framed = frame(window, last);
    match framed {
        Framed::Nothing => Err(refused_at(Refusal::Misplaced, 1)),
        Framed::Cut => Err(refused_at(Refusal::Cut, 1)),
        Framed::Whole { body, kind } => first_record(version, body, kind, window),
        Framed::More => Ok(None),
    }
}

// The head of a file, of which `window` shows the bytes from the first on, or none where more bytes are wanted; or 20 to 23 with its
// offset. `last`: no more will come (F6, X5).
pub fn read_head(window: &[u8], last: bool) -> Result<Option<Head>, Refused>
    ensures { told result ≡ head_piece window.now last }
{
    if window.len() == 0 {
        if last {
            return Err(refused_at(Refusal::Version, 0));
        }
        return Ok(None);
    }
    if !version_known(window[0]) {
        return Err(refused_at(Refusal::Version, 0));
    }
    first(window[0], &window[1..], last)
}

impl Cursor {
    // What stands at the cursor in the whole file `s`; or 21 to 23. A packet's record is looked for here, so that in a walk over a file
    // each costs no call.
    pub fn read(self, s: &[u8]) -> Result<Next, RefusedRecord>
        ensures { next_told result ≡ next_piece self.at (drop self.at s.now) true }
    {
        let at = self.at as usize;
        if s.len() < at {
            return self.read_any(&s[s.len()..], true);
        }
        if packet_stands(&s[at..]) {
            return Ok(packet_of(&s[at..], after_packet(self.at)));
        }
        self.read_any(&s[at..], true)
    }

    // What stands at the cursor, of which `window` shows the bytes from there on; or 21 to 23. `last`: no more will come.
    // A packet's record mostly stands there, and that is seen at once.
    pub fn read_piece(self, window: &[u8], last: bool) -> Result<Next, RefusedRecord>
        ensures { next_told result ≡ next_piece self.at window.now last }
    {
        if packet_stands(window) {
            return Ok(packet_of(window, after_packet(self.at)));
        }
        self.read_any(window, last)
    }

    // The same, whatever stands there.
    fn read_any(self, window: &[u8], last: bool) -> Result<Next, RefusedRecord>
        ensures { next_told result ≡ next_piece self.at window.now last }
    {
        let framed = frame(window, last);
        match framed {
            Framed::Nothing => Ok(Next::End),
            Framed::Cut => Err(self.refused(Refusal::Cut, 0)),
            Framed::Whole { body, kind } => self.whole_record(body, kind, window),
            Framed::More => Ok(Next::More),
        }
    }

    // A record that is all there, with the length of its body and its kind.
    fn whole_record(self, body: u16, kind: u8, s: &[u8]) -> Result<Next, RefusedRecord>
        requires { Whole body kind s.now }
        ensures { next_told result ≡ whole_of self.at body kind s.now }
    {
        let size = 2 + u64::from(body);
        if body != kind_length(kind) {
            return Err(self.refused(Refusal::Kind, size));
        }
        let again = is_parameters(kind);
        if again {
            return Err(self.refused(Refusal::Misplaced, size));
        }
        Ok(packet_of(s, after_packet(self.at)))
    }

    // The record at the cursor is refused.
    fn refused(self, refusal: Refusal, size: u64) -> RefusedRecord
        ensures { result ≡ record { refusal = refusal; offset = self.at; size = size } }
    {
        RefusedRecord {
            refusal,
            offset: self.at,
            size,
        }
    }
}

// One pass over a whole file that copies nothing: what `report` asks before it measures; or its first refusal with its offset. A file
// carries no edition: it is told beside the file, and refused where the parameters stand, at offset 1, after all that is refused there.
pub fn check(edition: u32, s: &[u8]) -> Result<CheckedFile, Refused>
    ensures { told result ≡ checked_of edition s.now }
{
    let Some(head) = read_head(s, true)? else {
        unreachable!()
    };
    let numbers = set_with(head.version, head.kind, head.parameters);
    if let Err(refusal) = numbers.parameters.check_in(numbers.profile, edition) {
        return Err(refused_at(refusal, 1));
    }
    check_packets(numbers, head.next, s)
}

// How many packets' records fill the file from an offset on; 0 where there is none, or some bytes are too few for one.
fn records_left(from: Cursor, s: &[u8]) -> usize
    ensures { result ≡ records_left (drop from.at s.now) }
{
    let size = (s.len() as u64).saturating_sub(from.at) as usize;
    if size % PACKET_BYTES != 0 {
        return 0;
    }
    size / PACKET_BYTES
}

// A run over so many packets' records from an offset on; none where another record stands, or 11 or 12 refuses a packet.
// Kept out of line: how fast its short loop runs depends on where the jumps lie, and in line all of `check` in front would move them.
#[inline(never)]
fn run_packets(from: Cursor, count: usize, s: &[u8]) -> Option<Run>
    requires { from.at + packet_bytes * count ≤ length s.now }
    ensures { result ≡ ran_in (start_of nothing false) count (drop from.at s.now) }
{
    let mut run = Past::none().start(false);
    let start = from.at as usize;
    for k in 0..count {
        let record = &s[start + PACKET_BYTES * k..];
        if !packet_fits(record) {
            return None;
        }
        let p = packet_at(record);
        if !run.takes(p) {
            return None;
        }
        run = run.with(p);
    }
    Some(run)
}

// The packets from an offset on, after the parameters. Mostly nothing is refused, and a run sees that with fewer tests.
fn check_packets(numbers: FileNumbers, from: Cursor, s: &[u8]) -> Result<CheckedFile, Refused>
    ensures { told result ≡ finish numbers no_packets (packets_in nothing from.at (drop from.at s.now)) }
{
    let count = records_left(from, s);
    if count != 0 {
        let ran = run_packets(from, count, s);
        if let Some(run) = ran {
            let first = packet_at(&s[from.at as usize..]);
            if Past::none().admits(count as u64, first.time, run.last) {
                return Ok(CheckedFile {
                    numbers,
                    packets: count as u64,
                    closed: run.closed() as u64,
                });
            }
        }
    }
    walk_packets(numbers, from, s)
}

// The same record by record, whatever stands there: what is refused, and at which offset. A loop by hand: each record says where the next
// one stands.
fn walk_packets(numbers: FileNumbers, from: Cursor, s: &[u8]) -> Result<CheckedFile, Refused>
    ensures { told result ≡ finish numbers no_packets (packets_in nothing from.at (drop from.at s.now)) }
{
    let mut cursor = from;
    let mut tally = Tally::none();
    loop {
        let item = cursor.read(s)?;
        let Next::Packet { packet, next } = item else {
            return Ok(CheckedFile {
                numbers,
                packets: tally.past.packets,
                closed: tally.closed as u64,
            });
        };
        if let Err(refusal) = tally.past.admit(packet) {
            return Err(refused_at(refusal, cursor.at));
        }
        tally = tally.with(packet);
        cursor = next;
    }
}

#[tactic(auto, unfolding(crate::specs::Write::version_refusal))]
fn check_version(version: u8) -> Result<(), Refusal>
    ensures { number_in result ≡ version_refusal version }
{
    if version_known(version) {
        Ok(())
    } else {
        Err(Refusal::Version)
    }
}

// Whether the writer may look at a packet: the version first of all, then a kind that holds no parameters, then what set-up refuses.
fn check_heading(version: u8, kind: u8, written: Parameters) -> Result<(), Refusal>
    ensures { number_in result ≡ heading_refusal (heading version kind written) }
{
    let of_version = check_version(version);
    let of_kind = Profile::try_from(kind);
    let of_numbers = resolved(version, written).check(limits::profile_of(kind));
    let later = of_kind.and(of_numbers);
    of_version.and(later)
}

// What the writer would answer for so many lent bytes: how many it would write, or the first refusal of 20, 22, 1 to 7, 10 to 14 and 24 with
// its place. It writes nothing.
pub fn would_write(
    version: u8,
    kind: u8,
    numbers: Parameters,
    arrivals: &[u64],
    stamps: &[u32],
    markers: &[u8],
    room: usize,
) -> Result<usize, Refused>
    ensures { told result ≡ written_of (heading version kind numbers) arrivals.now stamps.now markers.now room }
{
    if let Err(refusal) = check_heading(version, kind, numbers) {
        return Err(Refused { refusal, place: 0 });
    }
    Past::none().scan(false, arrivals, stamps, markers)?;
    let needed = HEAD_BYTES + PACKET_BYTES * arrivals.len();
    if room < needed {
        return Err(Refused {
            refusal: Refusal::FileRoom,
            place: 0,
        });
    }
    Ok(needed)
}

// The whole record file of this version, with these parameters in a record of this kind, and these packets into lent bytes, or nothing
// where it is refused.
pub fn write(
    version: u8,
    kind: u8,
    numbers: Parameters,
    arrivals: &[u64],
    stamps: &[u32],
    markers: &[u8],
    out: &mut [u8],
) -> Result<usize, Refused>
    ensures { WriteGives (heading version kind numbers) arrivals.now stamps.now markers.now
        out.old (told result) out.new }
{
    let bytes = would_write(version, kind, numbers, arrivals, stamps, markers, out.len())?;
    write_head(version, kind, numbers, out);
    write_packets(arrivals, stamps, markers, out);
    Ok(bytes)
}

// The version byte and the parameters.
fn write_head(version: u8, kind: u8, numbers: Parameters, out: &mut [u8])
    requires { Room head_bytes out.old 0 }
    ensures { out.new ≡ sets out.old 0 (head_of (heading version kind numbers)) }
{
    out[0] = version;
    out[1] = 0;
    out[2] = PARAMETERS_LENGTH;
    out[3] = kind;
    out[4] = numbers.rate;
    out[5] = numbers.schedule;
    out[6] = numbers.class;
    write16(out, 7, numbers.height);
    write32(out, 9, numbers.n);
    write16(out, 13, numbers.maxudp);
    write32(out, 15, numbers.tro);
}

// One packet's record at an offset.
fn write_packet(t: u64, stamp: u32, marker: u8, out: &mut [u8], at: usize)
    requires { Room packet_bytes out.old at }
    ensures { out.new ≡ sets out.old at (packet_record (packet_with t stamp marker)) }
{
    out[at] = 0;
    out[at + 1] = PACKET_LENGTH;
    out[at + 2] = PACKET;
    write64(out, at + 3, t);
    write32(out, at + 11, stamp);
    out[at + 15] = marker;
}

// The packets' records, after the parameters.
fn write_packets(arrivals: &[u64], stamps: &[u32], markers: &[u8], out: &mut [u8])
    requires { Fitting arrivals.now stamps.now markers.now out.old }
    ensures { out.new
        ≡ sets out.old head_bytes (records_of (packets arrivals.now stamps.now markers.now)) }
{
    for i in 0..arrivals.len() {
        let at = HEAD_BYTES + PACKET_BYTES * i;
        write_packet(arrivals[i], stamps[i], markers[i], out, at);
    }
}
