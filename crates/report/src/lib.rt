// What a program in C calls: a whole record file measured into lent bytes, a record file written, the limits of a stream,
// and for a graph the next read of a packet and the figures of a row. include/vtiming.h documents each function; their names are fixed.
// It knows the record file and the measurement, and puts them together. It must never print, and keeps nothing between calls.
#![tactic(auto)]

ghost use Rattle.std.specs.Prelude.{◌≡◌, ◌+◌, ◌≤◌};
ghost use Rattle.laws.specs.Kit.{true, leb, length, sets};
ghost use Rattle.laws.specs.Lay.{Put};
ghost use Rattle.frame.specs.Step.{numbers_of};
ghost use Rattle.timing.specs.Answers.{summary_width, summary_of};
ghost use Rattle.timing.specs.Feed.{closing, LayAsks};
ghost use Rattle.timing.specs.Range.{in_range};
ghost use Rattle.timing.specs.Step.{first_stated};
ghost use Rattle.limits.specs.Paper.{given};
ghost use Rattle.record.specs.Paper.{heading};
ghost use Rattle.record.specs.Write.{written_of, written_place};
ghost use Rattle.refusal.specs.Told.{told};
ghost use Rattle.report.specs.Paper.{in_bytes, encoded, row_bytes, summary_bytes, answer_of, room_of};
ghost use Rattle.report.specs.Step.{stream_in, needed_behind, asked_of, MeasureAsks, MeasureGives, CallGives, WriteGives, LimitsGives, DrawGives};
ghost use Rattle.report.specs.Step.{ThreeGive, NextReadGives};

use endian::write64;
use frame::Row;
use limits::{FIRST_EDITION, Parameters};
use record::FileNumbers;
use refusal::{Refusal, Refused};
use timing::{Rules, SUMMARY, State, Stated, StreamNumbers};

// The bytes of a number that is reported, of a row, and of the nine numbers in front.
pub const NUMBER: usize = 8;

const ROW_BYTES: usize = NUMBER * frame::ROW;

pub const SUMMARY_BYTES: usize = NUMBER * SUMMARY;

// Whether so many lent bytes hold so many numbers in front and the rows of so many frames. Divided, since the product might not fit.
pub fn fits(front: usize, closed: u64, room: usize) -> bool
    ensures { result ≡ leb (needed_behind front closed) room }
{
    let numbers = room / NUMBER;
    if numbers < front {
        return false;
    }
    closed <= ((numbers - front) / frame::ROW) as u64
}

// What a file sets up with, and the edition beside it.
fn stream_in(edition: u32, numbers: FileNumbers) -> StreamNumbers
    ensures { result ≡ stream_in edition numbers }
{
    StreamNumbers {
        parameters: numbers.parameters,
        edition,
        profile: numbers.profile,
    }
}

// One pass that checks the file, with the edition beside it, and counts its frames; then the room: what the file sets up with, or the
// refusal and its offset. It writes nothing.
fn ask(file: &[u8], edition: u32, room: usize) -> Result<StreamNumbers, Refused>
    ensures { told result ≡ asked_of edition file.now room }
{
    match record::check(edition, file) {
        Ok(checked) => {
            if fits(SUMMARY, checked.closed, room) {
                return Ok(stream_in(edition, checked.numbers));
            }
            Err(Refused {
                refusal: Refusal::Room,
                place: file.len() as u64,
            })
        }
        Err(r) => Err(r),
    }
}

// A row's numbers, each with its sign in two's complement, from byte `at` on.
fn put_row(row: Row, out: &mut [u8], at: usize)
    requires { at + length (encoded (numbers_of row)) ≤ length out.old }
    ensures { out.new ≡ sets out.old at (encoded (numbers_of row)) }
{
    let numbers = row.numbers();
    for (k, &number) in numbers.iter().enumerate() {
        write64(out, at + NUMBER * k, number.cast_unsigned());
    }
}

// Nine numbers, in front.
fn put_nine(numbers: [u64; SUMMARY], out: &mut [u8])
    requires { (summary_bytes ≤ length out.old) × (length numbers ≡ summary_width) }
    ensures { out.new ≡ sets out.old 0 (in_bytes numbers) }
{
    for (k, &number) in numbers.iter().enumerate() {
        write64(out, NUMBER * k, number);
    }
}

// The counts, the peak and the verdict of a state, in front. A state that was measured is in range, so that there is a verdict.
pub fn put_summary(s: State, out: &mut [u8])
    requires { (summary_bytes ≤ length out.old) × (in_range s ≡ true) }
    ensures { out.new ≡ sets out.old 0 (in_bytes (summary_of s)) }
{
    match s.verdict() {
        Ok(v) => {
            let summary = v.summary(s.past.packets, s.frames.closed, s.bucket.peak);
            put_nine(summary, out);
        }
        Err(_) => {}
    }
}

// The row of the frame that a marker closes now, from byte `at` on; where the next one goes.
pub fn put_closed(s: State, rules: Rules, out: &mut [u8], at: usize) -> usize
    requires { LayAsks row_bytes rules s at (length out.old) }
    ensures { Put (row_bytes (closing rules s)) at out.old result out.new }
{
    if s.frames.begun {
        put_row(s.row(rules), out, at);
        return at + ROW_BYTES;
    }
    at
}

// The packets of a file that was asked for and is fine, one by one. The heavy step has this one call site. The rules are taken apart and
// put together again, so that they are held as single numbers: else the loop reads them from memory for each packet.
fn measure(numbers: StreamNumbers, file: &[u8], out: &mut [u8]) -> State
    requires { MeasureAsks numbers file.now (length out.old) }
    ensures { MeasureGives numbers file.now out.old result out.new }
{
    let made = numbers.rules();
    let plan = made.plan;
    let drains = made.drains;
    let rules = Rules {
        plan,
        drains,
        limit: made.limit,
    };
    let mut s = numbers.fresh();
    let mut at = SUMMARY_BYTES;
    let records = &file[record::HEAD_BYTES.min(file.len())..];
    for bytes in records.chunks_exact(record::PACKET_BYTES) {
        let p = record::packet_at(bytes);
        s = s.arrive(rules, p.time, p.stamp);
        if p.marker == 1 {
            at = put_closed(s, rules, out, at);
            s = s.mark(rules, p.time);
        }
    }
    s
}

// A whole file, by an edition of the test plan: the refusal number and nothing written; or 0, and the nine numbers and the rows stand in front.
// The edition stands behind the file, where a program that was compiled before there were editions passes where its bytes are: such a
// number is no edition, and is refused.
#[unsafe(no_mangle)]
pub extern "C" fn vtiming_measure(file: &[u8], edition: u32, out: &mut [u8]) -> u32
    ensures { CallGives edition file.now out.old result out.new }
{
    let asked = ask(file, edition, out.len());
    match asked {
        Ok(numbers) => {
            let s = measure(numbers, file, out);
            put_summary(s, out);
            0
        }
        Err(r) => u32::from(r.refusal),
    }
}

// The twin: where that refusal is, for so many lent bytes.
#[unsafe(no_mangle)]
pub extern "C" fn vtiming_measure_offset(file: &[u8], edition: u32, room: usize) -> u64
    ensures { result ≡ (answer_of edition file.now room).offset }
{
    let asked = ask(file, edition, room);
    match asked {
        Ok(_) => 0,
        Err(r) => r.place,
    }
}

// How many lent bytes are enough for a file's report, whatever the edition; 0 for a file that is refused.
#[unsafe(no_mangle)]
pub extern "C" fn vtiming_measure_room(file: &[u8]) -> u64
    ensures { result ≡ room_of file.now }
{
    match record::check(FIRST_EDITION, file) {
        Ok(checked) => NUMBER as u64 * (SUMMARY as u64 + checked.closed * frame::ROW as u64),
        Err(_) => 0,
    }
}

// A record file written, whose profile is told by the kind of its parameter record: the refusal number and nothing written; or 0, and the
// file stands in front. The kind stands in front of the arrivals, where a program that was compiled before there were profiles passes where
// its arrivals are: they are aligned, so that such a number is no kind of a profile, and is refused.
#[unsafe(no_mangle)]
pub extern "C" fn vtiming_write(
    version: u8,
    rate: u8,
    schedule: u8,
    class: u8,
    height: u16,
    n: u32,
    maxudp: u16,
    tro: u32,
    profile: u8,
    arrivals: &[u64],
    stamps: &[u32],
    markers: &[u8],
    out: &mut [u8],
) -> u32
    ensures { WriteGives (heading version profile (given rate schedule class height n maxudp tro))
        arrivals.now stamps.now markers.now out.old result out.new }
{
    let numbers = Parameters {
        rate,
        schedule,
        class,
        height,
        n,
        maxudp,
        tro,
    };
    match record::write(version, profile, numbers, arrivals, stamps, markers, out) {
        Ok(_) => 0,
        Err(r) => u32::from(r.refusal),
    }
}

// The twin: the place of the packet that is refused.
#[unsafe(no_mangle)]
pub extern "C" fn vtiming_write_place(
    version: u8,
    rate: u8,
    schedule: u8,
    class: u8,
    height: u16,
    n: u32,
    maxudp: u16,
    tro: u32,
    profile: u8,
    arrivals: &[u64],
    stamps: &[u32],
    markers: &[u8],
    room: usize,
) -> u64
    ensures { result ≡ written_place (written_of (heading version profile (given rate schedule class height n maxudp tro))
        arrivals.now stamps.now markers.now room) }
{
    let numbers = Parameters {
        rate,
        schedule,
        class,
        height,
        n,
        maxudp,
        tro,
    };
    match record::would_write(version, profile, numbers, arrivals, stamps, markers, room) {
        Ok(_) => 0,
        Err(r) => r.place,
    }
}

// The seven numbers and the profile put together, where set-up is told nothing else.
fn stated(
    rate: u8,
    schedule: u8,
    class: u8,
    height: u16,
    n: u32,
    maxudp: u16,
    tro: u32,
    profile: u8,
) -> Stated
    ensures { result ≡ first_stated profile (given rate schedule class height n maxudp tro) }
{
    let told = Parameters {
        rate,
        schedule,
        class,
        height,
        n,
        maxudp,
        tro,
    };
    Stated {
        kind: profile,
        parameters: told,
        edition: FIRST_EDITION,
    }
}

// F and TRO in grains, C_MAX and VRX_FULL in packets; or 22, 1 to 7, then 15, and nothing written.
#[unsafe(no_mangle)]
pub extern "C" fn vtiming_limits(
    rate: u8,
    schedule: u8,
    class: u8,
    height: u16,
    n: u32,
    maxudp: u16,
    tro: u32,
    profile: u8,
    out: &mut [u64],
) -> u32
    ensures { LimitsGives (first_stated profile (given rate schedule class height n maxudp tro)) out.old result out.new }
{
    let asked = stated(rate, schedule, class, height, n, maxudp, tro, profile);
    if let Err(refusal) = asked.check() {
        return u32::from(refusal);
    }
    if out.len() < 4 {
        return u32::from(Refusal::Room);
    }
    let numbers = asked.numbers();
    let rules = numbers.rules();
    out[0] = numbers.frame_length();
    out[1] = rules.plan.tro;
    out[2] = rules.limit;
    out[3] = rules.plan.full;
    0
}

// Three numbers in front; or 15, and nothing written.
fn put_three(a: u64, b: u64, c: u64, out: &mut [u64]) -> u32
    ensures { ThreeGive a b c out.old result out.new }
{
    if out.len() < 3 {
        return u32::from(Refusal::Room);
    }
    out[0] = a;
    out[1] = b;
    out[2] = c;
    0
}

// How long it is from a packet at `arrival` to the next read of its frame, whose first packet came at `first`: 1, numerator and
// denominator, in grains, or 0, 0 and 0 where no read is left; or 22, 1 to 7, 12 or 13, then 15, and nothing written.
#[unsafe(no_mangle)]
pub extern "C" fn vtiming_next_read(
    rate: u8,
    schedule: u8,
    class: u8,
    height: u16,
    n: u32,
    maxudp: u16,
    tro: u32,
    profile: u8,
    first: u64,
    arrival: u64,
    out: &mut [u64],
) -> u32
    ensures { NextReadGives (first_stated profile (given rate schedule class height n maxudp tro)) first arrival
        out.old result out.new }
{
    let asked = stated(rate, schedule, class, height, n, maxudp, tro, profile);
    match asked.next_read(first, arrival) {
        Ok(Some(wait)) => put_three(1, wait.num, wait.den, out),
        Ok(None) => put_three(0, 0, 0, out),
        Err(refusal) => u32::from(refusal),
    }
}

// FPT, margin and VL in microseconds; or 16, then 15, and nothing written.
#[unsafe(no_mangle)]
pub extern "C" fn vtiming_graph(fpt: i64, margin: i64, latency: i64, out: &mut [f64]) -> u32
    ensures { DrawGives fpt margin latency out.old result out.new }
{
    match timing::draw(fpt, margin, latency) {
        Ok(g) => {
            if out.len() < 3 {
                return u32::from(Refusal::Room);
            }
            out[0] = g.fpt;
            out[1] = g.margin;
            out[2] = g.latency;
            0
        }
        Err(refusal) => u32::from(refusal),
    }
}
