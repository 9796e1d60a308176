// What a program in C calls for a capture: a whole capture measured into lent bytes. include/vtiming.h documents each function; their names
// are fixed. It has an archive of its own: beside another loop over packets in one archive the heavy step would be a call in both.
// It knows the capture's check and the measurement, and puts them together. It must never know a byte of a header.
#![tactic(auto)]

ghost use Rattle.std.specs.Prelude.{◌≡◌};
ghost use Rattle.laws.specs.Kit.{length, drop};
ghost use Rattle.timing.specs.Feed.{RunAsks, RunGives};
ghost use Rattle.timing.specs.Step.{first_stated, rules_of, fresh_of};
ghost use Rattle.limits.specs.Paper.{given};
ghost use Rattle.capture.specs.Paper.{header_bytes};
ghost use Rattle.capture.specs.Step.{handed_in};
ghost use Rattle.report.specs.Paper.{row_bytes};
ghost use Rattle.film.specs.Paper.{capture_checked, capture_answer, capture_room};
ghost use Rattle.film.specs.Step.{eleven_bytes, weighed_of, FilmAsks, FilmGives, CaptureGives};
ghost use Rattle.refusal.specs.Told.{told};

use capture::{HEADER, Seen, Setting};
use endian::write64;
use limits::{FIRST_EDITION, Parameters};
use packet::Past;
use refusal::{Refusal, Refused};
use report::{NUMBER, SUMMARY_BYTES};
use timing::{Rules, SUMMARY, State, Stated, StreamNumbers};

// A capture's records and those skipped stand behind the nine numbers.
const ELEVEN: usize = SUMMARY + 2;

const ELEVEN_BYTES: usize = NUMBER * ELEVEN;

// The records of a capture, and those of them that are skipped.
#[derive(Clone, Copy, Debug, PartialEq, Eq)]
struct Counts {
    records: u64,
    skipped: u64,
}

// Set-up, then one pass that checks the capture and counts its frames. It writes nothing. Refused as set-up and the check refuse.
#[tactic(auto, unfolding(crate::specs::Paper::capture_checked))]
fn check_capture(stated: Stated, port: u16, offset: u32, capture: &[u8]) -> Result<Seen, Refused>
    ensures { told result ≡ capture_checked stated port offset capture.now }
{
    stated
        .check()
        .map_err(|refusal| Refused { refusal, place: 0 })?;
    capture::check(Past::none(), false, port, offset, capture)
}

// The same, then the room, by 15. The first packet of a capture has place 0.
#[tactic(auto, using(crate::proofs::Filming::weighing))]
fn weigh(
    stated: Stated,
    port: u16,
    offset: u32,
    capture: &[u8],
    room: usize,
) -> Result<Counts, Refused>
    ensures { told result ≡ weighed_of stated port offset capture.now room }
{
    let seen = check_capture(stated, port, offset, capture)?;
    if !report::fits(ELEVEN, seen.tally.closed as u64, room) {
        return Err(Refused {
            refusal: Refusal::Room,
            place: 0,
        });
    }
    Ok(Counts {
        records: seen.records,
        skipped: seen.skipped,
    })
}

// The packets of a capture that was weighed and is fine, one by one, as `measure` takes those of a file. A loop by hand: each packet says
// where the search for the next one begins.
fn film_packets(numbers: StreamNumbers, setting: Setting, capture: &[u8], out: &mut [u8]) -> State
    requires { RunAsks row_bytes (rules_of numbers) (fresh_of numbers) (handed_in setting (drop header_bytes capture.now)) eleven_bytes
        (length out.old) }
    ensures { RunGives row_bytes (rules_of numbers) (fresh_of numbers) (handed_in setting (drop header_bytes capture.now))
        eleven_bytes out.old result out.new }
{
    let made = numbers.rules();
    let plan = made.plan;
    let drains = made.drains;
    let rules = Rules {
        plan,
        drains,
        limit: made.limit,
    };
    let mut s = numbers.fresh();
    let mut from = HEADER;
    let mut at = ELEVEN_BYTES;
    loop {
        let Some(found) = setting.seek(capture, from) else {
            return s;
        };
        let packet = found.packet;
        s = s.arrive(rules, packet.time, packet.stamp);
        if packet.marker == 1 {
            at = report::put_closed(s, rules, out, at);
            s = s.mark(rules, packet.time);
        }
        from = found.next;
    }
}

// The same from the header on.
fn film(numbers: StreamNumbers, port: u16, offset: u32, capture: &[u8], out: &mut [u8]) -> State
    requires { FilmAsks numbers port offset capture.now (length out.old) }
    ensures { FilmGives numbers port offset capture.now out.old result out.new }
{
    let Some(format) = capture::format_of(capture) else {
        return numbers.fresh();
    };
    film_packets(
        numbers,
        Setting {
            format,
            port,
            offset,
        },
        capture,
        out,
    )
}

// A whole capture of a profile, by an edition of the test plan: the refusal number and nothing written; or 0, and the eleven numbers and the rows
// stand in front.
#[unsafe(no_mangle)]
pub extern "C" fn vtiming_capture(
    capture: &[u8],
    port: u16,
    offset: u32,
    rate: u8,
    schedule: u8,
    class: u8,
    height: u16,
    n: u32,
    maxudp: u16,
    tro: u32,
    profile: u8,
    edition: u32,
    out: &mut [u8],
) -> u32
    ensures { CaptureGives (record { kind = profile; parameters = given rate schedule class height n maxudp tro; edition = edition })
        port offset capture.now out.old result out.new }
{
    let stated = Stated {
        kind: profile,
        parameters: Parameters {
            rate,
            schedule,
            class,
            height,
            n,
            maxudp,
            tro,
        },
        edition,
    };
    match weigh(stated, port, offset, capture, out.len()) {
        Ok(counts) => {
            let s = film(stated.numbers(), port, offset, capture, out);
            report::put_summary(s, out);
            write64(out, SUMMARY_BYTES, counts.records);
            write64(out, SUMMARY_BYTES + NUMBER, counts.skipped);
            0
        }
        Err(r) => u32::from(r.refusal.number()),
    }
}

// The twin: where that refusal is, for so many lent bytes.
#[unsafe(no_mangle)]
#[tactic(auto, using(crate::proofs::Filming::weighed_answer_lem))]
pub extern "C" fn vtiming_capture_place(
    capture: &[u8],
    port: u16,
    offset: u32,
    rate: u8,
    schedule: u8,
    class: u8,
    height: u16,
    n: u32,
    maxudp: u16,
    tro: u32,
    profile: u8,
    edition: u32,
    room: usize,
) -> u64
    ensures { result ≡ (capture_answer (record { kind = profile; parameters = given rate schedule class height n maxudp tro; edition = edition })
        port offset capture.now room).offset }
{
    let stated = Stated {
        kind: profile,
        parameters: Parameters {
            rate,
            schedule,
            class,
            height,
            n,
            maxudp,
            tro,
        },
        edition,
    };
    match weigh(stated, port, offset, capture, room) {
        Ok(_) => 0,
        Err(r) => r.place,
    }
}

// How many lent bytes are enough for a capture's report, whatever the edition; 0 for one that is refused.
#[unsafe(no_mangle)]
#[tactic(auto, using(crate::proofs::Filming::room_laws))]
pub extern "C" fn vtiming_capture_room(
    capture: &[u8],
    port: u16,
    offset: u32,
    rate: u8,
    schedule: u8,
    class: u8,
    height: u16,
    n: u32,
    maxudp: u16,
    tro: u32,
    profile: u8,
) -> u64
    ensures { result ≡ capture_room (first_stated profile (given rate schedule class height n maxudp tro)) port offset
        capture.now }
{
    let plain = Stated {
        kind: profile,
        parameters: Parameters {
            rate,
            schedule,
            class,
            height,
            n,
            maxudp,
            tro,
        },
        edition: FIRST_EDITION,
    };
    match check_capture(plain, port, offset, capture) {
        Ok(seen) => {
            NUMBER as u64 * (ELEVEN as u64 + seen.tally.closed as u64 * frame::ROW as u64)
        }
        Err(_) => 0,
    }
}
