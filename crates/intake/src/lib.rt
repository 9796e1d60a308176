// A capture fed to a measurement: the check of the whole capture, then its packets, one by one, in the state and the lent rows.
// It knows the capture's reader and the measurement, and puts them together. It must never know a byte of a header.
#![tactic(auto)]

ghost use Rattle.laws.specs.Kit.{length, drop};
ghost use Rattle.timing.specs.Step.{numbers};
ghost use Rattle.timing.specs.Feed.{RunAsks, RunGives};
ghost use Rattle.capture.specs.Paper.{header_bytes};
ghost use Rattle.capture.specs.Step.{handed_in};
ghost use Rattle.intake.specs.Paper.{packets_of, capture_of, taken_told, TakeGives};

use capture::{HEADER, Setting};
use refusal::Refusal;
use timing::{RefusedCall, Rules, State};

// A call that is accepted: the state after the capture's packets, how many packets it handed on and how many records it skipped.
#[derive(Clone, Copy, Debug, PartialEq, Eq)]
pub struct AcceptedCall {
    pub state: State,
    pub packets: u64,
    pub skipped: u64,
}

// The packets of a capture that was checked, one by one; a row is laid where a frame closes. The heavy step has this one call site. A loop
// by hand: each packet says where the search for the next one begins.
fn run_packets(
    state: State,
    rules: Rules,
    setting: Setting,
    bytes: &[u8],
    rows: &mut [i64],
) -> State
    requires { RunAsks numbers rules state (handed_in setting (drop header_bytes bytes.now)) 0 (length rows.old) }
    ensures { RunGives numbers rules state (handed_in setting (drop header_bytes bytes.now)) 0
        rows.old result rows.new }
{
    let mut s = state;
    let mut from = HEADER;
    let mut at = 0;
    loop {
        let Some(found) = setting.seek(bytes, from) else {
            return s;
        };
        let packet = found.packet;
        s = s.arrive(rules, packet.time, packet.stamp);
        if packet.marker == 1 {
            at = s.lay_row(rules, rows, at);
            s = s.mark(rules, packet.time);
        }
        from = found.next;
    }
}

// The same from the header on.
fn run(state: State, rules: Rules, port: u16, offset: u32, bytes: &[u8], rows: &mut [i64]) -> State
    requires { RunAsks numbers rules state (packets_of port offset bytes.now) 0 (length rows.old) }
    ensures { RunGives numbers rules state (packets_of port offset bytes.now) 0 rows.old result rows.new }
{
    let Some(format) = capture::format_of(bytes) else {
        return state;
    };
    run_packets(
        state,
        rules,
        Setting {
            format,
            port,
            offset,
        },
        bytes,
        rows,
    )
}

// A capture's packets to `port`, `offset` seconds added to the capture's clock. Refused, by 9, 33, 30, then record by record 31, 32 and 12
// to 14, then 15, it accepts none of them, and state and rows are as they were. Accepted, a row is written for each frame closed, from
// the start of `rows` on, and the rest of `rows` stays.
#[tactic(auto, using(crate::proofs::Taking::refusals))]
pub fn feed(
    state: State,
    port: u16,
    offset: u32,
    bytes: &[u8],
    rows: &mut [i64],
) -> Result<AcceptedCall, RefusedCall>
    ensures { TakeGives (capture_of state rows.old port offset bytes.now) (taken_told result) rows.new }
{
    if !state.in_range() {
        return Err(RefusedCall {
            refusal: Refusal::State,
            place: 0,
            state,
        });
    }
    match capture::check(state.past, state.frames.begun, port, offset, bytes) {
        Ok(seen) => {
            if rows.len() / frame::ROW < seen.tally.closed {
                return Err(RefusedCall {
                    refusal: Refusal::Room,
                    place: state.past.packets,
                    state,
                });
            }
            let next = run(state, state.numbers.rules(), port, offset, bytes, rows);
            Ok(AcceptedCall {
                state: next,
                packets: seen.records - seen.skipped,
                skipped: seen.skipped,
            })
        }
        Err(r) => Err(RefusedCall {
            refusal: r.refusal,
            place: r.place,
            state,
        }),
    }
}
