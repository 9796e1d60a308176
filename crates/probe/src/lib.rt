// The measurement for a C program, call after call over its own arrays: a stream is set up, packets are fed. Between the calls
// the program holds the state, as words of 64 bits in the order of docs/STATE.md.
// It knows set-up and feeding, and which number of a state stands in which word. It must never measure anything itself.
#![tactic(auto)]

ghost use Rattle.std.specs.Prelude.{◌≡◌, ◌≤◌, Err};
ghost use Rattle.laws.specs.Kit.{true, length, take, sets};
ghost use Rattle.laws.specs.Every.{flag as flag_of};
ghost use Rattle.refusal.specs.Told.{number_in};
ghost use Rattle.limits.specs.Paper.{given};
ghost use Rattle.timing.specs.Answers.{summary_of};
ghost use Rattle.timing.specs.Range.{in_range};
ghost use Rattle.probe.specs.Words.{state_words, verdict_words, words_of, same as same_of, state_held_by};
ghost use Rattle.probe.specs.Words.{numbers_in, network_in, bucket_in, open_in, buffer_in, frames_in, state_in};
ghost use Rattle.probe.specs.Calls.{SetUpGives, call_of, CallGives, asked_told, asked_of};

use bucket::{Bucket, Network, Run};
use frame::{BrokenFrame, Buffer, Frame, Frames, Place};
use limits::Parameters;
use packet::Past;
use refusal::{Refusal, Refused};
use timing::{SUMMARY, State, Stated, StreamNumbers};

// How many words a state is.
const WORDS: usize = 35;

// Document 01's numbers for the network answer and for the buffer answer.
fn verdict_words(s: State) -> [u64; 6]
    ensures { result ≡ verdict_words s }
{
    let network = s.bucket.network;
    let buffer = s.frames.buffer;
    [
        network.number(),
        network.first(),
        network.last(),
        buffer.number(),
        buffer.frame(),
        buffer.place(),
    ]
}

// A state's words, in the order of docs/STATE.md.
#[tactic(auto, unfolding(crate::specs::Words::words_of))]
fn words_of(s: State) -> [u64; WORDS]
    ensures { result ≡ words_of s }
{
    let verdict = verdict_words(s);
    let numbers = s.numbers;
    let told = numbers.parameters;
    [
        u64::from(told.rate),
        u64::from(told.schedule),
        u64::from(told.class),
        u64::from(told.height),
        u64::from(told.n),
        u64::from(told.maxudp),
        u64::from(told.tro),
        u64::from(numbers.edition),
        u64::from(numbers.profile.kind()),
        s.past.packets,
        s.past.first,
        s.past.last,
        s.bucket.level,
        s.bucket.start,
        s.bucket.peak,
        verdict[0],
        verdict[1],
        verdict[2],
        s.rest,
        s.frames.closed,
        u64::from(s.frames.begun),
        s.frames.marked,
        s.frames.current.held,
        s.frames.current.first,
        u64::from(s.frames.current.stamp),
        s.frames.current.phase,
        s.frames.current.reads,
        s.frames.current.wait,
        s.frames.current.differs,
        s.frames.current.top,
        s.frames.current.late,
        s.frames.current.deficit,
        verdict[3],
        verdict[4],
        verdict[5],
    ]
}

fn numbers_in(words: &[u64]) -> StreamNumbers
    requires { state_words ≤ length words.now }
    ensures { result ≡ numbers_in words.now }
{
    let told = Parameters {
        rate: (words[0] % 256) as u8,
        schedule: (words[1] % 256) as u8,
        class: (words[2] % 256) as u8,
        height: (words[3] % 65536) as u16,
        n: (words[4] % 4294967296) as u32,
        maxudp: (words[5] % 65536) as u16,
        tro: (words[6] % 4294967296) as u32,
    };
    StreamNumbers {
        parameters: told,
        edition: (words[7] % 4294967296) as u32,
        profile: limits::profile_of((words[8] % 256) as u8),
    }
}

fn network_in(number: u64, first: u64, last: u64) -> Network
    ensures { result ≡ network_in number first last }
{
    if number == 0 {
        return Network::Pass;
    }
    Network::Burst(Run { first, last })
}

fn bucket_in(words: &[u64]) -> Bucket
    requires { state_words ≤ length words.now }
    ensures { result ≡ bucket_in words.now }
{
    let network = network_in(words[15], words[16], words[17]);
    Bucket {
        level: words[12],
        start: words[13],
        peak: words[14],
        network,
    }
}

fn open_in(words: &[u64]) -> Frame
    requires { state_words ≤ length words.now }
    ensures { result ≡ open_in words.now }
{
    Frame {
        held: words[22],
        first: words[23],
        stamp: (words[24] % 4294967296) as u32,
        phase: words[25],
        differs: words[28],
        reads: words[26],
        wait: words[27],
        top: words[29],
        deficit: words[31],
        late: words[30],
    }
}

fn buffer_in(number: u64, frame: u64, place: u64) -> Buffer
    ensures { result ≡ buffer_in number frame place }
{
    if number == 0 {
        return Buffer::None;
    }
    if number == 1 {
        return Buffer::Pass;
    }
    let at = Place { frame, place };
    if number == 2 {
        return Buffer::Under(at);
    }
    if number == 3 {
        return Buffer::Over(at);
    }
    Buffer::Broken(BrokenFrame { frame, kind: place })
}

fn frames_in(words: &[u64]) -> Frames
    requires { state_words ≤ length words.now }
    ensures { result ≡ frames_in words.now }
{
    let current = open_in(words);
    let buffer = buffer_in(words[32], words[33], words[34]);
    Frames {
        begun: words[20] == 1,
        closed: words[19],
        marked: words[21],
        current,
        buffer,
    }
}

// What so many words are read as, whatever they are; `read` says whether they are a state's.
#[tactic(auto, unfolding(crate::specs::Words::state_in))]
fn state_in(words: &[u64]) -> State
    requires { state_words ≤ length words.now }
    ensures { result ≡ state_in words.now }
{
    let past = Past {
        packets: words[9],
        first: words[10],
        last: words[11],
    };
    State {
        numbers: numbers_in(words),
        past,
        rest: words[18],
        bucket: bucket_in(words),
        frames: frames_in(words),
    }
}

// Whether the two are alike. Compiled from `==` of slices, a call takes a tenth more instructions.
fn same(a: &[u64], b: &[u64]) -> bool
    ensures { result ≡ same_of a.now b.now }
{
    if a.len() != b.len() {
        return false;
    }
    for k in 0..a.len() {
        let differ = a[k] != b[k];
        if differ {
            return false;
        }
    }
    true
}

// The state whose words stand in front; none where they are no state's (X7). They are read, written again and compared, so that each range of
// a field, each flag and each answer is tested in one place.
#[tactic(auto, using(crate::proofs::RoundTrip::too_few, crate::proofs::RoundTrip::held_known, crate::proofs::RoundTrip::held_nothing))]
fn read(words: &[u64]) -> Option<State>
    ensures { result ≡ state_held_by (take state_words words.now) }
{
    if words.len() < WORDS {
        return None;
    }
    let front = &words[..WORDS];
    let s = state_in(front);
    let again = words_of(s);
    if same(&again, front) {
        return Some(s);
    }
    None
}

// Numbers in front of a lent slice; what stands behind them stays.
#[tactic(auto, using(laws::proofs::Lay::sets_front))]
fn lay(from: &[u64], to: &mut [u64])
    requires { length from.now ≤ length to.old }
    ensures { to.new ≡ sets to.old 0 from.now }
{
    to[..from.len()].copy_from_slice(from);
}

fn lay_words(s: State, words: &mut [u64])
    requires { state_words ≤ length words.old }
    ensures { words.new ≡ sets words.old 0 (words_of s) }
{
    lay(&words_of(s), words);
}

// The counts, the peak and the verdict of a state. The state of an accepted call is in range, so that there is a verdict.
fn summarise(s: State, out: &mut [u64])
    requires { (9 ≤ length out.old) × (in_range s ≡ true) }
    ensures { out.new ≡ sets out.old 0 (summary_of s) }
{
    if let Ok(verdict) = s.verdict() {
        let nine = verdict.summary(s.past.packets, s.frames.closed, s.bucket.peak);
        lay(&nine, out);
    }
}

// A call that is refused, and the place.
fn refused(refusal: Refusal, place: u64) -> Result<(), Refused>
    ensures { result ≡ Err (record { refusal = refusal; place = place }) }
{
    Err(Refused { refusal, place })
}

// Whether a call is accepted that lends room for so many row numbers and so many of the summary; else 9, 10, 11 to 14 or 15, in that order
// (N10). It writes nothing.
fn ask(
    words: &[u64],
    arrivals: &[u64],
    stamps: &[u32],
    markers: &[u8],
    room: usize,
    space: usize,
) -> Result<(), Refused>
    ensures { asked_told result ≡ asked_of words.now arrivals.now stamps.now markers.now room space }
{
    let Some(s) = read(words) else {
        return refused(Refusal::State, 0);
    };
    if !s.in_range() {
        return refused(Refusal::State, 0);
    }
    let closed = s.past.scan(s.frames.begun, arrivals, stamps, markers)?;
    let few = space < SUMMARY;
    if room / frame::ROW < closed || few {
        return refused(Refusal::Room, s.past.packets);
    }
    Ok(())
}

// What C is told: 0, or the refusal's number.
fn code(answer: Result<(), Refusal>) -> u32
    ensures { result ≡ number_in answer }
{
    match answer {
        Ok(()) => 0,
        Err(refusal) => u32::from(refusal.number()),
    }
}

// The fresh state's words in front; or 22, 1 to 8, then 15 for too few words, and nothing written (X8, N2).
fn set_up(stated: Stated, state: &mut [u64]) -> Result<(), Refusal>
    ensures { SetUpGives stated state.old (number_in result) state.new }
{
    stated.check()?;
    if state.len() < WORDS {
        return Err(Refusal::Room);
    }
    lay_words(stated.numbers().fresh(), state);
    Ok(())
}

// A stream set up: 22 for a kind that stands for no profile, 1 to 8, then 15 for too few words, and nothing written; or 0, and the fresh
// state's words stand in front.
#[unsafe(no_mangle)]
pub extern "C" fn vtiming_set_up(
    rate: u8,
    schedule: u8,
    class: u8,
    height: u16,
    n: u32,
    maxudp: u16,
    tro: u32,
    profile: u8,
    edition: u32,
    state: &mut [u64],
) -> u32
    ensures { SetUpGives (record { kind = profile; parameters = given rate schedule class height n maxudp tro; edition = edition })
        state.old result state.new }
{
    let told = Parameters {
        rate,
        schedule,
        class,
        height,
        n,
        maxudp,
        tro,
    };
    let stated = Stated {
        kind: profile,
        parameters: told,
        edition,
    };
    code(set_up(stated, state))
}

// What a call writes; or 9, 10, 11 to 14, then 15, and nothing written (X8, N10).
fn feed(
    state: &mut [u64],
    arrivals: &[u64],
    stamps: &[u32],
    markers: &[u8],
    rows: &mut [i64],
    out: &mut [u64],
) -> Result<(), Refusal>
    ensures { CallGives (call_of state.old rows.old out.old arrivals.now stamps.now
        markers.now) (number_in result) state.new rows.new out.new }
{
    if out.len() < SUMMARY {
        return match ask(state, arrivals, stamps, markers, rows.len(), out.len()) {
            Ok(()) => Ok(()),
            Err(r) => Err(r.refusal),
        };
    }
    let Some(s) = read(state) else {
        return Err(Refusal::State);
    };
    match s.feed(arrivals, stamps, markers, rows) {
        Ok(next) => {
            lay_words(next, state);
            summarise(next, out);
            Ok(())
        }
        Err(r) => Err(r.refusal),
    }
}

// A call's packets: 9, 10, 11 to 14, then 15 for too few row numbers or fewer than nine of the summary, and nothing written; or 0,
// the state's words after the call, a row for each frame closed, and the nine numbers, each in front.
#[unsafe(no_mangle)]
pub extern "C" fn vtiming_feed(
    state: &mut [u64],
    arrivals: &[u64],
    stamps: &[u32],
    markers: &[u8],
    rows: &mut [i64],
    out: &mut [u64],
) -> u32
    ensures { CallGives (call_of state.old rows.old out.old arrivals.now stamps.now
        markers.now) result state.new rows.new out.new }
{
    code(feed(state, arrivals, stamps, markers, rows, out))
}

// The twin: the place of that refusal, for so many row numbers and so many of the summary.
#[unsafe(no_mangle)]
pub extern "C" fn vtiming_feed_place(
    state: &[u64],
    arrivals: &[u64],
    stamps: &[u32],
    markers: &[u8],
    room: usize,
    space: usize,
) -> u64
    ensures { result ≡ (asked_of state.now arrivals.now stamps.now markers.now room space
        ).place }
{
    match ask(state, arrivals, stamps, markers, room, space) {
        Ok(()) => 0,
        Err(r) => r.place,
    }
}
