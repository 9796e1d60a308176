// How the program's lines are written, into lent bytes: a number in decimal, a row's line, and the last line of a file that was
// measured or refused.
// It knows `frame` and `bucket`, for what a row and the answers are. It must never know how they came about, nor where the bytes go.
#![tactic(auto)]

ghost use Rattle.std.specs.Prelude.{◌++◌, ◌+◌, ◌*◌, ◌≤◌, ◌<◌, ◌≡◌};
ghost use Rattle.laws.specs.Kit.{length};
ghost use Rattle.frame.specs.Step.{row_width};
ghost use Rattle.text.specs.Decimal.{codes, digits, signed};
ghost use Rattle.text.specs.Lines.{field_room, line_room, Line, Part, fields, row_line, summary_line, capture_line, refusal_line};
ghost use Rattle.text.specs.Lines.{pair_words, count_words, network_words, buffer_words, summary_words};

use bucket::Network;
use frame::{Buffer, ROW, Row};

// No line is longer.
pub const LINE: usize = 256;

// The digits of a tenth of x, and then the last: at most twenty calls deep.
#[tactic(auto, using(crate::proofs::Digits::number_room))]
fn put_number(x: u64, out: &mut [u8], at: usize) -> usize
    requires { at + 20 ≤ length out.old }
    ensures { Part 20 (digits x) at out.old result out.new }
{
    if x < 10 {
        out[at] = b'0' + x as u8;
        return at + 1;
    }
    let next = put_number(x / 10, out, at);
    out[next] = b'0' + (x % 10) as u8;
    next + 1
}

#[tactic(auto, using(crate::proofs::Parts::part_copied))]
fn put_word(word: &[u8], out: &mut [u8], at: usize) -> usize
    requires { at + length word.now ≤ length out.old }
    ensures { Part (length word.now) word.now at out.old result out.new }
{
    let next = at + word.len();
    out[at..next].copy_from_slice(word);
    next
}

// A word and then a number.
fn put_named(word: &[u8], x: u64, out: &mut [u8], at: usize) -> usize
    requires { at + (length word.now + 20) ≤ length out.old }
    ensures { Part (length word.now + 20) (word.now ++ digits x) at out.old result out.new }
{
    let next = put_word(word, out, at);
    put_number(x, out, next)
}

// The size of the least i64 is 2^63, which `unsigned_abs` has room for.
fn put_signed(x: i64, out: &mut [u8], at: usize) -> usize
    requires { at + 21 ≤ length out.old }
    ensures { Part 21 (signed x) at out.old result out.new }
{
    let size = x.unsigned_abs();
    if x < 0 {
        put_named(b"-", size, out, at)
    } else {
        put_number(size, out, at)
    }
}

fn put_field(x: i64, out: &mut [u8], at: usize) -> usize
    requires { at + field_room ≤ length out.old }
    ensures { Part field_room (codes " " ++ signed x) at out.old result out.new }
{
    let next = put_word(b" ", out, at);
    put_signed(x, out, next)
}

fn put_fields(numbers: [i64; ROW], out: &mut [u8], at: usize) -> usize
    requires { at + field_room * row_width ≤ length out.old }
    ensures { Part (field_room * row_width) (fields numbers) at out.old result out.new }
{
    let mut next = at;
    for number in numbers {
        next = put_field(number, out, next);
    }
    next
}

// `frame` and the numbers of a row.
pub fn put_row(row: Row, out: &mut [u8], at: usize) -> usize
    requires { at + line_room ≤ length out.old }
    ensures { Line (row_line row) at out.old result out.new }
{
    let frame = put_word(b"frame", out, at);
    let next = put_fields(row.numbers(), out, frame);
    put_word(b"\n", out, next)
}

fn put_pair(word: &[u8], first: u64, second: u64, out: &mut [u8], at: usize) -> usize
    requires { at + (length word.now + 41) ≤ length out.old }
    ensures { Part (length word.now + 41) (pair_words word.now first second) at
        out.old result out.new }
{
    let next = put_named(word, first, out, at);
    put_named(b" ", second, out, next)
}

fn put_counts(packets: u64, closed: u64, peak: u64, out: &mut [u8], at: usize) -> usize
    requires { at + 82 ≤ length out.old }
    ensures { Part 82 (count_words packets closed peak) at out.old result out.new }
{
    let frames = put_named(b"packets ", packets, out, at);
    let greatest = put_named(b" frames ", closed, out, frames);
    put_named(b" peak ", peak, out, greatest)
}

fn put_network(network: Network, out: &mut [u8], at: usize) -> usize
    requires { at + 56 ≤ length out.old }
    ensures { Part 56 (codes " network " ++ network_words network) at out.old result out.new }
{
    match network {
        Network::Pass => put_word(b" network pass", out, at),
        Network::Burst(run) => put_pair(b" network burst ", run.first, run.last, out, at),
    }
}

fn put_buffer(buffer: Buffer, out: &mut [u8], at: usize) -> usize
    requires { at + 56 ≤ length out.old }
    ensures { Part 56 (codes " buffer " ++ buffer_words buffer) at out.old result out.new }
{
    match buffer {
        Buffer::None => put_word(b" buffer none", out, at),
        Buffer::Pass => put_word(b" buffer pass", out, at),
        Buffer::Under(p) => put_pair(b" buffer under ", p.frame, p.place, out, at),
        Buffer::Over(p) => put_pair(b" buffer over ", p.frame, p.place, out, at),
        Buffer::Broken(b) => put_pair(b" buffer broken ", b.frame, b.kind, out, at),
    }
}

// The counts and the two answers, which every last line begins with.
fn put_sum(
    packets: u64,
    closed: u64,
    peak: u64,
    network: Network,
    buffer: Buffer,
    out: &mut [u8],
    at: usize,
) -> usize
    requires { at + 194 ≤ length out.old }
    ensures { Part 194 (summary_words packets closed peak network buffer) at out.old result out.new }
{
    let counted = put_counts(packets, closed, peak, out, at);
    let judged = put_network(network, out, counted);
    put_buffer(buffer, out, judged)
}

// The last line of a file that was measured.
pub fn put_summary(
    packets: u64,
    closed: u64,
    peak: u64,
    network: Network,
    buffer: Buffer,
    out: &mut [u8],
    at: usize,
) -> usize
    requires { at + line_room ≤ length out.old }
    ensures { Line (summary_line packets closed peak network buffer) at out.old result out.new }
{
    let next = put_sum(packets, closed, peak, network, buffer, out, at);
    put_word(b"\n", out, next)
}

// The last line of a capture that was measured: it goes on with the records read and those of them that were skipped.
pub fn put_capture(
    packets: u64,
    closed: u64,
    peak: u64,
    network: Network,
    buffer: Buffer,
    records: u64,
    skipped: u64,
    out: &mut [u8],
    at: usize,
) -> usize
    requires { at + line_room ≤ length out.old }
    ensures { Line (capture_line packets closed peak network buffer records skipped) at out.old result out.new }
{
    let read = put_sum(packets, closed, peak, network, buffer, out, at);
    let passed = put_named(b" records ", records, out, read);
    let next = put_named(b" skipped ", skipped, out, passed);
    put_word(b"\n", out, next)
}

// The last line of a file that was refused.
pub fn put_refusal(number: u8, offset: u64, out: &mut [u8], at: usize) -> usize
    requires { at + line_room ≤ length out.old }
    ensures { Line (refusal_line number offset) at out.old result out.new }
{
    let next = put_pair(b"refused ", u64::from(number), offset, out, at);
    put_word(b"\n", out, next)
}
