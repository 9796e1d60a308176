// Which frames of a capture are handed on: the headers of Ethernet, IPv4, UDP and RTP, and what is read of a packet.
// It knows how these headers lie one behind the other. It must never know a capture file, a time or what is measured.
// Captured bytes alone decide: no length that a header tells is trusted, but compared with how many bytes were captured.
#![tactic(auto)]

ghost use Rattle.std.specs.Prelude.{◌≡◌, ◌≤◌, ◌<◌};
ghost use Rattle.laws.specs.Kit.{length};
ghost use Rattle.endian.specs.Number.{Room};
ghost use Rattle.headers.specs.Paper.{on_at};
ghost use Rattle.headers.specs.Step.{Shown, Placed, ip_at, ether_fits, ip_fits, udp_at, udp_fits, extension_fits, rtp_fits, plain_fits, handed_of};

use endian::{read16, read32};

// What is handed on of a frame: the timestamp and the marker of its RTP header.
#[derive(Clone, Copy, Debug, PartialEq, Eq)]
pub struct Rtp {
    pub stamp: u32,
    pub marker: u8,
}

// How many bytes of a frame can matter, 14 + 4 + 60 + 8 + 12 + 60 + 4: an extension's words are counted, not read.
pub const MATTER: usize = 162;

// How many the headers of a plain frame have at most, 14 + 4 + 20 + 8 + 12.
const PLAIN: usize = 58;

const TAG: u16 = 0x8100;

const IPV4: u16 = 0x0800;

const UDP: u8 = 17;

const RTP: usize = 12;

// The more-fragments bit and the fragment offset are the lowest 14 bits, the rest by this.
const FRAGMENT: u16 = 16384;

// The first bytes of the plainest headers: IPv4 of five words, and RTP of version 2 with no padding, extension or contributors.
const FIVE_WORDS: u8 = 0x45;

const VERSION_ALONE: u8 = 0x80;

// Where the header of IPv4 is, if there is one: behind one tag, or behind the type.
fn ip_at(b: &[u8]) -> usize
    requires { Room 14 b.now 0 }
    ensures { (result ≡ ip_at b.now) × (14 ≤ result) × (result ≤ 18) }
{
    if read16(b, 12) == TAG { 18 } else { 14 }
}

// The type stands in the two bytes before it.
#[tactic(auto, unfolding(crate::specs::Step::ether_fits, laws::specs::Every::after))]
fn ether_fits(b: &[u8], n: usize, ip: usize) -> bool
    requires { (Placed b.now n ip 18) × (14 ≤ ip) }
    ensures { result ≡ ether_fits b.now n ip }
{
    ip <= n && read16(b, ip - 2) == IPV4
}

//  ip         +6         +9         +20
//  | 4, words | fragment | protocol |
#[tactic(auto, unfolding(crate::specs::Step::ip_fits, laws::specs::Every::after))]
fn ip_fits(b: &[u8], n: usize, ip: usize) -> bool
    requires { Placed b.now n ip 18 }
    ensures { result ≡ ip_fits b.now n ip }
{
    ip + 20 <= n
        && b[ip] / 16 == 4
        && 5 <= b[ip] % 16
        && read16(b, ip + 6) % FRAGMENT == 0
        && b[ip + 9] == UDP
}

fn udp_at(b: &[u8], ip: usize) -> usize
    requires { (Room 1 b.now ip) × (ip ≤ 18) }
    ensures { (result ≡ udp_at b.now ip) × (result ≤ 78) }
{
    ip + 4 * usize::from(b[ip] % 16)
}

//  udp      +2            +4
//  | source | destination |
#[tactic(auto, unfolding(crate::specs::Step::udp_fits, laws::specs::Every::after))]
fn udp_fits(b: &[u8], n: usize, udp: usize, port: u16) -> bool
    requires { Placed b.now n udp 78 }
    ensures { result ≡ udp_fits b.now n udp port }
{
    udp + 8 <= n && read16(b, udp + 2) == port
}

//  end      +2      +4
//  |        | words |
#[tactic(auto, unfolding(crate::specs::Step::extension_fits, laws::specs::Every::after))]
fn extension_fits(b: &[u8], n: usize, end: usize) -> bool
    requires { Placed b.now n end 158 }
    ensures { result ≡ extension_fits b.now n end }
{
    end + 4 <= n && end + 4 + 4 * usize::from(read16(b, end + 2)) <= n
}

//  rtp                         +1       +4          +8
//  | 2, extension, sources     | marker | timestamp |
#[tactic(auto, unfolding(crate::specs::Step::rtp_fits, laws::specs::Every::after))]
fn rtp_fits(b: &[u8], n: usize, rtp: usize) -> bool
    requires { Placed b.now n rtp 86 }
    ensures { result ≡ rtp_fits b.now n rtp }
{
    if n < rtp + RTP || b[rtp] / 64 != 2 {
        return false;
    }
    let end = rtp + 12 + 4 * usize::from(b[rtp] % 16);
    end <= n && (b[rtp] / 16 % 2 != 1 || extension_fits(b, n, end))
}

fn on_at(b: &[u8], rtp: usize) -> Option<Rtp>
    requires { Room 12 b.now rtp }
    ensures { result ≡ on_at b.now rtp }
{
    Some(Rtp {
        stamp: read32(b, rtp + 4),
        marker: b[rtp + 1] / 128,
    })
}

// The frame of most senders: a tag or none, no options, and nothing in RTP's header but its 12 bytes. Then one test of length is enough.
#[tactic(auto, unfolding(crate::specs::Step::plain_fits, laws::specs::Every::after))]
fn plain(b: &[u8], n: usize, port: u16) -> bool
    requires { Shown b.now n }
    ensures { result ≡ plain_fits b.now n port }
{
    if n < PLAIN {
        return false;
    }
    let ip = ip_at(b);
    let udp = ip + 20;
    (read16(b, ip - 2) == IPV4)
        & (b[ip] == FIVE_WORDS)
        & (read16(b, ip + 6) % FRAGMENT == 0)
        & (b[ip + 9] == UDP)
        & (read16(b, udp + 2) == port)
        & (b[udp + 8] == VERSION_ALONE)
}

// Any frame, header by header.
#[tactic(auto, using(crate::proofs::Handing::any_laws))]
fn hand_on_any(b: &[u8], n: usize, port: u16) -> Option<Rtp>
    requires { Shown b.now n }
    ensures { result ≡ handed_of b.now n port }
{
    if n < 14 {
        return None;
    }
    let ip = ip_at(b);
    if !ether_fits(b, n, ip) || !ip_fits(b, n, ip) {
        return None;
    }
    let udp = udp_at(b, ip);
    if !udp_fits(b, n, udp, port) || !rtp_fits(b, n, udp + 8) {
        return None;
    }
    on_at(b, udp + 8)
}

// What is handed on of a frame of `n` captured bytes, of which `b` shows the first, all or at least the 162 that can matter; none where
// it is skipped (R4). The plain frame is looked for first, since it has fewer tests.
#[tactic(auto, using(crate::proofs::AtOnce::plain_room, crate::proofs::AtOnce::plain_handed))]
pub fn hand_on_front(b: &[u8], n: usize, port: u16) -> Option<Rtp>
    requires { Shown b.now n }
    ensures { result ≡ handed_of b.now n port }
{
    if plain(b, n, port) {
        return on_at(b, ip_at(b) + 20 + 8);
    }
    hand_on_any(b, n, port)
}

// The same of a frame that is all there.
pub fn hand_on(frame: &[u8], port: u16) -> Option<Rtp>
    ensures { result ≡ handed_of frame.now (length frame.now) port }
{
    hand_on_front(frame, frame.len(), port)
}
