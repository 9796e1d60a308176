// Numbers of two, four and eight bytes, the highest byte first, read from and written to lent bytes; of two and four, read in
// either order.
// It knows bytes and numbers. It must never know what a number means: a file's layout lies above.
#![tactic(auto)]

ghost use Rattle.std.specs.Prelude.{◌≡◌};
ghost use Rattle.laws.specs.Kit.{sets};
ghost use Rattle.endian.specs.Number.{number_at, bytes_of, Room};
ghost use Rattle.endian.specs.Order.{number_by};

// Which byte of a number stands first: the highest, or the lowest.
#[derive(Clone, Copy, Debug, PartialEq, Eq)]
pub enum Order {
    Big,
    Little,
}

// The number that the bytes at `at` are. Each read is one load, its bytes turned, and each write one store.
#[tactic(auto, unfolding(crate::specs::Number::number_of))]
pub fn read16(s: &[u8], at: usize) -> u16
    requires { Room 2 s.now at }
    ensures { result ≡ number_at 2 s.now at }
{
    u16::from_be_bytes([s[at], s[at + 1]])
}

#[tactic(auto, unfolding(crate::specs::Number::number_of))]
pub fn read32(s: &[u8], at: usize) -> u32
    requires { Room 4 s.now at }
    ensures { result ≡ number_at 4 s.now at }
{
    u32::from_be_bytes([s[at], s[at + 1], s[at + 2], s[at + 3]])
}

#[tactic(auto, unfolding(crate::specs::Number::number_of))]
pub fn read64(s: &[u8], at: usize) -> u64
    requires { Room 8 s.now at }
    ensures { result ≡ number_at 8 s.now at }
{
    u64::from_be_bytes([
        s[at],
        s[at + 1],
        s[at + 2],
        s[at + 3],
        s[at + 4],
        s[at + 5],
        s[at + 6],
        s[at + 7],
    ])
}

// The same of two bytes in the order that is named.
#[tactic(auto, unfolding(crate::specs::Number::number_of))]
pub fn read16_by(order: Order, s: &[u8], at: usize) -> u16
    requires { Room 2 s.now at }
    ensures { result ≡ number_by order 2 s.now at }
{
    let bytes = [s[at], s[at + 1]];
    match order {
        Order::Big => u16::from_be_bytes(bytes),
        Order::Little => u16::from_le_bytes(bytes),
    }
}

// And of four.
#[tactic(auto, unfolding(crate::specs::Number::number_of))]
pub fn read32_by(order: Order, s: &[u8], at: usize) -> u32
    requires { Room 4 s.now at }
    ensures { result ≡ number_by order 4 s.now at }
{
    let bytes = [s[at], s[at + 1], s[at + 2], s[at + 3]];
    match order {
        Order::Big => u32::from_be_bytes(bytes),
        Order::Little => u32::from_le_bytes(bytes),
    }
}

// And written, the highest byte first; the bytes around it stay.
pub fn write16(d: &mut [u8], at: usize, x: u16)
    requires { Room 2 d.old at }
    ensures { d.new ≡ sets d.old at (bytes_of 2 x) }
{
    d[at..at + 2].copy_from_slice(&x.to_be_bytes());
}

pub fn write32(d: &mut [u8], at: usize, x: u32)
    requires { Room 4 d.old at }
    ensures { d.new ≡ sets d.old at (bytes_of 4 x) }
{
    d[at..at + 4].copy_from_slice(&x.to_be_bytes());
}

pub fn write64(d: &mut [u8], at: usize, x: u64)
    requires { Room 8 d.old at }
    ensures { d.new ≡ sets d.old at (bytes_of 8 x) }
{
    d[at..at + 8].copy_from_slice(&x.to_be_bytes());
}
