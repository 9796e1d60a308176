// The words that the program for captures is called with: the number that a word is, and what eleven numbers ask.
// It knows decimal digits, and from `reel` what is asked. It must never know where the words come from, nor what a number may be: of
// each place it knows one number that is refused, and the refusal itself is the profile's, set-up's and the offset's.
#![tactic(auto)]

ghost use Rattle.std.specs.Prelude.{◌≡◌, ◌≤◌};
ghost use Rattle.laws.specs.Kit.{length};
ghost use Rattle.words.specs.Paper.{number_in, most_digits, word_of, given_of};

use limits::Parameters;
use reel::Asked;
use timing::Stated;

// The eleven numbers in the order of the words.
#[derive(Clone, Copy, Debug, PartialEq, Eq)]
pub struct Numbers {
    pub port: u64,
    pub offset: u64,
    pub rate: u64,
    pub schedule: u64,
    pub class: u64,
    pub height: u64,
    pub n: u64,
    pub maxudp: u64,
    pub tro: u64,
    pub profile: u64,
    pub edition: u64,
}

// Every number of so many digits lies within 64 bits.
const DIGITS: usize = 19;

// The digits from the left, up to the first byte that is none.
#[tactic(auto, using(crate::proofs::Reading::bytes))]
fn number_in(word: &[u8]) -> Option<u64>
    requires { length word.now ≤ most_digits }
    ensures { result ≡ number_in word.now }
{
    let mut value = 0;
    for &c in word {
        if !c.is_ascii_digit() {
            return None;
        }
        value = value * 10 + u64::from(c - b'0');
    }
    Some(value)
}

// The number that a word is (R18). An empty word is none, nor is one that might leave 64 bits.
#[tactic(auto, using(crate::proofs::Reading::ways_out))]
pub fn number_of(word: &[u8]) -> Option<u64>
    ensures { result ≡ word_of word.now }
{
    if word.is_empty() || DIGITS < word.len() {
        return None;
    }
    number_in(word)
}

// What they ask; none where they are no call (R18). What stands instead of a number that does not fit is refused by the same refusal: a TRO of
// all ones would be the default, so it is one less. No port can be told instead of one that does not fit: it would be another stream.
pub fn given_by(numbers: Numbers) -> Option<Asked>
    ensures { result ≡ given_of numbers }
{
    let Ok(port) = u16::try_from(numbers.port) else {
        return None;
    };
    Some(Asked {
        stated: Stated {
            kind: u8::try_from(numbers.profile).unwrap_or(u8::MAX),
            parameters: Parameters {
                rate: u8::try_from(numbers.rate).unwrap_or(u8::MAX),
                schedule: u8::try_from(numbers.schedule).unwrap_or(u8::MAX),
                class: u8::try_from(numbers.class).unwrap_or(u8::MAX),
                height: u16::try_from(numbers.height).unwrap_or(0),
                n: u32::try_from(numbers.n).unwrap_or(u32::MAX),
                maxudp: u16::try_from(numbers.maxudp).unwrap_or(u16::MAX),
                tro: u32::try_from(numbers.tro).unwrap_or(u32::MAX - 1),
            },
            edition: u32::try_from(numbers.edition).unwrap_or(u32::MAX),
        },
        port,
        offset: u32::try_from(numbers.offset).unwrap_or(u32::MAX),
    })
}
