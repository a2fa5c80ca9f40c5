//! How operations are spread over the table of a set.

ghost use Rattle.std.specs.Prelude.{◌≡◌, length};
ghost use Rattle.mapdb_facts.specs.OpHashing.{after_bytes, after_word, little_endian, product};

use crate::limits::PROCESSOR_NUMBERS;
use std::hash::Hasher;

/// The product of a word with this odd number has what the whole word says in its highest bits.
const MULTIPLIER: u64 = 0x9e37_79b9_7f4a_7c15;

/// The lowest two bits of a record's number, in its name as one word.
const NEAR_BITS: u64 = 3 * PROCESSOR_NUMBERS;

/// A hasher of operations, for an `indexmap` table: its entries stand in groups, and the lowest
/// bits of a hash say which group, and bits 24 to 31 are compared there. Four records of one
/// processor whose numbers follow one another have one group, so that the next one's is mostly in
/// the processor's cache; all else has any group. Whoever picks the names can make them collide.
#[derive(Clone, Copy, Debug)]
pub struct OpHasher {
    state: u64,
}

/// A word times an odd number.
fn product(word: u64) -> u64
    ensures { result ≡ product word }
{
    word.wrapping_mul(MULTIPLIER)
}

/// The state after one more word. A first word is the state.
fn after_word(state: u64, word: u64) -> u64
    ensures { result ≡ after_word state word }
{
    product(state).wrapping_add(word)
}

/// The state after bytes that are not eight: each is a word. Operations feed none.
#[cold]
fn after_bytes(state: u64, bytes: &[u8]) -> u64
    ensures { result ≡ after_bytes state bytes.now }
{
    let mut reached = state;
    for byte in bytes {
        reached = after_word(reached, *byte as u64);
    }
    reached
}

/// Eight bytes as a word, the lowest first.
fn little_endian(bytes: &[u8]) -> u64
    requires { length bytes.now ≡ 8 }
    ensures { result ≡ little_endian bytes.now }
{
    u64::from_le_bytes([
        bytes[0], bytes[1], bytes[2], bytes[3], bytes[4], bytes[5], bytes[6], bytes[7],
    ])
}

impl Default for OpHasher {
    ghost use Rattle.mapdb_facts.specs.OpHashing.{initial};

    ghost is_default = { λ hasher. hasher ≡ initial };

    fn default() -> OpHasher {
        OpHasher { state: 0 }
    }
}

impl Hasher for OpHasher {
    ghost use Rattle.mapdb_facts.specs.OpHashing.{finish, written};

    ghost write = { written };

    ghost finish = { finish };

    fn finish(&self) -> u64 {
        let group = product(self.state & !NEAR_BITS) >> 40;
        let compared = product(self.state) >> 56;
        group + compared * (1 << 24)
    }

    fn write(&mut self, bytes: &[u8]) {
        self.state = if bytes.len() == 8 {
            after_word(self.state, little_endian(bytes))
        } else {
            after_bytes(self.state, bytes)
        };
    }
}
