// XXTEA over a lent slice of words, in place, and over a block of 16 bytes. The definitions that the contracts cite
// are in specs/Xxtea.antt and specs/Block.antt.
#![tactic(auto)]

ghost use Rattle.std.specs.Prelude.{◌≡◌, ◌+◌, ◌*◌, ◌%◌, ◌^◌, ◌≤◌, length};
ghost use Rattle.xxtea.specs.Xxtea.{taken, rounds_for, sum_in, mix, key_word, round, up, down, enciphered, deciphered, refusal, refused};
ghost use Rattle.xxtea.specs.Block.{words_of, bytes_of, block_by};

use std::error::Error;
use std::{array, fmt};

const D: u32 = 0x9E37_79B9;

// The refusal of a word count outside 2 to 1,024. Its number is 17 (`refusal`).
#[derive(Clone, Copy, Debug, PartialEq, Eq)]
pub struct WrongLength;

impl fmt::Display for WrongLength {
    ghost use Rattle.std.specs.Prelude.{Some, codes};

    ghost output = { λ _. Some (codes "a word count outside 2 to 1,024") };

    fn fmt<W: fmt::Write>(&self, f: &mut fmt::Formatter<W>) -> fmt::Result {
        f.write_str("a word count outside 2 to 1,024")
    }
}

impl Error for WrongLength {}

// Whether the cipher takes n words.
fn taken(n: usize) -> bool
    ensures { result ≡ taken n }
{
    (2..=1024).contains(&n)
}

// Rounds for n words: none where the length is refused.
#[tactic(auto, unfolding(crate::specs::Xxtea::rounds_for))]
pub fn rounds_for(n: usize) -> u32
    ensures { result ≡ rounds_for n }
{
    if taken(n) { 6 + 52 / n as u32 } else { 0 }
}

// The sum in round r, the rounds counted from 1.
#[tactic(auto, using(crate::proofs::Laws::sum_is_product))]
pub fn sum_in(r: u32) -> u32
    ensures { result ≡ sum_in r }
{
    r.wrapping_mul(D)
}

// The mix for word p, with its previous word z and its next word y.
#[tactic(auto, using(crate::proofs::Laws::key_at), unfolding(crate::specs::Xxtea::mix))]
fn mix(z: u32, y: u32, sum: u32, key: &[u32; 4], p: usize) -> u32
    ensures { result ≡ mix z y sum (key_word key.now sum p) }
{
    let e = (sum / 4 % 4) as usize;
    let k = key[p % 4 ^ e];
    // y << 2 is the last use of y: of the orders tried, this one measured fastest.
    let right = y >> 3 ^ z << 4;
    let summed = sum ^ y;
    let left = z >> 5 ^ y << 2;
    left.wrapping_add(right) ^ summed.wrapping_add(k ^ z)
}

// A round for each direction, as published: one over a trait for the direction proves and is as fast, but takes 90 lines
// for the 64 of the two rounds and the two loops over rounds, and a function for each word's place.

// A round of enciphering. x is word p and z the one before it: the loop reads each word once.
fn round_up(words: &mut [u32], key: &[u32; 4], sum: u32)
    requires { 2 ≤ length words.old }
    ensures { words.new ≡ round up key.now sum words.old }
{
    let last = words.len() - 1;
    let mut z = words[last];
    let mut x = words[0];
    for p in 0..last {
        let y = words[p + 1];
        z = x.wrapping_add(mix(z, y, sum, key, p));
        words[p] = z;
        x = y;
    }
    words[last] = x.wrapping_add(mix(z, words[0], sum, key, last));
}

// A round of deciphering, downwards. x is word p + 1 and y the one after it.
fn round_down(words: &mut [u32], key: &[u32; 4], sum: u32)
    requires { 2 ≤ length words.old }
    ensures { words.new ≡ round down key.now sum words.old }
{
    let last = words.len() - 1;
    let mut y = words[0];
    let mut x = words[last];
    for p in (0..last).rev() {
        let z = words[p];
        y = x.wrapping_sub(mix(z, y, sum, key, p + 1));
        words[p + 1] = y;
        x = z;
    }
    words[0] = x.wrapping_sub(mix(words[last], y, sum, key, 0));
}

// Refuses a length that the cipher does not take.
fn check_length(n: usize) -> Result<(), WrongLength>
    ensures { refusal result ≡ refused n }
{
    if taken(n) { Ok(()) } else { Err(WrongLength) }
}

// Enciphers 2 to 1,024 words; any other number is refused, and no word changes.
#[tactic(auto, using(crate::proofs::Inverse::refused_unchanged))]
pub fn encipher(words: &mut [u32], key: [u32; 4]) -> Result<(), WrongLength>
    ensures answer { refusal result ≡ refused (length words.old) }
    ensures words { words.new ≡ enciphered key words.old }
{
    let n = words.len();
    check_length(n)?;
    let rounds = rounds_for(n);
    for r in 0..rounds {
        round_up(words, &key, sum_in(r + 1));
    }
    Ok(())
}

// Deciphers, and refuses as `encipher` does.
#[tactic(auto, using(crate::proofs::Inverse::refused_unchanged))]
pub fn decipher(words: &mut [u32], key: [u32; 4]) -> Result<(), WrongLength>
    ensures answer { refusal result ≡ refused (length words.old) }
    ensures words { words.new ≡ deciphered key words.old }
{
    let n = words.len();
    check_length(n)?;
    let rounds = rounds_for(n);
    for r in (0..rounds).rev() {
        round_down(words, &key, sum_in(r + 1));
    }
    Ok(())
}

fn words_of(bytes: [u8; 16]) -> [u32; 4]
    ensures { result ≡ words_of bytes }
{
    let (words, _) = bytes.as_chunks();
    array::from_fn(|i| u32::from_le_bytes(words[i]))
}

fn bytes_of(words: [u32; 4]) -> [u8; 16]
    ensures { result ≡ bytes_of words }
{
    let parts = words.map(u32::to_le_bytes);
    array::from_fn(|i| parts[i / 4][i % 4])
}

// Enciphers a block of 16 bytes: block and key are four words each, low byte first.
#[tactic(auto, unfolding(crate::specs::Block::block_by))]
pub fn encipher_block(key: [u8; 16], block: [u8; 16]) -> [u8; 16]
    ensures { result ≡ block_by up key block }
{
    let mut words = words_of(block);
    encipher(&mut words, words_of(key)).unwrap();
    bytes_of(words)
}
