// Prints what the cipher makes of published and of long blocks, words low byte first. The expected output is in stdout.
#![tactic(auto)]

use std::{fmt, io};

const WORD: u32 = 0x89AB_CDEF;

// Words as hexadecimal digits, each low byte first.
#[derive(Clone, Copy)]
struct Hex<'a>(&'a [u32]);

impl fmt::Display for Hex<'_> {
    fn fmt<W: fmt::Write>(&self, f: &mut fmt::Formatter<W>) -> fmt::Result {
        for word in self.0 {
            write!(f, "{:08x}", word.swap_bytes())?;
        }
        Ok(())
    }
}

// A published vector: two words, enciphered and deciphered again.
fn vector(rt: &impl Print, key: [u32; 4], data: [u32; 2]) -> io::Result<()> {
    let mut words = data;
    print!(rt; "key {} data {}", Hex(&key), Hex(&words))?;
    xxtea::encipher(&mut words, key).unwrap();
    print!(rt; " enciphered {}", Hex(&words))?;
    xxtea::decipher(&mut words, key).unwrap();
    println!(rt; " deciphered {}", Hex(&words))
}

// A block of words that are all WORD; a refused one is not printed again.
fn block(rt: &impl Print, words: &mut [u32], key: [u32; 4]) -> io::Result<()> {
    let n = words.len();
    let rounds = xxtea::rounds_for(n);
    print!(rt; "words {n} rounds {rounds}")?;
    match xxtea::encipher(words, key) {
        Ok(()) => print!(rt; " enciphered {}", Hex(words))?,
        Err(_) => print!(rt; " refused")?,
    }
    let _ = xxtea::decipher(words, key);
    if words.iter().all(|word| *word == WORD) {
        println!(rt; " restored")
    } else {
        println!(rt; " lost")
    }
}

fn main(rt: HostRuntime) -> io::Result<()> {
    let key = [0x0804_0201, 0x8040_2010, 0xF8FC_FEFF, 0x80C0_E0F0];
    vector(&rt, [0; 4], [0; 2])?;
    vector(&rt, key, [0; 2])?;
    vector(&rt, key, [0xF8FC_FEFF, 0x80C0_E0F0])?;
    vector(
        &rt,
        [0xB979_379E, 0xE973_979B, 0x9E37_79B9, 0x5651_696B],
        [0xFFFF_FFFF; 2],
    )?;
    block(&rt, &mut [WORD; 1], key)?;
    block(&rt, &mut [WORD; 2], key)?;
    block(&rt, &mut [WORD; 4], key)?;
    block(&rt, &mut [WORD; 52], key)?;
    block(&rt, &mut [WORD; 53], key)?;
    block(&rt, &mut [WORD; 1024], key)?;
    block(&rt, &mut [WORD; 1025], key)?;
    let first = xxtea::sum_in(xxtea::rounds_for(4));
    println!(rt; "first deciphering sum for 4 words {first:08x}")
}
