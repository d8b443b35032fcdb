// Numbers, equality, stores and XOR over bytes. The definitions that the contracts cite are in `rules`, Bytes.antt.
// What reads or stores at an address asks that the bytes are there: whoever calls has seen that already, and a second
// test would be paid on every command.
#![tactic(auto)]

ghost use Rattle.std.specs.Prelude.{◌≡◌, ◌+◌, ◌<◌, ◌^◌, ◌≤◌, length, replicate};
ghost use Rattle.rules.specs.Bytes.{bytes_of, number, part, put, same, xor, zeros};

// The number that N bytes hold, most significant first. By Horner's rule eight become one load and a swap of bytes.
// (When they were tried: by std's `from_be_bytes` a counter write took 338 instructions and not 316, and the C library 18,753
// bytes and not 14,541.)
fn number<const N: usize>(bytes: &[u8], at: usize) -> u64
    requires short { N ≤ 8 }
    requires inside { at + N ≤ length bytes.now }
    ensures value { result ≡ number (part at N bytes.now) }
    ensures fits { result < 256 ^ N }
{
    let digits = &bytes[at..at + N];
    let mut number = 0;
    for digit in digits {
        number = number * 256 + u64::from(*digit);
    }
    number
}

// The number that two bytes hold.
pub fn number16(bytes: &[u8], at: usize) -> usize
    requires { at + 2 ≤ length bytes.now }
    ensures { result ≡ number (part at 2 bytes.now) }
{
    number::<2>(bytes, at) as usize
}

// The number that four bytes hold.
pub fn number32(bytes: &[u8], at: usize) -> usize
    requires { at + 4 ≤ length bytes.now }
    ensures { result ≡ number (part at 4 bytes.now) }
{
    number::<4>(bytes, at) as usize
}

// The number that eight bytes hold.
pub fn number64(bytes: &[u8], at: usize) -> u64
    requires { at + 8 ≤ length bytes.now }
    ensures { result ≡ number (part at 8 bytes.now) }
{
    number::<8>(bytes, at)
}

// Whether two slices hold the same bytes. It looks at all of them, so that 16 are one comparison.
// (When it was tried: by `a == b` a counter write took 395 instructions and not 316.)
pub fn equal(a: &[u8], b: &[u8]) -> bool
    ensures { result ≡ same a.now b.now }
{
    a.len() == b.len() && a.iter().zip(b).fold(true, |all, (x, y)| all & (*x == *y))
}

// Whether every byte is 0. It looks at all of them, so that 16 are one comparison.
// (When it was tried: by `iter().all(..)` a single call of a counter write took 430 instructions and not 396.)
pub fn all_zero(bytes: &[u8]) -> bool
    ensures { result ≡ zeros bytes.now }
{
    bytes.iter().fold(true, |all, byte| all & (*byte == 0))
}

// The bytes become the data, as many as both have.
// (`copy_from_slice` has the C library call memmove; of a zip over `iter_mut` no proof knows what the bytes are behind it.)
fn copy(bytes: &mut [u8], data: &[u8])
    ensures { bytes.new ≡ put 0 «data».now bytes.old }
{
    for i in 0..bytes.len().min(data.len()) {
        bytes[i] = data[i];
    }
}

// The same. Eight bytes are an array, so that they are one load and one store.
pub fn store(bytes: &mut [u8], data: &[u8])
    ensures { bytes.new ≡ put 0 «data».now bytes.old }
{
    if let (Some(slot), Some(eight)) = (bytes.as_mut_array::<8>(), data.as_array::<8>()) {
        *slot = *eight;
    } else {
        copy(bytes, data);
    }
}

// The bytes become their XOR with the data, as many as both have.
// (Of a zip over `iter_mut` no proof knows what the bytes are behind it. `copy` and this, as one over a closure, would be
// longer.)
pub fn xor_into(bytes: &mut [u8], data: &[u8])
    ensures { bytes.new ≡ xor bytes.old «data».now }
{
    for i in 0..bytes.len().min(data.len()) {
        bytes[i] ^= data[i];
    }
}

// The data, at an address.
pub fn store_at(bytes: &mut [u8], at: usize, data: &[u8])
    requires { at + length «data».now ≤ length bytes.old }
    ensures { bytes.new ≡ put at «data».now bytes.old }
{
    store(&mut bytes[at..at + data.len()], data)
}

// A number as two bytes, most significant first, at an address.
#[tactic(auto, using(crate::proofs::Laws::be_bytes_two))]
pub fn store16(bytes: &mut [u8], at: usize, value: usize)
    requires { at + 2 ≤ length bytes.old }
    ensures { bytes.new ≡ put at (bytes_of 2 value) bytes.old }
{
    store_at(bytes, at, &((value % 0x10000) as u16).to_be_bytes())
}

// What is there becomes its XOR with the data: as `store_at`, but for what is called. One over a closure would be longer.
pub fn xor_at(bytes: &mut [u8], at: usize, data: &[u8])
    requires { at + length «data».now ≤ length bytes.old }
    ensures { bytes.new ≡ put at (xor (part at (length «data».now) bytes.old) «data».now) bytes.old }
{
    xor_into(&mut bytes[at..at + data.len()], data)
}

// The first sixteen bytes as an array, zeros where there are fewer. Not `as_array`, so that it asks for no length
// (docs/DECISIONS.md).
pub fn sixteen(data: &[u8]) -> [u8; 16]
    ensures { result ≡ put 0 «data».now (replicate 16 0) }
{
    let mut block = [0; 16];
    store(&mut block, data);
    block
}
