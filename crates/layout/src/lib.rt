// The header, soundness and the places of a tag: document 01, "The memory map". The definitions that the contracts
// cite are in `rules`, Map.antt.
#![tactic(auto)]

ghost use Rattle.std.specs.Prelude.{◌≡◌, true, ℕ, ◌+◌, ◌%◌, ◌^◌, ◌≤◌, ◌<◌, length};
ghost use Rattle.rules.specs.Map.{segments, publics, most, smallest_tag, segments_at, sound, unit_at, rows, register_no, find, place_of};
ghost use Rattle.rules.specs.Units.{unit_bytes};
ghost use Rattle.rules.specs.Hosts.{readers};

use rules::{Place, Register};

// The address of the roll-back counter.
pub const COUNTER: usize = 4;

// The address of the usage flag, where the counter ends.
pub const FLAG: usize = 12;

// The address of owner PIN 0, where the header ends.
pub const OWNERS: usize = 16;

// The address of the first register.
const REGISTERS: usize = 3984;

// The address of PIN 0, where the registers end.
pub const PINS: usize = 4096;

// The address of the reader ID segment.
pub const READERS: usize = 8192;

// The address of unit 0, where the reader ID segment ends.
pub const UNITS: usize = 12288;

// The most segments of either kind.
const MOST: usize = 128;

// The length of the smallest tag that is sound.
const SMALLEST: usize = 20480;

// A, the number of access-controlled segments.
pub fn segments(tag: &[u8]) -> usize
    requires { 4 ≤ length tag.now }
    ensures { result ≡ segments tag.now }
{
    octets::number16(tag, 0)
}

// P, the number of public segments. Two functions, as document 01 names A and P: one with a place would be `number16`.
pub fn publics(tag: &[u8]) -> usize
    requires { 4 ≤ length tag.now }
    ensures { result ≡ publics tag.now }
{
    octets::number16(tag, 2)
}

// The 4,096 bytes of the reader ID segment.
pub fn readers(tag: &[u8]) -> &[u8]
    requires { unit_at 0 ≤ length tag.now }
    ensures { result.now ≡ readers tag.now }
{
    &tag[READERS..UNITS]
}

// The address of unit k.
pub fn unit_at(k: usize) -> usize
    requires { unit_at k < 2 ^ 64 }
    ensures { result ≡ unit_at k }
{
    UNITS + 32 * k
}

// The 32 bytes of unit k.
pub fn unit_of(tag: &[u8], k: usize) -> &[u8; 32]
    requires { unit_at k + 32 ≤ length tag.now }
    ensures { result.now ≡ unit_bytes tag.now k }
{
    let start = unit_at(k);
    let end = start + 32;
    tag[start..end].as_array().unwrap()
}

// Where the segments begin, behind the units of A segments.
pub fn segments_at(_a: usize) -> usize
    ensures { result ≡ segments_at _a }
{
    UNITS + 4096
}

// The tests of soundness, on a tag that is not too short for them.
fn tests_hold(tag: &[u8]) -> bool
    requires { smallest_tag ≤ length tag.now }
    ensures { result ≡ sound tag.now }
{
    let a = segments(tag);
    let p = publics(tag);
    (tag.len() == segments_at(a) + 4096 * (a + p))
        & (1 <= a)
        & (a <= MOST)
        & (p <= MOST)
        & (tag[FLAG] <= 1)
        & octets::all_zero(&tag[FLAG + 1..OWNERS])
        & octets::all_zero(&tag[PINS..PINS + 16])
}

// Whether a tag is sound. What it answers goes on beside the tag (`is_sound`) or as a `requires`, and not in a type that
// holds a sound tag: in every clause the tag's bytes would be `tag.entry.bytes.now` and `tag.bytes.now`, where a lent slice's
// are `tag.now`. So what reads a tag asks for as many bytes as it reads.
pub fn sound(tag: &[u8]) -> bool
    ensures { result ≡ sound tag.now }
{
    if tag.len() < SMALLEST {
        return false;
    }
    tests_hold(tag)
}

// The registers, in the order of their addresses. No `TryFrom`: as in the rules, every number has one.
fn register_no(i: usize) -> Register
    ensures { result ≡ register_no i }
{
    match i {
        0 => Register::Read,
        1 => Register::Write,
        2 => Register::Edit,
        3 => Register::Name,
        4 => Register::Id,
        5 => Register::Commit,
        _ => Register::Pa,
    }
}

// The places of the first segment: header, hidden part, registers. Address and count stay two numbers here and below, and in
// the crates above, as a command has them, and `1 ≤ n` a clause: a `NonZeroUsize` would be made of the command's count and read back in every sum.
fn first_place(at: usize, n: usize) -> Option<Place>
    requires { (at + n ≤ 4096) × (1 ≤ n) }
    ensures { (a p : ℕ) → a ≤ most → result ≡ find (rows a p) at n }
{
    if at < OWNERS {
        return (n <= OWNERS - at).then_some(Place::Header);
    }
    if at < REGISTERS {
        return (n <= REGISTERS - at).then_some(Place::Hidden);
    }
    let register = register_no((at - REGISTERS) / 16);
    (n <= 16 - at % 16).then_some(Place::RegisterOf(register))
}

// The first three segments, which are the same on every tag.
fn fixed_place(at: usize, n: usize) -> Option<Place>
    requires { (at < unit_at 0) × (at % 4096 + n ≤ 4096) × (1 ≤ n) }
    ensures { (a p : ℕ) → a ≤ most → result ≡ find (rows a p) at n }
{
    if at < PINS {
        return first_place(at, n);
    }
    if at < READERS {
        Some(Place::Pins)
    } else {
        Some(Place::Readers)
    }
}

// The units, and the spare place behind them.
fn unit_place(a: usize, at: usize, n: usize) -> Option<Place>
    requires { (a ≤ most) × (unit_at 0 ≤ at) × (at + n ≤ segments_at a) × (1 ≤ n) }
    ensures { (p : ℕ) → result ≡ find (rows a p) at n }
{
    let k = (at - UNITS) / 32;
    if k < a {
        (n <= 32 - at % 32).then_some(Place::UnitOf(k))
    } else {
        Some(Place::Spare)
    }
}

// The segment of 4,096 bytes that holds n bytes, which do not reach beyond one (a clause: `hosts::off_slot` has why).
fn segment_place(a: usize, p: usize, at: usize, n: usize) -> Option<Place>
    requires { (a ≤ most) × (segments_at a ≤ at) × (at % 4096 + n ≤ 4096) × (1 ≤ n) }
    ensures { result ≡ find (rows a p) at n }
{
    let k = (at - segments_at(a)) / 4096;
    if k < a {
        return Some(Place::Segment(k));
    }
    (k - a < p).then_some(Place::Public(k - a))
}

// The place that holds n bytes at an address. No place reaches beyond 4,096 bytes.
pub fn place_of(tag: &[u8], at: usize, n: usize) -> Option<Place>
    requires { (sound tag.now ≡ true) × (1 ≤ n) }
    ensures { result ≡ place_of tag.now at n }
{
    if 4096 - at % 4096 < n {
        return None;
    }
    let a = segments(tag);
    if segments_at(a) <= at {
        return segment_place(a, publics(tag), at, n);
    }
    if at < UNITS {
        fixed_place(at, n)
    } else {
        unit_place(a, at, n)
    }
}
