// Runs short logs into outputs that are small, and prints for each what stopped the run, the bytes read and written, the
// output and the slot that the log writes. The output has twelve bytes EE, of which only the first are lent to the run:
// the others, and those past the bytes written, must stay. The expected output is in stdout.
#![tactic(auto)]

ghost use Rattle.std.specs.Prelude.{◌≤◌, length};

use rules::Stop;
use std::{fmt, io};

// Reads of the first slot, of eight hidden bytes and of the header, a write of the slot's next value, and what cannot be
// read.
const POWER_UP: [u8; 1] = [0x00];

const READ: [u8; 5] = [0x12, 0x00, 0x00, 0x40, 0x00];

const HIDDEN: [u8; 5] = [0x12, 0x00, 0x00, 0x0F, 0x88];

const WRITE: [u8; 13] = [0x22, 0x00, 0x00, 0x40, 0x00, 0, 0, 0, 0, 0, 0, 0, 1];

const WRITE_AND_READ: [u8; 18] = [
    0x22, 0x00, 0x00, 0x40, 0x00, 0, 0, 0, 0, 0, 0, 0, 1, 0x12, 0x00, 0x00, 0x40, 0x00,
];

const HEADER: [u8; 5] = [0x12, 0x00, 0x00, 0x00, 0x00];

const UNKNOWN: [u8; 1] = [0x99];

const SHORT_READ: [u8; 4] = [0x12, 0x00, 0x00, 0x40];

const SOUND: usize = 20480;

const TOO_SHORT: usize = 20479;

// What stopped a run, as the lines below have it.
#[derive(Clone, Copy)]
struct Stopped(Stop);

impl fmt::Display for Stopped {
    fn fmt<W: fmt::Write>(&self, f: &mut fmt::Formatter<W>) -> fmt::Result {
        f.write_str(match self.0 {
            Stop::End => "end",
            Stop::BadCommand => "15",
            Stop::OutputFull => "16",
        })
    }
}

// Bytes as hexadecimal digits. `vectors` has one for words, whose bytes it turns round; no crate below both prints.
#[derive(Clone, Copy)]
struct Hex<'a>(&'a [u8]);

impl fmt::Display for Hex<'_> {
    fn fmt<W: fmt::Write>(&self, f: &mut fmt::Formatter<W>) -> fmt::Result {
        for byte in self.0 {
            write!(f, "{byte:02x}")?;
        }
        Ok(())
    }
}

// The first example's tag: one segment, a locked counter segment.
fn set_up(image: &mut [u8])
    requires { 12290 ≤ length image.old }
{
    image[1] = 1;
    image[12288] = 0xA5;
    image[12289] = 0x02;
}

// A run into the first bytes of the output.
fn run_on(rt: &impl Print, name: &str, image: &mut [u8], log: &[u8], room: usize) -> io::Result<()>
    requires image { 16392 ≤ length image.old }
    requires room { room ≤ 12 }
{
    let mut output = [0xEEu8; 12];
    let run = tag::run(image, tag::power_up(), log, &mut output[..room]);
    let (stop, read, written) = (Stopped(run.stop), run.read, run.written);
    let (output, slot) = (Hex(&output), Hex(&image[16384..16392]));
    println!(rt;
        "{name}, room {room}: stop {stop}, read {read}, written {written}, output {output}, slot {slot}"
    )
}

// The same on a new tag, which is sound where all of it is lent. It is an array, here and below: with a `Vec` the
// check would have to trust three more functions of C.
fn run_in(rt: &impl Print, name: &str, log: &[u8], room: usize, size: usize) -> io::Result<()>
    requires room { room ≤ 12 }
    requires slot { 16392 ≤ size }
    requires size { size ≤ 20480 }
{
    let mut image = [0u8; 20480];
    set_up(&mut image);
    run_on(rt, name, &mut image[..size], log, room)
}

// The same on a tag that has the length of 129 segments, with so many access-controlled and so many public ones. The tag
// is made in a function of its own: in one with both, the check ran out of stack on so long an array.
fn run_on_wide(
    rt: &impl Print,
    name: &str,
    image: &mut [u8; 544768],
    segments: u8,
    publics: u8,
) -> io::Result<()> {
    image[1] = segments;
    image[3] = publics;
    run_on(rt, name, image, &HEADER, 9)
}

fn run_wide(rt: &impl Print, name: &str, segments: u8, publics: u8) -> io::Result<()> {
    let mut image = [0u8; 544768];
    run_on_wide(rt, name, &mut image, segments, publics)
}

fn main(rt: HostRuntime) -> io::Result<()> {
    run_in(&rt, "empty log", b"", 0, SOUND)?;
    run_in(&rt, "power-up", &POWER_UP, 0, SOUND)?;
    run_in(&rt, "power-up", &POWER_UP, 1, SOUND)?;
    run_in(&rt, "power-up", &POWER_UP, 2, SOUND)?;
    run_in(&rt, "unknown kind", &UNKNOWN, 0, SOUND)?;
    run_in(&rt, "unknown kind", &UNKNOWN, 1, SOUND)?;
    run_in(&rt, "unknown kind", &UNKNOWN, 2, SOUND)?;
    run_in(&rt, "short read", &SHORT_READ, 1, SOUND)?;
    run_in(&rt, "short read", &SHORT_READ, 2, SOUND)?;
    run_in(&rt, "granted read", &READ, 8, SOUND)?;
    run_in(&rt, "granted read", &READ, 9, SOUND)?;
    run_in(&rt, "refused read", &HIDDEN, 8, SOUND)?;
    run_in(&rt, "refused read", &HIDDEN, 9, SOUND)?;
    run_in(&rt, "write", &WRITE, 1, SOUND)?;
    run_in(&rt, "write", &WRITE, 2, SOUND)?;
    run_in(&rt, "write and read", &WRITE_AND_READ, 9, SOUND)?;
    run_in(&rt, "write and read", &WRITE_AND_READ, 10, SOUND)?;
    run_in(&rt, "unsound, power-up", &POWER_UP, 2, TOO_SHORT)?;
    run_in(&rt, "unsound, read", &READ, 8, TOO_SHORT)?;
    run_in(&rt, "unsound, read", &READ, 9, TOO_SHORT)?;
    run_in(&rt, "unsound, write", &WRITE, 1, TOO_SHORT)?;
    run_in(&rt, "unsound, write", &WRITE, 2, TOO_SHORT)?;
    run_in(&rt, "unsound, unknown kind", &UNKNOWN, 2, TOO_SHORT)?;
    run_wide(&rt, "A = 128, P = 1, read of the header", 128, 1)?;
    run_wide(&rt, "A = 129, P = 0, read of the header", 129, 0)
}
