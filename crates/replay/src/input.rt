// The arguments, and the two files that are read whole.
ghost use Rattle.std.specs.Prelude.{◌≡◌, ◌≢◌, ◌<◌, ◌≤◌, [], take, length, string_bytes, Ok, IfOk, IfSome};
ghost use Rattle.replay.specs.Inputs.{AtMost};

use crate::fault::{Fault, Reason, Role};
use std::alloc::Global;
use std::env::FillError;
use std::io::Read;
use std::rt::{Env, Runtime};
use std::{fs, io, str};

// The system's number of what it says of a name that is too long.
const NAME_TOO_LONG: i32 = 36;

const IMAGE_MOST: usize = 65536;

const LOG_MOST: usize = 1048576;

// A name as text, by which std opens files.
fn text_of(alloc: Global, role: Role, name: &[u8]) -> Result<String, Fault>
    ensures { IfOk result (λ text. string_bytes text ≢ []) }
{
    if name.is_empty() {
        return Err(Fault::EmptyName(role));
    }
    let text = str::from_utf8(name).map_err(|_| Fault::NoText(role))?;
    String::from_str(alloc, text).map_err(|error| Fault::NameNotTaken(role, Reason(error.into())))
}

// The argument of that number, if there is one. A buffer takes it, since the system says no length before.
pub fn argument(
    rt: &(impl Env + AllocGlobal),
    number: usize,
    role: Role,
) -> Option<Result<String, Fault>>
    ensures { IfSome result (λ name. IfOk name (λ text. string_bytes text ≢ [])) }
{
    let mut name = [0u8; 4096];
    match rt.arg(number, &mut name) {
        Ok(n) => Some(text_of(rt.alloc(), role, &name[..n])),
        Err(FillError::TooLong) => {
            let error = io::Error::from_raw_os_error(NAME_TOO_LONG);
            Some(Err(Fault::NameNotTaken(role, Reason(error))))
        }
        Err(FillError::NotPresent) => None,
    }
}

// Reads to the end of the input or of the buffer, and says how much. Each read is offered all that is left of the buffer, since
// an input that comes in messages loses what a read leaves of one: std's `read_to_end` begins with 512 bytes.
fn fill<R: Read>(input: &mut R, buffer: &mut [u8]) -> io::Result<usize>
    ensures within { IfOk result (λ n. n ≤ length buffer.new) }
    ensures known { IfSome (R.remaining input.old) (λ bytes. IfOk result (λ n. take n buffer.new ≡ take (length buffer.old) bytes)) }
{
    let mut done = 0;
    while done < buffer.len() {
        let more = input.read(&mut buffer[done..])?;
        if more == 0 {
            break;
        }
        done += more;
    }
    Ok(done)
}

fn read_file(rt: &impl Runtime, path: &str, buffer: &mut [u8]) -> io::Result<usize>
    ensures { IfOk result (λ n. n ≤ length buffer.new) }
{
    let mut file = fs::open(rt, path)?;
    fill(&mut file, buffer)
}

// How many bytes were read, where they are no more than they may be. The buffer has room for one more, so that a longer input
// is seen.
fn whole(role: Role, path: String, read: io::Result<usize>, most: usize) -> Result<usize, Fault>
    ensures most { AtMost most result }
    ensures same { IfOk result (λ n. read ≡ Ok n) }
{
    match read {
        Ok(n) if n > most => Err(Fault::TooLong(role, path, most)),
        Ok(n) => Ok(n),
        Err(error) => Err(Fault::NotRead(role, path, Reason(error))),
    }
}

pub fn read_image(rt: &impl Runtime, path: String, image: &mut [u8; 65537]) -> Result<usize, Fault>
    ensures least { IfOk result (λ n. 0 < n) }
    ensures most { AtMost 65536 result }
{
    match read_file(rt, path.as_str(), image) {
        Ok(0) => Err(Fault::Empty(Role::Image, path)),
        read => whole(Role::Image, path, read, IMAGE_MOST),
    }
}

// It may be empty, and `-` is standard input.
pub fn read_log(rt: &impl Runtime, path: String, log: &mut [u8; 1048577]) -> Result<usize, Fault>
    ensures { AtMost 1048576 result }
{
    let read = if path.as_str() == "-" {
        fill(&mut rt.reader(), log)
    } else {
        read_file(rt, path.as_str(), log)
    };
    whole(Role::Log, path, read, LOG_MOST)
}

#[cfg(test)]
mod tests {
    use super::*;

    // What no contract can say: that memory is left for a name, and that a file is read.
    #[test]
    fn names_and_files_are_taken(rt: HostRuntime) -> io::Result<()> {
        let alloc = rt.alloc();
        fs::write(&rt, "tried.input", b"\x00")?;
        let mut image = [1u8; 65537];
        let mut log = [1u8; 1048577];
        let size = read_image(&rt, String::from_str(alloc, "tried.input")?, &mut image);
        let length = read_log(&rt, String::from_str(alloc, "tried.input")?, &mut log);
        fs::remove_file(&rt, "tried.input")?;
        assert!(rt; matches!(size, Ok(1)) && image[0] == 0);
        assert!(rt; matches!(length, Ok(1)) && log[0] == 0);
        assert!(rt; matches!(argument(&rt, 0, Role::Image), Some(Ok(_))));
        Ok(())
    }
}
