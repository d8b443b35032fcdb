// What ./replay starts: a command log is run over a tag image. The arguments are IMAGE, LOG and, where the image after the
// run is to be kept, the name of a new file for it. IMAGE is only read. The replies go to standard output, one a line in
// capital hexadecimal; what stopped the run goes to standard error. The program's exit status says nothing: ./replay looks
// for a line that begins with `replay: ` on standard error.
#![tactic(auto)]

mod fault;
mod input;
mod keeping;
mod part;
mod running;

use fault::{Fault, Role};
use input::argument;
use rules::Run;
use running::Report;
use std::rt::Runtime;

// What the run came to, and whether the image after it was kept where it was to be. Nothing is written before both files are
// read; where the replies could not be written, no image is. What is wrong with a name is said where the name is used, and a
// fourth argument is one too many, whatever it is. Image and log are on the stack, for which ./replay provides: a `Vec` with
// room for each would ask for as much memory beside it.
fn replay(rt: &(impl Runtime + AllocGlobal)) -> Result<(Run, Result<(), Fault>), Fault> {
    let (Some(image), Some(log), new, None) = (
        argument(rt, 1, Role::Image),
        argument(rt, 2, Role::Log),
        argument(rt, 3, Role::NewImage),
        argument(rt, 4, Role::NewImage),
    ) else {
        return Err(Fault::Usage);
    };
    let mut image_buffer = [0u8; 65537];
    let size = input::read_image(rt, image?, &mut image_buffer)?;
    let image = &mut image_buffer[..size];
    let mut log_buffer = [0u8; 1048577];
    let length = input::read_log(rt, log?, &mut log_buffer)?;
    let run = running::run_log(rt, image, &log_buffer[..length])?;
    let kept = match new {
        Some(Ok(name)) => keeping::keep_image(rt, name, image),
        Some(Err(fault)) => Err(fault),
        None => Ok(()),
    };
    Ok((run, kept))
}

fn say(rt: &impl Eprint, fault: &Fault) {
    let _ = eprintln!(rt; "replay: {fault}");
}

fn main(rt: HostRuntime) {
    match replay(&rt) {
        Ok((run, kept)) => {
            if let Err(fault) = kept {
                say(&rt, &fault);
            }
            let _ = rt.eprintln(Report(run));
        }
        Err(fault) => say(&rt, &fault),
    }
}
