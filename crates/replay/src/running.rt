// The run over the whole log. Its replies are printed whenever they fill a buffer, so that there may be any number.
ghost use Rattle.std.specs.Prelude.{◌≤◌, ◌≡◌, IfOk, OnErr, length};
ghost use Rattle.rules.specs.State.{state, powered_up};
ghost use Rattle.rules.specs.declared.Run.{Run};
ghost use Rattle.replay.specs.Whole.{PartRun, WholeRun};

use crate::fault::{Fault, Reason};
use crate::part::run_as_text;
use rules::{Run, Session, Stop};
use std::fmt;

// A part of the run, whose text is printed.
fn run_part(rt: &impl Print, image: &mut [u8], session: Session, log: &[u8]) -> Result<Run, Fault>
    ensures ok { IfOk result (PartRun (state image.old session) log.now image.new) }
    ensures err { OnErr result ((run : Run) × PartRun (state image.old session) log.now image.new run) }
{
    let mut text = [0; 12288];
    let part = run_as_text(image, session, log, &mut text);
    let n = part.characters;
    rt.write_all(&text[..n])
        .map_err(|error| Fault::NotPrinted(Reason(error)))?;
    Ok(part.run)
}

// From power-up to the end of the log, or to a 15. A buffer that is full is printed, and the run goes on. The sum of the
// bytes written has a bound only where the log's length has one. It is a `loop`, since only the run tells how many parts
// there are.
pub fn run_log(rt: &impl Print, image: &mut [u8], log: &[u8]) -> Result<Run, Fault>
    requires { length log.now ≤ 1048576 }
    ensures { IfOk result (WholeRun (state image.old powered_up) log.now image.new) }
{
    let mut session = tag::power_up();
    let mut read = 0;
    let mut written = 0;
    loop {
        let part = run_part(rt, image, session, &log[read..])?;
        read += part.read;
        written += part.written;
        match part.stop {
            Stop::OutputFull => session = part.session,
            _ => {
                return Ok(Run {
                    read,
                    written,
                    ..part
                });
            }
        }
    }
}

/// One line on what stopped the run.
#[derive(Clone, Copy)]
pub struct Report(pub Run);

impl fmt::Display for Report {
    fn fmt<W: fmt::Write>(&self, f: &mut fmt::Formatter<W>) -> fmt::Result {
        let Run {
            read,
            written,
            stop,
            ..
        } = self.0;
        match stop {
            Stop::End => write!(f, "the run stopped at the end of the log")?,
            Stop::BadCommand => write!(
                f,
                "the run stopped at byte {read} of the log, where no command can be read (15)"
            )?,
            Stop::OutputFull => write!(
                f,
                "the run stopped at byte {read} of the log, with no room for the next reply (16)"
            )?,
        }
        write!(
            f,
            "; bytes of the log read: {read}; bytes of replies written: {written}"
        )
    }
}
