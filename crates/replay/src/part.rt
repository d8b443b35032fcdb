// A part of the run, and its replies as text. Nothing is read or printed here.
ghost use Rattle.std.specs.Prelude.{◌≡◌, length};
ghost use Rattle.rules.specs.State.{state};
ghost use Rattle.replay.specs.Text.{PartText};
ghost use Rattle.replay.specs.Whole.{PartRun};

use rules::{Run, Session};

// What a part came to, and how many characters its text has. It does not lend them as a slice: what `run_as_text` promises
// is of the buffer after the call, and a buffer that is lent on has no value there.
#[derive(Clone, Copy)]
pub struct Part {
    pub run: Run,
    pub characters: usize,
}

// As much of the log as a buffer has room for the replies of. The text has three characters for each byte of the buffer. Both
// have a fixed size, here and in `run_part`, so that what a run takes does not grow with its log.
pub fn run_as_text(image: &mut [u8], session: Session, log: &[u8], text: &mut [u8; 12288]) -> Part
    ensures part_run { PartRun (state image.old session) log.now image.new result.run }
    ensures part_text { PartText (state image.old session) log.now text.new result.characters }
{
    let mut replies = [0; 4096];
    let run = tag::run(image, session, log, &mut replies);
    let n = run.written;
    let characters = reply_lines::lines(&replies[..n], text);
    Part { run, characters }
}
