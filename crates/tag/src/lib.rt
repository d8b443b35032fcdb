// The tag: everything that a user calls. Nothing is asked of the caller, and each contract fixes the answer and every
// byte of tag, session and output by an equation with the definitions of `rules`, with XXTEA on blocks (`E`) as the
// cipher: `CarriedOut` in Calls.antt, `run_over` in Runs.antt.
#![tactic(auto)]

ghost use Rattle.std.specs.Prelude.{◌≡◌, ◌+◌, ◌≤◌, length};
ghost use Rattle.rules.specs.Map.{sound};
ghost use Rattle.rules.specs.State.{state, powered_up};
ghost use Rattle.rules.specs.Command.{reply, read_into};
ghost use Rattle.rules.specs.Command as command;
ghost use Rattle.rules.specs.Calls.{CarriedOut};
ghost use Rattle.rules.specs.Log.{count_of};
ghost use Rattle.rules.specs.Runs.{returned, result as left_by, run_over};
ghost use Rattle.xxtea.specs.Block.{E};
ghost use Rattle.command_log.specs.Next.{command_in};
ghost use Rattle.tag.specs.Replies.{Room, Written, Replies, read_counted, replied};

use command_log::Next;
use rules::{Outcome, Refusal, Session, Stop};

// The session after power-up.
pub fn power_up() -> Session
    ensures { result ≡ powered_up }
{
    Session {
        read: 0,
        write: 0,
        edit: 0,
        name: [0u8; 16],
        id: [0u8; 16],
        pa: [0u8; 16],
    }
}

pub fn read(
    tag: &[u8],
    session: Session,
    address: usize,
    count: usize,
    output: &mut [u8],
) -> Outcome
    ensures carried_out { CarriedOut E (state tag.now session) (command.read address count (length output.old)) tag.now result }
    ensures output_after { output.new ≡ read_into E (state tag.now session) address count output.old }
{
    let is_sound = layout::sound(tag);
    let answer = reads::read(tag, is_sound, session, address, count, output);
    Outcome { answer, session }
}

pub fn write(tag: &mut [u8], session: Session, address: usize, data: &[u8]) -> Outcome
    ensures { CarriedOut E (state tag.old session) (command.write address «data».now) tag.new result }
{
    let is_sound = layout::sound(tag);
    writes::write(tag, is_sound, session, address, data)
}

pub fn advance(tag: &mut [u8], session: Session, segment: usize) -> Outcome
    ensures { CarriedOut E (state tag.old session) (command.advance segment) tag.new result }
{
    let is_sound = layout::sound(tag);
    let answer = moves::advance(tag, is_sound, session, segment);
    Outcome { answer, session }
}

// The insertion of a host with this id, whose segment this is: document 02, L4.
pub fn insert(tag: &mut [u8], session: Session, segment: usize, id: [u8; 16]) -> Outcome
    ensures { CarriedOut E (state tag.old session) (command.insert segment id) tag.new result }
{
    let is_sound = layout::sound(tag);
    let answer = moves::insert(tag, is_sound, session, segment, id);
    Outcome { answer, session }
}

// ---- runs over a log

// A read: its bytes go straight into the output, behind the reply's code. `is_sound` here and below: see `layout::sound`; the
// digit: see `Next`.
fn reply_read(
    tag: &[u8],
    is_sound: bool,
    session: Session,
    address: usize,
    digit: u8,
    output: &mut [u8],
) -> usize
    requires { (is_sound ≡ sound tag.now) × (1 ≤ count_of digit) × (1 + count_of digit ≤ length output.old) }
    ensures { Written (reply E (state tag.now session) (read_counted address digit)) output.old output.new result }
{
    let count = command_log::count_of(digit);
    let end = 1 + count;
    let answer = reads::read(tag, is_sound, session, address, count, &mut output[1..end]);
    command_log::put_read(output, answer, digit)
}

// A session takes another's place, field by field: copied as a whole, two indexes would be read at once behind two stores of
// one, and the processor waits for these. An array is stored from a name of its own: no proof covers it otherwise.
fn replace(session: &mut Session, after: Session)
    ensures { session.new ≡ after }
{
    let name = after.name;
    let id = after.id;
    let pa = after.pa;
    session.name = name;
    session.id = id;
    session.pa = pa;
    session.read = after.read;
    session.write = after.write;
    session.edit = after.edit;
}

// Carries out what comes next in a log, whose bytes these are, and puts its reply at the start of the output; the reply's
// length is handed back. A 15, which has no bytes, is replied too. The session is lent, so that it is copied where a command
// changes it and not behind each.
fn reply_to(
    tag: &mut [u8],
    is_sound: bool,
    session: &mut Session,
    next: Option<Next>,
    bytes: &[u8],
    output: &mut [u8],
) -> usize
    requires { (is_sound ≡ sound tag.old) × Room next bytes.now output.old }
    ensures { Replies E (state tag.old session.old) (command_in bytes.now next) output.old tag.new output.new (replied result session.new) }
{
    let Some(next) = next else {
        return command_log::put_answer(output, Err(Refusal::Unreadable));
    };
    match next {
        Next::PowerUp => {
            *session = power_up();
            command_log::put_answer(output, Ok(()))
        }
        Next::Read(digit) => {
            let address = octets::number32(bytes, 1);
            reply_read(tag, is_sound, *session, address, digit, output)
        }
        Next::Write(_) => {
            let address = octets::number32(bytes, 1);
            let outcome = writes::write(tag, is_sound, *session, address, &bytes[5..]);
            replace(session, outcome.session);
            command_log::put_answer(output, outcome.answer)
        }
        Next::Advance => {
            let segment = octets::number16(bytes, 1);
            let answer = moves::advance(tag, is_sound, *session, segment);
            command_log::put_answer(output, answer)
        }
        Next::Insert => {
            let segment = octets::number16(bytes, 1);
            let host = octets::sixteen(&bytes[3..]);
            let answer = moves::insert(tag, is_sound, *session, segment, host);
            command_log::put_answer(output, answer)
        }
    }
}

fn stopped(read: usize, written: usize, stop: Stop, session: Session) -> rules::Run
    ensures { result ≡ returned read written stop session }
{
    rules::Run {
        read,
        written,
        stop,
        session,
    }
}

// Soundness is tested once: a sound tag stays sound, and nothing changes one that is not. A `while`, since what stands in the
// log tells how far a command goes.
pub fn run(tag: &mut [u8], session: Session, log: &[u8], output: &mut [u8]) -> rules::Run
    ensures { left_by result tag.new output.new ≡ run_over E (state tag.old session) log.now output.old }
{
    let is_sound = layout::sound(tag);
    let mut session = session;
    let mut read = 0;
    let mut written = 0;
    while read < log.len() {
        let next = command_log::next_at(log, read);
        if output.len() - written < command_log::room_of(next) {
            return stopped(read, written, Stop::OutputFull, session);
        }
        let end = read + command_log::length_of(next);
        written += reply_to(
            tag,
            is_sound,
            &mut session,
            next,
            &log[read..end],
            &mut output[written..],
        );
        if next.is_none() {
            return stopped(read, written, Stop::BadCommand, session);
        }
        read = end;
    }
    stopped(read, written, Stop::End, session)
}
