// The tag for C and Rust; include/dringoleth.h declares it. Nothing is asked of the caller but memory that it owns. The
// session is 54 lent bytes, and an answer is its refusal number, 0 where the command is granted. The definitions that
// the contracts cite are in `rules`, CCalls.antt: with the same rules and cipher as the contracts of `tag`.
#![tactic(auto)]

ghost use Rattle.std.specs.Prelude.{◌≡◌, length};
ghost use Rattle.rules.specs.State.{powered_up};
ghost use Rattle.rules.specs.Answers.{refusal_of, stop_number, code_of};
ghost use Rattle.rules.specs.Command.{read_into};
ghost use Rattle.rules.specs.Command as command;
ghost use Rattle.rules.specs.CCalls.{session_of, state_of, session_bytes, Called, RunReturned, RunLeft, run_from};
ghost use Rattle.xxtea.specs.Block.{E};
ghost use Rattle.tag_c.specs.Lent.{Lent};

use rules::{Answer, Session, Stop};

// The session that 54 bytes hold. No `From` here or below: the type is of another crate. `Lent` keeps what their type says:
// as many, and each below 256.
fn session_of(bytes: &[u8; 54]) -> Session
    ensures { (result ≡ session_of bytes.now) × Lent bytes.now }
{
    Session {
        read: octets::number16(bytes, 0),
        write: octets::number16(bytes, 2),
        edit: octets::number16(bytes, 4),
        name: octets::sixteen(&bytes[6..22]),
        id: octets::sixteen(&bytes[22..38]),
        pa: octets::sixteen(&bytes[38..54]),
    }
}

// The 54 bytes become the session's.
fn keep(bytes: &mut [u8; 54], session: Session)
    ensures { bytes.new ≡ session_bytes session }
{
    octets::store16(bytes, 0, session.read);
    octets::store16(bytes, 2, session.write);
    octets::store16(bytes, 4, session.edit);
    octets::store_at(bytes, 6, &session.name);
    octets::store_at(bytes, 22, &session.id);
    octets::store_at(bytes, 38, &session.pa);
}

// An answer is a number for C alone.
fn number_of(answer: Answer) -> u8
    ensures { result ≡ code_of (refusal_of answer) }
{
    match answer {
        Ok(()) => 0,
        Err(refusal) => command_log::number_of(refusal),
    }
}

fn number_of_stop(stop: Stop) -> u8
    ensures { result ≡ code_of (stop_number stop) }
{
    stop as u8
}

#[unsafe(no_mangle)]
pub extern "C" fn dringoleth_power_up(session: &mut [u8; 54])
    ensures { session.new ≡ session_bytes powered_up }
{
    keep(session, tag::power_up())
}

#[unsafe(no_mangle)]
pub extern "C" fn dringoleth_read(
    tag: &[u8],
    session: &[u8; 54],
    address: usize,
    count: usize,
    output: &mut [u8],
) -> u8
    ensures called { Called E (state_of tag.now session.now) (command.read address count (length output.old)) result tag.now session.now }
    ensures output_after { output.new ≡ read_into E (state_of tag.now session.now) address count output.old }
{
    let before = session_of(session);
    let outcome = tag::read(tag, before, address, count, output);
    number_of(outcome.answer)
}

#[unsafe(no_mangle)]
pub extern "C" fn dringoleth_write(
    tag: &mut [u8],
    session: &mut [u8; 54],
    address: usize,
    data: &[u8],
) -> u8
    ensures { Called E (state_of tag.old session.old) (command.write address «data».now) result tag.new session.new }
{
    let before = session_of(session);
    let outcome = tag::write(tag, before, address, data);
    keep(session, outcome.session);
    number_of(outcome.answer)
}

#[unsafe(no_mangle)]
pub extern "C" fn dringoleth_advance(tag: &mut [u8], session: &[u8; 54], segment: usize) -> u8
    ensures { Called E (state_of tag.old session.now) (command.advance segment) result tag.new session.now }
{
    let before = session_of(session);
    let outcome = tag::advance(tag, before, segment);
    number_of(outcome.answer)
}

#[unsafe(no_mangle)]
pub extern "C" fn dringoleth_insert(
    tag: &mut [u8],
    session: &[u8; 54],
    segment: usize,
    id: &[u8; 16],
) -> u8
    ensures { Called E (state_of tag.old session.now) (command.insert segment id.now) result tag.new session.now }
{
    let before = session_of(session);
    let host = octets::sixteen(id);
    let outcome = tag::insert(tag, before, segment, host);
    number_of(outcome.answer)
}

#[unsafe(no_mangle)]
pub extern "C" fn dringoleth_run(
    tag: &mut [u8],
    session: &mut [u8; 54],
    log: &[u8],
    output: &mut [u8],
    bytes_read: &mut usize,
    bytes_written: &mut usize,
) -> u8
    ensures run_returned { RunReturned (run_from E tag.old session.old log.now output.old) result bytes_read.new bytes_written.new }
    ensures run_left { RunLeft (run_from E tag.old session.old log.now output.old) tag.new session.new output.new }
{
    let before = session_of(session);
    let run = tag::run(tag, before, log, output);
    keep(session, run.session);
    *bytes_read = run.read;
    *bytes_written = run.written;
    number_of_stop(run.stop)
}
