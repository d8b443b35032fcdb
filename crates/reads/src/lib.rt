// Reads: document 01, "What a command does". A read is judged first, by a function for each place, and what is granted
// goes to the start of the output. The contract of `read` is an equation with the definitions of `rules`, `CarriedOut`
// in Calls.antt, with XXTEA on blocks (`E`) as the cipher.
#![tactic(auto)]

ghost use Rattle.std.specs.Prelude.{◌≡◌, true, ◌+◌, ◌%◌, ◌≤◌, ◌<◌, length, Some};
ghost use Rattle.rules.specs.Map.{sound, segments, place_of};
ghost use Rattle.rules.specs.Units.{unit_bytes};
ghost use Rattle.rules.specs.Hosts.{hosts};
ghost use Rattle.rules.specs.State.{state};
ghost use Rattle.rules.specs.Answers.{refusal_of};
ghost use Rattle.rules.specs.Refusals.{lowest, segment_read_checks, unit_read_checks, read_checks};
ghost use Rattle.rules.specs.Command.{refusal, read_into};
ghost use Rattle.rules.specs.Command as command;
ghost use Rattle.rules.specs.Calls.{CarriedOut, outcome};
ghost use Rattle.xxtea.specs.Block.{E};

use rules::{Answer, Place, Refusal, Session};

// A read of n bytes at an address in segment k. In model 4 the list of hosts may forbid it too. Each refusal returns at
// once, so that a test is made only where those before it passed.
fn judge_segment_read(tag: &[u8], session: Session, k: usize, at: usize, n: usize) -> Answer
    requires { (sound tag.now ≡ true) × (k < segments tag.now) × (at % 4096 + n ≤ 4096) }
    ensures { refusal_of result ≡ lowest (segment_read_checks session.read session.name (unit_bytes tag.now k) k (at % 4096) n (hosts tag.now)) }
{
    let unit = layout::unit_of(tag, k);
    let Some(u) = units::decode(unit) else {
        return Err(Refusal::Malformed);
    };
    if !u.rd {
        return Err(Refusal::Forbidden);
    }
    if hosts::hidden(u.model, tag, k, at, n) {
        return Err(Refusal::Forbidden);
    }
    if u.rdpin & (session.read != u.read) {
        return Err(Refusal::OtherPin);
    }
    if u.pn & !units::named(unit, &session.name) {
        return Err(Refusal::OtherName);
    }
    Ok(())
}

// A read of a unit that ends at an offset: with PN set it ends before the name.
fn judge_unit_read(unit: &[u8; 32], end: usize) -> Answer
    ensures { refusal_of result ≡ lowest (unit_read_checks unit.now end) }
{
    let Some(u) = units::decode(unit) else {
        return Err(Refusal::Malformed);
    };
    if u.pn & (16 < end) {
        return Err(Refusal::Forbidden);
    }
    Ok(())
}

// A read in its place.
fn judge_read_in(tag: &[u8], session: Session, place: Place, at: usize, n: usize) -> Answer
    requires { (sound tag.now ≡ true) × (place_of tag.now at n ≡ Some place) × (1 ≤ n) }
    ensures { refusal_of result ≡ lowest (read_checks (state tag.now session) place at n) }
{
    match place {
        Place::Header | Place::Readers | Place::Public(_) => Ok(()),
        Place::UnitOf(k) => {
            judge_unit_read(layout::unit_of(tag, k), at + n - layout::unit_at(k))
        }
        Place::Segment(k) => judge_segment_read(tag, session, k, at, n),
        _ => Err(Refusal::NeverTaken),
    }
}

// A read on a sound tag: its count, then its place.
fn judge_read(tag: &[u8], session: Session, at: usize, n: usize, room: usize) -> Answer
    requires { sound tag.now ≡ true }
    ensures { refusal_of result ≡ refusal E (state tag.now session) (command.read at n room) }
{
    if (n == 0) | (4096 < n) | (room < n) {
        return Err(Refusal::Count);
    }
    let place = layout::place_of(tag, at, n).ok_or(Refusal::Outside)?;
    judge_read_in(tag, session, place, at, n)
}

// A read on a sound tag: what is granted goes to the start of the output.
fn read_sound(tag: &[u8], session: Session, at: usize, n: usize, output: &mut [u8]) -> Answer
    requires { sound tag.now ≡ true }
    ensures result_value { refusal_of result ≡ refusal E (state tag.now session) (command.read at n (length output.old)) }
    ensures output_after { output.new ≡ read_into E (state tag.now session) at n output.old }
{
    judge_read(tag, session, at, n, output.len())?;
    let end = at + n;
    octets::store(output, &tag[at..end]);
    Ok(())
}

// A read on any bytes whatever. The caller has tested whether the tag is sound (`layout::sound` has why a `bool` says so).
// Each command tests that by itself, in two lines: what they answer differs.
pub fn read(
    tag: &[u8],
    is_sound: bool,
    session: Session,
    address: usize,
    count: usize,
    output: &mut [u8],
) -> Answer
    requires { is_sound ≡ sound tag.now }
    ensures carried_out { CarriedOut E (state tag.now session) (command.read address count (length output.old)) tag.now (outcome result session) }
    ensures output_after { output.new ≡ read_into E (state tag.now session) address count output.old }
{
    if !is_sound {
        return Err(Refusal::Unsound);
    }
    read_sound(tag, session, address, count, output)
}
