// The registers of a tag: what judges a write to one, and what a granted one does. Document 01, "What a command does",
// READ, WRITE, EDIT, NAME, ID, COMMIT and PA. The definitions that the contracts cite are in `rules`, Refusals.antt and
// Effects.antt. Both public functions ask for what their callers, the commands, have seen already: a tag that reaches
// beyond the PIN segment and, to carry a write out, that it was judged.
#![tactic(auto)]

ghost use Rattle.std.specs.Prelude.{◌≡◌, ◌+◌, ◌≤◌, length};
ghost use Rattle.rules.specs.Bytes.{part, same, xor};
ghost use Rattle.rules.specs.Map.{readers_at};
ghost use Rattle.rules.specs.State.{state, response};
ghost use Rattle.rules.specs.State as states;
ghost use Rattle.rules.specs.Answers.{refusal_of};
ghost use Rattle.rules.specs.Refusals.{lowest, response_checks, name_checks, commit_checks, register_checks};
ghost use Rattle.rules.specs.Effects.{apply, commit_stores};
ghost use Rattle.xxtea.specs.Block.{E};
ghost use Rattle.registers.specs.Registers.{Taken, register_written};

use rules::{Answer, Refusal, Register, Session};

// The counter, enciphered by the key at an address.
fn response(tag: &[u8], key: usize) -> [u8; 16]
    requires { (16 ≤ length tag.now) × (key + 16 ≤ length tag.now) }
    ensures { result ≡ response E (part key 16 tag.now) tag.now }
{
    let end = key + 16;
    let mut block = [0u8; 16];
    octets::store_at(&mut block, 8, &tag[layout::COUNTER..layout::FLAG]);
    xxtea::encipher_block(octets::sixteen(&tag[key..end]), block)
}

// What READ, WRITE, EDIT, NAME and COMMIT ask of the PIN index, and of the flag.
fn judge_flag(tag: &[u8], pin: usize) -> Answer
    requires { 16 ≤ length tag.now }
    ensures { refusal_of result ≡ lowest (name_checks tag.now pin) }
{
    if 255 < pin {
        return Err(Refusal::BadRegister);
    }
    if tag[layout::FLAG] == 1 {
        return Err(Refusal::FlagUsed);
    }
    Ok(())
}

// READ, WRITE and EDIT: the 16 bytes must be the counter enciphered by the PIN that PA names.
fn judge_response(tag: &[u8], pin: usize, data: &[u8; 16]) -> Answer
    requires { readers_at ≤ length tag.now }
    ensures { refusal_of result ≡ lowest (response_checks E tag.now pin «data».now) }
{
    judge_flag(tag, pin)?;
    let wanted = response(tag, layout::PINS + 16 * pin);
    if octets::equal(data, &wanted) {
        Ok(())
    } else {
        Err(Refusal::WrongResponse)
    }
}

// Whether the guard is that of the 16 bytes by an owner PIN.
fn guard_fits(tag: &[u8], owner: usize, guard: &[u8], data: &[u8; 16]) -> bool
    requires { (readers_at ≤ length tag.now) × (owner ≤ 3) }
    ensures { result ≡ same guard.now (part 4 12 (E (states.owner tag.now owner) «data».now)) }
{
    let start = layout::OWNERS + 16 * owner;
    let end = start + 16;
    let key = octets::sixteen(&tag[start..end]);
    let enciphered = xxtea::encipher_block(key, *data);
    octets::equal(guard, &enciphered[4..16])
}

// COMMIT: PIN index 0 and the owner index, then what the others ask too, and the guard. It ends as `judge_response` does, with
// another comparison.
fn judge_commit(tag: &[u8], pin: usize, owner: usize, guard: &[u8], data: &[u8; 16]) -> Answer
    requires { readers_at ≤ length tag.now }
    ensures { refusal_of result ≡ lowest (commit_checks E tag.now pin owner guard.now «data».now) }
{
    if (pin == 0) | (3 < owner) {
        return Err(Refusal::BadRegister);
    }
    judge_flag(tag, pin)?;
    if guard_fits(tag, owner, guard, data) {
        Ok(())
    } else {
        Err(Refusal::WrongResponse)
    }
}

// What a write to a register gets. Tag and session stay two arguments, here and above: document 01 keeps the session beside
// the memory.
pub fn judge(tag: &[u8], session: Session, register: Register, data: &[u8]) -> Answer
    requires { readers_at ≤ length tag.now }
    ensures { refusal_of result ≡ lowest (register_checks E (state tag.now session) register «data».now) }
{
    let Some(block) = data.as_array() else {
        return Err(Refusal::BadRegister);
    };
    let pin = octets::number16(&session.pa, 0);
    match register {
        Register::Read | Register::Write | Register::Edit => judge_response(tag, pin, block),
        Register::Name => judge_flag(tag, pin),
        Register::Commit => judge_commit(
            tag,
            pin,
            octets::number16(&session.pa, 2),
            &session.pa[4..16],
            block,
        ),
        Register::Id | Register::Pa => Ok(()),
    }
}

// The data XOR the counter enciphered by the key at an address.
fn masked(tag: &[u8], key: usize, data: &[u8; 16]) -> [u8; 16]
    requires { (16 ≤ length tag.now) × (key + 16 ≤ length tag.now) }
    ensures { result ≡ xor «data».now (response E (part key 16 tag.now) tag.now) }
{
    let mask = response(tag, key);
    let mut bytes = *data;
    octets::xor_into(&mut bytes, &mask);
    bytes
}

// COMMIT: a new PIN.
fn commit(tag: &mut [u8], pin: usize, owner: usize, data: &[u8; 16])
    requires { (readers_at ≤ length tag.old) × (pin ≤ 255) × (owner ≤ 3) }
    ensures { tag.new ≡ apply (commit_stores E tag.old pin owner «data».now) tag.old }
{
    let new = masked(tag, layout::OWNERS + 16 * owner, data);
    tag[layout::FLAG] = 1;
    octets::store_at(tag, layout::PINS + 16 * pin, &new);
}

// A granted write of a register. An array is stored in the session from a name of its own: no proof covers it otherwise.
pub fn take(tag: &mut [u8], session: Session, register: Register, data: &[u8]) -> Session
    requires { Taken tag.old session register «data».now }
    ensures { state tag.new result ≡ register_written (state tag.old session) register «data».now }
{
    let block = data.as_array().unwrap();
    let pin = octets::number16(&session.pa, 0);
    let mut next = session;
    match register {
        Register::Read => {
            tag[layout::FLAG] = 1;
            next.read = pin;
        }
        Register::Write => {
            tag[layout::FLAG] = 1;
            next.write = pin;
        }
        Register::Edit => {
            tag[layout::FLAG] = 1;
            next.edit = pin;
        }
        Register::Name => {
            let name = masked(tag, layout::PINS + 16 * pin, block);
            tag[layout::FLAG] = 1;
            next.name = name;
        }
        Register::Id => {
            let id = *block;
            next.id = id;
        }
        Register::Commit => commit(tag, pin, octets::number16(&session.pa, 2), block),
        Register::Pa => {
            let new = *block;
            next.pa = new;
        }
    }
    next
}
