// Writes: document 01, "What a command does". A write is judged first, and touches nothing before its verdict; then the
// verdict is carried out. The contract of `write` is an equation with the definitions of `rules`, `CarriedOut` in
// Calls.antt, with XXTEA on blocks (`E`) as the cipher.
#![tactic(auto)]

mod carrying;
mod judging;

ghost use Rattle.std.specs.Prelude.{◌≡◌, true};
ghost use Rattle.rules.specs.Map.{sound};
ghost use Rattle.rules.specs.State.{state};
ghost use Rattle.rules.specs.Command as command;
ghost use Rattle.rules.specs.Calls.{CarriedOut};
ghost use Rattle.xxtea.specs.Block.{E};

use judging::Act;
use rules::{Outcome, Refusal, Session};

// A write on a sound tag: judged, and then carried out. A register takes its data by itself, since the session changes too.
// What is handed back is made first and not in each arm: the session is then copied once.
fn write_sound(tag: &mut [u8], session: Session, at: usize, data: &[u8]) -> Outcome
    requires { sound tag.old ≡ true }
    ensures { CarriedOut E (state tag.old session) (command.write at «data».now) tag.new result }
{
    let mut outcome = Outcome {
        session,
        answer: Ok(()),
    };
    match judging::judge_write(tag, session, at, data) {
        Ok(act) => match act {
            Act::Take(register) => {
                outcome.session = registers::take(tag, session, register, data);
            }
            _ => carrying::carry_out(tag, at, data, act),
        },
        Err(refusal) => {
            carrying::note_refusal(tag, refusal);
            outcome.answer = Err(refusal);
        }
    }
    outcome
}

// A write on any bytes whatever. The caller has tested whether the tag is sound (`layout::sound` has why a `bool` says so).
pub fn write(
    tag: &mut [u8],
    is_sound: bool,
    session: Session,
    address: usize,
    data: &[u8],
) -> Outcome
    requires { is_sound ≡ sound tag.old }
    ensures { CarriedOut E (state tag.old session) (command.write address «data».now) tag.new result }
{
    if !is_sound {
        return Outcome {
            answer: Err(Refusal::Unsound),
            session,
        };
    }
    write_sound(tag, session, address, data)
}
