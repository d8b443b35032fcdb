// The two commands that name a segment: document 01, "What a command does", the advance, and document 02, L4, the insertion
// of a host. Each judges first, and touches nothing before its verdict. Their contracts are equations with the definitions
// of `rules`, `CarriedOut` in Calls.antt, with XXTEA on blocks (`E`) as the cipher.
#![tactic(auto)]

ghost use Rattle.std.specs.Prelude.{◌≡◌, true, not, ◌<◌, length};
ghost use Rattle.rules.specs.Map.{sound, segments};
ghost use Rattle.rules.specs.Units.{unit_of};
ghost use Rattle.rules.specs.State.{state};
ghost use Rattle.rules.specs.Answers.{refusal_of};
ghost use Rattle.rules.specs.Refusals.{lowest, granted, ◌when◌else◌, can_advance, advance_checks, insert_checks};
ghost use Rattle.rules.specs.Command.{refusal, after};
ghost use Rattle.rules.specs.Command as command;
ghost use Rattle.rules.specs.Calls.{CarriedOut, outcome};
ghost use Rattle.xxtea.specs.Block.{E};
ghost use Rattle.moves.specs.Moves.{MoveJudged};

use rules::{Answer, Model, Refusal, Session, Stage};

// ---- advances

// 14: only model 3 advances, and not from stage 2. What is granted is an advance from this stage.
fn judge_stage(model: Model) -> Result<Stage, Refusal>
    ensures { MoveJudged (14 when not (can_advance model) else granted) model result }
{
    let Model::Receiver(stage) = model else {
        return Err(Refusal::OtherModel);
    };
    match stage {
        Stage::Zero => Ok(Stage::Zero),
        Stage::One => Ok(Stage::One),
        Stage::Two => Err(Refusal::OtherModel),
    }
}

// 5, 7, 8 and 14, in this order. It is given two parts of the session, as `judge_insert` and the judges of `writes` are, since
// the rules' checks take these two. `let .. else`, here and there, as document 01 names it of a malformed unit.
fn judge_advance(unit: &[u8; 32], write: usize, name: &[u8]) -> Result<Stage, Refusal>
    ensures { MoveJudged (advance_checks write name.now unit.now) (unit_of unit.now).model result }
{
    let Some(u) = units::decode(unit) else {
        return Err(Refusal::Malformed);
    };
    let other_name = u.pn & !units::named(unit, name);
    units::judge_rights(false, u.wrpin & (write != u.write), other_name)?;
    judge_stage(u.model)
}

// It begins as `insert_sound` does, with 3: a function for that test would be as long as the test.
fn advance_sound(tag: &mut [u8], session: Session, segment: usize) -> Answer
    requires { sound tag.old ≡ true }
    ensures result_value { refusal_of result ≡ refusal E (state tag.old session) (command.advance segment) }
    ensures session_after { state tag.new session ≡ after E (state tag.old session) (command.advance segment) }
{
    if !(segment < layout::segments(tag)) {
        return Err(Refusal::Outside);
    }
    let stage = judge_advance(layout::unit_of(tag, segment), session.write, &session.name)?;
    let start = layout::unit_at(segment);
    let end = start + 32;
    units::advance(&mut tag[start..end], stage);
    Ok(())
}

// An advance on any bytes whatever. The caller has tested whether the tag is sound (`layout::sound` has why a `bool` says so).
pub fn advance(tag: &mut [u8], is_sound: bool, session: Session, segment: usize) -> Answer
    requires { is_sound ≡ sound tag.old }
    ensures { CarriedOut E (state tag.old session) (command.advance segment) tag.new (outcome result session) }
{
    if !is_sound {
        return Err(Refusal::Unsound);
    }
    advance_sound(tag, session, segment)
}

// ---- insertions

// 5, 7, 8, 14 and 19, in this order.
fn judge_insert(tag: &[u8], write: usize, name: &[u8], k: usize, id: [u8; 16]) -> Answer
    requires { (sound tag.now ≡ true) × (k < segments tag.now) }
    ensures { refusal_of result ≡ lowest (insert_checks write name.now tag.now k id) }
{
    let unit = layout::unit_of(tag, k);
    let Some(u) = units::decode(unit) else {
        return Err(Refusal::Malformed);
    };
    let other_name = u.pn & !units::named(unit, name);
    let other_pin = u.wrpin & (write != u.write);
    units::judge_rights(false, other_pin, other_name)?;
    if !units::is_filling(u.model) {
        return Err(Refusal::OtherModel);
    }
    if hosts::refuses(tag, k, id) {
        return Err(Refusal::BadInsertion);
    }
    Ok(())
}

fn insert_sound(tag: &mut [u8], session: Session, segment: usize, id: [u8; 16]) -> Answer
    requires { sound tag.old ≡ true }
    ensures result_value { refusal_of result ≡ refusal E (state tag.old session) (command.insert segment id) }
    ensures session_after { state tag.new session ≡ after E (state tag.old session) (command.insert segment id) }
{
    if !(segment < layout::segments(tag)) {
        return Err(Refusal::Outside);
    }
    judge_insert(tag, session.write, &session.name, segment, id)?;
    hosts::insert(tag, segment, id);
    Ok(())
}

// An insertion on any bytes whatever. The caller has tested whether the tag is sound (`layout::sound` has why a `bool` says so).
pub fn insert(
    tag: &mut [u8],
    is_sound: bool,
    session: Session,
    segment: usize,
    id: [u8; 16],
) -> Answer
    requires { is_sound ≡ sound tag.old }
    ensures { CarriedOut E (state tag.old session) (command.insert segment id) tag.new (outcome result session) }
{
    if !is_sound {
        return Err(Refusal::Unsound);
    }
    insert_sound(tag, session, segment, id)
}
