// The judges of writes, a function for each place, and what they grant. They touch nothing.
ghost use Rattle.std.specs.Prelude.{◌≡◌, true, ◌+◌, ◌≤◌, ◌<◌, length, Some};
ghost use Rattle.rules.specs.declared.Model.TheVariants.{Counter};
ghost use Rattle.rules.specs.declared.Place.TheVariants.{UnitOf, Segment};
ghost use Rattle.rules.specs.Bytes.{put};
ghost use Rattle.rules.specs.Map.{sound, segments, place_of, unit_at, segment_at};
ghost use Rattle.rules.specs.State.{state};
ghost use Rattle.rules.specs.Answers.{refusal_of};
ghost use Rattle.rules.specs.Refusals.{lowest, value_checks, slot_checks, header_write_checks};
ghost use Rattle.rules.specs.Refusals.{segment_write_checks, edit_allowed, write_checks};
ghost use Rattle.xxtea.specs.Block.{E};
ghost use Rattle.writes.specs.Verdict.{Judged, JudgedIn, WriteJudged, act_of, unit_act};

use rules::{Answer, Model, Place, Refusal, Register, Session, Stage};

// What a granted write does.
#[derive(Clone, Copy)]
pub enum Act {
    // The data goes to the address.
    Store,
    // It is XORed into what is there.
    Xor,
    // It goes to the address, and this segment becomes read only.
    StoreOnce(usize),
    // It goes into this segment's unit.
    Edit(usize),
    // It is the next value of the roll-back counter.
    NextCount,
    // A register takes it.
    Take(Register),
}

// How eight bytes stand to the value that is stored: the next is granted, the same is 18, and any other 12. A lower
// value has no difference (`None`).
#[tactic(auto, using(crate::proofs::JudgeLaws::told_repeated, crate::proofs::JudgeLaws::told_next, crate::proofs::JudgeLaws::told_other))]
fn judge_value(old: &[u8], new: &[u8]) -> Answer
    requires { (length old.now ≡ 8) × (length new.now ≡ 8) }
    ensures { refusal_of result ≡ lowest (value_checks true old.now new.now) }
{
    let stored = octets::number64(old, 0);
    let value = octets::number64(new, 0);
    match value.checked_sub(stored) {
        Some(0) => Err(Refusal::Repeated),
        Some(1) => Ok(()),
        Some(_) => Err(Refusal::NotNext),
        None => Err(Refusal::NotNext),
    }
}

// The only write that the header takes is a value of the roll-back counter. Address and data stay two arguments here and
// below, as a command has them.
fn judge_header(tag: &[u8], at: usize, data: &[u8]) -> Answer
    requires { 16 ≤ length tag.now }
    ensures { refusal_of result ≡ lowest (header_write_checks tag.now at «data».now) }
{
    if !((at == layout::COUNTER) & (data.len() == 8)) {
        return Err(Refusal::NeverTaken);
    }
    judge_value(&tag[layout::COUNTER..layout::FLAG], data)
}

// What a counter segment answers to data for its old bytes: one aligned slot first, then the value. `judge_model` has why the
// two are two.
fn judge_slot(at: usize, old: &[u8], data: &[u8]) -> Answer
    requires { length old.now ≡ length «data».now }
    ensures { refusal_of result ≡ lowest (slot_checks Counter at old.now «data».now) }
{
    if !((at % 8 == 0) & (data.len() == 8)) {
        return Err(Refusal::NotNext);
    }
    judge_value(old, data)
}

// What the model of segment k makes of a write. `old` are the bytes that the data would replace; no type holds both, since
// the tag lends the one and the caller the other. At the last stage of models 3 and 4 WR is clear, so that it does not come
// here.
fn judge_model(model: Model, k: usize, at: usize, old: &[u8], data: &[u8]) -> Result<Act, Refusal>
    requires { length old.now ≡ length «data».now }
    ensures { Judged (slot_checks model at old.now «data».now) (act_of k model) result }
{
    match model {
        Model::Default | Model::SharedKey(_) => Ok(Act::Store),
        Model::WriteOnce => Ok(Act::StoreOnce(k)),
        Model::Counter => {
            judge_slot(at, old, data)?;
            Ok(Act::Store)
        }
        Model::Receiver(stage) => match stage {
            Stage::One => Ok(Act::Xor),
            Stage::Zero | Stage::Two => Ok(Act::Store),
        },
    }
}

// The rights that the unit of segment k gives, then its model.
fn judge_segment_write(
    unit: &[u8; 32],
    write: usize,
    name: &[u8],
    k: usize,
    at: usize,
    old: &[u8],
    data: &[u8],
) -> Result<Act, Refusal>
    requires { length old.now ≡ length «data».now }
    ensures { Judged (segment_write_checks write name.now unit.now at old.now «data».now) (unit_act k unit.now) result }
{
    let Some(u) = units::decode(unit) else {
        return Err(Refusal::Malformed);
    };
    let other_name = u.pn & !units::named(unit, name);
    units::judge_rights(!u.wr, u.wrpin & (write != u.write), other_name)?;
    judge_model(u.model, k, at, old, data)
}

// A write in segment k, by its unit and by the bytes that are there.
fn judge_segment_at(
    tag: &[u8],
    session: Session,
    k: usize,
    at: usize,
    data: &[u8],
) -> Result<Act, Refusal>
    requires { (segment_at (segments tag.now) k ≤ at) × (at + length «data».now ≤ length tag.now) × (unit_at k + 32 ≤ length tag.now) }
    ensures { JudgedIn (state tag.now session) (Segment k) at «data».now result }
{
    judge_segment_write(
        layout::unit_of(tag, k),
        session.write,
        &session.name,
        k,
        at,
        &tag[at..at + data.len()],
        data,
    )
}

// Whether a unit of this model may become what an edit makes of it.
fn edit_fits(model: Model, unit: &[u8; 32], offset: usize, data: &[u8]) -> bool
    requires { offset + length «data».now ≤ 32 }
    ensures { result ≡ edit_allowed model unit.now (put offset «data».now unit.now) }
{
    let mut edited = *unit;
    units::edit(&mut edited, offset, data);
    units::edit_allowed(model, unit, &edited)
}

// An edit of unit k, by data at an address. Only an edit that passes 5, 6 and 7 looks at the list.
fn judge_edit(tag: &[u8], session: Session, k: usize, at: usize, data: &[u8]) -> Answer
    requires { (unit_at k ≤ at) × (at + length «data».now ≤ unit_at k + 32) × (unit_at k + 32 ≤ length tag.now) × (k < 65536) }
    ensures { refusal_of result ≡ lowest (write_checks E (state tag.now session) (UnitOf k) at «data».now) }
{
    let unit = layout::unit_of(tag, k);
    let Some(u) = units::decode(unit) else {
        return Err(Refusal::Malformed);
    };
    if u.ne {
        return Err(Refusal::Forbidden);
    }
    if session.edit != u.edit {
        return Err(Refusal::OtherPin);
    }
    let offset = at - layout::unit_at(k);
    if hosts::lists(tag, k) | !edit_fits(u.model, unit, offset, data) {
        return Err(Refusal::BadEdit);
    }
    Ok(())
}

// A write in its place.
fn judge_write_in(
    tag: &[u8],
    session: Session,
    place: Place,
    at: usize,
    data: &[u8],
) -> Result<Act, Refusal>
    requires { (sound tag.now ≡ true) × (place_of tag.now at (length «data».now) ≡ Some place) }
    ensures { JudgedIn (state tag.now session) place at «data».now result }
{
    match place {
        Place::Header => {
            judge_header(tag, at, data)?;
            Ok(Act::NextCount)
        }
        Place::RegisterOf(register) => {
            registers::judge(tag, session, register, data)?;
            Ok(Act::Take(register))
        }
        Place::UnitOf(k) => {
            judge_edit(tag, session, k, at, data)?;
            Ok(Act::Edit(k))
        }
        Place::Segment(k) => judge_segment_at(tag, session, k, at, data),
        Place::Public(_) => Ok(Act::Store),
        _ => Err(Refusal::NeverTaken),
    }
}

// A write on a sound tag: its count, then its place.
pub fn judge_write(tag: &[u8], session: Session, at: usize, data: &[u8]) -> Result<Act, Refusal>
    requires { sound tag.now ≡ true }
    ensures { WriteJudged (state tag.now session) at «data».now result }
{
    let n = data.len();
    if (n == 0) | (4096 < n) {
        return Err(Refusal::Count);
    }
    let place = layout::place_of(tag, at, n).ok_or(Refusal::Outside)?;
    judge_write_in(tag, session, place, at, data)
}
