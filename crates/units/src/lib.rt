// The management unit: what its bytes say, what an edit or an advance makes of it, and the rights that it gives. Document
// 01, "The unit". The definitions that the contracts cite are in `rules`, Units.antt, Refusals.antt and Effects.antt. A
// unit is its 32 bytes: whoever calls hands over just these.
#![tactic(auto)]

ghost use Rattle.std.specs.Prelude.{◌≡◌, true, not, ◌+◌, ◌≤◌, length};
ghost use Rattle.rules.specs.Bytes.{put, same};
ghost use Rattle.rules.specs.Units.{model_formed, name_of, unit_of, well_formed};
ghost use Rattle.rules.specs.Answers.{refusal_of};
ghost use Rattle.rules.specs.Refusals.{edit_allowed, is_filling, is_inserted, keeps_model, lowest, past_stage_zero};
ghost use Rattle.rules.specs.Effects.{advanced, inserted, read_only};
ghost use Rattle.std.specs.Bool.{then_some};
ghost use Rattle.units.specs.Decoded.{decoded};
ghost use Rattle.units.specs.Rights.{rights};

use rules::{Answer, KeyStage, Model, Refusal, Stage, Unit};

// The model that byte 1 names, with M, RD and WR in the control byte. The stage stands in the high four bits.
fn model_of(unit: &[u8; 32]) -> Option<Model>
    ensures { result ≡ then_some (model_formed unit.now) (unit_of unit.now).model }
{
    let control = unit[0];
    if control % 2 != 1 {
        return Some(Model::Default);
    }
    let rd = control / 128 % 2 == 1;
    let wr = control / 32 % 2 == 1;
    let byte = unit[1];
    match byte {
        0x00 => Some(Model::Default),
        0x01 => ((rd & !wr) | (!rd & wr)).then_some(Model::WriteOnce),
        0x02 => (rd & wr).then_some(Model::Counter),
        0x03 => (!rd & wr).then_some(Model::Receiver(Stage::Zero)),
        0x13 => (!rd & wr).then_some(Model::Receiver(Stage::One)),
        0x23 => (rd & !wr).then_some(Model::Receiver(Stage::Two)),
        0x04 => (!rd & wr).then_some(Model::SharedKey(KeyStage::Filling)),
        0x14 => (rd & !wr).then_some(Model::SharedKey(KeyStage::Inserted)),
        _ => None,
    }
}

// Whether a unit is well formed, if its model is: RFU, the zero bytes, the indexes.
fn well_formed(unit: &[u8; 32]) -> bool
    requires { model_formed unit.now ≡ true }
    ensures { result ≡ well_formed unit.now }
{
    (unit[0] / 2 % 2 != 1)
        & octets::all_zero(&unit[2..4])
        & (octets::number16(unit, 4) <= 255)
        & (octets::number16(unit, 6) <= 255)
        & (octets::number16(unit, 8) <= 255)
        & octets::all_zero(&unit[10..16])
}

// The unit of these bytes, whose model this is. RDPIN and WRPIN stay beside their indexes, and do not make options of them:
// an index over 255 makes a unit malformed whatever they say.
fn unit_of(unit: &[u8; 32], model: Model) -> Unit
    requires { model ≡ (unit_of unit.now).model }
    ensures { result ≡ unit_of unit.now }
{
    let control = unit[0];
    Unit {
        rd: control / 128 % 2 == 1,
        rdpin: control / 64 % 2 == 1,
        wr: control / 32 % 2 == 1,
        wrpin: control / 16 % 2 == 1,
        pn: control / 8 % 2 == 1,
        ne: control / 4 % 2 == 1,
        model,
        read: octets::number16(unit, 4),
        write: octets::number16(unit, 6),
        edit: octets::number16(unit, 8),
    }
}

// The unit that 32 bytes hold, if they are well formed.
pub fn decode(unit: &[u8; 32]) -> Option<Unit>
    ensures { result ≡ decoded unit.now }
{
    let model = model_of(unit)?;
    well_formed(unit).then_some(unit_of(unit, model))
}

// Whether M, RD, WR and byte 1 stay.
fn keeps_model(old: &[u8; 32], new: &[u8; 32]) -> bool
    ensures { result ≡ keeps_model old.now new.now }
{
    (old[0] % 2 == new[0] % 2)
        & (old[0] / 128 % 2 == new[0] / 128 % 2)
        & (old[0] / 32 % 2 == new[0] / 32 % 2)
        & (old[1] == new[1])
}

// Whether an edit may bring a unit to this model: of models 3 and 4 only to their stage 0.
#[tactic(auto, unfolding(rules::specs::Refusals::past_stage_zero))]
fn may_become(model: Model) -> bool
    ensures { result ≡ not (past_stage_zero model) }
{
    match model {
        Model::Receiver(stage) => match stage {
            Stage::Zero => true,
            Stage::One => false,
            Stage::Two => false,
        },
        Model::SharedKey(stage) => match stage {
            KeyStage::Filling => true,
            KeyStage::Inserted => false,
        },
        _ => true,
    }
}

// Whether an edit may turn a unit of this model, with bytes `old`, into `new`.
pub fn edit_allowed(model: Model, old: &[u8; 32], new: &[u8; 32]) -> bool
    ensures { result ≡ edit_allowed model old.now new.now }
{
    let Some(next) = decode(new) else {
        return false;
    };
    match model {
        Model::Receiver(_) => keeps_model(old, new),
        _ => may_become(next.model),
    }
}

// The control byte with RD set and WR cleared.
pub fn read_only(control: u8) -> u8
    ensures { result ≡ read_only control }
{
    128 + 64 * (control / 64 % 2) + control % 32
}

// A unit of model 3 goes from this stage to the next. This and the two below are lent their 32 bytes as a slice: what a tag
// holds after a part of it was lent as an array has no proof.
pub fn advance(unit: &mut [u8], stage: Stage)
    requires { length unit.old ≡ 32 }
    ensures { unit.new ≡ put 0 (advanced stage unit.old) unit.old }
{
    match stage {
        Stage::Zero => {
            unit[1] = 0x13;
        }
        Stage::One => {
            unit[0] = read_only(unit[0]);
            unit[1] = 0x23;
        }
        Stage::Two => {}
    }
}

// Whether it is model 4, before the insertion of its host. This test and the next are two, as the rules name them.
#[tactic(auto, unfolding(rules::specs::Refusals::is_filling))]
pub fn is_filling(model: Model) -> bool
    ensures { result ≡ is_filling model }
{
    matches!(model, Model::SharedKey(KeyStage::Filling))
}

// Whether it is model 4, after it.
#[tactic(auto, unfolding(rules::specs::Refusals::is_inserted))]
pub fn is_inserted(model: Model) -> bool
    ensures { result ≡ is_inserted model }
{
    matches!(model, Model::SharedKey(KeyStage::Inserted))
}

// A unit of model 4 goes from stage 0 to stage 1, and is read only from then on.
pub fn insert(unit: &mut [u8])
    requires { length unit.old ≡ 32 }
    ensures { unit.new ≡ put 0 (inserted unit.old) unit.old }
{
    unit[0] = read_only(unit[0]);
    unit[1] = 0x14;
}

// Data goes into a unit, at an offset.
pub fn edit(unit: &mut [u8], offset: usize, data: &[u8])
    requires { (length unit.old ≡ 32) × (offset + length «data».now ≤ 32) }
    ensures { unit.new ≡ put offset «data».now unit.old }
{
    octets::store_at(unit, offset, data)
}

// ---- the rights that a unit gives

// Whether a name is the unit's.
pub fn named(unit: &[u8; 32], name: &[u8]) -> bool
    ensures { result ≡ same name.now (name_of unit.now) }
{
    octets::equal(name, &unit[16..32])
}

// 6, 7 and 8, by their tests, in this order.
pub fn judge_rights(forbidden: bool, pin: bool, name: bool) -> Answer
    ensures { refusal_of result ≡ lowest (rights forbidden pin name) }
{
    if forbidden {
        return Err(Refusal::Forbidden);
    }
    if pin {
        return Err(Refusal::OtherPin);
    }
    if name {
        return Err(Refusal::OtherName);
    }
    Ok(())
}
