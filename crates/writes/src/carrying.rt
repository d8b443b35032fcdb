// A write that is judged, carried out. Each leaf is handed the part of the tag that it changes.
ghost use Rattle.std.specs.Prelude.{◌≡◌, [], ◌∷◌, ◌+◌, ◌≤◌, ◌<◌, length};
ghost use Rattle.rules.specs.Bytes.{byte, put};
ghost use Rattle.rules.specs.Map.{unit_at};
ghost use Rattle.rules.specs.Answers.{number_of};
ghost use Rattle.rules.specs.Effects.{apply, read_only, refusal_stores};
ghost use Rattle.writes.specs.Verdict.{stores_by, Fits};

use crate::judging::Act;
use rules::Refusal;

// A refusal changes nothing, except 11, which sets the flag.
pub fn note_refusal(tag: &mut [u8], refusal: Refusal)
    requires { 16 ≤ length tag.old }
    ensures { tag.new ≡ apply (refusal_stores (number_of refusal)) tag.old }
{
    if let Refusal::WrongResponse = refusal {
        tag[layout::FLAG] = 1;
    }
}

// The data goes to the address, and the control byte of unit k has RD set and WR cleared.
fn store_once(tag: &mut [u8], at: usize, data: &[u8], k: usize)
    requires { (at + length «data».now ≤ length tag.old) × (unit_at k < length tag.old) }
    ensures { tag.new ≡ put (unit_at k) (read_only (byte (unit_at k) tag.old) ∷ []) (put at «data».now tag.old) }
{
    let unit = layout::unit_at(k);
    let control = units::read_only(tag[unit]);
    octets::store(&mut tag[at..at + data.len()], data);
    tag[unit] = control;
}

// The data goes to its address in unit k.
fn edit_unit(tag: &mut [u8], k: usize, at: usize, data: &[u8])
    requires { (unit_at k ≤ at) × (at + length «data».now ≤ unit_at k + 32) × (unit_at k + 32 ≤ length tag.old) }
    ensures { tag.new ≡ put at «data».now tag.old }
{
    let start = layout::unit_at(k);
    let end = start + 32;
    units::edit(&mut tag[start..end], at - start, data)
}

// A granted write, carried out, unless a register takes it.
pub fn carry_out(tag: &mut [u8], at: usize, data: &[u8], act: Act)
    requires { (16 ≤ length tag.old) × Fits tag.old at «data».now act }
    ensures { tag.new ≡ apply (stores_by act tag.old at «data».now) tag.old }
{
    match act {
        Act::Store => octets::store(&mut tag[at..at + data.len()], data),
        Act::Xor => octets::xor_into(&mut tag[at..at + data.len()], data),
        Act::StoreOnce(k) => store_once(tag, at, data, k),
        Act::Edit(k) => edit_unit(tag, k, at, data),
        Act::NextCount => {
            octets::store(&mut tag[at..at + data.len()], data);
            tag[layout::FLAG] = 0;
        }
        Act::Take(_) => {}
    }
}
