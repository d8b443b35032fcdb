// The host list in the reader ID segment, and the slots of hosts: document 02, L4. The definitions that the contracts
// cite are in `rules`, Hosts.antt, Refusals.antt and Effects.antt. The list is a slice of its rows, which `rows` cuts from
// the reader ID segment.
#![tactic(auto)]

ghost use Rattle.std.specs.Prelude.{◌≡◌, true, [], ◌∷◌, ◌+◌, ◌%◌, ◌^◌, ◌≤◌, ◌<◌, ◌||◌, leb, length, map};
ghost use Rattle.std.specs.List.{position_or_len};
ghost use Rattle.std.specs.Simd.{first_chunks};
ghost use Rattle.rules.specs.Bytes.{part, put, xor, zeros, Apart};
ghost use Rattle.rules.specs.Hosts.{host_slot_at, readers, any, has_id, twin};
ghost use Rattle.rules.specs.Hosts as list;
ghost use Rattle.rules.specs.Map.{segments, sound, unit_at};
ghost use Rattle.rules.specs.Refusals.{hides, list_refuses, misfit, row_fits};
ghost use Rattle.rules.specs.Effects.{apply, insert_stores, joined_slot, pair_stores, row_store};
ghost use Rattle.hosts.specs.Joining.{Insertable, Rows, all_paired, host_of, row_paired, spared};

use rules::Model;

// "18 bytes a row .., 85 rows at most"
const ROW_SIZE: usize = 18;

const ROWS: usize = 85;

// A row: the id, and the segment number plus one.
type Row = [u8; ROW_SIZE];

// The segment number plus one that a row names.
#[tactic(auto, unfolding(rules::specs::Hosts::host_at))]
fn named(row: &Row) -> usize
    ensures { result ≡ (host_of row.now).named }
{
    octets::number16(row, 16)
}

// The id of a row.
#[tactic(auto, unfolding(rules::specs::Hosts::host_at, rules::specs::Bytes::part))]
fn id_of(row: &Row) -> &[u8; 16]
    ensures { result.now ≡ (host_of row.now).id }
{
    row[..16].as_array().unwrap()
}

// All rows that have a place in the reader ID segment, those behind the end of the list too.
#[tactic(auto, using(crate::proofs::RowLaws::places_fit, crate::proofs::RowLaws::places_cut))]
fn places(tag: &[u8]) -> &[Row]
    requires { unit_at 0 ≤ length tag.now }
    ensures { result.now ≡ first_chunks 18 85 (readers tag.now) }
{
    let (places, _) = layout::readers(tag).as_chunks::<ROW_SIZE>();
    &places[..ROWS]
}

// The number of rows before the end of the list.
fn count(places: &[Row]) -> usize
    ensures { result ≡ position_or_len (λ row. zeros (host_of row).id) places.now }
{
    places
        .iter()
        .take_while(|row| !octets::all_zero(id_of(row)))
        .count()
}

// The rows of the list.
#[tactic(auto, using(crate::proofs::RowLaws::rows_are, crate::proofs::RowLaws::few_rows))]
fn rows(tag: &[u8]) -> &[Row]
    requires { unit_at 0 ≤ length tag.now }
    ensures hosts { map host_of result.now ≡ list.hosts tag.now }
    ensures few { length result.now ≤ 85 }
{
    let places = places(tag);
    &places[..count(places)]
}

// Whether one of the rows names segment k. A segment number is a `usize` in every command, so that its bound stays a clause
// here and below.
fn listed(rows: &[Row], k: usize) -> bool
    requires { k < 65536 }
    ensures { result ≡ list.listed k (map host_of rows.now) }
{
    rows.iter().any(|row| named(row) == k + 1)
}

// Whether one of the rows has this id.
fn has_id(rows: &[Row], id: [u8; 16]) -> bool
    ensures { result ≡ any (has_id id) (map host_of rows.now) }
{
    rows.iter().any(|row| octets::equal(id_of(row), &id))
}

// Whether one of the rows has the id of this one, or names its segment.
fn has_twin(row: &Row, rows: &[Row]) -> bool
    ensures { result ≡ any (twin (host_of row.now)) (map host_of rows.now) }
{
    rows.iter().any(|other| octets::equal(id_of(other), id_of(row)) || named(other) == named(row))
}

// Whether two of the rows have one id or name one segment.
#[tactic(auto, using(crate::proofs::RowLaws::repeats_here, crate::proofs::RowLaws::repeats_on, crate::proofs::RowLaws::repeats_end))]
fn repeats(rows: &[Row]) -> bool
    ensures { result ≡ list.repeats (map host_of rows.now) }
{
    for (i, row) in rows.iter().enumerate() {
        if has_twin(row, &rows[i + 1..]) {
            return true;
        }
    }
    false
}

// Whether n bytes at an offset lie before the slot at `at`, or behind it. That they lie in one segment stays a clause, here and
// below: a type for it would be taken apart at every test.
fn off_slot(at: usize, offset: usize, n: usize) -> bool
    requires { (at ≤ 4096) × (offset + n ≤ 4096) }
    ensures { result ≡ (leb (offset + n) at || leb (at + 48) offset) }
{
    offset + n <= at || at + 48 <= offset
}

// Whether a row, whose slot is at offset `at`, names another segment than k, or its slot is not among n bytes at an offset.
// Segment, offset and count stay three arguments, here and below, as the rules' `misses` and `readable` have them.
fn spares(row: &Row, at: usize, k: usize, offset: usize, n: usize) -> bool
    requires { (at ≤ 4096) × (k < 65536) × (offset + n ≤ 4096) }
    ensures { result ≡ spared k offset n at (host_of row.now) }
{
    named(row) != k + 1 || off_slot(at, offset, n)
}

// Whether n bytes at an offset of segment k touch no slot whose row names the segment.
#[tactic(auto, using(crate::proofs::RowLaws::misses_not, crate::proofs::RowLaws::misses_on, crate::proofs::RowLaws::misses_end))]
fn misses(rows: &[Row], k: usize, offset: usize, n: usize) -> bool
    requires { (length rows.now ≤ 85) × (k < 65536) × (offset + n ≤ 4096) }
    ensures { result ≡ list.misses k offset n 0 (map host_of rows.now) }
{
    for (i, row) in rows.iter().enumerate() {
        if !spares(row, 48 * i, k, offset, n) {
            return false;
        }
    }
    true
}

// Whether n bytes at an offset of segment k may be read, as far as the list decides it.
#[tactic(auto, using(crate::proofs::RowLaws::length_rows), unfolding(rules::specs::Hosts::readable, rules::specs::Bytes::all))]
fn readable(rows: &[Row], k: usize, offset: usize, n: usize) -> bool
    requires { (length rows.now ≤ 85) × (k < 65536) × (offset + n ≤ 4096) }
    ensures { result ≡ list.readable k offset n (map host_of rows.now) }
{
    listed(rows, k) && offset + n <= 48 * rows.len() && misses(rows, k, offset, n)
}

// Whether the list hides n bytes at an address in segment k, which has this model. Only model 4 asks the list. A segment
// begins at a multiple of 4,096.
#[tactic(auto, using(units::proofs::Laws::not_shared), unfolding(rules::specs::Refusals::hides, rules::specs::Refusals::is_shared_key))]
pub fn hidden(model: Model, tag: &[u8], k: usize, at: usize, n: usize) -> bool
    requires { (unit_at 0 ≤ length tag.now) × (k < 65536) × (at % 4096 + n ≤ 4096) }
    ensures { result ≡ hides model k (at % 4096) n (list.hosts tag.now) }
{
    match model {
        Model::SharedKey(_) => !readable(rows(tag), k, at % 4096, n),
        _ => false,
    }
}

// Whether the list names segment k.
pub fn lists(tag: &[u8], k: usize) -> bool
    requires { (unit_at 0 ≤ length tag.now) × (k < 65536) }
    ensures { result ≡ list.listed k (list.hosts tag.now) }
{
    listed(rows(tag), k)
}

// ---- 19

// Whether the segment that a row names is a well-formed model 4 at stage 1.
#[tactic(auto, unfolding(rules::specs::Refusals::row_fits, rules::specs::Bytes::all))]
fn row_fits(tag: &[u8], row: &Row) -> bool
    requires { unit_at (segments tag.now) ≤ length tag.now }
    ensures { result ≡ row_fits tag.now (host_of row.now) }
{
    let number = named(row);
    if number == 0 || layout::segments(tag) < number {
        return false;
    }
    match units::decode(layout::unit_of(tag, number - 1)) {
        Some(unit) => units::is_inserted(unit.model),
        None => false,
    }
}

// Whether one of the rows names another segment than these.
fn misfits(tag: &[u8], rows: &[Row]) -> bool
    requires { unit_at (segments tag.now) ≤ length tag.now }
    ensures { result ≡ any (misfit tag.now) (map host_of rows.now) }
{
    rows.iter().any(|row| !row_fits(tag, row))
}

// Whether the list has no place for another row.
fn is_full(rows: &[Row]) -> bool
    ensures { result ≡ leb 85 (length rows.now) }
{
    rows.len() >= ROWS
}

// 19: "a listed or zero id, a listed segment, a full list, or a list with a repeated id or segment or a row whose segment
// isn't a well-formed model 4 at stage 1".
#[tactic(auto, using(crate::proofs::RowLaws::length_rows, rules::proofs::MapLaws::sizes, rules::proofs::MapLaws::sound_long), unfolding(rules::specs::Refusals::list_refuses, rules::specs::Hosts::most_hosts, rules::specs::Bytes::all))]
pub fn refuses(tag: &[u8], k: usize, id: [u8; 16]) -> bool
    requires { (sound tag.now ≡ true) × (k < 65536) }
    ensures { result ≡ list_refuses tag.now k id (list.hosts tag.now) }
{
    let rows = rows(tag);
    octets::all_zero(&id)
        || has_id(rows, id)
        || listed(rows, k)
        || is_full(rows)
        || repeats(rows)
        || misfits(tag, rows)
}

// ---- insertion

// A slot of a pair: the id of the other host, both masks, and a mask of zeros.
fn join_slot(slot: &mut [u8], id: [u8; 16], masks: [u8; 16])
    requires { length slot.old ≡ 48 }
    ensures { slot.new ≡ joined_slot id masks slot.old }
{
    octets::xor_at(slot, 0, &id);
    octets::xor_at(slot, 16, &masks);
    octets::store_at(slot, 32, &[0u8; 16]);
}

// The same, of the slot at an address of the tag.
fn join_at(tag: &mut [u8], at: usize, id: [u8; 16], masks: [u8; 16])
    requires { at + 48 ≤ length tag.old }
    ensures { tag.new ≡ put at (joined_slot id masks (part at 48 tag.old)) tag.old }
{
    join_slot(&mut tag[at..at + 48], id, masks);
}

// The XOR of the masks of the slots at two addresses.
fn both_masks(tag: &[u8], a: usize, b: usize) -> [u8; 16]
    requires { (a + 48 ≤ length tag.now) × (b + 48 ≤ length tag.now) }
    ensures { result ≡ xor (part (a + 32) 16 tag.now) (part (b + 32) 16 tag.now) }
{
    let (mine, other) = (a + 32, b + 32);
    let mut masks = octets::sixteen(&tag[mine..mine + 16]);
    octets::xor_into(&mut masks, &tag[other..other + 16]);
    masks
}

// The slots at a and b become a pair: `mine` is the id of the host whose slot is at a, `other` that of the one at b.
fn join(tag: &mut [u8], a: usize, b: usize, mine: [u8; 16], other: [u8; 16])
    requires { (a + 48 ≤ length tag.old) × (b + 48 ≤ length tag.old) × Apart a 48 b 48 }
    ensures { tag.new ≡ apply (pair_stores a b mine other tag.old) tag.old }
{
    let masks = both_masks(tag, a, b);
    join_at(tag, a, other, masks);
    join_at(tag, b, mine, masks);
}

// The address of slot j of segment k.
fn slot_at(tag: &[u8], k: usize, j: usize) -> usize
    requires { (4 ≤ length tag.now) × (host_slot_at (segments tag.now) k j < 2 ^ 64) }
    ensures { result ≡ host_slot_at (segments tag.now) k j }
{
    layout::segments_at(layout::segments(tag)) + 4096 * k + 48 * j
}

// Row i of the list is joined with the new host, whose segment is k, in a list of x rows.
fn join_row(tag: &mut [u8], x: usize, k: usize, id: [u8; 16], i: usize)
    requires { Rows tag.old x k × (i < x) }
    ensures { tag.new ≡ row_paired tag.old x k id i }
{
    let row = &places(tag)[i];
    let other = *id_of(row);
    let segment = named(row) - 1;
    let a = slot_at(tag, segment, x);
    let b = slot_at(tag, k, i);
    join(tag, a, b, other, id);
}

// "for i = 1 to x": all rows are joined with the new host, one after another.
fn join_all(tag: &mut [u8], x: usize, k: usize, id: [u8; 16])
    requires { Rows tag.old x k × (x ≡ length (list.hosts tag.old)) }
    ensures { tag.new ≡ all_paired tag.old x k id }
{
    for i in 0..x {
        join_row(tag, x, k, id, i);
    }
}

// Row x of the list: the id, and the segment number plus one.
fn store_row(tag: &mut [u8], x: usize, k: usize, id: [u8; 16])
    requires { (unit_at 0 ≤ length tag.old) × (x < 85) × (k < 65536) }
    ensures { tag.new ≡ apply (row_store x k id ∷ []) tag.old }
{
    let at = layout::READERS + ROW_SIZE * x;
    octets::store_at(tag, at, &id);
    octets::store16(tag, at + 16, k + 1);
}

// The insertion of a host that is not refused: the pairs, its row, and its segment's unit.
#[tactic(auto, using(crate::proofs::InsertLaws::insert_sizes, crate::proofs::InsertLaws::rows_of, crate::proofs::RowLaws::count_rows))]
pub fn insert(tag: &mut [u8], k: usize, id: [u8; 16])
    requires { Insertable tag.old k id }
    ensures { tag.new ≡ apply (insert_stores tag.old k id) tag.old }
{
    let x = rows(tag).len();
    join_all(tag, x, k, id);
    store_row(tag, x, k, id);
    let start = layout::unit_at(k);
    units::insert(&mut tag[start..start + 32]);
}
