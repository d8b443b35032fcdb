// The command log: document 01, "The command log". What comes next, the room that its reply needs, and the bytes of
// replies. The definitions behind the contracts are in `rules`, Log.antt.
#![tactic(auto)]

ghost use Rattle.std.specs.Prelude.{◌≡◌, ℕ, ◌≤◌, ◌<◌, List, length, Some};
ghost use Rattle.rules.specs.Bytes.{byte, put};
ghost use Rattle.rules.specs.Answers.{number_of};
ghost use Rattle.rules.specs.Command.{done};
ghost use Rattle.rules.specs.Log.{count_of, kinds, kind_in, encoded};
ghost use Rattle.rules.specs.Calls.{reply_of};
ghost use Rattle.command_log.specs.Next.{ComesNext, kind_of, command_at, length_of, room_asked, read_head, read_length};

use rules::{Answer, Refusal};

// What comes next in a log, by its kind; `None` is a 15, an unknown kind or a short body. A read and a write have the last
// digit of their kind, a number and no enum: document 01 tells their count by it, and a reply's code is 0x40 and the digit.
#[derive(Clone, Copy)]
pub enum Next {
    PowerUp,
    Read(u8),
    Write(u8),
    Advance,
    Insert,
}

// "11, 12, 13, 14 read 1, 8, 16, 32 bytes .. 21, 22, 23, 24 write as many .. 41 to 44 with the data": the count, by the last
// digit.
#[tactic(auto, unfolding(rules::specs::Log::count_of))]
pub fn count_of(digit: u8) -> usize
    ensures { (result ≡ count_of digit) × (result ≤ 32) }
{
    match digit {
        1 => 1,
        2 => 8,
        3 => 16,
        4 => 32,
        _ => 0,
    }
}

// The bytes that it takes; a 15 takes none.
#[tactic(auto, unfolding(rules::specs::Log::body_length))]
pub fn length_of(next: Option<Next>) -> usize
    ensures { result ≡ length_of (kind_of next) }
{
    match next {
        Some(Next::PowerUp) => 1,
        Some(Next::Read(_)) => 5,
        Some(Next::Write(digit)) => 5 + count_of(digit),
        Some(Next::Advance) => 3,
        Some(Next::Insert) => 19,
        None => 0,
    }
}

// A command of the kind that a byte of the log has, if its body is whole.
fn if_whole(log: &[u8], at: usize, next: Next) -> Option<Next>
    requires { (at < length log.now) × (kind_of (Some next) ≡ kind_in kinds (byte at log.now)) }
    ensures { ComesNext log.now at result }
{
    if log.len() - at < length_of(Some(next)) {
        return None;
    }
    Some(next)
}

// What begins at a byte of the log.
pub fn next_at(log: &[u8], at: usize) -> Option<Next>
    requires { at < length log.now }
    ensures { ComesNext log.now at result }
{
    let kind = log[at];
    match kind {
        0x00 => if_whole(log, at, Next::PowerUp),
        0x11..=0x14 => if_whole(log, at, Next::Read(kind - 0x10)),
        0x21..=0x24 => if_whole(log, at, Next::Write(kind - 0x20)),
        0x31 => if_whole(log, at, Next::Advance),
        0x32 => if_whole(log, at, Next::Insert),
        _ => None,
    }
}

// The room that its reply must find, wherever it stands in a log.
#[tactic(auto, unfolding(rules::specs::Log::command_of, rules::specs::Log::room_for))]
pub fn room_of(next: Option<Next>) -> usize
    ensures { (log : List ℕ) (at : ℕ) → result ≡ room_asked (command_at log at next) }
{
    match next {
        Some(Next::Read(digit)) => 1 + count_of(digit),
        _ => 2,
    }
}

// The number of a refusal.
pub fn number_of(refusal: Refusal) -> u8
    ensures { result ≡ number_of refusal }
{
    refusal as u8
}

// The reply to a command that gives no bytes, at the start of the output; its length is handed back. The output stays a
// slice of two bytes or more: as an array it would lose those behind the reply.
pub fn put_answer(output: &mut [u8], answer: Answer) -> usize
    requires { 2 ≤ length output.old }
    ensures output_after { output.new ≡ put 0 (encoded (reply_of answer done)) output.old }
    ensures value { result ≡ length (encoded (reply_of answer done)) }
{
    match answer {
        Ok(()) => {
            output[0] = 0x50;
            1
        }
        Err(refusal) => {
            output[0] = 0x51;
            output[1] = number_of(refusal);
            2
        }
    }
}

// The reply to a read, whose bytes stand behind the first of the output already: its code, or the refusal.
pub fn put_read(output: &mut [u8], answer: Answer, digit: u8) -> usize
    requires { (2 ≤ length output.old) × (1 ≤ count_of digit) }
    ensures output_after { output.new ≡ put 0 (read_head answer (count_of digit)) output.old }
    ensures value { result ≡ read_length answer (count_of digit) }
{
    match answer {
        Ok(()) => {
            output[0] = 0x40 + digit;
            1 + count_of(digit)
        }
        Err(_) => put_answer(output, answer),
    }
}
