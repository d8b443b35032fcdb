// The replies of a run as text, one a line in capital hexadecimal. The definitions are in specs/Lines.antt.
#![tactic(auto)]

ghost use Rattle.std.specs.Prelude.{◌≡◌, ◌<◌, [], ◌∷◌, length};
ghost use Rattle.rules.specs.Bytes.{part, put};
ghost use Rattle.rules.specs.Log.{data_length};
ghost use Rattle.reply_lines.specs.Lines.{Stored, digit_of, left_behind, lines_of, mark_of, pair_of, text_of};

// A hexadecimal digit, a capital: std's `from_digit` gives small ones.
fn digit(n: u8) -> u8
    requires { n < 16 }
    ensures { result ≡ digit_of n }
{
    if n < 10 { b'0' + n } else { b'A' - 10 + n }
}

// The bytes that follow a reply's code: one for a refusal's number, and for a read's code the count of its digit.
fn data_length(code: u8) -> usize
    ensures { result ≡ data_length code }
{
    match code {
        0x51 => 1,
        0..0x40 => 0,
        _ => command_log::count_of(code - 0x40),
    }
}

// How many bytes still belong to the reply behind this one.
fn left_behind(left: usize, byte: u8) -> usize
    ensures { result ≡ left_behind left byte }
{
    if left == 0 {
        data_length(byte)
    } else {
        left - 1
    }
}

// Where the text is full, nothing is stored.
// (By `get_mut`, or with text and place as a struct, the proof did not close: no proof may cite what is lent behind them.)
fn put_character(text: &mut [u8], at: usize, character: u8) -> usize
    ensures { Stored at (character ∷ []) text.old text.new result }
{
    if text.len() <= at {
        return at;
    }
    text[at] = character;
    at + 1
}

fn put_pair(text: &mut [u8], at: usize, byte: u8) -> usize
    ensures { Stored at (pair_of byte) text.old text.new result }
{
    let next = put_character(text, at, digit(byte / 16));
    put_character(text, next, digit(byte % 16))
}

// A line's end, a space or nothing.
fn put_mark(text: &mut [u8], at: usize, left: usize, after: usize) -> usize
    ensures { Stored at (mark_of left after) text.old text.new result }
{
    match (left, after) {
        (_, 0) => put_character(text, at, b'\n'),
        (0, _) => put_character(text, at, b' '),
        _ => at,
    }
}

fn put_byte(text: &mut [u8], at: usize, left: usize, after: usize, byte: u8) -> usize
    ensures { Stored at (text_of left after byte) text.old text.new result }
{
    let next = put_pair(text, at, byte);
    put_mark(text, next, left, after)
}

// The lines of the replies, at the start of the text and as far as it has room; the number of characters is handed
// back. A text of three characters for each byte of the replies has room for all. Its rest stays as it is.
pub fn lines(replies: &[u8], text: &mut [u8]) -> usize
    ensures text_after { text.new ≡ put 0 (lines_of replies.now) text.old }
    ensures value { result ≡ length (part 0 (length text.old) (lines_of replies.now)) }
{
    let mut at = 0;
    let mut left = 0;
    for &byte in replies {
        let after = left_behind(left, byte);
        at = put_byte(text, at, left, after, byte);
        left = after;
    }
    at
}
