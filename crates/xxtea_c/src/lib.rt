// XXTEA for C and Rust: two functions, since C calls each by its name. Each answers 0, or the refusal number 17, which
// C knows, with no word changed.
#![tactic(auto)]

ghost use Rattle.std.specs.Prelude.{◌≡◌, [], ◌∷◌, length};
ghost use Rattle.xxtea.specs.Xxtea.{enciphered, deciphered, refusal, refused};
ghost use Rattle.rules.specs.Answers.{code_of};

use xxtea::WrongLength;

// An answer is a number for C alone. Not `number_of` of `tag_c`: another error, and neither library for C needs the other.
fn code_of(answer: Result<(), WrongLength>) -> u8
    ensures { result ≡ code_of (refusal answer) }
{
    match answer {
        Ok(()) => 0,
        Err(WrongLength) => 17,
    }
}

#[unsafe(no_mangle)]
pub extern "C" fn xxtea_c_encipher(words: &mut [u32], k0: u32, k1: u32, k2: u32, k3: u32) -> u8
    ensures code { result ≡ code_of (refused (length words.old)) }
    ensures words { words.new ≡ enciphered (k0 ∷ k1 ∷ k2 ∷ k3 ∷ []) words.old }
{
    code_of(xxtea::encipher(words, [k0, k1, k2, k3]))
}

#[unsafe(no_mangle)]
pub extern "C" fn xxtea_c_decipher(words: &mut [u32], k0: u32, k1: u32, k2: u32, k3: u32) -> u8
    ensures code { result ≡ code_of (refused (length words.old)) }
    ensures words { words.new ≡ deciphered (k0 ∷ k1 ∷ k2 ∷ k3 ∷ []) words.old }
{
    code_of(xxtea::decipher(words, [k0, k1, k2, k3]))
}
