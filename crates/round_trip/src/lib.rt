// Each direction undoes the other, said of the code: a caller's view of the claim in crates/xxtea/specs/Claims.antt.
#![tactic(auto)]

ghost use Rattle.std.specs.Prelude.{◌≡◌};

// There and back with one key, then back and there with another: every word is as it was, at every length.
pub fn round_trips(words: &mut [u32], first: [u32; 4], second: [u32; 4])
    ensures { words.new ≡ words.old }
{
    let _ = xxtea::encipher(words, first);
    let _ = xxtea::decipher(words, first);
    let _ = xxtea::decipher(words, second);
    let _ = xxtea::encipher(words, second);
}
