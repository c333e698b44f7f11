ghost use Rattle.std.specs.Prelude.{◌≡◌, ◌/◌, ◌%◌, ◌^◌, ◌<◌, IfSome, Some};
ghost use Rattle.input.specs.Digits.{digit_value, digit_of};
ghost use Rattle.input.specs.Words.{word_of_line, hex_digits};

use std::array;

// How many digits a word line has: a digit is four bits of the word's 32.
const DIGITS: usize = 8;

// The value of a lowercase hexadecimal digit.
fn digit_value(byte: u8) -> Option<u32>
    ensures value { result ≡ digit_value byte }
{
    match byte {
        b'0'..=b'9' => Some(u32::from(byte - b'0')),
        b'a'..=b'f' => Some(u32::from(byte - b'a') + 10),
        _ => None,
    }
}

// The digit of a value.
fn digit_of(value: u8) -> u8
    requires { value < 16 }
    ensures value { result ≡ digit_of value }
{
    if value < 10 {
        b'0' + value
    } else {
        b'a' + (value - 10)
    }
}

// The word that a line writes, where it is eight lowercase digits and nothing more: the line that `hex_line` writes, and no other.
#[tactic(auto, using(crate::proofs::HexLaws::reading), unfolding(crate::specs::Words::word_of_line, crate::specs::Words::number_after))]
pub fn hex_word(line: &[u8]) -> Option<u32>
    ensures value { result ≡ word_of_line line.now }
    ensures digits { IfSome result (λ word. line.now ≡ hex_digits word) }
{
    if line.len() != DIGITS {
        return None;
    }
    let mut word = 0;
    for byte in line {
        word = word * 16 + digit_value(*byte)?;
    }
    Some(word)
}

// The digit of a word that has so many digits behind it.
#[tactic(auto, using(crate::proofs::HexLaws::four_bits))]
fn digit_at(word: u32, behind: usize) -> u8
    requires { behind < 8 }
    ensures value { result ≡ digit_of (word / 16 ^ behind % 16) }
{
    digit_of(((word >> (4 * behind)) % 16) as u8)
}

// The line that writes a word; `hex_word` reads the word back from it.
pub fn hex_line(word: u32) -> [u8; 8]
    ensures value { result ≡ hex_digits word }
    ensures back { word_of_line result ≡ Some word }
{
    array::from_fn(|place| digit_at(word, DIGITS - 1 - place))
}
