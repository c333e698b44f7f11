// The textual input that the programs share: lines of bytes, the name of a reckoning, and runs of words.
#![tactic(auto)]

pub mod hex;
pub mod names;
pub mod run;
pub mod text;

pub use hex::{hex_line, hex_word};
pub use names::{Name, UnknownName};
pub use run::read_words;
pub use text::Lines;

#[cfg(test)]
mod tests {
    use super::*;
    use std::test::Fail;

    #[test]
    fn reads_an_input(rt: HostRuntime) -> Result<(), Fail> {
        let mut lines = Lines::new(b"cost\n0000000a\nfedcba98\n\n10203040\n0X000000\r\nlast");
        let name = lines.next().ok_or("no first line")?;
        assert_eq!(rt; Name::try_from(name), Ok(Name::Cost));
        let sheet = read_words(rt.alloc(), &mut lines, 2)?.ok_or("the sheet is too long")?;
        assert!(rt; sheet.as_slice() == [0x0000_000a, 0xfedc_ba98].as_slice());
        assert!(rt;
            read_words(rt.alloc(), &mut lines, 0)?.is_none(),
            "one word where none is allowed"
        );
        assert!(rt;
            lines.next() == Some(b"last"),
            "the line that ended the table is gone"
        );
        assert!(rt; lines.next().is_none());
        assert_eq!(rt; hex_line(0xfedc_ba98), *b"fedcba98");
        Ok(())
    }
}
