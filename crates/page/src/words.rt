// Format facts from five words: magic, version, hashless mask and reserved mask in hexadecimal, and
// the node maximum in decimal.
ghost use Rattle.std.specs.Prelude.{◌≡◌};
ghost use Rattle.page.specs.Words.{stand_in, words_check};

use layout::facts::FormatFacts;
use text::digits::{hex_byte, hex_wrong, number_of};

// What is wrong with the words of a command: how many there are, or the first wrong one.
#[derive(Clone, Copy, PartialEq, Eq)]
pub enum WrongWords {
    Count,
    Magic,
    Version,
    Hashless,
    Reserved,
    Maximum,
}

// The facts that take the place of the true ones, which are not known here: magic `MAST`, version 0 0 2,
// hashless mask 2, reserved mask 0xFC, node maximum 2^30 - 1.
pub fn stand_in_facts() -> FormatFacts
    ensures { result ≡ stand_in }
{
    FormatFacts {
        magic: *b"MAST",
        version: [0, 0, 2],
        hashless: 2,
        reserved: 0xFC,
        max_nodes: 0x3FFF_FFFF,
    }
}

// The facts of five words, or the first word that is wrong.
pub fn read_facts(
    magic: &[u8],
    version: &[u8],
    hashless: &[u8],
    reserved: &[u8],
    most: &[u8],
) -> Result<FormatFacts, WrongWords>
    ensures { result ≡ words_check magic.now version.now hashless.now reserved.now most.now }
{
    if hex_wrong(magic, 8) {
        return Err(WrongWords::Magic);
    }
    if hex_wrong(version, 6) {
        return Err(WrongWords::Version);
    }
    if hex_wrong(hashless, 2) {
        return Err(WrongWords::Hashless);
    }
    if hex_wrong(reserved, 2) {
        return Err(WrongWords::Reserved);
    }
    let max_nodes = number_of(most).ok_or(WrongWords::Maximum)?;
    Ok(FormatFacts {
        magic: [
            hex_byte(magic, 0),
            hex_byte(magic, 2),
            hex_byte(magic, 4),
            hex_byte(magic, 6),
        ],
        version: [
            hex_byte(version, 0),
            hex_byte(version, 2),
            hex_byte(version, 4),
        ],
        hashless: hex_byte(hashless, 0),
        reserved: hex_byte(reserved, 0),
        max_nodes,
    })
}
