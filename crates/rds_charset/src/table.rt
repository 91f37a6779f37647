//! The table: the characters that a text on air can have, and their bytes.

ghost use Rattle.std.specs.Prelude.{◌≡◌, map};
ghost use Rattle.rds_charset.specs.Displays.{displayed_character, more};
ghost use Rattle.rds_charset.specs.Ranges.{range_of};
ghost use Rattle.rds_charset.specs.Table.{byte_at, byte_of, character_at, character_in, character_of};
ghost use Rattle.rds_charset.specs.Table.{FitsInBytes, table};

/// Bytes that follow each other, and their characters.
#[derive(Clone, Copy)]
struct CodeRange {
    first: u8,
    characters: &'static [char],
}

impl CodeRange {
    /// Returns the character of the byte. `None` if the byte is not in this range.
    fn character_of(&self, byte: u8) -> Option<char>
        ensures { result ≡ character_at (range_of self.now) byte }
    {
        let place = byte.checked_sub(self.first)?;
        self.characters.get(usize::from(place)).copied()
    }

    /// Returns the byte of the character. `None` if the character is not in this range.
    fn byte_of(&self, character: char) -> Option<u8>
        requires { FitsInBytes (range_of self.now) }
        ensures { result ≡ byte_at (range_of self.now) character }
    {
        let place = self
            .characters
            .iter()
            .position(|&known| known == character)?;
        Some(self.first + place as u8)
    }
}

/// All bytes that have a character.
///
/// This is the project's own table. It follows the basic table of IEC 62106 for letters of Western Europe. Nothing
/// depends on the likeness.
static TABLE: [CodeRange; 10] = [
    CodeRange {
        first: 0x20,
        characters: &[' ', '!', '"', '#'],
    },
    CodeRange {
        first: 0x25,
        characters: &[
            '%', '&', '\'', '(', ')', '*', '+', ',', '-', '.', '/', '0', '1', '2', '3', '4', '5',
            '6', '7', '8', '9', ':', ';', '<', '=', '>', '?', '@', 'A', 'B', 'C', 'D', 'E', 'F',
            'G', 'H', 'I', 'J', 'K', 'L', 'M', 'N', 'O', 'P', 'Q', 'R', 'S', 'T', 'U', 'V', 'W',
            'X', 'Y', 'Z', '[',
        ],
    },
    CodeRange {
        first: 0x5D,
        characters: &[']'],
    },
    CodeRange {
        first: 0x5F,
        characters: &['_'],
    },
    CodeRange {
        first: 0x61,
        characters: &[
            'a', 'b', 'c', 'd', 'e', 'f', 'g', 'h', 'i', 'j', 'k', 'l', 'm', 'n', 'o', 'p', 'q',
            'r', 's', 't', 'u', 'v', 'w', 'x', 'y', 'z', '{', '|', '}',
        ],
    },
    CodeRange {
        first: 0x80,
        characters: &['á', 'à', 'é', 'è', 'í', 'ì', 'ó', 'ò', 'ú', 'ù', 'Ñ', 'Ç'],
    },
    CodeRange {
        first: 0x90,
        characters: &['â', 'ä', 'ê', 'ë', 'î', 'ï', 'ô', 'ö', 'û', 'ü', 'ñ', 'ç'],
    },
    CodeRange {
        first: 0xA9,
        characters: &['€', '£', '$'],
    },
    CodeRange {
        first: 0xC0,
        characters: &['Á', 'À', 'É', 'È', 'Í', 'Ì', 'Ó', 'Ò', 'Ú', 'Ù'],
    },
    CodeRange {
        first: 0xD0,
        characters: &['Â', 'Ä', 'Ê', 'Ë', 'Î', 'Ï', 'Ô', 'Ö', 'Û', 'Ü'],
    },
];

/// More bytes that a display has a character for. Printed texts have escapes for them.
static MORE: [CodeRange; 15] = [
    CodeRange {
        first: 0x24,
        characters: &['¤'],
    },
    CodeRange {
        first: 0x5C,
        characters: &['\\'],
    },
    CodeRange {
        first: 0x8C,
        characters: &['Ş', 'ß', '¡', 'Ĳ'],
    },
    CodeRange {
        first: 0x9C,
        characters: &['ş'],
    },
    CodeRange {
        first: 0x9E,
        characters: &['ı', 'ĳ'],
    },
    CodeRange {
        first: 0xA0,
        characters: &['ª', 'α', '©', '‰'],
    },
    CodeRange {
        first: 0xA5,
        characters: &['ě', 'ň', 'ő', 'π'],
    },
    CodeRange {
        first: 0xAC,
        characters: &['←', '↑', '→', '↓'],
    },
    CodeRange {
        first: 0xB0,
        characters: &[
            'º', '¹', '²', '³', '±', 'İ', 'ń', 'ű', 'µ', '¿', '÷', '°', '¼', '½', '¾', '§',
        ],
    },
    CodeRange {
        first: 0xCA,
        characters: &['Ř', 'Č', 'Š', 'Ž'],
    },
    CodeRange {
        first: 0xCF,
        characters: &['Ŀ'],
    },
    CodeRange {
        first: 0xDA,
        characters: &['ř', 'č', 'š', 'ž', 'đ', 'ŀ'],
    },
    CodeRange {
        first: 0xE0,
        characters: &[
            'Ã', 'Å', 'Æ', 'Œ', 'ŷ', 'Ý', 'Õ', 'Ø', 'Þ', 'Ŋ', 'Ŕ', 'Ć', 'Ś', 'Ź',
        ],
    },
    CodeRange {
        first: 0xEF,
        characters: &['ð'],
    },
    CodeRange {
        first: 0xF0,
        characters: &[
            'ã', 'å', 'æ', 'œ', 'ŵ', 'ý', 'õ', 'ø', 'þ', 'ŋ', 'ŕ', 'ć', 'ś', 'ź',
        ],
    },
];

/// Returns the table, range by range.
fn table() -> &'static [CodeRange]
    ensures { map range_of result.now ≡ table }
{
    &TABLE
}

/// Returns the bytes that only a display has a character for, range by range.
fn more() -> &'static [CodeRange]
    ensures { map range_of result.now ≡ more }
{
    &MORE
}

/// Returns the character of the byte. `None` if it has none.
pub(crate) fn character_of(byte: u8) -> Option<char>
    ensures { result ≡ character_of byte }
{
    character_in(table(), byte)
}

/// Returns the character that a display shows for the byte: the replacement character if it has none.
pub(crate) fn displayed_character(byte: u8) -> char
    ensures { result ≡ displayed_character byte }
{
    character_of(byte)
        .or(character_in(more(), byte))
        .unwrap_or(char::REPLACEMENT_CHARACTER)
}

/// Returns the character of the byte in the first of these ranges that has the byte.
fn character_in(ranges: &[CodeRange], byte: u8) -> Option<char>
    ensures { result ≡ character_in (map range_of ranges.now) byte }
{
    for range in ranges {
        if let Some(character) = range.character_of(byte) {
            return Some(character);
        }
    }
    None
}

/// Returns the byte of the character. `None` if it is not in the table.
pub(crate) fn byte_of(character: char) -> Option<u8>
    ensures { result ≡ byte_of character }
{
    for range in table() {
        if let Some(byte) = range.byte_of(character) {
            return Some(byte);
        }
    }
    None
}
