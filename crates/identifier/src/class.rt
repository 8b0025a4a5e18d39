//! Classes of bytes, and the values of the characters.
ghost use Rattle.std.specs.Prelude.{◌≡◌, ◌≤◌, length};
ghost use Rattle.std.specs.List.{prefix_len, list_all};
ghost use Rattle.identifier.specs.Characters.{belongs, value_of};

/// A class of bytes that a place in an identifier or in a line asks for.
// A value and no test passed as a parameter: the definitions name the same classes, and each is asked for in three ways.
#[derive(Clone, Copy)]
pub(crate) enum Class {
    /// A to Z.
    Letter,
    /// 0 to 9.
    Digit,
    /// 0 to 9 or A to Z.
    Character,
    /// The space.
    Space,
    /// Any byte but the space.
    Solid,
}

impl Class {
    /// Whether the byte is of the class.
    pub(crate) fn has(self, byte: u8) -> bool
        ensures { result ≡ belongs self byte }
    {
        match self {
            Class::Letter => matches!(byte, b'A'..=b'Z'),
            Class::Digit => matches!(byte, b'0'..=b'9'),
            Class::Character => matches!(byte, b'0'..=b'9' | b'A'..=b'Z'),
            Class::Space => byte == b' ',
            Class::Solid => byte != b' ',
        }
    }

    /// How many bytes at the front of the text are of the class.
    pub(crate) fn front(self, text: &[u8]) -> usize
        ensures value { result ≡ prefix_len (belongs self) text.now }
        ensures bound { result ≤ length text.now }
    {
        text.iter().take_while(|byte| self.has(**byte)).count()
    }

    /// Whether each byte of the text is of the class.
    pub(crate) fn has_all(self, text: &[u8]) -> bool
        ensures { result ≡ list_all (belongs self) text.now }
    {
        text.iter().all(|byte| self.has(*byte))
    }
}

/// The number that a character stands for; another byte stands for nothing of use.
pub(crate) fn value_of(byte: u8) -> u8
    ensures { result ≡ value_of byte }
{
    match byte {
        b'A'..=b'Z' => byte - b'A' + 10,
        _ => byte.saturating_sub(b'0'),
    }
}
