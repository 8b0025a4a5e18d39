//! Codes of member firms.
ghost use Rattle.std.specs.Prelude.{◌≡◌, Decides};
ghost use Rattle.std.specs.Str.{bytes_eq};

/// The code of a member firm: any five bytes.
#[derive(Clone, Copy, PartialEq, Eq, Debug)]
pub struct Member {
    pub bytes: [u8; 5],
}

impl Member {
    // The word for `==` in clauses: exact by bytes, and by cases.
    /// Whether both have the same bytes.
    pub fn same(&self, other: &Member) -> bool
        ensures value { result ≡ bytes_eq self.now.bytes other.now.bytes }
        ensures cases { Decides result (self.now.bytes ≡ other.now.bytes) }
    {
        self == other
    }
}
