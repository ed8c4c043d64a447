//! Classes of bytes, and fronts of lines.
ghost use Rattle.std.specs.Prelude.{◌≡◌, ◌≤◌, length, not, position};
ghost use Rattle.std.specs.List.{list_all};
ghost use Rattle.poly_core.specs.Names.{is_letter};
ghost use Rattle.polynomial_text.specs.Bytes.{is_blank, is_digit, is_in, front, behind};

/// A class of bytes.
#[derive(Clone, Copy)]
pub enum ByteClass {
    /// A space, a tab or a carriage return.
    Blank,
    /// An ASCII digit.
    Digit,
    /// An ASCII letter.
    Letter,
    /// An ASCII letter, an ASCII digit or `_`.
    Name,
    /// Any byte but a blank.
    Token,
    /// Any byte but a line feed.
    Line,
    /// Any byte but `+` and `-`.
    Term,
    /// Any byte but `*`.
    Factor,
}

fn is_blank(b: u8) -> bool
    ensures { result ≡ is_blank b }
{
    b == b' ' || b == b'\t' || b == b'\r'
}

fn is_digit(b: u8) -> bool
    ensures { result ≡ is_digit b }
{
    b'0' <= b && b <= b'9'
}

fn is_letter(b: u8) -> bool
    ensures { result ≡ is_letter b }
{
    b'A' <= b && b <= b'Z' || b'a' <= b && b <= b'z'
}

impl ByteClass {
    pub fn has(self, b: u8) -> bool
        ensures { result ≡ is_in self b }
    {
        match self {
            ByteClass::Blank => is_blank(b),
            ByteClass::Digit => is_digit(b),
            ByteClass::Letter => is_letter(b),
            ByteClass::Name => is_letter(b) || is_digit(b) || b == b'_',
            ByteClass::Token => !is_blank(b),
            ByteClass::Line => b != b'\n',
            ByteClass::Term => !(b == b'+' || b == b'-'),
            ByteClass::Factor => b != b'*',
        }
    }

    pub fn has_all(self, bytes: &[u8]) -> bool
        ensures { result ≡ list_all (is_in self) bytes.now }
    {
        bytes.iter().all(|b| self.has(*b))
    }

    fn end(self, bytes: &[u8]) -> Option<usize>
        ensures { result ≡ position (λ b. not (is_in self b)) bytes.now }
    {
        bytes.iter().position(|b| !self.has(*b))
    }

    /// The longest front with bytes of the class alone, and what is behind it.
    pub fn split(self, bytes: &[u8]) -> (&[u8], &[u8])
        ensures front { result.0.now ≡ front (is_in self) bytes.now }
        ensures behind { result.1.now ≡ behind (is_in self) bytes.now }
        ensures shorter { length result.1.now ≤ length bytes.now }
    {
        match self.end(bytes) {
            Some(end) => (&bytes[..end], &bytes[end..]),
            None => (bytes, &[]),
        }
    }
}

/// What is behind the blanks at the front.
pub fn behind_blanks(bytes: &[u8]) -> &[u8]
    ensures { result.now ≡ behind is_blank bytes.now }
{
    let (_, rest) = ByteClass::Blank.split(bytes);
    rest
}
