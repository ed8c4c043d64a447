//! Lines of two parts.
ghost use Rattle.std.specs.Prelude.{◌≡◌, ◌==◌, ℕ, List, IfSome, IsNone, position};
ghost use Rattle.state_text.specs.LineReadings.{IsParted};

/// The first place of the mark.
fn place_of(mark: u8, line: &[u8]) -> Option<usize>
    ensures { result ≡ position (λ b. b == mark) line.now }
{
    line.iter().position(|b| *b == mark)
}

/// The two parts of a line with a mark between them, which has a space on each side and is the first one of the line.
pub(crate) fn parts(mark: u8, line: &[u8]) -> Option<(&[u8], &[u8])>
    ensures some { IfSome result (λ x. IsParted mark line.now x.0.now x.1.now) }
    ensures none { IsNone result → (a b : List ℕ) → ¬ IsParted mark line.now a b }
{
    let at = place_of(mark, line)?;
    let before = line[..at].strip_suffix(b" ")?;
    let behind = line[at..].strip_prefix(&[mark, b' '])?;
    Some((before, behind))
}
