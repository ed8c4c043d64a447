//! The tokens of a line, one after the other.
ghost use Rattle.std.specs.Prelude.{◌≡◌, ◌∷◌, ◌==◌, [], length, Some, None, IfSome, IfNone, if◌then◌else◌};
ghost use Rattle.std.specs.Option.{option_map};
ghost use Rattle.presentation_text.specs.Heading.{behind_key, only};
ghost use Rattle.presentation_text.specs.Lines.{tokens};

use polynomial_text::{ByteClass, behind_blanks};
use std::marker::Model;

/// The tokens of a line that were not taken yet.
#[derive(Drop)]
pub(crate) struct Tokens<'a> {
    rest: &'a [u8],
}

impl<'a> Model for Tokens<'a> {
    ghost use Rattle.std.specs.Prelude.{List, ℕ};
    ghost use Rattle.presentation_text.specs.Lines.{tokens};

    ghost Value = { List (List ℕ) };

    ghost view = { λ a. tokens a.rest.now };
}

impl<'a> Tokens<'a> {
    /// All tokens of a line.
    pub fn new(line: &'a [u8]) -> Tokens<'a>
        ensures { result ≡ tokens line.now }
    {
        Tokens { rest: line }
    }

    pub fn next(&mut self) -> Option<&'a [u8]>
        ensures some { IfSome result (λ token. self.old ≡ token.now ∷ self.new) }
        ensures none { IfNone result (self.old ≡ []) }
    {
        let (token, behind) = first_token(self.rest)?;
        self.rest = behind;
        Some(token)
    }

    pub fn is_empty(&self) -> bool
        ensures { result ≡ (length self.now == 0) }
    {
        first_token(self.rest).is_none()
    }

    pub fn is_single(&self) -> bool
        ensures { result ≡ (length self.now == 1) }
    {
        match first_token(self.rest) {
            Some((_, behind)) => first_token(behind).is_none(),
            None => false,
        }
    }

    /// Takes the first token, if it is the key.
    #[tactic(auto, unfolding(crate::specs::Heading::behind_key))]
    pub fn behind(&mut self, key: &[u8]) -> Option<()>
        ensures { option_map (λ _. self.new) result ≡ behind_key key.now self.old }
    {
        match self.next() {
            Some(token) if token == key => Some(()),
            _ => None,
        }
    }

    /// Ends a line that has no tokens left.
    pub fn end(&self) -> Option<()>
        ensures { option_map (λ _. []) result ≡ (if length self.now == 0 then Some self.now else None) }
    {
        if self.is_empty() { Some(()) } else { None }
    }

    pub fn copy(&self) -> Tokens<'a>
        ensures { result ≡ self.now }
    {
        Tokens { rest: self.rest }
    }

    /// The one token that is left.
    pub fn only(&mut self) -> Option<&'a [u8]>
        ensures { option_map (λ token. token.now) result ≡ only self.old }
    {
        if !self.is_single() {
            return None;
        }
        self.next()
    }
}

/// The first token, and the bytes behind it.
fn first_token(line: &[u8]) -> Option<(&[u8], &[u8])>
    ensures some { IfSome result (λ x. tokens line.now ≡ x.0.now ∷ tokens x.1.now) }
    ensures none { IfNone result (tokens line.now ≡ []) }
{
    let (token, behind) = ByteClass::Token.split(behind_blanks(line));
    if token.is_empty() {
        return None;
    }
    Some((token, behind))
}
