//! Laws of the fields of a prime number of elements, as contracts of functions that do nothing.

ghost use Rattle.std.specs.Prelude.{◌≡◌};

use super::WordField;

/// Two fields of one size are the same value. The call does nothing.
pub fn same_field(f: &WordField, g: &WordField)
    requires { f.now.modulus ≡ g.now.modulus }
    ensures { f.now ≡ g.now }
{}
