//! What holds of fields of pairs, as contracts of functions that do nothing.

ghost use Rattle.std.specs.Prelude.{◌≡◌, ◌*◌};

use super::PairField;

/// Two fields of one size are the same value. The call does nothing.
pub fn same_field(f: &PairField, g: &PairField)
    requires { f.now.prime * f.now.prime ≡ g.now.prime * g.now.prime }
    ensures { f.now ≡ g.now }
{}
