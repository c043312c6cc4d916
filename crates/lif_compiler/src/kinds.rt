//! The kinds of fields that codes are over.
ghost use Rattle.std.specs.Prelude.{◌≡◌};
ghost use Rattle.lif_compiler.specs.Compiled.{marked_kind};

use gf_tables::{Field, FieldKind};

/// The kind of the field `F`, one of those that codes are over.
pub fn kind_of<F: Field>() -> FieldKind
    ensures { result ≡ marked_kind F.MARK }
{
    FieldKind::of_mark(F::MARK).unwrap_or(FieldKind::Eight)
}
