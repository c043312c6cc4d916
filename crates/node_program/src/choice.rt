//! The choice of a field that the network of a code names.
ghost use Rattle.std.specs.Prelude.{◌≡◌};
ghost use Rattle.node_program.specs.Code.{choice_of};

use gf_tables::FieldKind;
use net_model::FieldChoice;

/// What the network of a code over a kind of field names. No network can name the field of FIPS 197.
pub fn choice_of(kind: FieldKind) -> FieldChoice
    ensures { result ≡ choice_of kind }
{
    match kind {
        FieldKind::Eight => FieldChoice::Eight,
        FieldKind::Nine => FieldChoice::Any,
        FieldKind::Sixteen => FieldChoice::Sixteen,
    }
}
