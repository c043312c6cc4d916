//! The field that serves so many demands, at the limits of the fields.
ghost use Rattle.std.specs.Prelude.{◌≡◌, Some, None};
ghost use Rattle.failure_patterns.specs.UsedField.{used_field};
ghost use Rattle.net_model.specs.declared.net.FieldChoice.TheVariants.{Any, Eight, Sixteen};

// As many demands as the field of 256 elements serves.
fn most_of_octets()
    ensures any { used_field Any 256 ≡ Some Eight }
    ensures eight { used_field Eight 256 ≡ Some Eight }
    ensures sixteen { used_field Sixteen 256 ≡ Some Sixteen }
{}

// One more.
fn more_than_octets()
    ensures any { used_field Any 257 ≡ Some Sixteen }
    ensures eight { used_field Eight 257 ≡ None }
    ensures sixteen { used_field Sixteen 257 ≡ Some Sixteen }
{}

// As many demands as the field of 65,536 elements serves.
fn most_of_pairs()
    ensures any { used_field Any 65536 ≡ Some Sixteen }
    ensures eight { used_field Eight 65536 ≡ None }
    ensures sixteen { used_field Sixteen 65536 ≡ Some Sixteen }
{}

// One more.
fn more_than_pairs()
    ensures any { used_field Any 65537 ≡ None }
    ensures eight { used_field Eight 65537 ≡ None }
    ensures sixteen { used_field Sixteen 65537 ≡ None }
{}
