//! Words that are names.
ghost use Rattle.std.specs.Prelude.{◌≡◌};
ghost use Rattle.std.specs.List.{list_all};
ghost use Rattle.net_model.specs.Name.{is_name};
ghost use Rattle.net_reader.specs.Words.{texts_of};

use net_model::is_name;

/// Whether all words are names.
pub(crate) fn are_names(words: &[&[u8]]) -> bool
    ensures { result ≡ list_all is_name (texts_of words.now) }
{
    words.iter().all(|word| is_name(word))
}
