//! The files of the codes that the definitions give, in both versions.
ghost use Rattle.std.specs.Prelude.{◌≡◌, slice_set};
ghost use Rattle.code_file.specs.Items.{bytes_in, bytes_of};
ghost use Rattle.test_support.specs.OneLink.{one_link, wide_one_link, doubled_one_link};
ghost use Rattle.test_support.specs.Butterfly.{butterfly, changed_butterfly};
ghost use Rattle.test_support.specs.CutButterfly.{cut_butterfly};

use test_support::files::{
    BUTTERFLY, CUT_BUTTERFLY, CUT_BUTTERFLY_TWO, DOUBLED_ONE_LINK, ONE_LINK, ONE_LINK_TWO,
    WIDE_ONE_LINK,
};

// The file of the code of one link.
fn one_link_is_spelled()
    ensures { bytes_in 1 one_link ≡ ONE_LINK.now }
{}

// The file of the same code over the field of 65,536 elements.
fn wide_one_link_is_spelled()
    ensures { bytes_in 1 wide_one_link ≡ WIDE_ONE_LINK.now }
{}

// The file of the code of one link with the coefficient 2.
fn doubled_one_link_is_spelled()
    ensures { bytes_in 1 doubled_one_link ≡ DOUBLED_ONE_LINK.now }
{}

// The file of the butterfly.
fn butterfly_is_spelled()
    ensures { bytes_in 1 butterfly ≡ BUTTERFLY.now }
{}

// The file of the butterfly with the first entry of the second decoder changed differs in that byte.
fn changed_butterfly_is_spelled()
    ensures { bytes_in 1 changed_butterfly ≡ slice_set BUTTERFLY.now 173 2 }
{}

// The file of the butterfly with the pattern `cut` of the link 0.
fn cut_butterfly_is_spelled()
    ensures { bytes_in 1 cut_butterfly ≡ CUT_BUTTERFLY.now }
{}

// The file of the code of one link in version 2.
fn one_link_is_spelled_anew()
    ensures { bytes_of one_link ≡ ONE_LINK_TWO.now }
{}

// That of the butterfly with a pattern, in which each sink has one decoder for both.
fn cut_butterfly_is_spelled_anew()
    ensures { bytes_of cut_butterfly ≡ CUT_BUTTERFLY_TWO.now }
{}
