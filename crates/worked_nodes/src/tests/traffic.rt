//! What the definitions of traffic give on codes that are written out.
//!
//! Each clause computes the packets of a small code, or what a link of it adds up; the functions promise nothing
//! else.
ghost use Rattle.std.specs.Prelude.{◌≡◌, ℕ, List, [], ◌∷◌, length, map};
ghost use Rattle.coded_traffic.specs.Traffic.{Key, Window, keys_of, live_links_of, live_operands, operand_payload, payload_in, sum_of};
ghost use Rattle.test_support.specs.Butterfly.{butterfly};
ghost use Rattle.test_support.specs.CutButterfly.{cut_butterfly};
ghost use Rattle.test_support.specs.OneLink.{doubled_one_link};

// Over one link a generation goes in eight packets, piece after piece. Here is generation 5 alone.
fn one_link_keys()
    ensures keys { keys_of doubled_one_link 0 (record { first = 5; blocks = [] ∷ [] })
        ≡ map (λ piece. record { link = 0; generation = 5; piece = piece })
        (0 ∷ 1 ∷ 2 ∷ 3 ∷ 4 ∷ 5 ∷ 6 ∷ 7 ∷ []) }
{}

// Two generations over the butterfly are 144 packets where no link fails. Where the link from `s` to `a` fails
// three of its nine links carry nothing, which leaves 96.
fn butterfly_keys()
    ensures all { length (keys_of butterfly 0 (record { first = 0; blocks = [] ∷ [] ∷ [] })) ≡ 144 }
    ensures live { live_links_of cut_butterfly 1 ≡ 1 ∷ 3 ∷ 5 ∷ 6 ∷ 7 ∷ 8 ∷ [] }
    ensures cut { length (keys_of cut_butterfly 1 (record { first = 0; blocks = [] ∷ [] ∷ [] }))
        ≡ 96 }
{}

// With the coefficient 2 the first packet of a block has its bytes doubled: here the front of the block of a file
// of one byte.
fn doubled_payload()
    ensures { payload_in doubled_one_link 0 (0 ∷ 0 ∷ 0 ∷ 1 ∷ 0x41 ∷ 0 ∷ []) 0 0
        ≡ 0 ∷ 0 ∷ 0 ∷ 2 ∷ 0x82 ∷ 0 ∷ [] }
{}

// The link from `c` to `d` of the butterfly adds what comes of both links into `c`, and only that of the second
// where the first is dead.
fn butterfly_sums()
    ensures both { map (λ operand. operand.from) (live_operands butterfly 0 6) ≡ 4 ∷ 5 ∷ [] }
    ensures one { map (λ operand. operand.from) (live_operands cut_butterfly 1 6) ≡ 5 ∷ [] }
{}
