//! What the links of the examples carry, and which of them are live.
ghost use Rattle.std.specs.Prelude.{◌≡◌, ℕ, List, [], ◌∷◌, map, true, false};
ghost use Rattle.std.specs.List.{range_with_len};
ghost use Rattle.node_program.specs.CodeValue.{is_live_in, value_in, vector_in};
ghost use Rattle.node_program.specs.Decoding.{decoding_of};
ghost use Rattle.test_support.specs.Butterfly.{butterfly};
ghost use Rattle.test_support.specs.CutButterfly.{cut_butterfly};
ghost use Rattle.test_support.specs.OneLink.{doubled_one_link};

// Where no link fails, the link from `c` to `d` and those behind it carry the sum of the two rows, and
// each other link one of them.
fn butterfly_vectors()
    ensures { let x : List ℕ = 1 ∷ 0 ∷ [] in
        let y : List ℕ = 0 ∷ 1 ∷ [] in
        let sum : List ℕ = 1 ∷ 1 ∷ [] in
        map (vector_in butterfly 0) (range_with_len 0 9)
        ≡ x ∷ y ∷ x ∷ y ∷ x ∷ y ∷ sum ∷ sum ∷ sum ∷ [] }
{}

// Where the link from `s` to `a` fails, no link carries the first row.
fn cut_vectors()
    ensures failed { vector_in cut_butterfly 1 0 ≡ 0 ∷ 0 ∷ [] }
    ensures each { let none : List ℕ = 0 ∷ 0 ∷ [] in
        let y : List ℕ = 0 ∷ 1 ∷ [] in
        map (vector_in cut_butterfly 1) (range_with_len 0 9)
        ≡ none ∷ y ∷ none ∷ y ∷ none ∷ y ∷ y ∷ y ∷ y ∷ [] }
{}

// Where the link from `s` to `a` fails, the links that only it feeds aren't live, and the others are.
fn live_links()
    ensures { map (is_live_in cut_butterfly 1) (range_with_len 0 9)
        ≡ false ∷ true ∷ false ∷ true ∷ false ∷ true ∷ true ∷ true ∷ true ∷ [] }
{}

// With the coefficient 2 the link carries each byte of a block doubled, and the sink gets the block back: here
// the front of the block of a file of one byte.
fn doubled_value()
    ensures carried { value_in doubled_one_link 0 ((0 ∷ 0 ∷ 0 ∷ 1 ∷ 0x41 ∷ 0 ∷ []) ∷ []) 0
        ≡ 0 ∷ 0 ∷ 0 ∷ 2 ∷ 0x82 ∷ 0 ∷ [] }
    ensures taken { decoding_of doubled_one_link 0 ((0 ∷ 0 ∷ 0 ∷ 1 ∷ 0x41 ∷ 0 ∷ []) ∷ [])
        ≡ (0 ∷ 0 ∷ 0 ∷ 1 ∷ 0x41 ∷ 0 ∷ []) ∷ [] }
{}
