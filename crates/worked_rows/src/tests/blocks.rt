//! The blocks of files whose lengths are about what a block has room for: 1,020 bytes at rate 1, and 2,044 at rate 2.
ghost use Rattle.std.specs.Prelude.{◌≡◌, [], ◌∷◌};
ghost use Rattle.worked_rows.specs.Sevens.{blocks_of_sevens, counts, fronts, lengths};

// The count of each block at rate 1. The last block isn't full, so a file that fills a block has one more.
fn counts_at_rate_1()
    ensures empty { counts (blocks_of_sevens 0 1) ≡ 0 ∷ [] }
    ensures one { counts (blocks_of_sevens 1 1) ≡ 1 ∷ [] }
    ensures almost_full { counts (blocks_of_sevens 1019 1) ≡ 1019 ∷ [] }
    ensures full { counts (blocks_of_sevens 1020 1) ≡ 1020 ∷ 0 ∷ [] }
    ensures more { counts (blocks_of_sevens 1021 1) ≡ 1020 ∷ 1 ∷ [] }
{}

// The count of each block at rate 2.
fn counts_at_rate_2()
    ensures empty { counts (blocks_of_sevens 0 2) ≡ 0 ∷ [] }
    ensures one { counts (blocks_of_sevens 1 2) ≡ 1 ∷ [] }
    ensures almost_full { counts (blocks_of_sevens 2043 2) ≡ 2043 ∷ [] }
    ensures full { counts (blocks_of_sevens 2044 2) ≡ 2044 ∷ 0 ∷ [] }
    ensures more { counts (blocks_of_sevens 2045 2) ≡ 2044 ∷ 1 ∷ [] }
{}

// Each block has the rate's rows of 1,024 bytes.
fn lengths_of_blocks()
    ensures rate_1 { lengths (blocks_of_sevens 1021 1) ≡ 1024 ∷ 1024 ∷ [] }
    ensures rate_2 { lengths (blocks_of_sevens 2045 2) ≡ 2048 ∷ 2048 ∷ [] }
{}

// The first six bytes of each block: the count in four bytes, then the file, then zeros.
fn fronts_of_blocks()
    ensures rate_1 { fronts (blocks_of_sevens 1021 1)
        ≡ (0 ∷ 0 ∷ 3 ∷ 252 ∷ 7 ∷ 7 ∷ []) ∷ (0 ∷ 0 ∷ 0 ∷ 1 ∷ 7 ∷ 0 ∷ []) ∷ [] }
    ensures rate_2 { fronts (blocks_of_sevens 2044 2)
        ≡ (0 ∷ 0 ∷ 7 ∷ 252 ∷ 7 ∷ 7 ∷ []) ∷ (0 ∷ 0 ∷ 0 ∷ 0 ∷ 0 ∷ 0 ∷ []) ∷ [] }
{}
