//! What holds of every captured block that is read by rounds: each function's contract is one law, and its body is
//! empty. Nobody calls them. They are public because what they ensure is promised of the crate.
//!
//! A law is about any received rows and their marks, and about no call. A round replaces each row, and then each
//! column, by the codeword near it, where there is one, and clears its marks. A row without one is an erasure in every
//! column of the round, as in two passes; a column that has no codeword near it so is tried with its own marks. It
//! finishes where all columns are answered so and all rows are then codewords. The block given back is what the first
//! of at most four rounds leaves that finishes; where none does, no block is.
ghost use Rattle.dvd_deep.specs.Laws.{TrueBytesGiveTheBlock, TwoPassIsRoundOne, WhatIsFoundIsProduct};

/// Where two passes determine a block, round 1 finishes with it. They do where a product codeword differs from the
/// rows' answers, in each column, in so few rows that twice these plus the failed rows is at most 16. So `deep` gives
/// no other block than `recover` where that has one.
pub fn two_pass_is_round_one()
    ensures { TwoPassIsRoundOne }
{}

/// Whatever block is given back is a product codeword: all its rows and columns are codewords. It needn't be the one
/// that was recorded, since nothing is assumed of the damage.
pub fn what_is_found_is_product()
    ensures { WhatIsFoundIsProduct }
{}

/// Where each received byte that isn't marked is that of some product codeword, no other block than this is given back,
/// however many places are marked. That it is given back isn't said: too many marks leave all rounds unfinished.
pub fn true_bytes_give_the_block()
    ensures { TrueBytesGiveTheBlock }
{}
