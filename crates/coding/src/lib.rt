//! Definitions of coding theory and of ECC blocks (ECMA-267, clauses 16.2, 18 and 19), with no code: the field of 256
//! elements, words over it and their codes, the codeword near a received word, rows and columns of a block, its product
//! code, the order of recording, and what two passes determine of a received block. Every crate that computes one of
//! these depends on this one; `specs/Lib.antt` lists its pages.
#![tactic(auto)]
