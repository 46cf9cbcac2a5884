//! Division by a generator of at most sixteen coefficients: the remainder is one number of 128 bits, its first byte
//! highest. It is called the register. A byte is read by one look-up, of the generator times the sum of that byte and
//! the one that leaves the register. Four bytes are read by four look-ups at once. The remainder is at the upper end
//! whatever its length is, so that the byte that leaves is always the highest one. In contracts `after_bytes` is the
//! register once bytes are read too, one by one. So a step of four is right where it leaves the same, whatever follows.
//! `inline` lets other crates, which make codes of known lengths, have it all in their own code; no proof rests on
//! that. `tactic` says to the prover which definitions a proof needs.
ghost use Rattle.std.specs.Prelude.{◌≡◌, ℕ, ◌<◌, ◌≤◌, List, [], ◌∷◌, ◌++◌, length, slice_index_or, take, All};
ghost use Rattle.std.specs.List.{concat};
ghost use Rattle.coding.specs.Words.{IsByte};
ghost use Rattle.rs_code.specs.Inner.Polynomials.{IsRemainder};
ghost use Rattle.rs_code.specs.Inner.Registers.{AreTables, after_bytes, register_bytes};

/// Sets `parity` to the remainder of `message` by the generator whose tables these are. Also ensures that the elements
/// of `message` are bytes. The messages of both codes of a block, 172 and 192 bytes, are whole words of four. Others,
/// as those of words of 255 bytes, may have up to three bytes more, which are read one by one. What `parity` had isn't
/// read. `some_parity` is for the proof: the code would do for none too. Sixteen bytes are what 128 bits hold.
#[inline]
pub fn divide(tables: &[[u128; 256]; 4], message: &[u8], parity: &mut [u8])
    requires some_parity { 0 < length parity.old }
    requires fits { length parity.old ≤ 16 }
    ensures remainder { (generator : List ℕ) → length generator ≡ length parity.old → AreTables generator tables.now → IsRemainder generator message.now parity.new }
    ensures message_bytes { All IsByte message.now }
{
    let (words, others) = message.as_chunks::<4>();
    put_register(
        with_bytes(tables, with_words(tables, 0, words), others),
        parity,
    );
}

// Writes the first `parity.len()` bytes of a register, which are all that a remainder of this length has.
#[inline]
fn put_register(register: u128, parity: &mut [u8])
    requires { length parity.old ≤ 16 }
    ensures { parity.new ≡ take (length parity.old) (register_bytes 16 register) }
{
    let size = parity.len();
    parity.copy_from_slice(&register.to_be_bytes()[..size]);
}

// The register after these words of four bytes. What is said of it is what the bytes after them come to, so that one
// step follows another in a proof. The division begins with the register 0.
#[inline]
fn with_words(tables: &[[u128; 256]; 4], register: u128, words: &[[u8; 4]]) -> u128
    ensures { (generator : List ℕ) → AreTables generator tables.now → (rest : List ℕ)
        → after_bytes (slice_index_or tables.now 0 []) result rest ≡ after_bytes (slice_index_or tables.now 0 []) register (concat words.now ++ rest) }
{
    let mut next = register;
    for word in words {
        next = with_word(tables, next, *word);
    }
    next
}

// The register after these bytes, of which the table of single bytes is enough: `divide` has at most three.
#[inline]
fn with_bytes(tables: &[[u128; 256]; 4], register: u128, bytes: &[u8]) -> u128
    ensures { (rest : List ℕ) → after_bytes (slice_index_or tables.now 0 []) result rest ≡ after_bytes (slice_index_or tables.now 0 []) register (bytes.now ++ rest) }
{
    let mut next = register;
    for byte in bytes {
        next = with_byte(&tables[0], next, *byte);
    }
    next
}

// Four steps of the division in one. No look-up depends on another. The first of the four goes through three more steps
// than the last, so each has a table of its own: table 3 for the first, and table 0 for the last. Their sum is added to
// what the register has after its four upper bytes left. `upper` is of the first two bytes, and `back` of the last two.
#[inline]
fn with_word(tables: &[[u128; 256]; 4], register: u128, word: [u8; 4]) -> u128
    ensures { (generator : List ℕ) → AreTables generator tables.now → (rest : List ℕ)
        → after_bytes (slice_index_or tables.now 0 []) result rest ≡ after_bytes (slice_index_or tables.now 0 []) register (word ++ rest) }
{
    let [first, second, third, fourth] = ((register >> 96) as u32).to_be_bytes();
    let upper = tables[3][(first ^ word[0]) as usize] ^ tables[2][(second ^ word[1]) as usize];
    let back = tables[1][(third ^ word[2]) as usize] ^ tables[0][(fourth ^ word[3]) as usize];
    (register << 32) ^ upper ^ back
}

// One step of the division: reads one more byte. The upper byte leaves. Its sum with the byte that is read says which
// multiple of the generator cancels it.
#[inline]
#[tactic(auto, unfolding(crate::specs::Inner::Registers::after_byte, crate::specs::Inner::Registers::after_bytes))]
fn with_byte(table: &[u128; 256], register: u128, byte: u8) -> u128
    ensures { (rest : List ℕ) → after_bytes table.now result rest ≡ after_bytes table.now register (byte ∷ rest) }
{
    let factor = (register >> 120) as u8 ^ byte;
    (register << 8) ^ table[factor as usize]
}
