//! A sector that was read, repaired. In contracts `with_p_words sector n` is a sector with its first n P words
//! repaired, and `with_q_words read sector n` likewise for Q words, whose marks are by `read`, the sector as it was
//! read. Clauses `size` repeat the length that a type has, for the proofs of callers.
ghost use Rattle.std.specs.Prelude.{◌≡◌, ℕ, List, ◌+◌, ◌-◌, ◌<◌, ◌≤◌, length, drop, false, slice_index_or, IfErr, IfOk, OnErr, OnOk, IfSome, None};
ghost use Rattle.std.specs.Option.{is_none};
ghost use Rattle.coding.specs.Distance.{distance};
ghost use Rattle.cd_sector.specs.Causes.{AreRightBelow, IsCause, IsRightSector};
ghost use Rattle.cd_sector.specs.Repair.{with_word_bytes, with_word, near_word, is_lost, with_p_words, word_marks, with_q_words, repaired};
ghost use Rattle.cd_sector.specs.Words.{word_size, IsRight};

use crate::checking::{CdCause, check_contents, first_wrong_word};
use crate::rows::{p_faults, q_faults};
use crate::sector::SYNC;
use crate::words::{P_WORDS, PWord, QWord, WORDS, place, read_word};
use rs_code::Code;
use rs_decode::decode;

/// Repairs a sector that was read. Each P word becomes the codeword near it, if there is one. Then each Q word does,
/// with marks for its bytes in P words that have none. Then the sync is set.
/// Where nothing is wrong then, it returns the number of bytes after the sync that changed. Else it returns what is
/// still wrong, and the sector is unchanged.
pub fn repair(sector: &mut [u8; 2352], address: u32) -> Result<u16, CdCause>
    requires { address < 450000 }
    ensures repaired { OnOk result (sector.new ≡ repaired sector.old) }
    ensures faultless { OnOk result (IsRightSector (repaired sector.old) address) }
    ensures changes { IfOk result (λ changes. changes ≡ distance (drop 12 sector.old) (drop 12 sector.new)) }
    ensures cause { IfErr result (λ cause. IsCause (repaired sector.old) address cause) }
    ensures same { OnErr result (sector.new ≡ sector.old) }
{
    // A copy is repaired, so that a sector that can't be is left as it was.
    let mut fixed = *sector;
    if let Some(word) = repair_words(&mut fixed) {
        return Err(CdCause::Parity { word });
    }
    // No word has the sync in it, so it is set and not repaired.
    fixed[..12].copy_from_slice(&SYNC);
    check_contents(&fixed, address)?;
    let changes = count_changes(sector, &fixed);
    *sector = fixed;
    Ok(changes)
}

// Repairs all words, unless all are right, and returns the number of the first that still isn't a codeword. P words
// come first, since those that are lost mark bytes of the Q words.
fn repair_words(sector: &mut [u8; 2352]) -> Option<u16>
    ensures words { sector.new ≡ with_q_words sector.old (with_p_words sector.old 86) 52 }
    ensures size { length sector.new ≡ 2352 }
    ensures some { IfSome result (λ word. (word < 138) × (IsRight sector.new word → ⊥) × AreRightBelow word sector.new) }
    ensures none { result ≡ None → AreRightBelow 138 sector.new }
{
    // Most sectors are right as they were read. In the others the words are tested again, each kind before its repair.
    if first_wrong_word(sector).is_none() {
        return None;
    }
    let lost = repair_p_words(sector);
    repair_q_words(&lost, sector);
    // All are tested again: a Q word that was repaired may have broken a P word.
    first_wrong_word(sector)
}

// Repairs the P words, and returns which of them are lost: those with no codeword near them. P words have no byte in
// common: all are tested first, and none that is repaired changes another. Nothing is marked yet: a P word is repaired
// where one byte of it is wrong.
fn repair_p_words(sector: &mut [u8; 2352]) -> [bool; 86]
    ensures words { sector.new ≡ with_p_words sector.old 86 }
    ensures size { length sector.new ≡ 2352 }
    ensures lost_size { length result ≡ 86 }
    ensures lost { (word : ℕ) → word < 86 → slice_index_or result word false ≡ is_lost sector.old word }
{
    let code = PWord::new();
    let faults = p_faults(sector);
    let mut lost = [false; P_WORDS];
    for word in 0..P_WORDS {
        if faults[word] != 0 {
            lost[word] = repair_word(&code, word, &[false; 26], sector);
        }
    }
    lost
}

// Repairs the Q words, in which bytes of lost P words are marked. They are tested after the P words are repaired. They
// have no byte in common either. A Q word that is a codeword stays, with any marks: it is near itself, or has too many
// marks for any to be near. One with no codeword near it stays too: the test of all words then finds it.
fn repair_q_words(lost: &[bool; 86], sector: &mut [u8; 2352])
    ensures words { (read : List ℕ) → ((word : ℕ) → word < 86 → slice_index_or lost.now word false ≡ is_lost read word) → sector.new ≡ with_q_words read sector.old 52 }
    ensures size { length sector.new ≡ 2352 }
{
    let code = QWord::new();
    let faults = q_faults(sector);
    for word in P_WORDS..WORDS {
        if faults[word - P_WORDS] != 0 {
            repair_word(&code, word, &marks(lost, word), sector);
        }
    }
}

// The marks of a Q word: its bytes in lost P words. Its two parity bytes are in no P word. The P words begin at byte
// 12, and the bytes of each are 86 apart: so the place of a byte less 12 has the number of its P word as remainder. A Q
// word has 43 bytes before its parity.
fn marks(lost: &[bool; 86], word: usize) -> [bool; 45]
    requires q_word { 86 ≤ word }
    requires word { word < 138 }
    ensures { (read : List ℕ) → ((p : ℕ) → p < 86 → slice_index_or lost.now p false ≡ is_lost read p) → result ≡ word_marks read word }
{
    let mut marks = [false; 45];
    for m in 0..43 {
        marks[m] = lost[(place(word, m) - 12) % P_WORDS];
    }
    marks
}

// Sets a word to the codeword near it. Returns whether there is none; the sector is then unchanged. It is gathered into
// an array and written back, since its bytes are far from each other. N is 26 for a P word and 45 for a Q word. What
// was corrected is dropped: `repair` counts the changes of the whole sector.
fn repair_word<const N: usize>(
    code: &Code<N, 2>,
    word: usize,
    marks: &[bool; N],
    sector: &mut [u8; 2352],
) -> bool
    requires word { word < 138 }
    requires size { N ≡ word_size word }
    ensures word { sector.new ≡ with_word sector.old word (near_word sector.old word marks.now) }
    ensures size { length sector.new ≡ 2352 }
    ensures lost { result ≡ is_none (near_word sector.old word marks.now) }
{
    let mut bytes = [0; N];
    read_word(sector, word, &mut bytes);
    let Ok(_fix) = decode(code, &mut bytes, marks) else {
        return true;
    };
    write_word(&bytes, word, sector);
    false
}

// Writes a word back to its places in the sector, those that `read_word` read it from. All others stay.
fn write_word(bytes: &[u8], word: usize, sector: &mut [u8; 2352])
    requires word { word < 138 }
    requires bytes { length bytes.now ≡ word_size word }
    ensures word { sector.new ≡ with_word_bytes sector.old word bytes.now (word_size word) }
    ensures size { length sector.new ≡ 2352 }
{
    for (m, byte) in bytes.iter().enumerate() {
        sector[place(word, m)] = *byte;
    }
}

// The number of bytes after the sync that differ, at most 2,340. The sync isn't counted: it is set whatever it was.
fn count_changes(old: &[u8; 2352], new: &[u8; 2352]) -> u16
    ensures { result ≡ distance (drop 12 old.now) (drop 12 new.now) }
{
    let mut count = 0;
    for at in 12..2352 {
        if old[at] != new[at] {
            count += 1;
        }
    }
    count
}
