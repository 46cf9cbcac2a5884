//! Damage to a received block: bad rows, lost rows, and single errors in all other rows. All of it is drawn, and never
//! more than the bound of two-pass decoding allows, so that reading has to give the block back. In each function the
//! order of the draws is part of its contract, since the same seed has to damage the same bytes. The stage is Fetched,
//! that of a received block without answers, and stays so. In clauses `IsChanged` says that so many places of a list
//! have new values, and all others stay; its first argument is the value of a place beyond the end, which no place here
//! is. `HasErrors` says that a row has the single errors that are drawn from a state, `KeepsFound` that answers,
//! columns and sectors stay, `KeepsRest` that these and the stage do, and `KeepsAllButBytes` that the marks do too.
ghost use Rattle.std.specs.Prelude.{◌≡◌, ℕ, ◌+◌, ◌*◌, ◌<◌, ◌≤◌, true, false, [], length, replicate, slice_set, bit_xor};
ghost use Rattle.coding.specs.Product.{line, place};
ghost use Rattle.dvd_capture.specs.Kept.{KeepsFound};
ghost use Rattle.coding.specs.Within.{IsWithin};
ghost use Rattle.dvd_capture.specs.Works.{marks_of_work, rows_of, stage_of};
ghost use Rattle.dvd_capture.specs.declared.stage.Stage.TheVariants.{Fetched};
ghost use Rattle.dvd_exercise.specs.Damage.{HasErrors, IsChanged, IsHurt, bad_count, combined, drawn_errors, hurt_state, is_hit, lost_count, damaged_row, row_state, start_row};
ghost use Rattle.dvd_exercise.specs.Generator.{state_after, state_of};
ghost use Rattle.dvd_exercise.specs.Inner.Kept.{KeepsAllButBytes, KeepsRest};

use crate::generator::Rand;
use dvd_capture::Work;

/// Damages the received block. At most 8 rows are bad: each of their bytes becomes the exclusive or with a drawn one,
/// and its mark stays. At most 16 rows are lost: all their bytes are 0 and marked. In each other row at most 5 bytes
/// become the exclusive or with drawn ones that aren't 0, and its marks stay. Twice the bad rows plus the lost rows is
/// at most 16. So the damage to a block with no marks is within the bound of two-pass decoding.
/// No more damage is drawn: what two passes do with more depends on the numbers, and no clause could say it.
///
/// The numbers are drawn in this order. First come the number of bad rows, the number of lost rows, and the first of
/// these rows, a word each. Then come the bytes for the bad rows. Then comes each other row, from row 0 on. It draws
/// two words, for the number of bytes that are changed and for the place of the first. Then it draws the bytes for the
/// exclusive or. The stage stays Fetched, and answers, columns and sectors stay.
pub fn hurt(rand: &mut Rand, work: &mut Work)
    requires stage { stage_of work.old ≡ Fetched }
    ensures hurt { IsHurt (state_of rand.old) (rows_of work.old) (marks_of_work work.old) (rows_of work.new) (marks_of_work work.new) }
    ensures drawn { state_of rand.new ≡ hurt_state (state_of rand.old) }
    ensures within { marks_of_work work.old ≡ replicate 208 (replicate 182 false) → IsWithin (rows_of work.old) (rows_of work.new) (marks_of_work work.new) }
    ensures stage { stage_of work.new ≡ Fetched }
    ensures found { KeepsFound work.old work.new }
{
    // The other rows come last: how many bytes they draw depends on what is drawn on the way. Bad, lost and other rows
    // are different rows, so that none is damaged twice.
    let plan = Plan::draw(rand);
    combine_rows(&plan, rand, work);
    lose_rows(&plan, work);
    hurt_others(&plan, rand, work);
}

// The number of bad rows, the number of lost rows, and the first of these rows. The rows aren't listed, since each is
// computed from its number by `row`.
#[derive(Drop)]
struct Plan {
    bad: usize,
    lost: usize,
    start: usize,

    // The bad and the lost rows are within the bound.
    pub ghost bound: { 2 * bad + lost ≤ 16 },
    // The first of these rows is a row of the block.
    pub ghost within: { start < 208 },
}

impl Plan {
    // Draws the three numbers, a word each. The prover unfolds `state_after`, the state after so many words.
    #[tactic(auto, unfolding(crate::specs::Generator::state_after))]
    fn draw(rand: &mut Rand) -> Plan
        ensures bad { result.bad ≡ bad_count (state_of rand.old) }
        ensures lost { result.lost ≡ lost_count (state_of rand.old) }
        ensures start { result.start ≡ start_row (state_of rand.old) }
        ensures state { state_of rand.new ≡ state_after (state_of rand.old) 3 }
    {
        // A bad row takes two of the sixteen parity bytes of a column, and a lost one takes one. At most eight are bad,
        // so the second divisor is 1 at least.
        let bad = rand.word() % 9;
        let lost = rand.word() % (17 - 2 * bad);
        let start = rand.word() % 208;
        // Each is below its divisor, so that the casts cut nothing.
        Plan {
            bad: bad as usize,
            lost: lost as usize,
            start: start as usize,
        }
    }

    // The bad or lost row with the number `turn`; the bad rows come first. 5 and 208 have no factor in common, so that
    // none comes twice. Any such step would do, 1 too, which would leave all in two or three of the sixteen frames. By
    // 5 a frame has at most three of them in its twelve rows, and the damage is of many frames. At most sixteen are
    // used; the clause allows all 208 numbers, for which the rows differ too.
    fn row(&self, turn: usize) -> usize
        requires { turn < 208 }
        ensures row { result ≡ damaged_row self.now.start turn }
        ensures below { result < 208 }
    {
        (self.start + 5 * turn) % 208
    }

    // Whether a row is bad or lost. No list of these rows is kept: at most sixteen numbers are tried. The prover
    // unfolds `is_hit`, which is defined by the same search.
    #[tactic(auto, unfolding(crate::specs::Damage::is_hit))]
    fn hits(&self, row: usize) -> bool
        ensures { result ≡ is_hit self.now.start (self.now.bad + self.now.lost) row }
    {
        (0..self.bad + self.lost).any(|turn| self.row(turn) == row)
    }
}

// Sets one received byte to its exclusive or with another byte. Its mark stays. Where the other byte isn't 0 this
// changes any byte, so that damage doesn't depend on the sectors. `damage` sets byte and mark, so the mark is read
// first. `width` is for callers' proofs, which don't know the length of a row in a list.
fn combine(work: &mut Work, i: usize, j: usize, byte: u8)
    requires stage { stage_of work.old ≡ Fetched }
    requires row { i < 208 }
    requires place { j < 182 }
    ensures received { rows_of work.new ≡ slice_set (rows_of work.old) i (slice_set (line (rows_of work.old) i) j (bit_xor (place (rows_of work.old) i j) byte)) }
    ensures width { length (line (rows_of work.new) i) ≡ 182 }
    ensures rest { KeepsAllButBytes work.old work.new }
{
    let received = work.received(i, j);
    let mark = work.marked(i, j);
    work.damage(i, j, received ^ byte, mark);
}

// Sets each byte of a row to its exclusive or with a drawn one. Some drawn bytes may be 0, which change nothing: the
// bound counts the row as bad whatever becomes of it. 182 words are drawn, whatever the row has.
fn combine_row(rand: &mut Rand, work: &mut Work, i: usize)
    requires stage { stage_of work.old ≡ Fetched }
    requires row { i < 208 }
    ensures received { rows_of work.new ≡ slice_set (rows_of work.old) i (combined (state_of rand.old) (line (rows_of work.old) i)) }
    ensures drawn { state_of rand.new ≡ state_after (state_of rand.old) 182 }
    ensures rest { KeepsAllButBytes work.old work.new }
{
    for j in 0..182 {
        let byte = rand.byte();
        combine(work, i, j, byte);
    }
}

// Sets all bytes of a row to 0 and marks them. If the bytes stayed, reading that passes over marks would find them
// right. Nothing is drawn for a lost row.
fn lose_row(work: &mut Work, i: usize)
    requires stage { stage_of work.old ≡ Fetched }
    requires row { i < 208 }
    ensures received { rows_of work.new ≡ slice_set (rows_of work.old) i (replicate 182 0) }
    ensures marks { marks_of_work work.new ≡ slice_set (marks_of_work work.old) i (replicate 182 true) }
    ensures rest { KeepsRest work.old work.new }
{
    for j in 0..182 {
        work.damage(i, j, 0, true);
    }
}

// Sets up to 5 bytes of a row to their exclusive or with drawn ones, made odd so that none is 0. 31 and 182 have no
// factor in common, so that no place comes twice. Any such step would do; 31 spreads five over the whole row. The first
// place is drawn even where the number is 0: two words are drawn for each row, and then one for each error.
fn hurt_row(rand: &mut Rand, work: &mut Work, i: usize)
    requires stage { stage_of work.old ≡ Fetched }
    requires row { i < 208 }
    ensures received { HasErrors (state_of rand.old) (line (rows_of work.old) i) (line (rows_of work.new) i) }
    ensures others { rows_of work.new ≡ slice_set (rows_of work.old) i (line (rows_of work.new) i) }
    ensures drawn { state_of rand.new ≡ state_after (state_of rand.old) (2 + drawn_errors (state_of rand.old)) }
    ensures rest { KeepsAllButBytes work.old work.new }
{
    // At most five, which the ten parity bytes of a row correct. So none of these rows fails in the first pass.
    let count = (rand.word() % 6) as usize;
    let first = (rand.word() % 182) as usize;
    for u in 0..count {
        let byte = rand.byte() | 1;
        combine(work, i, (first + 31 * u) % 182, byte);
    }
}

// Damages the bad rows, in the order of `Plan::row`.
fn combine_rows(plan: &Plan, rand: &mut Rand, work: &mut Work)
    requires stage { stage_of work.old ≡ Fetched }
    ensures received { IsChanged [] plan.now.bad (damaged_row plan.now.start) (λ t. combined (state_after (state_of rand.old) (182 * t)) (line (rows_of work.old) (damaged_row plan.now.start t))) (rows_of work.old) (rows_of work.new) }
    ensures drawn { state_of rand.new ≡ state_after (state_of rand.old) (182 * plan.now.bad) }
    ensures rest { KeepsAllButBytes work.old work.new }
{
    for turn in 0..plan.bad {
        combine_row(rand, work, plan.row(turn));
    }
}

// Loses the rows that follow the bad ones in the order of `Plan::row`. It draws nothing. They are counted from 0, as in
// `IsChanged`, and so `plan.bad` is added.
fn lose_rows(plan: &Plan, work: &mut Work)
    requires stage { stage_of work.old ≡ Fetched }
    ensures received { IsChanged [] plan.now.lost (λ t. damaged_row plan.now.start (plan.now.bad + t)) (λ t. replicate 182 0) (rows_of work.old) (rows_of work.new) }
    ensures marks { IsChanged [] plan.now.lost (λ t. damaged_row plan.now.start (plan.now.bad + t)) (λ t. replicate 182 true) (marks_of_work work.old) (marks_of_work work.new) }
    ensures rest { KeepsRest work.old work.new }
{
    for t in 0..plan.lost {
        lose_row(work, plan.row(plan.bad + t));
    }
}

// Damages each row that is neither bad nor lost, in order: each draws on from where the row before it ended. A bad or
// lost row draws nothing here, which `row_state` says too.
fn hurt_others(plan: &Plan, rand: &mut Rand, work: &mut Work)
    requires stage { stage_of work.old ≡ Fetched }
    ensures hit { (row : ℕ) → row < 208 → is_hit plan.now.start (plan.now.bad + plan.now.lost) row ≡ true → line (rows_of work.new) row ≡ line (rows_of work.old) row }
    ensures others { (row : ℕ) → row < 208 → is_hit plan.now.start (plan.now.bad + plan.now.lost) row ≡ false
        → HasErrors (row_state plan.now.start (plan.now.bad + plan.now.lost) (state_of rand.old) row) (line (rows_of work.old) row) (line (rows_of work.new) row) }
    ensures drawn { state_of rand.new ≡ row_state plan.now.start (plan.now.bad + plan.now.lost) (state_of rand.old) 208 }
    ensures rest { KeepsAllButBytes work.old work.new }
{
    for row in 0..208 {
        if !plan.hits(row) {
            hurt_row(rand, work, row);
        }
    }
}
