//! What is saved of a block whose rows are answered: each data frame that is right by itself. Its candidate is
//! the 2,064 bytes that are checked: those of the block that two passes fixed, or else of its twelve rows' answers.
//! `HasNumbers` says that the numbers of an entry's sixteen sectors have 24 bits, as those of every plan have.
ghost use Rattle.std.specs.Prelude.{◌≡◌, ◌<◌, ◌↔◌, IsTrue, true, length, map, not, replicate, Some, is_some, unwrap_or};
ghost use Rattle.coding.specs.TwoPass.{answers_of};
ghost use Rattle.dvd_capture.specs.Rule.{HasAnswers};
ghost use Rattle.dvd_capture.specs.Parts.{answer_rows, column_answers, sector_bytes};
ghost use Rattle.dvd_capture.specs.Works.{marks_of_work, rows_of, sectors_of, stage_of};
ghost use Rattle.dvd_layout.specs.Place.{HasNumbers};
ghost use Rattle.dvd_read.specs.Parts.{answer_word};
ghost use Rattle.dvd_read.specs.Inner.Found.{HoldAnswers};
ghost use Rattle.dvd_decoding.specs.Frames.{frame_of};
ghost use Rattle.dvd_decoding.specs.Salvage.{block_out, candidate, rescued, saved_in};
ghost use Rattle.dvd_read.specs.Inner.Saved.{answered_block, frames_saved, lacks_row, sectors_saved};

use crate::frames::{copy_frame, put_data};
use dvd_capture::parts::{AnswerRow, Answers, ColumnAnswer, Columns, Sectors};
use dvd_capture::{Stage, Work};
use dvd_frame::{Scrambler, read_frame_into};
use dvd_layout::{BlockPlan, id_of, rule_of};

// Of what frames are saved: the columns, where they hold the block that two passes fixed, or else the rows' answers.
// They are borrowed apart from the sectors, which are written meanwhile. Both are there whatever the stage is: clauses
// say what is saved by the rows' answers, of a fixed block too.
#[derive(Drop)]
struct Held<'a> {
    fixed: bool,
    columns: &'a [ColumnAnswer],
    answers: &'a [AnswerRow],
}

impl<'a> Held<'a> {
    // Those of a block at this stage.
    fn new(stage: Stage, columns: &'a Columns, answers: &'a Answers) -> Held<'a>
        ensures fixed { IsTrue result.fixed ↔ stage ≡ Stage.Fixed }
        ensures columns { result.columns.now ≡ column_answers columns.now }
        ensures answers { result.answers.now ≡ answer_rows answers.now }
        ensures width { length result.columns.now ≡ 182 }
    {
        Held {
            fixed: stage == Stage::Fixed,
            columns: columns.all(),
            answers: answers.rows(),
        }
    }
}

/// Saves the data frames that are right by themselves, as those of an entry of a plan: of the block that two passes
/// fixed, or, where they refused it, of the rows' answers. Each sector is then the unscrambled Main Data of its frame,
/// or zeros where the frame is lost. Answers how many frames are saved. The stage and all else stay.
/// Each frame is judged by itself, so that a wrong one costs no other.
pub fn salvage(work: &mut Work, plan: &BlockPlan) -> u8
    requires stage { HasAnswers (stage_of work.old) }
    requires numbers { HasNumbers plan.now }

    ensures out { sectors_of work.new ≡ block_out (rows_of work.old) (marks_of_work work.old) plan.now }
    ensures saved { result ≡ saved_in (rows_of work.old) (marks_of_work work.old) plan.now }

    ensures stage { stage_of work.new ≡ stage_of work.old }
    ensures received { work.new.received ≡ work.old.received }
    ensures marks { work.new.marks ≡ work.old.marks }
    ensures answers { work.new.answers ≡ work.old.answers }
    ensures columns { work.new.columns ≡ work.old.columns }
{
    let held = Held::new(work.stage(), &work.columns, &work.answers);
    save_frames(&held, plan, &mut work.sectors)
}

/// Writes the unscrambled Main Data of one data frame if it is right by itself, as `salvage` does for all
/// sixteen, or else zeros. Answers whether the frame is saved.
/// It is for callers that ask which frames are saved, and not only how many. `work` stays. The scrambling bytes are
/// made for this frame alone, since nothing is kept between calls.
pub fn salvage_frame(work: &Work, plan: &BlockPlan, f: usize, main: &mut [u8; 2048]) -> bool
    requires stage { HasAnswers (stage_of work.now) }
    requires numbers { HasNumbers plan.now }
    requires frame { f < 16 }
    ensures main { main.new ≡ unwrap_or (rescued (answers_of (rows_of work.now) (marks_of_work work.now)) plan.now f) (replicate 2048 0) }
    ensures saved { result ≡ is_some (rescued (answers_of (rows_of work.now) (marks_of_work work.now)) plan.now f) }
{
    let held = Held::new(work.stage(), &work.columns, &work.answers);
    let mut frame = [0; 2064];
    save_frame(&held, plan, f, &mut Scrambler::new(), &mut frame, main)
}

// Saves the frames of the columns' block where that was fixed, or else of the rows' answers. Each is read where it is.
fn save_frames(held: &Held<'_>, plan: &BlockPlan, sectors: &mut Sectors) -> u8
    requires held { HoldAnswers held.now.fixed held.now.columns.now held.now.answers.now }
    requires numbers { HasNumbers plan.now }
    ensures out { sector_bytes sectors.new ≡ sectors_saved (map answer_word held.now.answers.now) plan.now }
    ensures saved { result ≡ frames_saved (map answer_word held.now.answers.now) plan.now }
{
    // The frames of a block have one preset, so that the scrambling bytes are made once and serve all sixteen.
    let mut scrambler = Scrambler::new();
    let mut frame = [0; 2064];
    let mut saved = 0;
    for f in 0..16usize {
        let main = sectors.sector_mut(f);
        saved += u8::from(save_frame(held, plan, f, &mut scrambler, &mut frame, main));
    }
    saved
}

// Writes the Main Data of frame `f` if it is salvaged, or else zeros. Answers whether it is. `main` may have
// been written before a check failed, so the zeros come last.
fn save_frame(
    held: &Held<'_>,
    plan: &BlockPlan,
    f: usize,
    scrambler: &mut Scrambler,
    frame: &mut [u8; 2064],
    main: &mut [u8; 2048],
) -> bool
    requires held { HoldAnswers held.now.fixed held.now.columns.now held.now.answers.now }
    requires numbers { HasNumbers plan.now }
    requires frame { f < 16 }
    ensures main { main.new ≡ unwrap_or (rescued (map answer_word held.now.answers.now) plan.now f) (replicate 2048 0) }
    ensures saved { result ≡ is_some (rescued (map answer_word held.now.answers.now) plan.now f) }
{
    let saved = read_candidate(held, plan, f, scrambler, frame, main);
    if !saved {
        *main = [0; 2048];
    }
    saved
}

// Writes the Main Data of the candidate of frame `f`, if it has one without a cause. Answers whether it has.
fn read_candidate(
    held: &Held<'_>,
    plan: &BlockPlan,
    f: usize,
    scrambler: &mut Scrambler,
    frame: &mut [u8; 2064],
    main: &mut [u8; 2048],
) -> bool
    requires held { HoldAnswers held.now.fixed held.now.columns.now held.now.answers.now }
    requires numbers { HasNumbers plan.now }
    requires frame { f < 16 }
    ensures main { result ≡ true → rescued (map answer_word held.now.answers.now) plan.now f ≡ Some main.new }
    ensures saved { result ≡ is_some (rescued (map answer_word held.now.answers.now) plan.now f) }
{
    // The rule says which bytes of the frame are scrambled: in the Reference Code Zone not all are. All frames have the
    // same checks.
    let rule = rule_of(plan.content, f);
    // An ID is compared without b29, which a disk with two layers sets, so `false` will do.
    copy_candidate(held, f, frame)
        && read_frame_into(scrambler, frame, id_of(plan, false, f), rule, main).is_ok()
}

// Writes the candidate of frame `f`, if it has one. Answers whether it has. The frames of a fixed block are read of the
// columns, which have all of it: whether the rows are kept isn't known here.
fn copy_candidate(held: &Held<'_>, f: usize, frame: &mut [u8; 2064]) -> bool
    requires held { HoldAnswers held.now.fixed held.now.columns.now held.now.answers.now }
    requires frame { f < 16 }
    ensures candidate { result ≡ true → candidate (map answer_word held.now.answers.now) f ≡ Some frame.new }
    ensures has { result ≡ is_some (candidate (map answer_word held.now.answers.now) f) }
{
    if held.fixed {
        copy_frame(held.columns, f, frame);
        true
    } else {
        copy_answered(held.answers, f, frame)
    }
}

// Writes frame `f` of the rows' answers, if all twelve rows have one. Answers whether they have. A failed row leaves
// 172 bytes unknown, so that the frame isn't right by itself. `frame` may have been written in part then.
fn copy_answered(answers: &[AnswerRow], f: usize, frame: &mut [u8; 2064]) -> bool
    requires rows { length answers.now ≡ 208 }
    requires frame { f < 16 }
    ensures frame { result ≡ true → frame.new ≡ frame_of (answered_block (map answer_word answers.now)) f }
    ensures has { result ≡ not (lacks_row (map answer_word answers.now) f) }
{
    for q in 0..12usize {
        let row = &answers[12 * f + q];
        if row.fix.is_none() {
            return false;
        }
        put_data(frame, 172 * q, &row.bytes);
    }
    true
}
