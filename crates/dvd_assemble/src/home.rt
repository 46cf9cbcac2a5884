//! Where a captured recording frame belongs. Frames come in any order, so only its own first row says it, and
//! neighbours say nothing.
ghost use Rattle.std.specs.Prelude.{◌≡◌, ◌+◌, ◌*◌, ◌<◌, ◌≤◌, ◌==◌, if◌then◌else◌, length, slice_index, IfSome};
ghost use Rattle.std.specs.Option.{option_map};
ghost use Rattle.coding.specs.Nearest.{near_of};
ghost use Rattle.dvd_capture.specs.Parts.{marks_of_row};
ghost use Rattle.dvd_frame.specs.Id.{is_same_place};
ghost use Rattle.dvd_layout.specs.Lengths.{blocks_of};
ghost use Rattle.dvd_layout.specs.Plan.{plan_of};
ghost use Rattle.dvd_layout.specs.declared.layout.Zones.TheVariants.{DataOnly};
ghost use Rattle.dvd_assemble.specs.Home.{block_and_frame, home, home_in, id_word_in, id_words};
ghost use Rattle.dvd_assemble.specs.Works.{captured};

use crate::frame::FrameWork;
use dvd_capture::RowMarks;
use dvd_frame::{Id, found_id, has_right_ied};
use dvd_layout::{Layout, Zones, id_of};
use rs_code::Pi;
use rs_decode::decode;

/// The block of the data zone and the recording frame of it that the first row of a captured frame names, if it names
/// one. `assemble` allows disks of at most 1,024 blocks, since it keeps all of them in memory; any bound below
/// 65,536 would do here, where it shows that the number of a block has room in 16 bits.
pub(crate) fn home_of(layout: &Layout, frame: &FrameWork) -> Option<(u16, u8)>
    requires { length (plan_of layout.now DataOnly) ≤ 1024 }
    ensures home { result ≡ option_map block_and_frame (home layout.now (captured frame.now)) }
    ensures block { IfSome result (λ place. place.0 < length (plan_of layout.now DataOnly)) }
    ensures frame { IfSome result (λ place. place.1 < 16) }
{
    let id = id_in(frame.first_row(), frame.row_marks(0))?;
    home_of_id(layout, id)
}

// The ID in the codeword near a received first row, if its check is right. A wrong check isn't used to correct an ID:
// it could become that of another frame.
fn id_in(row: &[u8; 182], marks: &RowMarks) -> Option<Id>
    ensures { result ≡ id_word_in row.now (marks_of_row marks.now) }
{
    let word = codeword_near(row, marks)?;
    if has_right_ied(&word) {
        Some(found_id(&word))
    } else {
        None
    }
}

// The codeword near a received row. A copy is decoded: a frame is joined to its block as it was received. The marks are
// a bit each, and the decoder reads a `bool` for each place.
fn codeword_near(row: &[u8; 182], marks: &RowMarks) -> Option<[u8; 182]>
    ensures { result ≡ near_of 182 10 row.now (marks_of_row marks.now) }
{
    let mut word = *row;
    let mut flags = [false; 182];
    marks.unpack(&mut flags);
    decode(&Pi::new(), &mut word, &flags).ok()?;
    Some(word)
}

// The block and the frame that have the place of this ID. The layer gives the first block that may have it, and the
// sectors after that block's first one give the block. Only then is the whole ID compared with the plan's. The
// definition looks through all frames of the zone, up to 16,384; no other one than this can have the ID.
fn home_of_id(layout: &Layout, id: Id) -> Option<(u16, u8)>
    requires { length (plan_of layout.now DataOnly) ≤ 1024 }
    ensures home { result ≡ option_map block_and_frame (home_in layout.now id) }
    ensures block { IfSome result (λ place. place.0 < length (plan_of layout.now DataOnly)) }
    ensures frame { IfSome result (λ place. place.1 < 16) }
{
    let blocks = layout.blocks(Zones::DataOnly);
    let before = blocks_before(layout, id.layer());
    // `plan` has no entry past the last block. A disk of one layer has no block of layer 1.
    if before >= blocks {
        return None;
    }
    let first = layout.plan(Zones::DataOnly, before).first;
    // An ID before the first sector of that block names no frame of the layer. From there on each block of a layer has
    // the next sixteen numbers, so the difference gives both block and frame, whether or not `first` is a multiple of
    // 16.
    let offset = id.number().checked_sub(first)?;
    // It may go past the last block, or from layer 0 into the blocks of layer 1: the two tests below refuse both.
    let k = before + u64::from(offset / 16);
    let f = offset % 16;
    if k < blocks && has_frame(layout, k, f as usize, id) {
        Some((k as u16, f as u8))
    } else {
        None
    }
}

// How many blocks come before those of a layer: for layer 1 those of layer 0. On two layers these are full, by a rule
// of layouts. On one layer the last may be padded, and is counted too, so that no block is left for layer 1.
fn blocks_before(layout: &Layout, layer: u8) -> u64
    ensures { result ≡ (if layer == 0 then 0 else blocks_of layout.now.sectors0) }
{
    if layer == 0 {
        0
    } else {
        u64::from(layout.sectors0.div_ceil(16))
    }
}

// Whether frame `f` of block `k` has the place of this ID. The sector number alone isn't enough: area and layer have to
// be right too. b29, the reflectivity bit, isn't compared, as in no check of a frame: it says how the disk reflects,
// not where the frame is, so a frame with another b29 is at home all the same. `dim` is handed on all the same: the
// definition lists the IDs as they are written.
fn has_frame(layout: &Layout, k: u64, f: usize, id: Id) -> bool
    requires block { k < length (plan_of layout.now DataOnly) }
    requires frame { f < 16 }
    ensures { result ≡ is_same_place id (slice_index (id_words layout.now) (16 * k + f)) }
{
    let entry = layout.plan(Zones::DataOnly, k);
    id.same_place(id_of(&entry, layout.dim(), f))
}
