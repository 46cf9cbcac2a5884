//! The checks of the sixteen data frames of a block that was found, and their Main Data. `HasNumbers` says that the
//! numbers of an entry's sixteen sectors have 24 bits, as those of every plan have.
ghost use Rattle.std.specs.Prelude.{◌≡◌, ◌*◌, ◌+◌, ◌<◌, ◌++◌, IfErr, IsTrue, None, OnErr, OnOk, Some, length, replicate, take};
ghost use Rattle.std.specs.List.{flat_map};
ghost use Rattle.dvd_block.specs.Buffers.{piece_bytes};
ghost use Rattle.dvd_layout.specs.Place.{HasNumbers};
ghost use Rattle.dvd_decoding.specs.Frames.{frames_cause, main_data};

use crate::deep::Deep;
use crate::rounds::Rows;
use dvd_block::Piece;
use dvd_layout::BlockPlan;
use dvd_read::{Cause, read_frame_at};

impl Deep {
    ghost use Rattle.dvd_deep.specs.Deeps.{has_found, rows_of_deep};

    /// Checks the sixteen data frames of the block that was found, as those of an entry of a plan, and writes their
    /// unscrambled Main Data, 2,048 bytes each. The error is the cause of the first frame that has one; all bytes are 0
    /// then. `found` is asked for since the rows mean nothing where the last search found none.
    pub fn sectors(&self, plan: &BlockPlan, out: &mut Piece) -> Result<(), Cause>
        requires found { IsTrue (has_found self.now) }
        requires numbers { HasNumbers plan.now }
        ensures refused { IfErr result (λ cause. frames_cause (rows_of_deep self.now) plan.now ≡ Some cause) }
        ensures right { OnOk result (frames_cause (rows_of_deep self.now) plan.now ≡ None) }
        ensures main { OnOk result (piece_bytes out.new ≡ flat_map (λ sector. sector) (main_data (rows_of_deep self.now) plan.now)) }
        ensures zeros { OnErr result (piece_bytes out.new ≡ replicate 32768 0) }
    {
        read_frames(&self.rows, plan, out.bytes_mut())
    }
}

// Writes the Main Data of the frames of a block, or zeros if there is a cause: rounds beyond the two passes can make
// wrong codewords, so of a block that they made with a wrong frame nothing is believed. The command salvages frames of
// such a block from what the two passes made of its rows, and writes nothing of this buffer.
fn read_frames(rows: &Rows, plan: &BlockPlan, out: &mut [u8]) -> Result<(), Cause>
    requires size { length out.old ≡ 32768 }
    requires numbers { HasNumbers plan.now }
    ensures refused { IfErr result (λ cause. frames_cause rows.now plan.now ≡ Some cause) }
    ensures right { OnOk result (frames_cause rows.now plan.now ≡ None) }
    ensures main { OnOk result (out.new ≡ flat_map (λ sector. sector) (main_data rows.now plan.now)) }
    ensures zeros { OnErr result (out.new ≡ replicate 32768 0) }
    ensures size { length out.new ≡ 32768 }
{
    // A sector is read into a buffer of its own, since `read_frame_at` asks for an array and `out` is a slice. Frames
    // are read in their order, so that the first one with a cause is reported.
    let mut main = [0; 2048];
    for f in 0..16usize {
        if let Err(cause) = read_frame_at(rows, plan, f, &mut main) {
            // Sectors before this one, and what an earlier block left, are blanked.
            out.fill(0);
            return Err(cause);
        }
        put_sector(out, f, &main);
    }
    Ok(())
}

// Writes a sector after those before it. Only these are ensured to stay, so the sectors are written in their order.
fn put_sector(out: &mut [u8], f: usize, main: &[u8; 2048])
    requires size { length out.old ≡ 32768 }
    requires frame { f < 16 }
    ensures sector { take (2048 * f + 2048) out.new ≡ take (2048 * f) out.old ++ main.now }
    ensures size { length out.new ≡ 32768 }
{
    out[2048 * f..2048 * f + 2048].copy_from_slice(main);
}
