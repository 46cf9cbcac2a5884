//! The buffers of a unit, which is one block of each capture. All of it is kept until the last block came, since none
//! is written before.
//!
//! A block has 208 rows. In the plain form a row has 182 bytes and a block 37,856; in the marked form 23 bytes of mark
//! bits come after each row, which makes 205 and 42,640. cap_top makes the buffers, so `new` is public; the other calls
//! are for the loop.
ghost use Rattle.std.specs.Prelude.{◌≡◌, ◌+◌, ◌*◌, ◌<◌, ◌≤◌, ◌++◌, ◌==◌, [], length, take, slice_index, nat_lt, position, true, is_some, vec_len, vec_capacity, IfOk, IfSome, OnErr, OnOk};
ghost use Rattle.std.specs.List.{list_all};
ghost use Rattle.dvd_capture.specs.Captured.{block_size, HasSize};
ghost use Rattle.dvd_capture.specs.declared.form.Form.TheVariants.{Marked as marked};
ghost use Rattle.dvd_ports.specs.Whole.{IsWritten};
ghost use Rattle.cap_interleave.specs.Blocks.{block_written, lost_block, lost_row};
ghost use Rattle.cap_interleave.specs.Inner.{BreaksSomeBlock, ChecksTo, GivesBlock, IsReadInto, fresh};

use crate::ends::InterleaveEnd;
use dvd_capture::{Form, RowMarks};
use dvd_ports::{Failed, NoMemory, Sink, Source, WriteFault, read_whole, write_whole};
use std::alloc::{AllocError, Global};
use std::marker::Model;

// The bytes of a unit at most: sixteen blocks in the marked form. It is reserved for any number of captures, so that
// adding a block never needs memory. The contracts then have one capacity for all numbers of captures.
const MOST_BYTES: usize = 16 * 42_640;

/// A unit, a block, and how many bytes there were in the last block of each capture. Where blocks are filled, there is
/// also a lost block: all its bytes are 0 and marked. It takes the place of a missing block, and its end that of what a
/// block lacks. `block` is where a block is read first, since it may come short. A contract sees the sizes, `held` and
/// the unit; what is in `block` between reads is of no account.
#[derive(Drop)]
pub struct Buffers {
    unit: Vec<u8>,
    block: Vec<u8>,
    held: Vec<usize>,
    lost: Option<Vec<u8>>,
}

impl Model for Buffers {
    ghost use Rattle.std.specs.Prelude.{◌≡◌, ◌≤◌, IfSome, vec_len, vec_capacity, is_some};
    ghost use Rattle.cap_interleave.specs.Blocks.{lost_block};
    ghost use Rattle.cap_interleave.specs.Inner.{BuffersState};

    ghost Value = { BuffersState };

    ghost view = { λ b. record { size = vec_len b.block; fill = is_some b.lost; held = b.held.items; unit = b.unit.items } };

    ghost invariant = { λ b. (682_240 ≤ vec_capacity b.unit) × (1 ≤ vec_len b.block) × (vec_len b.block ≤ 42_640) × (vec_len b.held ≤ 16)
        × IfSome b.lost (λ lost. (lost.items ≡ lost_block) × (vec_len lost ≡ 42_640)) };
}

impl Buffers {
    /// Buffers for this number of captures, of which nothing was read. All memory is allocated here. `HasSize`: the
    /// form is plain or marked.
    pub fn new(alloc: Global, form: Form, fill: bool, captures: usize) -> Result<Buffers, NoMemory>
        requires form { HasSize form }
        requires fill { fill ≡ true → form ≡ marked }
        requires few { captures ≤ 16 }
        ensures { IfOk result (λ buffers. buffers ≡ fresh (record { size = block_size form; fill = fill; count = captures })) }
    {
        // At first `held` says that each capture's last block came whole, so that block 0 is read. The order of the
        // allocations is free: where one fails, there are no buffers.
        let size = form.size();
        let lost = if fill { Some(lost_block(alloc)?) } else { None };
        Ok(Buffers {
            unit: Vec::with_capacity(alloc, MOST_BYTES).map_err(|_| NoMemory)?,
            block: vec![in alloc; 0; size].map_err(|_| NoMemory)?,
            held: vec![in alloc; size; captures].map_err(|_| NoMemory)?,
            lost,
        })
    }

    /// Empties the unit.
    /// The memory is kept for the next unit.
    pub(crate) fn clear(&mut self)
        ensures { self.new ≡ record self.old { unit = [] } }
    {
        self.unit.clear();
    }

    /// Reads a block of capture `c` and adds it to the unit. A capture that has ended isn't read again. The captures
    /// are read in their order, so that those before `c` fill at most `c` blocks of the unit. After a failed read
    /// nothing is promised of the buffers: the loop ends. What `fetch` and `put_block` do is apart from it, since each
    /// borrows some of the buffers alone.
    pub(crate) fn read<S: Source>(&mut self, c: usize, src: &mut S) -> Result<(), Failed>
        requires capture { c < length self.old.held }
        requires room { length self.old.unit ≤ 42_640 * c }
        ensures read { OnOk result (IsReadInto c self.old self.new (S.seen src.old) (S.seen src.new)) }
        ensures broken { OnErr result (BreaksSomeBlock self.old.size (slice_index self.old.held c) (S.seen src.old) (S.seen src.new)) }
    {
        let held = fetch(&mut self.block, self.held[c], src)?;
        self.held[c] = held;
        put_block(&mut self.unit, &self.block[..held], &self.lost);
        Ok(())
    }

    /// How the loop ends after block `k` of each capture was read, where the captures don't all have it. It is `Done`
    /// where none has a byte of it. Else it is `Short` in the first capture that lacks some, unless blocks are filled.
    /// Nothing is changed.
    pub(crate) fn check(&self, k: u32) -> Result<(), InterleaveEnd>
        ensures { ChecksTo self.now k result }
    {
        // This comes first: captures that all end here are whole, though each of them is short of block `k`.
        if are_empty(&self.held) {
            return Err(InterleaveEnd::Done);
        }
        if self.lost.is_some() {
            return Ok(());
        }
        match first_short(&self.held, self.block.len()) {
            None => Ok(()),
            // Nothing is cut: there are at most 16 captures, and 42,640 bytes in a block.
            Some(capture) => Err(InterleaveEnd::Short {
                capture: capture as u32,
                block: k,
                bytes: self.held[capture] as u32,
            }),
        }
    }

    /// Writes the unit, the blocks of all captures in their order, as one piece.
    pub(crate) fn write<K: Sink>(&self, out: &mut K) -> Result<(), WriteFault>
        ensures { IsWritten self.now.unit (K.seen out.old) (K.seen out.new) result }
    {
        write_whole(out, &self.unit)
    }
}

// Whether no capture has a byte more: then the output is whole.
fn are_empty(held: &[usize]) -> bool
    ensures { result ≡ list_all (λ h. h == 0) held.now }
{
    held.iter().all(|held| *held == 0)
}

// The first capture whose last block has fewer bytes than a whole one.
fn first_short(held: &[usize], size: usize) -> Option<usize>
    ensures { result ≡ position (λ h. nat_lt h size) held.now }
{
    held.iter().position(|held| *held < size)
}

// Reads a block, if the last one came whole, and answers how many bytes came. A capture whose last block was cut has
// ended: a terminal would give more after its end, and isn't asked again. Bytes of the buffer after those that came are
// of an older block, and no caller looks at them.
fn fetch<S: Source>(block: &mut [u8], before: usize, src: &mut S) -> Result<usize, Failed>
    ensures size { length block.new ≡ length block.old }
    ensures bound { IfOk result (λ held. held ≤ length block.old) }
    ensures gives { IfOk result (λ held. GivesBlock (length block.old) before (take held block.new) (S.seen src.old) (S.seen src.new)) }
    ensures broken { OnErr result (BreaksSomeBlock (length block.old) before (S.seen src.old) (S.seen src.new)) }
{
    if before < block.len() {
        return Ok(0);
    }
    read_whole(src, block)
}

// Adds a block to the unit: these bytes, and, where there is a lost block, the rest of that. So a block that is cut has
// its own bytes first, and after them zeros with marks. A whole one has no rest.
fn put_block(unit: &mut Vec<u8>, own: &[u8], lost: &Option<Vec<u8>>)
    requires room { vec_len unit.old + 42_640 ≤ vec_capacity unit.old }
    requires own { length own.now ≤ 42_640 }
    requires lost { IfSome lost.now (λ block. (block.items ≡ lost_block) × (vec_len block ≡ 42_640)) }
    ensures items { unit.new.items ≡ unit.old.items ++ block_written (is_some lost.now) own.now }
    ensures len { vec_len unit.new ≤ vec_len unit.old + 42_640 }
    ensures capacity { vec_capacity unit.old ≤ vec_capacity unit.new }
{
    put(unit, own);
    if let Some(lost) = lost {
        put(unit, &lost[own.len()..]);
    }
}

// Adds bytes, for which there is room. So no memory is needed, and the call can't fail.
fn put(unit: &mut Vec<u8>, bytes: &[u8])
    requires { vec_len unit.old + length bytes.now ≤ vec_capacity unit.old }
    ensures items { unit.new.items ≡ unit.old.items ++ bytes.now }
    ensures len { vec_len unit.new ≡ vec_len unit.old + length bytes.now }
    ensures capacity { vec_capacity unit.old ≤ vec_capacity unit.new }
{
    match unit.extend_from_slice(bytes) {
        Ok(()) => {}
        Err(_) => unreachable!(),
    }
}

// A block in the marked form of which nothing came. It is made once, and copied where it is needed. Only `new` calls
// it, before anything is read, so it may take memory and fail; a row that finds no memory ends it. `using` is for the
// checker: two lemmas say what no row is, and what one row more is.
#[tactic(auto, using(crate::proofs::BlockLemmas::rows_none, crate::proofs::BlockLemmas::rows_more))]
fn lost_block(alloc: Global) -> Result<Vec<u8>, NoMemory>
    ensures block { IfOk result (λ block. block.items ≡ lost_block) }
    ensures len { IfOk result (λ block. vec_len block ≡ 42_640) }
{
    let mut block = Vec::new(alloc);
    for _ in 0..208usize {
        put_lost_row(&mut block).map_err(|_| NoMemory)?;
    }
    Ok(block)
}

// Adds a row of zeros, and a mark for each of its bytes.
fn put_lost_row(block: &mut Vec<u8>) -> Result<(), AllocError>
    ensures row { OnOk result (block.new.items ≡ block.old.items ++ lost_row) }
    ensures len { OnOk result (vec_len block.new ≡ vec_len block.old + 205) }
{
    // None of these bytes is 0, so all places are marked.
    let marks = RowMarks::where_not(0, &[1; 182]);
    block.extend_from_slice(&[0; 182])?;
    block.extend_from_slice(marks.bits())?;
    Ok(())
}
