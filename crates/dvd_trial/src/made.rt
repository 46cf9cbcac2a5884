//! The steps by which bytes are made. Each adds bytes or changes those before it. They are made without the crates that
//! are tested, but for what `master` and others write.
use crate::amounts::{BLOCK_BYTES, MARKED_ROW_BYTES, ROW_BYTES, amount, cases_of, is, number};
use crate::damage::damage_bytes;
use std::alloc::Global;
use std::mem::replace;

/// Does a step that runs nothing, where there is such a step, and memory. `then` is there so that texts read well, as
/// are `of`, `off` and `the`. What begins with no verb is damage, which has a colon, or an amount, as `2 blocks of 5A`.
pub fn do_step(alloc: Global, text: &str, bytes: &mut Vec<u8>) -> Option<()> {
    let text = text.strip_prefix("then ").unwrap_or(text);
    let (verb, rest) = text.split_once(' ').unwrap_or((text, ""));
    match verb {
        "nothing" => Some(()),
        "image" => add_image(rest, bytes),
        "counted" => add_counted(bytes),
        "hex" => append_bytes(bytes, &hex::decode(alloc, rest).ok()?),
        "lines" => append_bytes(bytes, cases_of(alloc, rest, "/", ['(', ')'])?.as_bytes()),
        "marked" | "listed" | "woven" => {
            let old = replace(bytes, Vec::new(alloc));
            match verb {
                "marked" => add_marked(bytes, &old),
                "listed" => add_listed(bytes, &old, rest),
                _ => add_woven(bytes, &old),
            }
        }
        "drawn" => draw_rows(rest, bytes),
        // For `assemble`: all bytes are reversed, and then those of each recording frame again. It needs no buffer.
        "reversed" => {
            bytes.reverse();
            for frame in bytes.chunks_exact_mut(BLOCK_BYTES / 16) {
                frame.reverse();
            }
            Some(())
        }
        "front" | "from" | "cut" | "repeat" => move_bytes(verb, rest, bytes),
        _ => match text.split_once(": ") {
            Some((kind, places)) => damage_bytes(kind, places, bytes),
            None => {
                let (count, value) = text.split_once(" of ")?;
                let length = bytes.len().checked_add(amount(count)?)?;
                let value = u8::from_str_radix(value, 16).ok()?;
                bytes.resize(length, value).ok()
            }
        },
    }
}

// `front` keeps so many, `cut` all but the last; `from` moves so many to the end, `repeat` adds the last once more.
// More than there are is refused here, so that no call below goes past the end.
fn move_bytes(verb: &str, text: &str, bytes: &mut Vec<u8>) -> Option<()> {
    let text = text.strip_prefix("off ").unwrap_or(text);
    let count = amount(text.strip_prefix("the last ").unwrap_or(text))?;
    let rest = bytes.len().checked_sub(count)?;
    match verb {
        "front" => bytes.truncate(count),
        "cut" => bytes.truncate(rest),
        "from" => bytes.rotate_left(count),
        _ => return bytes.extend_from_within(rest..).ok(),
    }
    Some(())
}

/// Adds these bytes, where there is memory.
pub fn append_bytes(bytes: &mut Vec<u8>, more: &[u8]) -> Option<()> {
    bytes.extend_from_slice(more).ok()
}

// A 64-bit xorshift generator, since a test needs the same bytes each time. 13, 7 and 17 are shifts by which all
// numbers but 0 come before one comes again. Digests in tests rest on them.
fn draw(drawn: &mut u64) -> u64 {
    *drawn ^= *drawn << 13;
    *drawn ^= *drawn >> 7;
    *drawn ^= *drawn << 17;
    *drawn
}

// The bytes of an image are the top eight bits of what is drawn from 8. Any start but 0 would do, and any eight bits;
// digests rest on these. `& 0xFF` shows that the number is a byte.
fn add_image(text: &str, bytes: &mut Vec<u8>) -> Option<()> {
    let mut drawn: u64 = 8;
    for _ in 0..amount(text.strip_prefix("of ")?)? {
        bytes.push((draw(&mut drawn) >> 56 & 0xFF) as u8).ok()?;
    }
    Some(())
}

// A sector of which anyone can work out the bytes. 7i alone would come again after 256 bytes, so i / 256 is added: no
// two parts of 256 bytes are alike, and one in the place of another is seen.
fn add_counted(bytes: &mut Vec<u8>) -> Option<()> {
    for i in 0..2048usize {
        bytes.push((i * 7 + i / 256 & 0xFF) as u8).ok()?;
    }
    Some(())
}

// Each row gets its marks after it, none of which is set. The text is wrong where there are other than whole blocks.
fn add_marked(marked: &mut Vec<u8>, bytes: &[u8]) -> Option<()> {
    for row in bytes.chunks_exact(ROW_BYTES) {
        append_bytes(marked, row)?;
        append_bytes(marked, &[0; MARKED_ROW_BYTES - ROW_BYTES])?;
    }
    is(bytes.len() % BLOCK_BYTES == 0)
}

// Blocks of both halves in turn, as `merge` reads two captures. What is no whole block at the end of a half is dropped.
fn add_woven(woven: &mut Vec<u8>, bytes: &[u8]) -> Option<()> {
    let (first, second) = bytes.split_at(bytes.len() / 2);
    let seconds = second.chunks_exact(208 * MARKED_ROW_BYTES);
    for (one, other) in first.chunks_exact(208 * MARKED_ROW_BYTES).zip(seconds) {
        append_bytes(woven, one)?;
        append_bytes(woven, other)?;
    }
    Some(())
}

// A row is lost with all its marks, the two spare ones too, or a byte of it is wrong. 43 of 256 are about a sixth. That
// byte is one of the first 128, which seven bits name, and 55 is any number but 0; lines of tests rest on both.
fn draw_rows(text: &str, capture: &mut [u8]) -> Option<()> {
    let mut drawn = number(text.strip_prefix("from ")?)? as u64;
    for row in capture.chunks_exact_mut(MARKED_ROW_BYTES) {
        if draw(&mut drawn) >> 56 < 43 {
            row.fill(0xFF);
        } else if let Some(byte) = row.get_mut((drawn >> 40 & 0x7F) as usize) {
            *byte ^= 0x55;
        }
    }
    Some(())
}

// The listed form of docs/FORMATS.md, of `shape 0 zones 0 sectors 17 and 0 initial 0 tail 16 runs 0:2 5:1`. Before each
// number is a word, which `nth` passes over, and each has its place in the header. All blocks have the same runs, as
// tests need no more. Numbers are written as they are named, so that a test can break a rule of the form.
fn add_listed(listed: &mut Vec<u8>, bytes: &[u8], text: &str) -> Option<()> {
    let (header, runs) = text.split_once(" runs ").unwrap_or((text, ""));
    append_bytes(listed, b"DVDECC\x00\x02")?;
    let mut words = header.split(' ');
    for (place, size) in [(8, 1), (9, 1), (12, 4), (16, 4), (20, 4), (24, 4)] {
        listed.resize(place, 0).ok()?;
        add_number(listed, words.nth(1)?, size)?;
    }
    listed.resize(32, 0).ok()?;
    let count = u16::try_from(runs.split_whitespace().count()).ok()?;
    for block in bytes.chunks_exact(BLOCK_BYTES) {
        append_bytes(listed, block)?;
        append_bytes(listed, &count.to_be_bytes())?;
        for run in runs.split_whitespace() {
            let (first, length) = run.split_once(':')?;
            add_number(listed, first, 2)?;
            add_number(listed, length, 2)?;
        }
    }
    Some(())
}

// Adds so many low bytes of a number, the highest first. One that has no room in them is refused.
fn add_number(listed: &mut Vec<u8>, text: &str, size: usize) -> Option<()> {
    let (number, size) = (number(text)? as u64, size.min(7));
    is(number >> (8 * size) == 0)?;
    append_bytes(listed, number.to_be_bytes().get(8 - size..)?)
}
