//! Whole runs of `dvdecc`, as texts: which arguments are run over which bytes, and what must come. The library
//! dvd_trial reads a text while its test runs. What must come was computed by other programs, follows from the
//! standard, or is what other runs leave. Bytes are hexadecimal; arguments and reports are as `dvdecc` has them.
//!
//! # Lines
//!
//! A text is read from the top. `\` joins lines, and what follows `#` is a comment. Arguments, bytes at hand, case and
//! output stay for the lines below, over empty ones too, as long as is said here. An arrow may follow in any line.
//!
//! ```text
//! run: A over S         the arguments are A, and the steps S make the bytes at hand; without `over` these and the case
//!                       stay. `run: A or B over S`: each of them is run over S. At an arrow each leaves what is said,
//!                       and none differs in a byte of output or report
//! given: S              other bytes at hand. `also: S` changes the bytes at hand by more steps
//! case: S               runs are over a copy of the bytes at hand with the steps S done on it: until another `case`,
//!                       or until `given`, `also` or the `over` of a `run`
//! output: S             all that runs have to write: until another is said, or until `given` or the `over` of a `run`
//! -> Short, 2 blocks: X the arguments are run, and leave this status, just so many bytes, the first ones of the output
//!                       (any, if none is said), and the report X, lines parted by `/`. By Usage and Setting nothing is
//!                       read
//! -> Damaged: X with S  S is the output, and stays like `output: S`. Without an amount all of it comes, and has to be
//!                       said, here or before. Without `: X` the report is the line `done`. `: a/bloc..` is all of a
//!                       report that stops after `bloc`, `: a/..` after the line a, and `: ..` is an empty one
//! -> Done: X; at 1 block: AC; digest: .. with S
//!                       besides, from there on these bytes are in what was written, and this is the SHA-256 of it.
//!                       `last line: T`: it ends with the line T; `read: 2 blocks`: just so much of the input was read
//! => ..                 as `->`, and four times more: by at most 1, 7, 2047 and 40,000 bytes a call of any stream
//! writes: 9 bytes a call, call 2 fails -> ..
//!                       by at most 9 bytes a call of any stream; and of the writes the third fails, if there is one,
//!                       for they are counted from 0. `reads` are of the input, `writes` of the output, `reports` of
//!                       the report. Without `call 2 fails` none does
//! all fail in turn: 9 reads of 5000 bytes, 4 writes of 50 bytes
//!                       by at most 5000 bytes a call of any stream the arguments above (with `or` all) make just nine
//!                       reads. They (those before the first `or`) are run nine times, and each time another read
//!                       fails: the status is ReadFault, and there is just what a run over the bytes read by then
//!                       leaves, but `read fault` for the report's last line. Likewise just four writes of at most 50
//!                       bytes: WriteFault, what came before, which is how output and report begin where none fails,
//!                       and the line `write fault`. `reports`: ReportFault, what came before, no line more
//! each call stops it: 7 calls of 9 bytes
//!                       by at most 9 bytes a call, for each of the first seven calls of each kind (reads, writes,
//!                       flushes of the output, reports, flushes of the report): each of the arguments is run, and this
//!                       call fails. After it no stream is called but the report, for at most one line and its flushes;
//!                       after a failed report or flush of it none at all. The status may be any; but a run that never
//!                       makes this call is Done, or has read to the end of its input. All this over the input, and
//!                       over the input without its last byte, if it has one
//! pieces begin: 3 pieces, 2 times each
//!                       each pass over a block is shared out among workers, a piece for each. The arguments are run
//!                       and Done, and pieces 0, 1 and 2 are begun twice each, and no other. `pieces begin together`:
//!                       each time pieces 0 and 1 go on only when both are begun, which must not take long
//! same result: A = B over S
//!                       the arguments are A, and over the case, or else the bytes at hand, they leave the status,
//!                       output and report that arguments B leave over the bytes of S, which don't come to hand
//! {a, b}, {0 to 3}      the line is done with each value, in order: what `also` changes adds up. A value may be empty.
//!                       `0 to 9 step 3` is a list alone, but beside commas text. Lists of a line have one length and
//!                       go in step, first with first
//! [a, b]                likewise all lines from an empty one to the next (a comment isn't), with their lists in step:
//!                       all with a, then all with b
//! (a, b), (0 to 3)      in a report and in `lines`: a line for each, in step, after `{}`
//! name: N = T           <N> stands for T in the whole text; lists in T count there, and not here
//! ```
//!
//! # Steps
//!
//! They have ` | ` between them and are done from left to right: from the bytes at hand on in `case` and `also`, else
//! from none on. Each adds bytes to those before it, or changes them. `then` is there for the reader alone.
//!
//! ```text
//! image of 17 sectors   drawn bytes, always the same: a smaller image is the beginning of a larger one
//! 2 blocks of 5A        bytes of this value. `hex 49F1`: these bytes; `nothing`: none
//! lines a/b             lines of text, each with its end. `counted sector`: byte i of 2,048 is (7i + [i / 256]) mod
//!                       256
//! given                 the bytes at hand at this place, as after the `over` of a `run` in its line, without the case
//! A makes 2 blocks      in place of the bytes before, what a run of A over them writes: Done, and just so much
//! recorded              likewise of `master --sectors N`, N being all there are: zeros fill up the last block
//! marked                a plain capture becomes a marked one: 23 bytes of marks after each row, none of them set
//! listed shape 0 zones 0 sectors 17 and 0 initial 0 tail 16 runs 0:2 5:1
//!                       a plain capture becomes a listed one: a header of 32 bytes with these numbers (shape 0 is one
//!                       layer, 1 parallel, 2 opposite; zones 1 are all; sectors of the first and the second layer).
//!                       After it comes each block with, at its end, how many runs of marks it has, and the runs, the
//!                       same in each: here two of its bytes from 0 on, and byte 5, in the order of recording. Without
//!                       `runs` there are none
//! front 1 block         the first one alone. `cut off 1 byte`: all but the last. `from 2 blocks`: the first two move
//!                       to the end. `repeat the last 1 frame`: this comes once more
//! reversed frames       frames in reverse order. `woven`: marked blocks of the first half and of the second in turn
//! drawn from 2          each row of a marked capture, as dvd_trial draws by this seed: about a sixth have FF in all
//!                       bytes and marks, and of any other row one byte is wrong by 55
//! wrong by 55: P        exclusive or with 55 at the places P. `set as 55: P`: it is 55, and by `zero: P` 00
//! lost: P               of a marked capture: 00 and a mark. `doubtful by 55: P`: exclusive or with 55, and a mark.
//!                       `known as 55: P`: 55, and the mark is gone
//! ```
//!
//! Places are `block 1, rows 0 to 6 step 3, bytes 0 to 4 shifted 9; row 192`: of block 1 bytes 0 to 4 of row 0, 9 to 13
//! of row 3, and 18 to 22 of row 6 (of several blocks, in each anew), with byte 0 after byte 181; besides row 192 of
//! all blocks. What isn't named is all, of a row its bytes 0 to 181. Rows 0 to 191 are those of data and 192 to 207
//! those of outer parity, wherever they are recorded: row 192 + f is recorded after rows 12f to 12f + 11. Bytes 182 and
//! 183 are the two bits of a row's marks that are spare. `sector 1, byte 0` is of a sector of 2,048 bytes, `cdsector`
//! 2,352; `place 9` is the tenth of all bytes. Rows of bytes that aren't whole rows fail. As amounts, which `and`
//! joins, a row has 182 bytes, a sector 2,048, a frame (of a recording) 2,366, a block 37,856, a marked block 42,640.
use dvd_trial::{Held, fails, hold};

// Recordings of the Data Zone, and of disks of every shape with all of their zones, which are read back; and the
// physical format that `info` finds in them, and what it answers where there is none.
const DISKS: &str = "
# The image has a byte too many. No call moves more than 1000 bytes.
run: master --sectors 17 over image of 18 sectors | front 17 sectors and 1 byte
writes: 1000 bytes a call -> Long: long with image of 17 sectors | recorded
# Arguments whose layout breaks a rule: layer 0 has a sector, begins at 030000, has whole blocks and without `--tail`
# 256 sectors more, and ends at 800000, which is 8388608, or before. The line says the end of one that is too long.
run: master --sectors 0 or recover --sectors 0 -> Setting, 0 bytes: setting: empty layer 0
run: master --sectors {8191745, 4294967295}    -> Setting, 0 bytes: setting: layer 0 too long {8388624, 4295164160}

# What the options change, by bytes of blocks: over sectors of zeros.
given: 16 sectors of 00
run: master --sectors 16                                  -> Done, 1 block; at 0 blocks: 000300001112000000000000
run: master --sectors=16 --cpr 0102030405ab --workers 16  -> Done, 1 block; at 0 blocks: 0003000011120102030405AB
run: master --sectors 0016 --zones all  -> Done, 273 blocks; at 0 blocks: 0402F000887E000000000000ADAC8EA8
run: master --zones all --tail 0 --sectors 16             -> Done, 257 blocks; at 1 block and 12 bytes: ACA6AD
run: master --sectors 16 --zones all --initial 1 --tail 2 -> Done, 260 blocks; at 0 blocks: 0402EFF0
given: 48 sectors of 00
run: master --sectors 32 --sectors1 16 --shape opposite --zones all  -> Done, 307 blocks; at 274 blocks: 2DFCFEE0
run: master --shape parallel --sectors 32 --sectors1 16 --zones data -> Done, 3 blocks; at 2 blocks: 21030000

# Disks of each of the three shapes with all of their zones. They are read back with zeros in place of block 0, which is
# of the lead-in.
name: cpr = --cpr 0102030405ab
name: disk = --sectors [17, 32 --sectors1 17 --shape parallel, 32 --sectors1 17 --shape opposite] --zones all
run: master <disk> <cpr> over image of [17, 49, 49] sectors
-> Done, [274, 548, 308] blocks; digest: [7593F9F751D356A4637B1F3978F30B3B2C1A032425C67A83C2F05326EB5814CF, \
37269FF702DAA0B389B395F412845BAE2DC17AE6131FADA2A8E351288B274F9B, \
BA11D727460299542C3AE8D2D20102B531219B512EF18603C3575D84F9277539]
run: recover <disk>
case: master <disk> <cpr> makes [274, 548, 308] blocks | zero: block 0 -> Done with image of [17, 49, 49] sectors

# On the opposite track path, the blocks at which zones begin, and the first sixteen bytes of each.
run: master --sectors 32 --sectors1 17 --shape opposite --zones all <cpr> over image of 49 sectors
-> Done, 308 blocks; at 0 blocks: 2402F0004F99000000000000ADAC8EA8; \
at 2 blocks: 2402F0202FD900000000000002004408; at 32 blocks: 2402F200419500000000000000021314; \
at 224 blocks: 2402FE0065BD00000000000001002204; at 256 blocks: 20030000D6F50102030405AB0180FAEA; \
at 258 blocks: 2C030020323D00000000000002004408; at 274 blocks: 2DFCFEE0DC1300000000000080110202; \
at 290 blocks: 21FCFFE05F9D0102030405ABE6DD909D; at 292 blocks: 29FD0000528600000000000001002204

# A disk of one layer with all of its zones. The format is in 192 control blocks, from block 32 on, and nothing is read
# after the one that gives it: 33 blocks, each of eight calls of at most 5000 bytes.
name: no control = NoControl, 0 bytes: no control block
run: info over image of 16 sectors | master --sectors 16 --zones all makes 273 blocks
=> Done; read: 33 blocks with lines \
version 1/rate 2/layers 1/path parallel/kind 1/density 0/pitch 0/first 030000/last 03000F/layer0 000000/bca 0
all fail in turn: 264 reads of 5000 bytes, 3 writes of 50 bytes, 3 reports of 2 bytes
each call stops it: 4 calls of 37856 bytes
# One control block after the other is destroyed: up to the last but one, and then the last too.
also: zero: block {32 to 222}     -> Done
also: zero: block 223             -> <no control>; read: 224 blocks

# A disk of two layers of each shape. Of layer 0's 192 control blocks the first is destroyed, all but the last, or all.
given: image of 37 sectors | master --sectors 32 --sectors1 5 --shape [parallel, opposite] --zones all \
--initial [2, 300] --tail [0, 1] makes [519, 562] blocks
run: info [--initial 2, --form plain --initial=300] -> Done with lines version 1/rate 2/layers 2/\
path [parallel, opposite]/kind 1/density 1/pitch 0/first 030000/last [03001F, FCFFEF]/layer0 [000000, 03001F]/bca 0
case: zero: block [34, 332]                 -> Done
case: zero: blocks [34 to 224, 332 to 522]  -> Done; read: [226, 524] blocks
case: zero: blocks [34 to 225, 332 to 523]  -> <no control>

# Streams without a control block: no block, with the longest Initial Zone; zeros up to the last one; a byte less.
run: info --initial 12031 over nothing   -> Short, 0 bytes: short: block 0, 0 bytes
run: info
case: 224 blocks of 00                   -> <no control>
case: 224 blocks of 00 | cut off 1 byte  -> Short, 0 bytes: short: block 223, 37855 bytes
run: info --form marked
case: 1 marked block and 5 bytes of 00   -> Short, 0 bytes: short: block 1, 5 bytes
# An Initial Zone that is too long: the line says how long.
run: info --initial {12032, 4294967295} over 1 block of 00 \
-> Setting, 0 bytes: setting: initial too long {12032, 4294967295}
";

#[test]
fn disks_are_recorded_read_back_and_described(rt: HostRuntime) -> Held {
    hold(&rt, DISKS)
}

// Streams that are cut off, followed by more, full of marks or of another place, and damaged blocks: all comes back
// that two passes correct. A block that is refused is named with its failed `rows`, and those frames are `saved` whose
// rows of data are all read, but none of another place. `deep` gives some of these back by at most four rounds.
const STREAMS: &str = "
run: recover --sectors 32 over image of 32 sectors | recorded
output: image of 32 sectors
case: front {0, 1, 37855} bytes          -> Short, 0 sectors: short: block 0, {0, 1, 37855} bytes
case: front {37856, 37857, 75711} bytes  -> Short, 16 sectors: short: block 1, {0, 1, 37855} bytes
# Of what is too much one byte is read.
case: then {1 byte, 9 bytes} of 55       -> Long: long; read: 2 blocks and 1 byte

# Every byte is FF, and has a mark.
name: refused = Damaged: block 0 sector 030000 layer 0:
run: recover --sectors 16 --form marked over 1 marked block of FF
-> <refused> rows 208 saved 0/damaged: 1 blocks with 16 sectors of 00
# A block of the second buffer zone in the place of the first data block.
given: image of 16 sectors | master --sectors 16 --zones all makes 273 blocks | from 224 blocks | front 1 block
run: recover --sectors 16 -> <refused> address 0 found 0402FE00 saved 0/damaged: 1 blocks with 16 sectors of 00

# Two more ways to write sixteen, over a whole block and over nothing.
run: recover --sectors=16 or recover --sectors 0016 over image of 16 sectors | recorded -> Done with image of 16 sectors
case: front 0 bytes -> Short, 0 sectors: short: block 0, 0 bytes
# The first of two layers, read as a disk of one: the bit of the number of layers plays no part.
run: recover --sectors 16 \
over image of 32 sectors | master --sectors 16 --sectors1 16 --shape opposite makes 2 blocks | front 1 block \
-> Done with image of 16 sectors

# Each row of two blocks is damaged as far as its own parity corrects: in rows 0, 2 and so on five bytes are wrong, 37
# apart, and one place further in each of these rows; in rows 1, 3 and so on bytes 0 to 9 are lost.
name: damage = wrong by 55: rows 0 to 206 step 2, bytes 0 to 148 step 37 shifted 1 | marked | \
lost: rows 1 to 207 step 2, bytes 0 to 9
run: recover --sectors 17 --form marked over image of 17 sectors | recorded | <damage> -> Done with image of 17 sectors
# Besides, sixteen rows of each block are lost, and the two spare bits of the marks of each row are set.
case: lost: rows 0 to 14; row 192 | doubtful by 00: rows 0 to 207, bytes 182 to 183 -> Done
# Rows 0 to 15, and the first row of outer parity: of each block sectors 0 and 1 are lost, of which the image has three.
output: image of 17 sectors | zero: sectors 0 to 1; sector 16
case: lost: rows 0 to 15; row 192 | doubtful by 00: rows 0 to 207, bytes 182 to 183 -> Damaged: \
block (0, 1) sector 0300(0, 1)0 layer 0: rows 17 saved 14/damaged: 2 blocks
# Rows 0 to 16 of one block.
run: recover --sectors 16 --form marked over image of 16 sectors | recorded | <damage>
output: image of 16 sectors | zero: sectors 0 to 1
case: lost: rows 0 to 16 -> <refused> rows 17 saved 14/damaged: 1 blocks
# A row of each frame, and another of the last.
case: lost: rows 0 to 180 step 12; row 181 -> <refused> rows 17 saved 0/damaged: 1 blocks with 16 sectors of 00
# All sixteen rows of outer parity, and the last row of data. The block has three sectors of the image, and of the other
# thirteen all but the last are saved too.
run: recover --sectors 3 --form marked over image of 3 sectors | recorded | <damage>
case: lost: rows 191 to 207 -> <refused> rows 17 saved 15/damaged: 1 blocks with image of 3 sectors

# Five bytes are wrong in each of twenty rows. A block that two passes give back, over rows and columns, has no line.
name: places = rows 100 to 107, bytes 0 to 148 step 37 shifted 1; row 200, bytes 8 to 156 step 37; \
rows 108 to 118, bytes 9 to 157 step 37 shifted 1
run: deep --sectors 16 over image of 16 sectors | recorded | wrong by 55: <places> -> Done with image of 16 sectors

# Once with wrong bytes at these places and under the marks, and once with all bytes right. The marks are on eleven
# bytes side by side in each of rows 0 to 19, nine places further in each row.
name: given back = Done: block 0 sector 030000 layer 0:
run: deep --sectors 16 --form marked over image of 16 sectors | recorded | wrong by [55, 00]: <places> | marked
case: doubtful by [5A, 00]: rows 0 to 19, bytes 0 to 10 shifted 9 -> <given back> round 1/done with image of 16 sectors
# The marks are on the first byte of each of these rows, and on ten side by side.
case: doubtful by [5A, 00]: rows 0 to 19, byte 0; rows 0 to 19, bytes 1 to 10 shifted 9 -> <given back> round 2/done
# All bytes of rows 0 to 16, which no round gives back.
run: deep --sectors 16 --form marked or recover --sectors 16 --form marked
output: image of 16 sectors | zero: sectors 0 to 1
case: doubtful by [5A, 00]: rows 0 to 16 -> <refused> rows 17 saved 14/damaged: 1 blocks
# The first case again, which round 1 gave back: what the two passes alone leave of it.
run: recover --sectors 16 --form marked
case: doubtful by [5A, 00]: rows 0 to 19, bytes 0 to 10 shifted 9
-> <refused> rows 20 saved 14/damaged: 1 blocks with image of 16 sectors | zero: sectors 0 to 1

# Chains of seventeen rows; each chain needs the one before. Wrong and marked are ten bytes of each row, the same in all
# of its chain, and one byte more: one of those of the chain before, or 40 or 41 in the first chain.
given: image of 16 sectors | recorded | wrong by 55: <places> | marked | \
doubtful by 5A: rows 0 to 16, bytes 0 to 9; rows 0 to 16 step 2, byte 40; rows 1 to 15 step 2, byte 41; \
rows 17 to 33, bytes 10 to 19; rows 17 to 26, byte 0 shifted 1; rows 27 to 33, byte 0 shifted 1
run: deep --sectors 16 --form marked -> <given back> round 3/done with image of 16 sectors
also: doubtful by 5A: rows 34 to 50, bytes 20 to 29; rows 34 to 43, byte 10 shifted 1; rows 44 to 50, byte 10 shifted 1
-> <given back> round 4/done
# The fifth round would give it back. What the two passes leave comes.
also: doubtful by 5A: rows 51 to 67, bytes 30 to 39; rows 51 to 60, byte 20 shifted 1; rows 61 to 67, byte 20 shifted 1
-> <refused> rows 68 saved 10/damaged: 1 blocks with image of 16 sectors | zero: sectors 0 to 5
";

#[test]
fn what_can_be_read_of_a_stream_comes_back(rt: HostRuntime) -> Held {
    hold(&rt, STREAMS)
}

// Surveys of streams: the lines of blocks and of totals, for both forms, damage that comes and goes, and streams that
// aren't whole. `pi` counts the rows of a block with an error, `failed` those that are uncorrectable, and `sum8` the
// `pi` of a block and of the seven before it; `peak` is the largest of these sums, first
// `at` this block, and `over` how many are above 280; `damaged` counts blocks that aren't whole.
const SURVEYS: &str = "
run: survey --sectors 16 over image of 16 sectors | recorded
=> Done with lines block 0 sector 030000 layer 0 pi 0 failed 0 sum8 0: whole/\
blocks 1 pi 0 failed 0 damaged 0 peak 0 at 0 over 0
all fail in turn: 9 reads of 5000 bytes, 4 writes of 50 bytes, 3 reports of 2 bytes
# The stream has a block too few, or a plain block where a marked one is wanted.
run: survey --sectors 17                -> Short, 58 bytes: short: block 1, 0 bytes
run: survey --sectors 16 --form marked  -> Short, 0 bytes: short: block 0, 37856 bytes

# Zeros, which have no errors and no address.
run: survey --sectors 16 over 1 block of 00
output: lines block 0 sector 030000 layer 0 pi 0 failed 0 sum8 0: address 0 found 00000000/\
blocks 1 pi 0 failed 0 damaged 1 peak 0 at 0 over 0
                         -> Damaged: damaged: 1 blocks
case: then 1 byte of 00  -> Long: long

# A row with a mark has an error: 141 rows of each block, and then 140.
run: survey --sectors 32 --form marked over image of 32 sectors | recorded | marked
case: doubtful by 00: rows 0 to {140, 139}, byte 0 -> Done with lines \
block (0, 1) sector 0300(0, 1)0 layer 0 pi {141, 140} failed 0 sum8 ({141, 140}, {282, 280}): whole/\
blocks 2 pi {282, 280} failed 0 damaged 0 peak {282, 280} at 1 over {1, 0}

# A burst over three blocks, of which 90, 208 and 45 rows have a wrong byte, each one place further than in the row
# before. `sum8` shows it for seven blocks more.
given: image of 192 sectors | recorded | wrong by FF: block 2, rows 0 to 89, byte 0 shifted 1; \
block 3, rows 0 to 207, byte 0 shifted 1; block 4, rows 0 to 44, byte 0 shifted 1
run: survey --sectors 192
-> Done with lines block (0 to 11) sector 0300(0, 1, 2, 3, 4, 5, 6, 7, 8, 9, A, B)0 layer 0 \
pi (0, 0, 90, 208, 45, 0, 0, 0, 0, 0, 0, 0) failed 0 \
sum8 (0, 0, 90, 298, 343, 343, 343, 343, 343, 343, 253, 45): whole/\
blocks 12 pi 343 failed 0 damaged 0 peak 343 at 4 over 7

# The totals of a disk of two layers with every zone.
name: disk = --sectors 16 --sectors1 5 --shape opposite --zones all --tail 1
run: survey <disk> over image of 21 sectors | master <disk> makes 261 blocks
-> Done, 15604 bytes; last line: blocks 261 pi 0 failed 0 damaged 0 peak 0 at 0 over 0

# A disk of 528 blocks as a rescuer meets it: a burst over forty blocks, of each of which twelve rows are lost, and
# wrong bytes in every eighth row of all others, which nothing marks. The SHA-256 is of the lines, which another program
# wrote from the numbers of the rows that were damaged. The peak is 26 wrong rows in each of eight blocks.
name: options = --sectors 4096 --zones all --form marked
given: image of 4096 sectors | master --sectors 4096 --zones all makes 528 blocks | \
wrong by FF: blocks 0 to 299, rows 0 to 200 step 8, bytes 0 to 2; \
blocks 340 to 527, rows 0 to 200 step 8, bytes 0 to 2 | marked | lost: blocks 300 to 339, rows 0 to 11
run: survey <options> or survey <options> --workers 8
-> Done, 33220 bytes; digest: 21FC8EF85675D34802E960E8B3CAA70E8B715DCED28C83B94AEDEEB6A4623CEF; \
last line: blocks 528 pi 13168 failed 480 damaged 0 peak 208 at 7 over 0
# All of it is read back.
run: recover <options> or recover <options> --workers 8 -> Done with image of 4096 sectors
";

#[test]
fn lines_say_what_is_in_a_stream(rt: HostRuntime) -> Held {
    hold(&rt, SURVEYS)
}

// Captures put together: scattered recording frames put in order, whatever their order, with repeats, gaps and strays;
// and captures of one disk joined, where what one has lost another gives, and where two differ neither is believed.
const CAPTURES: &str = "
# Two blocks whose frames come in reverse order, and the last of these once more: what was mastered, without a mark.
run: assemble --sectors 17 --frames 33 over image of 17 sectors | recorded | reversed frames | repeat the last 1 frame
-> Done: placed 33 strays 0/done with image of 17 sectors | recorded | marked
# It is read back.
run: recover --sectors 17 --form marked
case: assemble --sectors 17 --frames 33 makes 2 marked blocks -> Done with image of 17 sectors

# A block of each of two layers: their frames come in reverse order, after a frame of zeros.
name: layers = --sectors 16 --sectors1 16 --shape opposite
given: image of 32 sectors | master <layers> makes 2 blocks | reversed frames | then 1 frame of 00 | from 2 blocks
run: assemble <layers> --frames 33
-> Done: placed 32 strays 1/done with image of 32 sectors | master <layers> makes 2 blocks | marked
run: recover <layers> --form marked
case: assemble <layers> --frames 33 makes 2 marked blocks -> Done with image of 32 sectors

# A frame of zeros is a stray: of the block nothing is known.
run: assemble --sectors 16 --frames 1 over 1 frame of 00
-> Done: placed 0 strays 1/done with 1 block of 00 | marked | lost: block 0
case: then 1 byte of 00  -> Long: placed 0 strays 1/long
case: cut off 1 byte     -> Short, 0 bytes: short: frame 0, 2365 bytes
# In the marked form a frame has 2665 bytes.
run: assemble --sectors 16 --frames 1 --form marked over 2665 bytes of 00
-> Done: placed 0 strays 1/done with 1 block of 00 | marked | lost: block 0

# Two captures of a block of zeros. One of them has 01 at byte 0, and the other has lost this byte.
run: merge --sectors 16 --captures 2 --form marked over 2 blocks of 00 | marked
output: 1 block of 00 | marked | known as 01: row 0, byte 0
case: known as 01: block {0, 1}, row 0, byte 0 | lost: block {1, 0}, row 0, byte 0  -> Done
# One has 01 there, and the other 00: neither is believed. One has lost it, and the other has 00.
case: known as 01: block {0, 1}, row 0, byte 0  -> Done with 1 block of 00 | marked | lost: row 0, byte 0
case: lost: block 0, row 0, byte 0              -> Done with 1 block of 00 | marked

# Sixteen captures of one block. Of capture c, from 0 to 15, all is lost but byte 11c of row 12c of the block, which is
# c + 1. First the output is made, where all these bytes are known, and then the captures. In these the two spare bits
# of the marks of each row are set too, and come out clear.
name: bytes = known as {01, 02, 03, 04, 05, 06, 07, 08, 09, 0A, 0B, 0C, 0D, 0E, 0F, 10}:
given: 1 block of 00 | marked | lost: block 0
also: <bytes> row {0 to 180 step 12}, byte {0 to 165 step 11}
output: given
also: front 0 bytes | 16 blocks of 00 | marked | lost: blocks 0 to 15
also: <bytes> block {0 to 15}, row {0 to 180 step 12}, byte {0 to 165 step 11}
also: doubtful by 00: rows 0 to 207, bytes 182 to 183
# The block comes; and for a disk of two blocks sixteen captures of the second one are wanted too.
run: merge --sectors 17 --captures 16 --form marked -> Short: short: block 1, 0 bytes
run: merge --sectors 16 --captures 16 --form marked -> Done
# The last capture lacks a byte. All sixteen are wanted, of 42640 bytes each, and the bytes of all of them are counted.
case: cut off 1 byte                                -> Short, 0 bytes: short: block 0, 682239 bytes

# Two captures of a recording of sixteen blocks, one after the other. About a sixth of the rows are FF and have marks,
# and any other row has a wrong byte, without a mark. Of each capture alone no block is whole. The lines were computed
# by another program, which draws the same: `rows` counts failed rows, and `saved` sectors that come back; of the output
# only the amount is compared. What is joined of both is whole.
name: line = block (0 to 15) sector 0300(0, 1, 2, 3, 4, 5, 6, 7, 8, 9, A, B, C, D, E, F)0 layer 0:
given: image of 256 sectors | recorded | repeat the last 16 blocks | marked | drawn from 2
run: recover --sectors 256 --form marked
case: front 16 marked blocks -> Damaged, 256 sectors: \
<line> rows (33, 41, 26, 29, 28, 38, 45, 30, 35, 29, 34, 50, 37, 35, 32, 39) \
saved (1, 0, 4, 2, 4, 1, 1, 1, 1, 4, 1, 1, 5, 2, 3, 0)/damaged: 16 blocks
case: from 16 marked blocks | front 16 marked blocks -> Damaged, 256 sectors: \
<line> rows (38, 32, 38, 36, 33, 38, 34, 31, 49, 32, 29, 33, 33, 34, 34, 34) \
saved (2, 2, 1, 1, 2, 2, 0, 2, 1, 2, 4, 0, 1, 1, 2, 3)/damaged: 16 blocks
case: woven | merge --sectors 256 --captures 2 --form marked makes 16 marked blocks -> Done with image of 256 sectors
";

#[test]
fn frames_and_captures_are_put_together(rt: HostRuntime) -> Held {
    hold(&rt, CAPTURES)
}

// Captures that state their layout: they are read as the plain and the marked captures of the same blocks, which are
// converted to them. One that breaks a rule, or ends where it should not, is refused by its own line.
const LISTED: &str = "
# Marks of each block: two in row 0; all of the rows that are recorded as 3 to 14; from byte 1 of one row into the next;
# and the last. The runs are the same places, in the order of recording. Without `--tail` the tail is 16.
name: marks = marked | doubtful by 00: row 0, bytes 0 to 1; rows 3 to 13; row 192; row 14, bytes 1 to 181; \
row 15, bytes 0 to 118; row 207, byte 181
name: runs = runs 0:2 546:2184 2731:300 37855:1

# Of two blocks the first byte is wrong, or every 300th, 31st or 7th. Three commands leave the same of their plain and
# of their listed capture; and, with marks, of their marked and of their listed one.
name: header = listed shape 0 zones 0 sectors 17 and 0 initial 0 tail 16
name: each = {recover, survey, deep}
given: image of 17 sectors | recorded | \
wrong by 55: places [0, 0 to 75711 step 300, 0 to 75711 step 31, 0 to 75711 step 7]
same result: <each> --sectors 17 = <each> --form listed over given | <header>
case: <marks>
same result: <each> --sectors 17 --form marked = <each> --form listed over given | <header> <runs>

# The blocks of a disk with every zone and one block of the Initial Zone: up to the first control block, up to the one
# before it, one, and none. In the marked form no mark is set, and then the same marks as above in each block.
name: whole header = listed shape 0 zones 1 sectors 16 and 0 initial 1 tail 16
name: marked ones = {info, recover --sectors 16 --zones all} --initial 1 --form marked
name: listed ones = {info, recover} --form listed
given: image of 16 sectors | master --sectors 16 --zones all --initial 1 makes 274 blocks | \
front [34 blocks, 33 blocks, 1 block, 0 blocks]
case: marked
same result: <marked ones> = <listed ones> over given | <whole header>
case: <marks>
same result: <marked ones> = <listed ones> over given | <whole header> <runs>

# A disk of each shape. Its listed capture is surveyed as its plain one, and is read as its image.
name: layout = [--sectors 18, --sectors 16 --sectors1 17 --shape parallel --tail 0, \
--sectors 32 --sectors1 17 --shape opposite --initial 12031]
name: its header = listed shape [0, 1, 2] zones 0 sectors [18 and 0, 16 and 17, 32 and 17] initial [0, 0, 12031] \
tail [16, 0, 16]
given: image of [18, 33, 49] sectors | master <layout> makes [2, 3, 4] blocks
same result: survey <layout> = survey --form listed over given | <its header>
run: recover --form listed or deep --form listed
case: <its header> -> Done with image of [18, 33, 49] sectors
# Every 31st byte of its blocks is wrong, and the marks are those above: it is converted, and then read the same.
also: wrong by 55: places 0 to [75711, 113567, 151423] step 31
run: convert --form marked <layout>
case: <marks> -> Done with given | <its header> <runs>
same result: recover --form marked <layout> = recover --form listed over given | <its header> <runs>

# A block without marks: how its listed capture begins, and how it ends; and the same, of which all places are marked.
name: one layer = listed shape 0 zones 0 sectors 16 and 0 initial 0 tail 16
run: convert --sectors 16 over image of 16 sectors | recorded -> Done; at 37888 bytes: 0000; \
at 0 bytes: 4456444543430002000000000000001000000000000000000000001000000000 with given | <one layer>
run: convert --sectors 16 --form marked
case: marked | doubtful by 00: block 0 -> Done; at 37888 bytes: 0001000093E0 with given | <one layer> runs 0:37856

# Streams that aren't whole. The header is written before anything is read.
run: convert --sectors 17 over image of 17 sectors | recorded
case: then 1 byte of 00                   -> Long: long with given | <header>
case: front 0 bytes                       -> Short, 32 bytes: short: block 0, 0 bytes
case: cut off 1 byte                      -> Short, 37890 bytes: short: block 1, 37855 bytes
# Of the last of these the first read fails, or the first write.
reads: 40000 bytes a call, call 0 fails   -> ReadFault, 32 bytes: read fault
writes: 40000 bytes a call, call 0 fails  -> WriteFault, 0 bytes: write fault

# One byte of a header is changed, and after the header comes a block or nothing. The line names the byte, or the
# first byte of the number that it is part of.
name: bad header = BadHeader, 0 bytes: bad header: byte
run: recover --form listed or survey --form listed or deep --form listed or info --form listed
given: [image of 16 sectors | recorded, nothing] | <one layer>
case: set as {45, 44, 03, 03, 02, 01, FF, 01, 00}: place {0, 5, 7, 8, 9, 10, 11, 12, 15} \
-> <bad header> {0, 5, 7, 8, 9, 10, 11, 12, 12}; read: 32 bytes
case: set as {01, 01, 2F, 80, 31, 01, 01, 01, 80}: place {19, 21, 22, 24, 26, 28, 29, 30, 31} \
-> <bad header> {16, 20, 20, 24, 24, 28, 29, 30, 31}; read: 32 bytes

# The input ends after the header, or within its 32 bytes: the same four commands.
given: nothing | <one layer> -> Short, 0 bytes: short: block 0, 0 bytes
case: front {31, 7, 0} bytes  -> Short, 0 bytes: short: header, {31, 7, 0} bytes
# The header states a layout that breaks a rule: of two layers, the second has no sectors, or the first no multiple of
# 16; on the opposite track path, shape 2, the second has more blocks; the tail, the first or the second is too long.
given: nothing
case: listed shape 1 zones 0 sectors {16, 17} and {0, 1} initial 0 tail 16  -> <bad header> {16, 12}
case: listed shape 2 zones 1 sectors 16 and 17 initial 0 tail 16            -> <bad header> 16
case: listed shape 0 zones 0 sectors 16 and 0 initial 0 tail 12289          -> <bad header> 24
case: listed shape 0 zones 0 sectors 8192000 and 0 initial 0 tail 16        -> <bad header> 12
case: listed shape 1 zones 0 sectors 16 and 8192000 initial 0 tail 16       -> <bad header> 16

# The runs of a block break a rule, for the same four: one touches the run before it, begins behind the block, is empty,
# ends behind the block, or comes before the run before it. In the block, the number of runs is at byte 37856, and from
# 37858 on each run has two bytes for its first place and two for its length.
name: bad marks = BadMarks, 0 bytes: bad marks: block 0, byte
given: image of 16 sectors | recorded
case: <one layer> runs {0:5 5:1, 0:5 6:1 7:1, 37856:1, 65535:65535, 0:0, 37855:2, 1:37856, 9:1 3:1} \
-> <bad marks> {37862, 37866, 37858, 37858, 37860, 37860, 37860, 37862}
# The number of runs, after which the input ends: one more than a block can have, and as many as it can.
also: <one layer> | cut off 2 bytes
case: hex 49F1  -> <bad marks> 37856
case: hex 49F0  -> Short, 0 bytes: short: block 0, 37858 bytes

# The end of a listed capture of two blocks: a byte too many, no length of the last run, and one that breaks a rule.
run: recover --form listed over image of 17 sectors | recorded | <header> runs 182:3
case: then 1 byte of 00                     -> Long: long with image of 17 sectors
case: cut off 2 bytes                       -> Short, 16 sectors: short: block 1, 37860 bytes
case: cut off 2 bytes | then 2 bytes of 00  -> BadMarks, 16 sectors: bad marks: block 1, byte 37860
";

#[test]
fn captures_are_converted_read_the_same_and_refused(rt: HostRuntime) -> Held {
    hold(&rt, LISTED)
}

// Runs over a few sectors or none: frames, CD-ROM sectors, the largest disks and invalid arguments.
const ENDS: &str = "
# The first sector after the pause of two seconds, of zeros and of counted bytes: how it begins; and its EDC and
# parities. It is what the sector library of the program wodim makes (libedc of cdrkit 1.1.11), and a program that was
# made from the standard alone.
run: cdmake --address 150 --sectors 1 over 1 sector of 00 -> Done, 2352 bytes; \
at 0 bytes: 00FFFFFFFFFFFFFFFFFFFF0000020001; digest: B4F18AB66709C9B3FDEF2721CC323E031B6728F3CA6C57B7C435C96189222250
given: counted sector -> Done, 2352 bytes; at 2064 bytes: A2CA36EC; at 2076 bytes: D224CD3B; at 2248 bytes: 59717CF6; \
digest: 535D2B4AE3C6B5DCF3BE1B3145BDBE0C678083982DFBC781C55BA14729896B47

# Data frames, of 2064 bytes, of sectors of zeros.
run: frames --first 030000 --sectors 1 over nothing
case: 2048 bytes of 00       => Done, 2064 bytes; at 0 bytes: 00030000111200000000000001002204; at 2060 bytes: 02AEBAF1
case: {0, 2047} bytes of 00  => Short, 0 bytes: short: sector 0, {0, 2047} bytes
case: 2049 bytes of 00       => Long, 2064 bytes: long; at 0 bytes: 00030000
run: frames --first 030000 --sectors 3 => Short, 2064 bytes: short: sector 1, 1 bytes; at 0 bytes: 00030000
case: 2048 bytes of 00
run: frames --first 030010 --sectors 1 => Done, 2064 bytes; at 0 bytes: 000300102132000000000000000A01
run: frames --sectors 0000000001 --first fFfFfF => Done, 2064 bytes; at 0 bytes: 00FFFFFF

# CD-ROM sectors are made from zeros. Of their output only the amount is compared.
case: 2048 bytes of 00
run: cdmake --address 449999 --sectors 2  -> Usage, 0 bytes: usage
run: cdmake --address 150 --sectors 1
case: 2047 bytes of 00       -> Short, 0 bytes: short: sector 0, 2047 bytes
case: 2049 bytes of 00       -> Long, 2352 bytes: long
case: 2050 bytes of 00
run: cdmake --address 0 --sectors 450000  -> Short, 2352 bytes: short: sector 1, 2 bytes
# Sectors of 2352 zeros are read. Their mode is 0, which is none: each is damaged, and zeros come.
output: 4096 bytes of 00
case: 2353 bytes of 00
run: cdread --address 0 --sectors 450000  -> Short, 2048 bytes: sector 0: mode 0/short: sector 1, 1 bytes
run: cdread --address 150 --sectors 1     -> Long, 2048 bytes: sector 0: mode 0/long
case: {0, 2351} bytes of 00  -> Short, 0 bytes: short: sector 0, {0, 2351} bytes
case: 2352 bytes of 00       -> Damaged, 2048 bytes: sector 0: mode 0/damaged: 1 sectors
run: cdread --address 449999 --sectors 2 or cdread --address 150 --sectors 1 --form plain -> Usage, 0 bytes: usage
case: 4704 bytes of 00
run: cdread --address 449998 --sectors 2  -> Damaged: sector (0, 1): mode 0/damaged: 2 sectors

# A sector of another address: of zeros, and of counted bytes. It comes as zeros.
run: cdread --address 151 --sectors 1
case: {1 sector of 00, counted sector} | cdmake --address 150 --sectors 1 makes 2352 bytes \
-> Damaged: sector 0: address found 000200/damaged: 1 sectors with 1 sector of 00

# Of four sectors, in the first all bytes of one P word of its even bytes and of one of its odd bytes are wrong, in the
# second a thousand bytes, and in the third the sync and two bytes after it. Only the second one is beyond correction.
given: image of 4 sectors | cdmake --address 4498 --sectors 4 makes 9408 bytes | \
wrong by FF: cdsector 0, bytes 22 to 2172 step 86 | wrong by 5A: cdsector 0, bytes 97 to 2247 step 86 | \
wrong by 55: cdsector 1, bytes 1000 to 1999 | wrong by 33: cdsector 2, bytes 0 to 13
run: cdread --address 4498 --sectors 4
-> Damaged: sector 1: parity 0/damaged: 1 sectors with image of 4 sectors | zero: sector 1

# The largest disks, over five bytes.
run: master --sectors 8191744 or recover --sectors 8191744 or recover --form marked --sectors 8191744 \
or survey --sectors 8191744 or info --initial 12031 or merge --sectors 8191744 --captures 16 or deep --sectors 8191744 \
over 5 bytes of 00 -> Short, 0 bytes: short: block 0, 5 bytes
run: frames --first 000000 --sectors 16777216 or cdmake --address 0 --sectors 450000 \
or cdread --address 0 --sectors 450000 -> Short, 0 bytes: short: sector 0, 5 bytes
run: assemble --sectors 16384 --frames 4294967295 -> Short, 0 bytes: short: frame 0, 5 bytes
# The header is written first.
run: convert --sectors 8191744
-> Short: short: block 0, 5 bytes with hex 445644454343000200000000007CFF0000000000000000000000001000000000

# Invalid arguments, each over sectors and over nothing. `no words` is a run without arguments.
name: frames = frames --first 030000 --sectors
given: [17 sectors of 00, nothing]
run: no words or Frames --first 030000 --sectors 1 or --help or --version or frames \
or frames --first FFFFFF --sectors 2 or <frames> 0 or <frames>= or <frames> +1 or <frames> 00000000001 \
or <frames> 1 --sectors 1 or frames --first 030000 --first 030000 or <frames> 1 -- 1 \
or frames --first 30000 --sectors 1 or frames --first 03000g --sectors 1 \
or master --sectors 17 --sectors 17 or master --sectors 16 --cpr 00 or recover or recover --sectors 16 --sectors 16 \
or recover --sectors +16 or recover --sectors 16 --workers 17 or merge --sectors 16 --captures 1 \
or merge --sectors 16 --captures 17 or assemble --sectors 16385 --frames 1 or assemble --sectors 16 --frames 0 \
or recover --form listed --sectors 16 or survey --form marked or convert --sectors 16 --form listed \
or merge --sectors 16 --captures 2 --form listed -> Usage, 0 bytes: usage
# The same by smaller calls. `usage` and its end take six calls of a byte, so call 6 never comes.
reads: {1 byte, 7 bytes} a call              -> Usage, 0 bytes: usage
reports: 1 byte a call, call {6, 7} fails    -> Usage, 0 bytes: usage
# Where the report doesn't take all of the line, what came before is left.
reports: 1 byte a call, call {0 to 5} fails  -> ReportFault, 0 bytes: {, u, us, usa, usag, usage}..
";

#[test]
fn each_run_ends_as_its_input_says(rt: HostRuntime) -> Held {
    hold(&rt, ENDS)
}

// How much exactly is left after a fault, and which lines of the report. Then every command over a small input, by
// small calls and with calls that fail; `info` and more of `survey` are above, `exercise` is below.
const FAULTS: &str = "
# A sector takes three reads of at most 700 bytes. Call 6 would find the end of the input.
run: frames --first 030000 --sectors 2 over 4096 bytes of 00
output: given | frames --first 030000 --sectors 2 makes 4128 bytes
reads: 700 bytes a call, call {2, 3, 6} fails        -> ReadFault, {0, 2064, 4128} bytes: read fault
# The output takes a byte a call, and no call 4128 comes.
writes: 1 byte a call, call {0, 1, 2063, 2064, 4127} fails -> WriteFault, {0, 1, 2063, 2064, 4127} bytes: write fault
writes: 1 byte a call, call 4128 fails               -> Done
# The report takes a byte a call, and the line `done` and its end take five.
reports: 1 byte a call, call 5 fails                 -> Done
reports: 1 byte a call, call {0, 1, 4} fails         -> ReportFault: {, d, done}..

# Sixteen reads of a sector each make a block.
run: master --sectors 32 over image of 32 sectors
reads: 1 sector a call, call {15, 16, 20, 31} fails -> ReadFault, {0, 1, 1, 1} blocks: read fault with given | recorded
run: recover --sectors 16 over image of 16 sectors | recorded
reads: 1000 bytes a call, call 5 fails               -> ReadFault, 0 bytes: read fault with image of 16 sectors
writes: {1000 bytes, 1 byte} a call, call {2, 2500} fails -> WriteFault, {2000, 2500} bytes: write fault
reports: 9 bytes a call, call 0 fails                -> ReportFault: ..
# 208 reads of a row make a block.
run: recover --sectors 32 over image of 32 sectors | recorded
output: image of 32 sectors
reads: 1 row a call, call {207, 208, 300, 415} fails -> ReadFault, {0, 16, 16, 16} sectors: read fault

# The line of a refused block, 64 bytes with its end, goes out before its sectors, which are zeros.
name: no address = layer 0: address 0 found 00000000 saved 0
run: recover --sectors 16 over 1 block of 00
-> Damaged: block 0 sector 030000 <no address>/damaged: 1 blocks with 16 sectors of 00
writes: 1 sector a call, call {0, 5} fails -> WriteFault, {0, 5} sectors: block 0 sector 030000 <no address>/write fault
reports: {64, 10} bytes a call, call {0, 1} fails    -> ReportFault, 0 sectors: {, block 0 se}..
reports: 64 bytes a call, call 1 fails               -> ReportFault: block 0 sector 030000 <no address>/..
# The capture has zeros in place of the second block.
run: recover --sectors 32 over image of 16 sectors | recorded | then 1 block of 00
output: image of 16 sectors | 16 sectors of 00
writes: 1 sector a call, call 16 fails   -> WriteFault, 16 sectors: block 1 sector 030010 <no address>/write fault
reports: 64 bytes a call, call 0 fails   -> ReportFault, 16 sectors: ..

# Two blocks, and an image that ends within the second one.
run: master --sectors 17 or master --sectors 17 --workers 5 or master --sectors 17 --workers 16 over image of 17 sectors
=> Done, 2 blocks; digest: E72C18C8A280B741A3163FA45B59ACB1854E77AC43A64B8C23638295A634C02A
all fail in turn: 9 reads of 5000 bytes, 16 writes of 5000 bytes, 1 report of 7 bytes
each call stops it: 8 calls of 5000 bytes
case: front 16 sectors and 5 bytes  => Short, 1 block: short: block 1, 5 bytes
all fail in turn: 9 reads of 5000 bytes, 8 writes of 5000 bytes, 4 reports of 7 bytes

# Both blocks, the same without the last byte, and with one more.
run: recover --sectors 17 or recover --form plain --sectors 17 \
or recover --sectors 17 --workers 5 or recover --sectors 17 --workers 16 over image of 17 sectors | recorded
output: image of 17 sectors
=> Done, 17 sectors; digest: 821668C219648D7615F82E4B86593C1CF57D7E05FB1A5D71ABEF9E28059A6162
all fail in turn: 17 reads of 5000 bytes, 17 writes of 5000 bytes, 1 report of 7 bytes
case: cut off 1 byte     => Short, 16 sectors: short: block 1, 37855 bytes
all fail in turn: 17 reads of 5000 bytes, 16 writes of 5000 bytes, 4 reports of 7 bytes
case: then 1 byte of 55  => Long: long
all fail in turn: 17 reads of 5000 bytes, 17 writes of 5000 bytes, 1 report of 7 bytes

# Two blocks, the second before the first: each is named, and zeros come for both.
run: recover --sectors 32 over image of 32 sectors | recorded | from 1 block
output: 32 sectors of 00
=> Damaged: block (0, 1) sector 0300(0, 1)0 layer 0: address 0 found 000300(1, 0)0 saved 0/damaged: 2 blocks
all fail in turn: 17 reads of 5000 bytes, 32 writes of 5000 bytes, 23 reports of 7 bytes

run: frames --first 030000 --sectors 2 over image of 2 sectors
=> Done, 4128 bytes; digest: E5FA46EFBFA66147C8E3190FC0F94B28730E6829799EAA1DFE3EB74B9EDD77DE
all fail in turn: 7 reads of 700 bytes, 6 writes of 1000 bytes, 3 reports of 2 bytes
each call stops it: 7 calls of 700 bytes
run: cdmake --address 150 --sectors 2
=> Done, 4704 bytes; digest: F0FA618E2827769A710ACCC1A39D65886CFFAB0A3E0B2FF3F214FD80E0C7D321
all fail in turn: 7 reads of 700 bytes, 6 writes of 1000 bytes, 3 reports of 2 bytes
each call stops it: 7 calls of 700 bytes
# Two sectors of zeros. Their mode is 0, which is none.
run: cdread --address 150 --sectors 2 over 4704 bytes of 00
=> Damaged: sector (0, 1): mode 0/damaged: 2 sectors with 4096 bytes of 00
all fail in turn: 5 reads of 2000 bytes, 6 writes of 1000 bytes, 9 reports of 7 bytes
each call stops it: 6 calls of 2000 bytes

# Two blocks that differ nearly everywhere, taken for two captures of one.
run: merge --sectors 16 --captures 2 over image of 17 sectors | recorded
=> Done, 42640 bytes; digest: E6D85C77DF15C8CA1B9DF398691A564A8521F6F70EE84BE05FC90E6E014EE883
all fail in turn: 17 reads of 5000 bytes, 9 writes of 5000 bytes, 1 report of 7 bytes
# The same blocks, without marks: the header, and of each block its rows and two bytes, the number of its runs.
run: convert --sectors 17
=> Done, 75748 bytes; digest: 3788D212632361880B89DAAB4E3124B1534E3A45B743B68D1F122F853966BB4F
all fail in turn: 17 reads of 5000 bytes, 19 writes of 5000 bytes, 1 report of 7 bytes
run: deep --sectors 17   => Done with image of 17 sectors
all fail in turn: 17 reads of 5000 bytes, 17 writes of 5000 bytes, 1 report of 7 bytes
# The same blocks' frames from the ninth on, those before it after them; the disk has the first block alone.
run: assemble --sectors 16 --frames 32
case: from 8 frames      => Done: placed 16 strays 16/done with given | front 1 block | marked
all fail in turn: 33 reads of 5000 bytes, 9 writes of 5000 bytes, 4 reports of 7 bytes

# In the second of three blocks eleven bytes of each row are wrong, more than the codes correct.
given: image of 33 sectors | recorded | wrong by 5A: block 1, bytes 0 to 160 step 16
run: recover --sectors 33 or deep --sectors 33 or survey --sectors 33 or merge --sectors 16 --captures 3 \
or convert --sectors 33 or assemble --sectors 33 --frames 48
each call stops it: 7 calls of 20000 bytes
# A listed capture of three blocks without damage. Its header says how many sectors the image has.
run: recover --form listed over image of 33 sectors | recorded | convert --sectors 33 makes 113606 bytes
each call stops it: 7 calls of 20000 bytes
";

#[test]
fn a_fault_leaves_a_prefix_of_what_is_written(rt: HostRuntime) -> Held {
    hold(&rt, FAULTS)
}

// Blocks that `exercise` draws, and runs of several workers: what comes out is that of one worker, two workers work at
// the same time, and each of three has its piece of each pass.
const WORKERS: &str = "
# The numbers were computed by another program from the standard. A read would fail at once, and none comes.
run: exercise --seed 1 --blocks 3 or exercise --seed 1 --blocks 3 --workers 8 over nothing
reads: 1 byte a call, call 0 fails -> Done with lines exercise seed 1 blocks 3 whole 3 fixed 5242 failed 21
run: exercise --blocks 1 --seed 4294967295
reads: 1 byte a call, call 0 fails -> Done with lines exercise seed 4294967295 blocks 1 whole 1 fixed 2677 failed 12
run: exercise --seed 0 --blocks 1  => Done with lines exercise seed 0 blocks 1 whole 1 fixed 1397 failed 5
all fail in turn: 0 reads of 5000 bytes, 6 writes of 9 bytes, 3 reports of 2 bytes
each call stops it: 7 calls of 9 bytes

# Over a block, and over nothing. A block is read in two passes, for its rows and its columns, and made in two; for
# `exercise` it is both.
name: command = [recover --sectors 16, survey --sectors 16, master --sectors 16, exercise --seed 1 --blocks 1]
given: [image of 16 sectors | recorded, image of 16 sectors | recorded, 16 sectors of 00, nothing]
run: <command> --workers 2
pieces begin together: 2 pieces, [2, 2, 2, 4] times each
run: <command> --workers 3
pieces begin: 3 pieces, [2, 2, 2, 4] times each

# Three blocks. In the first, five bytes of each row are wrong; in six rows of the second, 26, and in twenty rows of
# the third, 17: more than a row corrects.
given: image of 33 sectors | recorded | \
wrong by 5A: block 0, bytes 0 to 164 step 41; block 1, rows 3 to 188 step 37, bytes 0 to 175 step 7 | \
wrong by 5A: block 2, rows 0 to 18, bytes 0 to 176 step 11; block 2, row 192, bytes 0 to 176 step 11
run: recover --sectors 33 or recover --sectors 33 --workers 1 or recover --sectors 33 --workers 8
-> Damaged: block 2 sector 030020 layer 0: rows 20 saved 14/damaged: 1 blocks with image of 32 sectors | 1 sector of 00
run: survey --sectors 33 or survey --sectors 33 --workers 1 or survey --sectors 33 --workers 8
-> Damaged: damaged: 1 blocks with lines \
block (0, 1, 2) sector 0300(0, 1, 2)0 layer 0 pi (208, 6, 20) failed (0, 6, 20) \
sum8 (208, 214, 234): (whole, whole, rows 20)/blocks 3 pi 234 failed 26 damaged 1 peak 234 at 2 over 0

# What comes is compared among the runs alone.
run: master --sectors 33 or master --sectors 33 --workers 1 or master --sectors 33 --workers 5 \
or master --sectors 33 --workers 16 over image of 33 sectors -> Done, 3 blocks
name: drawn = exercise --seed 1 --blocks 2
run: <drawn> or <drawn> --workers 1 or <drawn> --workers 3 or <drawn> --workers 16 over nothing -> Done, 54 bytes
";

#[test]
fn drawn_blocks_are_read_back_and_workers_leave_the_same(rt: HostRuntime) -> Held {
    hold(&rt, WORKERS)
}

// Texts that don't hold: what is misspelt isn't passed over, and each part of what comes counts. Without a run a text
// holds where its lines can be read and its bytes made. Arguments `x` end in Usage, without output, by the line
// `usage`.
static FAILING: [&str; 27] = [
    "given: 1 sector of 00 | zeros: sector 0", // there is no step `zeros`
    "given: 1 block of 00 | zero: blok 0", // no place `blok`
    "given: 1 block of 00 | zero: rows 5 too 6", // no rows `5 too 6`
    "given: 1 block of 00 | wrong by 5X: row 5", // no byte `5X`
    "given: 5 bytes of 00 | wrong by 55: byte 0", // 5 bytes are no rows
    "given: 5 bytes", // of which value?
    "given: 5 bites of 00", // no unit `bites`
    "run: x over 5 bites of 00 -> Usage, 0 bytes: usage", // the same
    "name: one = byte of 00\ngiven: 1 <two>", // nothing is named `two`
    "given: 1 byte of 00 {", // a list without an end
    "given: {2, 3, 4} bytes of {00, 55}", // with 4 goes no value
    "given: [2, 3, 4] bytes of [00, 55]", // the same
    "given: 1 block of 00 | listed shape 0 zones 0 sectors 16 and 0 initial 0", // no tail
    "given: 1 block of 00 | listed shape 0 zones 0 sectors 16 and 0 initial 0 tail 16 runs 5", // a run without length
    "given: nothing -> Usage, 0 bytes: usage", // what is run?
    "run: x over nothing -> Done, 0 bytes: usage", // another status comes
    "run: x over nothing -> Usage, 1 byte: usage", // another amount
    "run: x over nothing -> Usage, 0 bytes: usage..", // its end comes, too
    "run: x over nothing -> Usage, 0 bytes: (usage, none)", // only one comes
    "run: {x, y} over nothing -> Usage, 0 bytes: {usage, none}", // of `y` the line `usage`, too
    "run: x over nothing -> Usage, 0 bytes: usage; digest: 00", // a SHA-256 has 32 bytes
    "run: x over nothing\nreads: 1 byte a call, cal 0 fails -> Usage, 0 bytes: usage", // what is `cal`?
    "given: nothing\nsame result: x = x", // over which bytes?
    "run: master --sectors 16 over 5 bytes of 00 -> Short, 0 bytes: short: block 0, 5 bytes; read: 4 bytes", // 5 are
    "run: frames --first 030000 --sectors 1 over image of 1 sector -> Done", // which output?
    "run: frames --first 030000 --sectors 1 over image of 1 sector -> Done, 2064 bytes with 2 sectors of 00", // others
    "run: frames --first 030000 --sectors 1 over image of 1 sector -> Done, 2064 bytes
all fail in turn: 3 reads of 700 bytes", // the fourth sees the end
];

#[test]
fn what_does_not_hold_fails(rt: HostRuntime) -> Held {
    for text in &FAILING {
        if !fails(&rt, text) {
            return Err(text);
        }
    }
    Ok(())
}
