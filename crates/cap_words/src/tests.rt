//! Worked arguments, each list with what it asks for.
use crate::{InterleaveSettings, LostSettings, Settings, WordsFault, read};
use dvd_capture::Form;
use dvd_layout::{Shape, Zones};
use std::alloc::{AllocError, Global};
use std::test::Fail;

// A text as arguments, one for each of its words.
fn words(alloc: Global, text: &str) -> Result<Vec<String>, AllocError> {
    text.split_whitespace()
        .map(|word| String::from_str(alloc, word))
        .try_collect(alloc)
}

// Arguments that are invalid.
static USAGE: [&str; 54] = [
    "",
    "Mark --map a",
    "marks --map a",
    "--map a",
    "help",
    "mark",
    "mark --map",
    "mark a",
    "mark --good +",
    "mark --map a b",
    "mark --map a --map b",
    "mark --map a --good + --good +",
    "mark --map a --good x",
    "mark --map a --good ++F",
    "mark --map a --good=",
    "mark --map a --help",
    "interleave",
    "interleave a b",
    "interleave --form plain",
    "interleave --form plain a",
    "interleave --form plain -- --fill",
    "interleave --form",
    "interleave --form= a b",
    "interleave --form listed a b",
    "interleave --form Marked a b",
    "interleave --form plain --form plain a b",
    "interleave --form plain --fill a b",
    "interleave --form marked --fill --fill a b",
    "interleave --form marked --fill=true a b",
    "interleave --form marked --fills a b",
    "interleave --form marked -f a b",
    "interleave --form marked a -b",
    "interleave --form marked --file a b",
    "interleave --form marked --help a b",
    "interleave --form plain a b c d e f g h i j k l m n o p q",
    "lost",
    "lost --sectors",
    "lost --sectors x",
    "lost --sectors 4294967296",
    "lost --sectors 16 16",
    "lost --sectors 16 --sectors 16",
    "lost --sectors 16 --shape double",
    "lost --sectors 16 --zones some",
    "lost --sectors 16 --form plain",
    "lost --sectors 16 --sectors1 -1",
    "lost --sectors 16 --tail",
    "draw --width",
    "draw --width 99",
    "draw --width 4001",
    "draw --width 0x100",
    "draw 1000",
    "draw --width 100 --width 100",
    "draw --sectors 16",
    "draw --help",
];

#[test]
fn words_that_ask_for_nothing(rt: HostRuntime) -> Result<(), Fail> {
    for text in &USAGE {
        let words = words(rt.alloc(), text)?;
        if !matches!(read(rt.alloc(), &words), Err(WordsFault::Usage)) {
            Err(*text)?;
        }
    }
    Ok(())
}

// What arguments ask for.
enum Wanted {
    // The map of `mark` and the statuses that are trusted.
    Mark(&'static str, &'static str),
    // The files of `interleave` in the plain form, in the marked form, and in this with missing blocks filled.
    Plain(&'static str),
    Marked(&'static str),
    Filled(&'static str),
    // The options of `lost`, which make a valid layout.
    Lost(Lengths),
    // The width of `draw`.
    Draw(u32),
}

// Sectors of layer 0 and of layer 1, shape, zones, initial and tail.
type Lengths = (u32, u32, Shape, Zones, u32, u32);

static ASKED: [(&str, Wanted); 17] = [
    ("mark --map a", Wanted::Mark("a", "+")),
    ("mark --map=rescue.map", Wanted::Mark("rescue.map", "+")),
    ("mark --good +* --map /tmp/m", Wanted::Mark("/tmp/m", "+*")),
    ("mark --map a --good ?*/-+", Wanted::Mark("a", "?*/-+")),
    ("mark --good=-+ --map a", Wanted::Mark("a", "-+")),
    ("interleave --form plain a b", Wanted::Plain("a b")),
    ("interleave b a --form=plain", Wanted::Plain("b a")),
    ("interleave a --form plain a a", Wanted::Plain("a a a")),
    (
        "interleave --form marked -- --fill -",
        Wanted::Marked("--fill -"),
    ),
    ("interleave --fill --form marked - b", Wanted::Filled("- b")),
    ("interleave a b --fill --form marked", Wanted::Filled("a b")),
    (
        "interleave --form marked 1 2 3 4 5 6 7 8 9 a b c d e f interleave",
        Wanted::Marked("1 2 3 4 5 6 7 8 9 a b c d e f interleave"),
    ),
    (
        "lost --sectors 32",
        Wanted::Lost((32, 0, Shape::Single, Zones::DataOnly, 0, 16)),
    ),
    (
        "lost --tail 4 --initial 3 --zones all --shape opposite --sectors1=16 --sectors 32",
        Wanted::Lost((32, 16, Shape::Opposite, Zones::All, 3, 4)),
    ),
    ("draw", Wanted::Draw(1000)),
    ("draw --width 100", Wanted::Draw(100)),
    ("draw --width=4000", Wanted::Draw(4000)),
];

// Whether these are the files, in their order.
fn are_files(files: &[&str], names: &str) -> bool {
    let mut left = files;
    for name in names.split_whitespace() {
        if left.is_empty() || left[0] != name {
            return false;
        }
        left = &left[1..];
    }
    left.is_empty()
}

fn is_interleaved(asked: &InterleaveSettings<'_>, form: Form, fill: bool, files: &str) -> bool {
    asked.form == form && asked.fill == fill && are_files(&asked.files, files)
}

fn lengths_of(asked: &LostSettings) -> Lengths {
    (
        asked.sectors,
        asked.sectors1,
        asked.shape,
        asked.zones,
        asked.initial,
        asked.tail,
    )
}

fn is_wanted(asked: &Settings<'_>, wanted: &Wanted) -> bool {
    match (asked, wanted) {
        (Settings::Mark(asked), Wanted::Mark(map, good)) => {
            asked.map == *map && asked.good == *good
        }
        (Settings::Interleave(asked), Wanted::Plain(files)) => {
            is_interleaved(asked, Form::Plain, false, files)
        }
        (Settings::Interleave(asked), Wanted::Marked(files)) => {
            is_interleaved(asked, Form::Marked, false, files)
        }
        (Settings::Interleave(asked), Wanted::Filled(files)) => {
            is_interleaved(asked, Form::Marked, true, files)
        }
        (Settings::Lost(asked), Wanted::Lost(lengths)) => {
            asked.layout().is_ok() && lengths_of(asked) == *lengths
        }
        (Settings::Draw(asked), Wanted::Draw(width)) => asked.width == *width,
        _ => false,
    }
}

#[test]
fn words_that_ask_for_a_run(rt: HostRuntime) -> Result<(), Fail> {
    for (text, wanted) in &ASKED {
        let words = words(rt.alloc(), text)?;
        match read(rt.alloc(), &words) {
            Ok(asked) if is_wanted(&asked, wanted) => {}
            _ => Err(*text)?,
        }
    }
    Ok(())
}
