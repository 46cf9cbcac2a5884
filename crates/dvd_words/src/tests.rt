//! Worked arguments, each list with what it asks for.
use crate::{Command, Settings, WordsFault, read};
use dvd_capture::Form;
use dvd_layout::{Shape, Zones};
use std::alloc::{AllocError, Global};
use std::test::Fail;

fn words(alloc: Global, text: &str) -> Result<Vec<String>, AllocError> {
    let mut words = Vec::new(alloc);
    for word in text.split_whitespace() {
        words.push(String::from_str(alloc, word)?)?;
    }
    Ok(words)
}

// Arguments that ask for nothing: a wrong word, a missing option, one too many, or a value that isn't allowed.
static USAGE: [&str; 90] = [
    "",
    "Frames",
    "frame --first 030000 --sectors 1",
    "help",
    "--help",
    "--version",
    "recover",
    "frames --sectors 1",
    "frames --first 030000",
    "frames --first 30000 --sectors 1",
    "frames --first 0030000 --sectors 1",
    "frames --first 03000g --sectors 1",
    "frames --first FFFFFF --sectors 2",
    "frames --first 030000 --sectors 0",
    "frames --first 030000 --sectors 1 --workers 1",
    "master --sectors",
    "master --sectors 16 17",
    "master --sectors 16 -- 17",
    "master 16",
    "master --sector 16",
    "master -s 16",
    "master --sectors 16 --sectors 16",
    "master --sectors 16 --help",
    "master --sectors 16 --version",
    "master --sectors 16 -h",
    "master --sectors 16 --first 030000",
    "master --sectors 16 --form plain",
    "master --sectors 16 --cpr 00",
    "master --sectors 16 --cpr 0102030405ag",
    "master --sectors 16 --shape Single",
    "master --sectors 16 --zones lead-in",
    "recover --sectors +16",
    "recover --sectors -16",
    "recover --sectors 0x10",
    "recover --sectors 4294967296",
    "recover --sectors 00000000016",
    "recover --sectors 16 --workers 0",
    "recover --sectors 16 --workers 17",
    "recover --sectors 16 --cpr 010203040506",
    "recover --sectors 16 --form listed",
    "recover --form listed --sectors 16",
    "recover --form listed --sectors1 16",
    "recover --form listed --shape single",
    "recover --form listed --zones data",
    "recover --form listed --initial 0",
    "recover --form listed --tail 16",
    "recover --form Listed",
    "recover --form plain",
    "recover --form marked --tail 16",
    "survey",
    "survey --form listed --sectors 16",
    "survey --form marked",
    "info --form listed --initial 0",
    "deep --form listed --tail 16",
    "deep --form marked",
    "assemble --sectors 16 --frames 1 --form listed",
    "master --sectors 16 --form listed",
    "convert",
    "convert --form marked",
    "convert --sectors 16 --form listed",
    "convert --form listed",
    "convert --sectors 16 --workers 1",
    "convert --sectors 16 --captures 2",
    "info --sectors 16",
    "exercise --seed 1",
    "exercise --seed 1 --blocks 0",
    "exercise --seed 1 --blocks 4097",
    "cdmake",
    "cdmake --sectors 1",
    "cdmake --address 150",
    "cdmake --address 449999 --sectors 2",
    "cdmake --address 4294967295 --sectors 4294967295",
    "cdmake --address 150 --sectors 0",
    "cdread --address 450000 --sectors 0",
    "cdread --address 150 --sectors 1 --first 030000",
    "cdread --address 000150f --sectors 1",
    "merge --sectors 16",
    "merge --captures 2",
    "merge --sectors 16 --captures 1",
    "merge --sectors 16 --captures 17",
    "merge --sectors 16 --captures 2 --workers 1",
    "merge --sectors 16 --captures 2 --form listed",
    "deep",
    "deep --sectors 16 --workers 1",
    "assemble --sectors 16",
    "assemble --frames 1",
    "assemble --sectors 16 --frames 0",
    "assemble --sectors 16385 --frames 1",
    "assemble --sectors 16368 --sectors1 17 --shape opposite --frames 1",
    "assemble --sectors 16 --frames 1 --zones all",
];

#[test]
fn words_of_no_command_are_usage(rt: HostRuntime) -> Result<(), Fail> {
    let alloc = rt.alloc();
    for text in &USAGE {
        let words = words(alloc, text)?;
        assert_eq!(rt; read(alloc, words.as_slice()), Err(WordsFault::Usage));
    }
    Ok(())
}

// What `recover --sectors 16` asks for.
static RECOVER: Settings = Settings {
    command: Command::Recover,
    first: 0,
    sectors: 16,
    sectors1: 0,
    shape: Shape::Single,
    zones: Zones::DataOnly,
    initial: 0,
    tail: 16,
    cpr: [0; 6],
    form: Form::Plain,
    workers: 1,
    seed: 0,
    blocks: 0,
    address: 0,
    captures: 0,
    frames: 0,
};

// What `recover --form listed` asks for.
static LISTED: Settings = Settings {
    sectors: 0,
    form: Form::Listed,
    ..RECOVER
};

static FRAMES: Settings = Settings {
    command: Command::Frames,
    first: 0xFFFFFF,
    sectors: 1,
    ..RECOVER
};

static MASTER: Settings = Settings {
    command: Command::Master,
    sectors1: 17,
    shape: Shape::Opposite,
    zones: Zones::All,
    initial: 18,
    tail: 4_294_967_295,
    cpr: [0x01, 0x23, 0x45, 0x67, 0x89, 0xAB],
    workers: 16,
    ..RECOVER
};

static INFO: Settings = Settings {
    command: Command::Info,
    sectors: 0,
    ..RECOVER
};

static READ: [(&str, Settings); 28] = [
    ("recover --sectors 16", RECOVER),
    ("recover --sectors=16", RECOVER),
    ("recover --sectors 0016", RECOVER),
    ("recover --sectors 0000000016", RECOVER),
    ("recover --sectors 16 --", RECOVER),
    ("recover --form plain --sectors 16", RECOVER),
    ("recover --form listed", LISTED),
    (
        "convert --sectors 16",
        Settings {
            command: Command::Convert,
            ..RECOVER
        },
    ),
    (
        "convert --form marked --tail 17 --initial 18 --zones all --shape opposite --sectors1 17 --sectors 16",
        Settings {
            command: Command::Convert,
            form: Form::Marked,
            tail: 17,
            cpr: [0; 6],
            workers: 1,
            ..MASTER
        },
    ),
    (
        "survey --workers 16 --form listed",
        Settings {
            command: Command::Survey,
            workers: 16,
            ..LISTED
        },
    ),
    (
        "info --form listed",
        Settings {
            command: Command::Info,
            ..LISTED
        },
    ),
    (
        "deep --form listed",
        Settings {
            command: Command::Deep,
            ..LISTED
        },
    ),
    (
        "recover --form marked --workers 2 --shape parallel --sectors 16",
        Settings {
            form: Form::Marked,
            workers: 2,
            shape: Shape::Parallel,
            ..RECOVER
        },
    ),
    ("frames --first FFFFFF --sectors 1", FRAMES),
    ("frames --sectors=1 --first ffFfff", FRAMES),
    (
        "master --sectors 16 --sectors1 17 --shape opposite --zones all --initial 18 --tail 4294967295 --cpr 0123456789aB --workers 16",
        MASTER,
    ),
    (
        "master --workers 16 --cpr 0123456789Ab --tail 4294967295 --initial 18 --zones all --shape opposite --sectors1 17 --sectors 16",
        MASTER,
    ),
    ("info", INFO),
    (
        "survey --sectors 16 --form marked",
        Settings {
            command: Command::Survey,
            form: Form::Marked,
            ..RECOVER
        },
    ),
    (
        "exercise --blocks 4096 --seed 4294967295",
        Settings {
            command: Command::Exercise,
            sectors: 0,
            seed: 4_294_967_295,
            blocks: 4096,
            ..RECOVER
        },
    ),
    (
        "assemble --sectors 16384 --frames 4294967295",
        Settings {
            command: Command::Assemble,
            sectors: 16_384,
            frames: 4_294_967_295,
            ..RECOVER
        },
    ),
    (
        "assemble --frames 1 --form marked --shape opposite --sectors1 17 --sectors 16367",
        Settings {
            command: Command::Assemble,
            sectors: 16_367,
            sectors1: 17,
            shape: Shape::Opposite,
            form: Form::Marked,
            frames: 1,
            ..RECOVER
        },
    ),
    (
        "merge --sectors 16 --captures 2",
        Settings {
            command: Command::Merge,
            captures: 2,
            ..RECOVER
        },
    ),
    (
        "merge --captures 16 --form marked --tail 17 --initial 18 --zones all --shape opposite --sectors1 17 --sectors 16",
        Settings {
            command: Command::Merge,
            captures: 16,
            form: Form::Marked,
            tail: 17,
            cpr: [0; 6],
            workers: 1,
            ..MASTER
        },
    ),
    (
        "info --initial 4294967295 --form marked",
        Settings {
            initial: 4_294_967_295,
            form: Form::Marked,
            ..INFO
        },
    ),
    (
        "cdmake --address 449999 --sectors 1",
        Settings {
            command: Command::CdMake,
            sectors: 1,
            address: 449_999,
            ..RECOVER
        },
    ),
    (
        "cdread --sectors 450000 --address 0",
        Settings {
            command: Command::CdRead,
            sectors: 450_000,
            ..RECOVER
        },
    ),
    (
        "deep --sectors 16 --form marked",
        Settings {
            command: Command::Deep,
            form: Form::Marked,
            ..RECOVER
        },
    ),
];

#[test]
fn words_of_a_command_are_read(rt: HostRuntime) -> Result<(), Fail> {
    let alloc = rt.alloc();
    for (text, settings) in &READ {
        let words = words(alloc, text)?;
        assert_eq!(rt; read(alloc, words.as_slice()), Ok(*settings));
    }
    Ok(())
}
