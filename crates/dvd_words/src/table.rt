//! The table of the commands: what each is called, and which options and limits it has. A command is one row, and all
//! code that asks what a command allows asks here.

ghost use Rattle.std.specs.Prelude.{◌≡◌, true};
ghost use Rattle.clap.specs.Words.{is_simple_and_free};
ghost use Rattle.dvd_words.specs.Inner.Rows.{entry, named_in};
ghost use Rattle.dvd_words.specs.Reading.{command_of};
ghost use Rattle.dvd_words.specs.Table.{app_for, command_entry};

/// The commands of the program.
#[derive(Clone, Copy, Debug, PartialEq, Eq)]
pub enum Command {
    /// A scrambled data frame for each sector.
    Frames,
    /// The recording frames of each ECC block of a disk.
    Master,
    /// The image sectors that are read from a stream of captured blocks.
    Recover,
    /// The physical format in the lead-in of a disk.
    Info,
    /// How many rows of each captured block have errors.
    Survey,
    /// Blocks that are drawn from a number, damaged up to the bound, and read back.
    Exercise,
    /// A CD-ROM sector of Mode 1 for each sector.
    CdMake,
    /// The user data of CD-ROM sectors of Mode 1.
    CdRead,
    /// One stream of captured blocks, joined of several captures of one disk.
    Merge,
    /// The image sectors that are read by rounds, where two passes refuse a block.
    Deep,
    /// Scattered recording frames put in order.
    Assemble,
    /// Captured blocks in the listed form.
    Convert,
}

/// A row of the table.
pub struct CommandSpec<'a> {
    /// The command.
    pub command: Command,
    /// The word that names it.
    pub name: &'a str,
    /// What it goes over.
    pub unit: Unit,
    /// Whether it reads listed captures. A command may have the option `form` and not the value `listed` of it.
    pub takes_listed: bool,
    /// Whether it needs a number of sectors or a listed capture, which states it. `info` reads listed captures and
    /// needs neither. Where this is false, clap asks for `sectors` if the command needs it.
    pub sectors_or_listed: bool,
    /// The limit of its numbers, by what they make together.
    pub limit: Limit,
    /// Its options, in the order in which clap gets them, which is that of the definition.
    pub options: &'a [OptionSpec<'a>],
}

/// An option of a command. It has one value, and is given at most once.
pub struct OptionSpec<'a> {
    /// Its name, without the two dashes.
    pub name: &'a str,
    /// Whether the command needs it.
    pub is_required: bool,
}

/// What a command goes over, one by one. A closing line names it.
#[derive(Clone, Copy, Debug, PartialEq, Eq)]
pub enum Unit {
    /// Sectors of 2,048 or of 2,352 bytes.
    Sector,
    /// ECC blocks.
    Block,
    /// Captured recording frames.
    Frame,
}

/// The limit of a command's numbers, in addition to the range that each has by itself.
#[derive(Clone, Copy, Debug, PartialEq, Eq)]
pub enum Limit {
    /// Nothing.
    Any,
    /// There is at least one sector, and none beyond number FFFFFF: a sector number has 24 bits.
    Numbers,
    /// There is at least one sector, and none beyond address 449,999: a CD-ROM has addresses below minute 100.
    Addresses,
    /// There is at least one block. The option is required and at least 1, but `settings` of `words` is proved for any
    /// matches of clap, in which it may be missing and so 0.
    Blocks,
    /// Both layers have at most 16,384 sectors: `assemble` keeps the whole disk in memory, 75,712 bytes a block. 1,024
    /// blocks are a choice. That there is a sector is a rule of the layout, which has a line of its own.
    WholeDisk,
}

// A row in one line, as in specs/Table.antt, so that both can be compared by eye. It makes the array of the rows. The
// word of a command and the name of an option are what is written here, as a text (`stringify!`).
macro_rules! rows {
    ($(
        $command:ident $name:ident $unit:ident $takes_listed:literal $sectors_or_listed:literal $limit:ident
        $($kind:ident [$($option:ident)*])*;
    )*) => {
        [$(CommandSpec {
            command: Command::$command,
            name: stringify!($name),
            unit: Unit::$unit,
            takes_listed: $takes_listed,
            sectors_or_listed: $sectors_or_listed,
            limit: Limit::$limit,
            options: &[$($(OptionSpec { name: stringify!($option), is_required: is_must!($kind) },)*)*],
        },)*]
    };
}

// `must` and `may` are the words of specs/Table.antt for required options and for others.
macro_rules! is_must {
    (must) => { true };
    (may) => { false };
}

// Command, word, unit, takes_listed, sectors_or_listed, limit, and the options: required ones and others.
// A definition can't name a constant that holds references. So specs/Table.antt has the same rows, and `spec_of` is
// proved to give these. The rows are in the order of `Command`, since the number of a command is the place of its row.
static COMMANDS: [CommandSpec<'static>; 12] = rows! {
    Frames   frames   Sector false false Numbers   must [first sectors];
    Master   master   Block  false false Any       must [sectors] may [sectors1 shape zones initial tail workers cpr];
    Recover  recover  Block  true  true  Any       may [sectors sectors1 shape zones initial tail workers form];
    Info     info     Block  true  false Any       may [initial form];
    Survey   survey   Block  true  true  Any       may [sectors sectors1 shape zones initial tail workers form];
    Exercise exercise Block  false false Blocks    must [seed blocks] may [workers];
    CdMake   cdmake   Sector false false Addresses must [address sectors];
    CdRead   cdread   Sector false false Addresses must [address sectors];
    Merge    merge    Block  false false Any       must [sectors] may [sectors1 shape zones initial tail form] must [captures];
    Deep     deep     Block  true  true  Any       may [sectors sectors1 shape zones initial tail form];
    Assemble assemble Frame  false false WholeDisk must [sectors frames] may [sectors1 shape form];
    Convert  convert  Block  false false Any       must [sectors] may [sectors1 shape zones initial tail form];
};

/// The row of a command. The number of a variant is the place of its row, so no search is needed. `free` is of the same
/// row as clap is given it by `parser_for` (its definition is `app_for`): clap's rules for it are simple, and none
/// depends on another option, which `parse_by` requires. It is a clause here since it is proved by computing each row
/// where the table is: so a new command needs no proof of it.
pub fn spec_of<'a>(command: Command) -> &'a CommandSpec<'a>
    ensures row { entry result.now ≡ command_entry command }
    ensures free { is_simple_and_free (app_for command) ≡ true }
{
    &COMMANDS[command as usize]
}

/// What a command goes over. Of a row the other crates read this alone: the closing line needs it.
pub fn unit_of(command: Command) -> Unit
    ensures { result ≡ (command_entry command).unit }
{
    spec_of(command).unit
}

/// The command that a word names, if one does. Capitals count, and no short form of a name is read. It is asked before
/// clap is called, since each command has a clap command of its own.
pub fn command_named(word: &str) -> Option<Command>
    ensures { result ≡ command_of word.now }
{
    find_named(&COMMANDS, word)
}

// The command of the first row with this name. The rows are few enough to look through, in their order, as `named_in`
// does. They are a parameter, since a contract can't name the constant that holds them.
fn find_named(specs: &[CommandSpec<'_>], word: &str) -> Option<Command>
    ensures { result ≡ named_in word.now specs.now }
{
    for spec in specs {
        if word == spec.name {
            return Some(spec.command);
        }
    }
    None
}
