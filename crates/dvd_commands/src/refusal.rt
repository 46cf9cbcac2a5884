//! Why a command doesn't begin. Nothing has been read, written or reported then. The conversions below are those of `?`
//! in the functions that begin a command; `from_gives` is what is proved of them. The trait asks for it in place of a
//! clause.
ghost use Rattle.std.specs.Prelude.{◌≡◌};
ghost use Rattle.dvd_commands.specs.declared.refusal.Refusal.TheVariants.{Setting as setting, NoMemory as no_memory};

use dvd_layout::LayoutFault;
use dvd_loop::LoopEnd;
use dvd_ports::NoMemory;

/// Why a command doesn't begin.
#[derive(Clone, Copy, Debug, PartialEq, Eq)]
pub enum Refusal {
    /// The layout that the settings ask for is not valid.
    Setting(LayoutFault),
    /// There is no memory for its buffers. Which of them it was, nobody asks.
    NoMemory,
}

/// What beginning a command answers: how its loop ended, or why it doesn't begin.
pub(crate) type Begun = Result<LoopEnd, Refusal>;

impl From<LayoutFault> for Refusal {
    ghost from_gives = { λ fault refusal. refusal ≡ setting fault };

    fn from(fault: LayoutFault) -> Self {
        Refusal::Setting(fault)
    }
}

impl From<NoMemory> for Refusal {
    ghost from_gives = { λ _ refusal. refusal ≡ no_memory };

    fn from(_: NoMemory) -> Self {
        Refusal::NoMemory
    }
}
