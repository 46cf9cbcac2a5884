//! What holds of every data frame. Each function's contract is a law of the definitions; the bodies are empty. Nobody
//! has to call one: the crate is proved only if each law is. They are public because what they ensure is promised of
//! the crate.
ghost use Rattle.std.specs.Prelude.{◌≡◌, ℕ, ◌*◌, ◌<◌, ◌^◌, List, ◌++◌, length, replicate, None};
ghost use Rattle.coding.specs.Bits.{bits_of};
ghost use Rattle.dvd_frame.specs.Edc.{edc_of, remainder};
ghost use Rattle.dvd_frame.specs.Frame.{data_frame, frame_cause, main_in};
ghost use Rattle.dvd_frame.specs.Scrambling.{masked};
ghost use Rattle.dvd_frame.specs.declared.scrambling.Rule.{Rule as WhichBytes};

/// Main Data that are scrambled twice, by the same ID and rule, are as they were: scrambling adds bytes that these two
/// select, by exclusive or. It holds of lists of any length.
pub fn scrambling_twice_undoes_it()
    ensures { (word : ℕ) (rule : WhichBytes) (main : List ℕ) → masked word rule (masked word rule main) ≡ main }
{}

/// A frame that was made of an ID of 32 bits, six bytes CPR_MAI and 2,048 bytes Main Data is read back. A cause is the
/// first reason why a frame isn't the one that is wanted: a wrong IED, an ID of another place, or a wrong EDC. Where
/// its own ID and rule are wanted it has none, and its Main Data, unscrambled, are those that it was made of.
pub fn made_frames_are_read_back()
    ensures { (word : ℕ) (rule : WhichBytes) (cpr main : List ℕ) → word < 2 ^ 32 → length cpr ≡ 6 → length main ≡ 2048
        → (main_in (data_frame word cpr rule main) rule ≡ main) × (frame_cause (data_frame word cpr rule main) word rule ≡ None) }
{}

/// A message of any length, followed by its EDC, is a multiple of the divisor x^32 + x^31 + x^4 + 1: the division of
/// its bits leaves 32 zeros. No code tests a frame so: the EDC is computed once more and compared.
pub fn message_and_edc_leave_zero()
    ensures { (message : List ℕ) → remainder (8 * length message) (bits_of (message ++ edc_of message)) ≡ replicate 32 0 }
{}
