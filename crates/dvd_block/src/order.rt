//! The order of recording (ECMA-267, 19): after each twelve rows of data comes a row of outer parity. So thirteen
//! recorded rows are a recording frame, and the f-th of the sixteen ends with row 192+f of the block.
ghost use Rattle.std.specs.Prelude.{◌≡◌, ◌<◌};
ghost use Rattle.coding.specs.Recording.{row_at, record_at};

/// The row of the block that is recorded row `m`. Each thirteenth is one of rows 192 to 207, in their order: with
/// (m + 1) / 13 from 1 to 16, that is 191 and this number. Any other is row `m` less the number of parity rows recorded
/// before it, m / 13. It is public for the crates that read or write recorded rows.
pub fn row_of_record(m: usize) -> usize
    requires { m < 208 }
    ensures value { result ≡ row_at m }
    ensures within { result < 208 }
    ensures inverse { record_at result ≡ m }
{
    if (m + 1) % 13 == 0 {
        191 + (m + 1) / 13
    } else {
        m - m / 13
    }
}

/// The recorded row that row `i` of the block is. It undoes `row_of_record`. It is for programs on this crate: the code
/// here that reads and writes recordings goes by recorded rows. The clause `inverse` of both says that no row is
/// recorded twice or left out.
pub fn record_of_row(i: usize) -> usize
    requires { i < 208 }
    ensures value { result ≡ record_at i }
    ensures within { result < 208 }
    ensures inverse { row_at result ≡ i }
{
    if i < 192 {
        i + i / 12
    } else {
        13 * (i - 191) - 1
    }
}
