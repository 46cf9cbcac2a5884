//! The values of options. A reader gives the default where there is no text, and `None` for a text that is no such
//! value. What a text means is the definition that a clause names, as `number_in`. `dvdcap` reads its values by these
//! functions too.

ghost use Rattle.std.specs.Prelude.{◌≡◌, ◌≤◌, max, min, option_map, replicate, IfSome};
ghost use Rattle.std.specs.Char.{is_digit};
ghost use Rattle.std.specs.List.{list_all};
ghost use Rattle.dvd_words.specs.Reading.{value_or};
ghost use Rattle.dvd_words.specs.Words.{hex_bytes, form_of, number_in, number_within, sector_number_of, shape_of, zones_of};

use dvd_capture::Form;
use dvd_layout::{Shape, Zones};
use hex::FromHex;

/// A number of one to ten decimal digits, below 2^32, or the default where there is no text. `None`: another text.
pub fn read_number(text: Option<&str>, default: u32) -> Option<u32>
    ensures { result ≡ value_or default number_in (option_map (λ s. s.now) text.entry) }
{
    match text {
        Some(text) => number(text),
        None => Some(default),
    }
}

// `from_str_radix` reads a sign too, and any number of leading zeros, so the text is tested first. Ten digits write
// each number below 2^32; it refuses the texts of ten digits that are above.
fn number(text: &str) -> Option<u32>
    ensures { result ≡ number_in text.now }
{
    if text.is_empty() || text.len() > 10 || !has_digits_alone(text.as_bytes()) {
        return None;
    }
    u32::from_str_radix(text, 10).ok()
}

// Whether all bytes are decimal digits: a sign isn't, nor is a digit of another script.
fn has_digits_alone(text: &[u8]) -> bool
    ensures { result ≡ list_all (λ c. is_digit c 10) text.now }
{
    text.iter().all(|byte| byte.is_ascii_digit())
}

/// A number from `least` to `most`, or the default where there is no text. `None`: another text. The default needn't be
/// within the bounds: it is what a command without the option has. So `bounds` is of the default too.
pub fn read_within(text: Option<&str>, least: u32, most: u32, default: u32) -> Option<u32>
    ensures value { result ≡ value_or default (number_within least most) (option_map (λ s. s.now) text.entry) }
    ensures bounds { IfSome result (λ n. (min least default ≤ n) × (n ≤ max most default)) }
{
    match text {
        Some(text) => {
            let value = number(text)?;
            if value >= least && value <= most {
                Some(value)
            } else {
                None
            }
        }
        None => Some(default),
    }
}

/// How many threads work: from 1 to 16, and 1 where there is no text. `None`: another text. dvd_par requires at most
/// sixteen, and no work in it rests on that number.
pub fn read_workers(text: Option<&str>) -> Option<u8>
    ensures value { result ≡ value_or 1 (number_within 1 16) (option_map (λ s. s.now) text.entry) }
    ensures bounds { IfSome result (λ n. (1 ≤ n) × (n ≤ 16)) }
{
    // By `bounds` of `read_within` eight bits hold it.
    Some(read_within(text, 1, 16, 1)? as u8)
}

/// A sector number of six hexadecimal digits, or 0 where there is no text. `None`: another text. It has 24 bits, and so
/// three bytes, which are read as bytes are: exactly two digits each, of either case. The most significant comes first.
/// A command with this option requires it, so 0 is that of the others.
pub fn read_sector_number(text: Option<&str>) -> Option<u32>
    ensures { result ≡ value_or 0 sector_number_of (option_map (λ s. s.now) text.entry) }
{
    match text {
        Some(text) => {
            let [high, middle, low] = <[u8; 3] as FromHex>::from_hex(text).ok()?;
            Some(u32::from_be_bytes([0, high, middle, low]))
        }
        None => Some(0),
    }
}

/// CPR_MAI, as twelve hexadecimal digits of either case, or zeros where there is no text. `None`: another text.
pub fn read_cpr(text: Option<&str>) -> Option<[u8; 6]>
    ensures { result ≡ value_or (replicate 6 0) (hex_bytes 6) (option_map (λ s. s.now) text.entry) }
{
    match text {
        Some(text) => <[u8; 6] as FromHex>::from_hex(text).ok(),
        None => Some([0; 6]),
    }
}

/// How many layers there are, and the track path of two; one layer where there is no text. `None`: another text. Names
/// are compared byte by byte, here and below, so `Single` is none.
pub fn read_shape(text: Option<&str>) -> Option<Shape>
    ensures { result ≡ value_or Shape.Single shape_of (option_map (λ s. s.now) text.entry) }
{
    match text {
        None | Some("single") => Some(Shape::Single),
        Some("parallel") => Some(Shape::Parallel),
        Some("opposite") => Some(Shape::Opposite),
        _ => None,
    }
}

/// Which zones of a disk a stream has, and the Data Zones alone where there is no text. `None`: another text.
pub fn read_zones(text: Option<&str>) -> Option<Zones>
    ensures { result ≡ value_or Zones.DataOnly zones_of (option_map (λ s. s.now) text.entry) }
{
    match text {
        None | Some("data") => Some(Zones::DataOnly),
        Some("all") => Some(Zones::All),
        _ => None,
    }
}

/// The form of captured blocks: plain where there is no text. `None`: another text.
pub fn read_form(text: Option<&str>) -> Option<Form>
    ensures { result ≡ value_or Form.Plain form_of (option_map (λ s. s.now) text.entry) }
{
    match text {
        None | Some("plain") => Some(Form::Plain),
        Some("marked") => Some(Form::Marked),
        Some("listed") => Some(Form::Listed),
        _ => None,
    }
}
