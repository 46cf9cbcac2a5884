//! Lines, and the fields of a line between blanks. They are slices of the text, so that no memory is taken. A comment
//! goes from `#` to the end of its line, also after fields. `draft` asks for the fields, and `map` for the length of a
//! line. Each length is a count of the bytes before the first that ends it, or of all: so a line or a field that ends
//! with the text needs no case of its own. The clauses `bound` are for the callers, which cut the text at a count.
ghost use Rattle.std.specs.Prelude.{◌≡◌, ◌≤◌, ◌==◌, ◌+◌, not, length};
ghost use Rattle.std.specs.List.{prefix_len};
ghost use Rattle.cap_map.specs.Fields.{after_field, blanks_of, field_length, first_field, is_blank, line_length, without_comment};
ghost use Rattle.cap_map.specs.Inner.{field_bytes};
ghost use Rattle.cap_map.specs.Lines.{line_fields};

/// The first four fields of a line. Those that it doesn't have are empty. No line has more than three that count: the
/// fourth shows one too many.
#[derive(Clone, Copy, Drop)]
pub struct FieldsOf<'a> {
    pub first: &'a [u8],
    pub second: &'a [u8],
    pub third: &'a [u8],
    pub fourth: &'a [u8],
}

/// The fields of a line, without its comment.
pub fn line_fields<'a>(line: &'a [u8]) -> FieldsOf<'a>
    ensures { field_bytes result ≡ line_fields line.now }
{
    let (first, rest) = next_field(&line[..comment_start(line)]);
    let (second, rest) = next_field(rest);
    let (third, rest) = next_field(rest);
    let (fourth, _) = next_field(rest);
    FieldsOf {
        first,
        second,
        third,
        fourth,
    }
}

// The first field of a text, and what comes after it. Where there is none both are empty, so that it may be called once
// more.
fn next_field<'a>(text: &'a [u8]) -> (&'a [u8], &'a [u8])
    ensures field { result.0.now ≡ first_field text.now }
    ensures rest { result.1.now ≡ after_field text.now }
{
    let text = &text[count_blanks(text)..];
    text.split_at(count_others(text))
}

// How many blanks a text begins with.
fn count_blanks(text: &[u8]) -> usize
    ensures count { result ≡ blanks_of text.now }
    ensures bound { result ≤ length text.now }
{
    text.iter().take_while(|byte| is_blank(**byte)).count()
}

// How many bytes come before the first blank: the length of a field, at whose first byte the text begins.
fn count_others(text: &[u8]) -> usize
    ensures count { result ≡ field_length text.now }
    ensures bound { result ≤ length text.now }
{
    text.iter().take_while(|byte| !is_blank(**byte)).count()
}

// Where the comment of a line begins, or where the line ends.
fn comment_start(line: &[u8]) -> usize
    ensures count { result ≡ prefix_len (λ c. not (c == 35)) line.now }
    ensures bound { result ≤ length line.now }
{
    bytes_before(line, b'#')
}

/// How many bytes there are before the first line feed. Each line is cut off before it is read, so that no step after
/// that has to look for its end.
pub fn line_length(text: &[u8]) -> usize
    ensures count { result ≡ line_length text.now }
    ensures bound { result ≤ length text.now }
{
    bytes_before(text, b'\n')
}

// How many bytes come before the first that is this one: all where none is, so that the last line needs no line feed.
fn bytes_before(text: &[u8], end: u8) -> usize
    ensures count { result ≡ prefix_len (λ c. not (c == end)) text.now }
    ensures bound { result ≤ length text.now }
{
    text.iter().take_while(|byte| **byte != end).count()
}

// A carriage return is one, so that lines may end in it. A line feed isn't: no line has one.
fn is_blank(byte: u8) -> bool
    ensures { result ≡ is_blank byte }
{
    byte == b' ' || byte == b'\t' || byte == b'\r'
}
