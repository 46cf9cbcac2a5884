//! The header that a listed capture opens with.
//! It is read before the loop, which then runs by the settings that it states: so the loop is that of the other forms.
//!
//! Of its 32 bytes, the first eight are always the same. Then come the shape of the disk and the zones of the stream, a
//! byte each, and two zeros. From byte 12 on there are four numbers of four bytes: the sectors of both layers, and the
//! blocks of the Initial Zone and of the zones after data. The last four are zeros.
//!
//! What is called worded comes from the arguments, and what is called stated from a header. Clauses `causes` say by the
//! counts of a stream that the call that failed, where one did, was its last.
ghost use Rattle.std.specs.Prelude.{◌≡◌, ◌<◌, ℕ, List, Some, IfOk, IfErr};
ghost use Rattle.dvd_capture.specs.Header.{header_bytes};
ghost use Rattle.dvd_layout.specs.Lengths.{initial_fault};
ghost use Rattle.dvd_loop.specs.UnitCommand.{HasReadCause};
ghost use Rattle.dvd_commands.specs.HeaderEnds.{AnswersHeader, HeaderCounts, ReadsHeader};
ghost use Rattle.dvd_commands.specs.Inner.Opened.{EndsInHeader, HasBegun, HasOpened, IsWorded, IsWordedInitial};
ghost use Rattle.dvd_commands.specs.Opening.{IsHeaderOf, fault_byte, layer_byte, shape_number, zones_number};
ghost use Rattle.dvd_capture.specs.Captured.{HasSize};
ghost use Rattle.dvd_capture.specs.declared.form.Form.TheVariants.{Listed};
ghost use Rattle.dvd_words.specs.Settings.{IsLayoutOf, broken_rule};
ghost use Rattle.dvd_words.specs.declared.settings.Settings.{Settings as WordSettings};

use dvd_capture::{Form, Header, HeaderFault};
use dvd_layout::{Layout, LayoutFault, Shape, Zones, check_initial};
use dvd_loop::LoopEnd;
use dvd_ports::{Failed, Source, read_whole};
use dvd_words::Settings;

/// What is found where a listed capture begins. It isn't the end of a loop, since `listed_layout` is for callers
/// without one too; `open_listed` makes ends of it.
#[derive(Clone, Copy, Debug, PartialEq, Eq)]
pub enum HeaderEnd {
    /// A header, which states this layout and these zones.
    Found { layout: Layout, zones: Zones },
    /// The input ended in the header, after this number of bytes.
    Short { bytes: u32 },
    /// 32 bytes that break a rule; the field that breaks it begins at this byte.
    BadHeader { at: u32 },
    /// A read failed before all 32 bytes came.
    ReadFault,
}

/// Reads the header of a listed capture: 32 bytes, and none after them. It is `Short` exactly where the input ended
/// before. It is `BadHeader` exactly where a byte isn't allowed in a header or the layout that it states breaks a rule.
/// It is `ReadFault` only where a read failed. `header` is of the bytes, and `counts` of the failed calls and ends that
/// the source counts. It is public for callers who read a listed capture by a loop, which knows no header.
pub fn listed_layout<S: Source>(src: &mut S) -> HeaderEnd
    ensures header { ReadsHeader result (S.seen src.old) (S.seen src.new) }
    ensures counts { HeaderCounts result (S.seen src.old) (S.seen src.new) }
{
    let mut bytes = [0; 32];
    // Fewer than 32 come only at the end of the input. The count has room in 32 bits.
    match read_whole(src, &mut bytes) {
        Ok(count) if count < 32 => HeaderEnd::Short {
            bytes: count as u32,
        },
        Ok(_) => layout_in(&bytes),
        Err(Failed) => HeaderEnd::ReadFault,
    }
}

// What 32 bytes state, if they break no rule.
// A byte that no header has is found first, then a rule of layouts: `Header` knows no layout, and the numbers are read
// only of a header that has the right bytes elsewhere. `left` is what comes after them: the answer holds whatever that
// is.
fn layout_in(bytes: &[u8; 32]) -> HeaderEnd
    ensures { (left : List ℕ) → AnswersHeader result bytes.now left }
{
    match Header::from_bytes(bytes) {
        Ok(header) => layout_of(&header),
        Err(HeaderFault::Place { at }) => HeaderEnd::BadHeader { at: u32::from(at) },
    }
}

// The layout that a header states, if it breaks no rule.
// Shape and zones have known numbers, as every `Header` does: only its lengths may break a rule.
fn layout_of(header: &Header) -> HeaderEnd
    ensures { (left : List ℕ) → AnswersHeader result (header_bytes header.now) left }
{
    match Layout::new(
        shape_of(header.shape),
        header.sectors0,
        header.sectors1,
        header.initial,
        header.tail,
    ) {
        Ok(layout) => HeaderEnd::Found {
            layout,
            zones: zones_of(header.zones),
        },
        Err(fault) => HeaderEnd::BadHeader {
            at: fault_byte(fault),
        },
    }
}

/// The header that states a layout and zones: `convert` writes it. The clause is of any settings that ask for this
/// layout and these zones. `IsHeaderOf` is of two settings, those of the arguments and those that the header states:
/// here they are the same, since the header is made of them.
pub(crate) fn header_of(layout: &Layout, zones: Zones) -> Header
    ensures { (settings : WordSettings) → IsLayoutOf settings layout.now → settings.zones ≡ zones
        → IsHeaderOf settings settings (header_bytes result) }
{
    Header {
        shape: number_of_shape(layout.shape),
        zones: number_of_zones(zones),
        sectors0: layout.sectors0,
        sectors1: layout.sectors1,
        initial: layout.initial,
        tail: layout.tail,
    }
}

// The number of a shape in byte 8 of a header. The numbers are those of the format, so the order of the variants
// doesn't matter. `known` is what a `Header` asks of its fields.
fn number_of_shape(shape: Shape) -> u8
    ensures number { shape_number shape ≡ result }
    ensures known { result < 3 }
{
    match shape {
        Shape::Single => 0,
        Shape::Parallel => 1,
        Shape::Opposite => 2,
    }
}

// Likewise the number of the zones, in byte 9.
fn number_of_zones(zones: Zones) -> u8
    ensures number { zones_number zones ≡ result }
    ensures known { result < 2 }
{
    match zones {
        Zones::DataOnly => 0,
        Zones::All => 1,
    }
}

// The shape of a number in byte 8. It is 0, 1 or 2, since no other is a `Header`, so the last arm is that of 2.
// Likewise below, for the zones.
fn shape_of(number: u8) -> Shape
    requires { number < 3 }
    ensures { shape_number result ≡ number }
{
    match number {
        0 => Shape::Single,
        1 => Shape::Parallel,
        _ => Shape::Opposite,
    }
}

fn zones_of(number: u8) -> Zones
    requires { number < 2 }
    ensures { zones_number result ≡ number }
{
    match number {
        0 => Zones::DataOnly,
        _ => Zones::All,
    }
}

// The first byte of the field that a broken rule of layouts names, as the head of this file has the fields.
// So the user finds the wrong field in a view of the capture's bytes. A rule of several fields names that of the
// sectors which it finds wrong.
fn fault_byte(fault: LayoutFault) -> u32
    ensures { result ≡ fault_byte fault }
{
    match fault {
        LayoutFault::EmptyLayer { layer } => layer_byte(layer),
        // Only layer 0 of two has to fill whole blocks.
        LayoutFault::OddLayer { .. } => 12,
        LayoutFault::SecondLayer { .. } => 16,
        LayoutFault::LayerLonger { .. } => 16,
        LayoutFault::InitialTooLong { .. } => 20,
        LayoutFault::TailTooLong { .. } => 24,
        LayoutFault::LayerTooLong { layer, .. } => layer_byte(layer),
    }
}

// The first byte of the sectors of a layer, 0 or 1.
fn layer_byte(layer: u8) -> u32
    ensures { result ≡ layer_byte layer }
{
    if layer == 0 { 12 } else { 16 }
}

/// The layout that the arguments ask for, or the first rule that it breaks; none where a listed capture states its own.
/// It is called before any memory is taken, so that a broken rule is the first thing to be found. The header can't be
/// read so early: a command that has no memory must have read nothing.
pub(crate) fn layout_from_arguments(settings: &Settings) -> Result<Option<Layout>, LayoutFault>
    ensures worded { IfOk result (IsWorded settings.now) }
    ensures refused { IfErr result (λ fault. HasSize settings.now.form × (broken_rule settings.now ≡ Some fault)) }
{
    match settings.form {
        Form::Listed => Ok(None),
        Form::Plain | Form::Marked => Ok(Some(settings.layout()?)),
    }
}

/// The length of the Initial Zone that the arguments ask for, or the rule that it breaks; none where a listed capture
/// states its own. It is for `info`, which has no other length of a layout. The length is that of the settings, and the
/// answer has the form of `layout_from_arguments`: what counts is whether there is one.
pub(crate) fn worded_initial(settings: &Settings) -> Result<Option<u32>, LayoutFault>
    ensures worded { IfOk result (IsWordedInitial settings.now) }
    ensures refused { IfErr result (λ fault. HasSize settings.now.form × (initial_fault settings.now.initial ≡ Some fault)) }
{
    match settings.form {
        Form::Listed => Ok(None),
        Form::Plain | Form::Marked => {
            check_initial(settings.initial)?;
            Ok(Some(settings.initial))
        }
    }
}

/// The settings of a run with the layout and the zones that a listed capture states, and that layout. The layout
/// follows from the settings, but it is made already, and needn't be tried again.
#[derive(Drop)]
pub(crate) struct Stated {
    /// The settings of the run, as the header states them.
    pub settings: Settings,
    /// The layout of its disk.
    pub layout: Layout,
}

/// Reads the header of a listed capture, or answers how the run ends in it. Settings that no header states, as the
/// workers, stay those of the arguments. `info` calls it by itself: it needs no layout.
pub(crate) fn open_listed<S: Source>(settings: &Settings, src: &mut S) -> Result<Stated, LoopEnd>
    ensures opened { IfOk result (λ stated. HasOpened settings.now (S.seen src.old) (S.seen src.new) stated.settings stated.layout) }
    ensures ended { IfErr result (EndsInHeader settings.now (S.seen src.old) (S.seen src.new)) }
    ensures causes { HasReadCause result (S.seen src.old) (S.seen src.new) }
{
    match listed_layout(src) {
        HeaderEnd::Found { layout, zones } => Ok(Stated {
            settings: Settings {
                shape: layout.shape,
                zones,
                sectors: layout.sectors0,
                sectors1: layout.sectors1,
                initial: layout.initial,
                tail: layout.tail,
                ..*settings
            },
            layout,
        }),
        HeaderEnd::Short { bytes } => Err(LoopEnd::ShortHeader { bytes }),
        HeaderEnd::BadHeader { at } => Err(LoopEnd::BadHeader { at }),
        HeaderEnd::ReadFault => Err(LoopEnd::ReadFault),
    }
}

/// The settings and the layout by which a command goes over its blocks: those of its arguments, or those that the
/// header of a listed capture states, which is read here; or how the run ends in that header.
/// So a loop is the same for all forms, and knows no header. `worded` is what `layout_from_arguments` answered: that
/// was called before memory was taken, and this is called after. The settings are copied, so that both cases give the
/// same.
pub(crate) fn open_blocks<S: Source>(
    settings: &Settings,
    worded: Option<Layout>,
    src: &mut S,
) -> Result<Stated, LoopEnd>
    requires worded { IsWorded settings.now worded }
    ensures begun { IfOk result (λ stated. HasBegun settings.now (S.seen src.old) (S.seen src.new) stated.settings stated.layout) }
    ensures layout { IfOk result (λ stated. IsLayoutOf stated.settings stated.layout) }
    ensures workers { IfOk result (λ stated. stated.settings.workers ≡ settings.now.workers) }
    ensures ended { IfErr result (λ end. (settings.now.form ≡ Listed) × EndsInHeader settings.now (S.seen src.old) (S.seen src.new) end) }
    ensures causes { HasReadCause result (S.seen src.old) (S.seen src.new) }
{
    match worded {
        Some(layout) => Ok(Stated {
            settings: *settings,
            layout,
        }),
        None => open_listed(settings, src),
    }
}
