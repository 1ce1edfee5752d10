//! The words by which lines and calls are known.
ghost use Rattle.std.specs.Prelude.{◌≡◌};
ghost use Rattle.io_script.specs.GrammarKinds.{kind_of, is_all_digits, call_name_of, moving_name_of};
ghost use Rattle.io_script.specs.GrammarLines.{state_of, mode_of};

use iob_base::Mode;

/// What a line is, by its first word.
#[derive(Clone, Copy)]
pub enum LineKind {
    Header,
    Device,
    Folio,
    Grain,
    File,
    Size,
    Extent,
    Data,
    Fault,
    Phase,
    Call,
    Unknown,
}

/// What a call does, by its name.
#[derive(Clone, Copy)]
pub enum CallName {
    Pread,
    Pwrite,
    Dread,
    Dwrite,
    Xread,
    Xwrite,
    Zero,
    Punch,
    Alloc,
    Wb,
    Sync,
    Drop,
    Trunc,
}

/// Whether the blocks of an extent were written.
#[derive(Clone, Copy)]
pub enum State {
    /// Their bytes are their own.
    Written,
    /// They have space, and were never written.
    Fresh,
}

/// What follows the name of a call's file.
#[derive(Clone, Copy)]
pub enum Shape {
    /// An offset and the lengths of segments.
    Reading,
    /// An offset and the bytes of segments.
    Writing,
    /// Where a range begins and how long it is.
    Ranging,
    /// The size of the file.
    Sizing,
    /// Nothing.
    Bare,
}

impl CallName {
    ghost use Rattle.io_script.specs.GrammarCalls.{shape_of, is_direct_name, is_zeroing_name, is_cutting_name, is_of_mode, is_of_size};

    /// What follows the name of the file.
    pub fn shape(self) -> Shape
        ensures { result ≡ shape_of self }
    {
        match self {
            CallName::Pread | CallName::Dread | CallName::Xread => Shape::Reading,
            CallName::Pwrite | CallName::Dwrite | CallName::Xwrite => Shape::Writing,
            CallName::Zero | CallName::Punch | CallName::Alloc | CallName::Wb => Shape::Ranging,
            CallName::Trunc => Shape::Sizing,
            CallName::Sync | CallName::Drop => Shape::Bare,
        }
    }

    /// Whether the call moves pages of its caller.
    pub fn is_direct(self) -> bool
        ensures { result ≡ is_direct_name self }
    {
        matches!(self, CallName::Dread | CallName::Dwrite)
    }

    /// Whether the call sets bytes to zero.
    pub fn is_zeroing(self) -> bool
        ensures { result ≡ is_zeroing_name self }
    {
        matches!(self, CallName::Zero | CallName::Punch)
    }

    /// Whether the call cuts its file.
    pub fn is_cutting(self) -> bool
        ensures { result ≡ is_cutting_name self }
    {
        matches!(self, CallName::Trunc)
    }

    /// Whether the call is allowed on a file that has a size, or on one that has none.
    pub fn is_of_size(self, sized: bool) -> bool
        ensures { result ≡ is_of_size self sized }
    {
        match self {
            CallName::Trunc => sized,
            CallName::Dread | CallName::Dwrite => !sized,
            _ => true,
        }
    }

    /// Whether the call is allowed on a file of this mode.
    pub fn is_of_mode(self, mode: Mode) -> bool
        ensures { result ≡ is_of_mode self mode }
    {
        match (self, mode) {
            (CallName::Pread | CallName::Pwrite | CallName::Dread | CallName::Dwrite, Mode::Dax) =>
                { false }
            (CallName::Xread | CallName::Xwrite, Mode::Cached) => false,
            _ => true,
        }
    }
}

/// Whether a word has digits alone.
fn has_digits_alone(word: &[u8]) -> bool
    ensures { result ≡ is_all_digits word.now }
{
    word.iter().all(|b| b.is_ascii_digit())
}

/// What a line with this first word is.
pub fn line_kind(word: &[u8]) -> LineKind
    ensures { result ≡ kind_of word.now }
{
    if has_digits_alone(word) {
        return LineKind::Call;
    }
    if word == b"data".as_slice() {
        return LineKind::Data;
    }
    if word == b"ext".as_slice() {
        return LineKind::Extent;
    }
    if word == b"fault".as_slice() {
        return LineKind::Fault;
    }
    if word == b"file".as_slice() {
        return LineKind::File;
    }
    if word == b"phase".as_slice() {
        return LineKind::Phase;
    }
    if word == b"iomap".as_slice() {
        return LineKind::Header;
    }
    if word == b"dev".as_slice() {
        return LineKind::Device;
    }
    if word == b"folio".as_slice() {
        return LineKind::Folio;
    }
    if word == b"grain".as_slice() {
        return LineKind::Grain;
    }
    if word == b"size".as_slice() {
        return LineKind::Size;
    }
    LineKind::Unknown
}

/// The calls that move bytes between their caller and a file.
fn moving_name(word: &[u8]) -> Option<CallName>
    ensures { result ≡ moving_name_of word.now }
{
    if word == b"pread".as_slice() {
        return Some(CallName::Pread);
    }
    if word == b"pwrite".as_slice() {
        return Some(CallName::Pwrite);
    }
    if word == b"dread".as_slice() {
        return Some(CallName::Dread);
    }
    if word == b"dwrite".as_slice() {
        return Some(CallName::Dwrite);
    }
    if word == b"xread".as_slice() {
        return Some(CallName::Xread);
    }
    if word == b"xwrite".as_slice() {
        return Some(CallName::Xwrite);
    }
    None
}

/// The call of this name.
pub fn call_name(word: &[u8]) -> Option<CallName>
    ensures { result ≡ call_name_of word.now }
{
    if word == b"zero".as_slice() {
        return Some(CallName::Zero);
    }
    if word == b"punch".as_slice() {
        return Some(CallName::Punch);
    }
    if word == b"alloc".as_slice() {
        return Some(CallName::Alloc);
    }
    if word == b"wb".as_slice() {
        return Some(CallName::Wb);
    }
    if word == b"sync".as_slice() {
        return Some(CallName::Sync);
    }
    if word == b"drop".as_slice() {
        return Some(CallName::Drop);
    }
    if word == b"trunc".as_slice() {
        return Some(CallName::Trunc);
    }
    moving_name(word)
}

/// The state of an extent by its word.
pub fn state_named(word: &[u8]) -> Option<State>
    ensures { result ≡ state_of word.now }
{
    if word == b"mapped".as_slice() {
        return Some(State::Written);
    }
    if word == b"unwritten".as_slice() {
        return Some(State::Fresh);
    }
    None
}

/// The mode of a file by its word.
pub fn mode_named(word: &[u8]) -> Option<Mode>
    ensures { result ≡ mode_of word.now }
{
    if word == b"cached".as_slice() {
        return Some(Mode::Cached);
    }
    if word == b"dax".as_slice() {
        return Some(Mode::Dax);
    }
    None
}
