//! How far a script has come.

/// Which lines may stand next.
#[derive(Clone, Copy)]
pub enum Stage {
    /// The header.
    Header,
    /// The device line.
    Device,
    /// The folio line.
    Folio,
    /// The grain line, where the header asks for one.
    Grain,
    /// Lines that say what there is before the first call, and the first phase.
    Files,
    /// Calls and further phases.
    Calls,
}
