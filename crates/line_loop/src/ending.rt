// How a run ends.

/// Why `run_lines` returned.
#[derive(Clone, Copy, Debug, PartialEq, Eq)]
pub enum Ending {
    /// The input was read to its end, or the machine was done, and every reply was written.
    Done,
    /// A read failed.
    ReadFault,
    /// A write failed.
    WriteFault,
    /// The context failed while a line was answered.
    ContextFault,
    /// There was no memory.
    NoMemory,
    /// The limit of bytes was taken, and there was another byte.
    InputLimit,
}
