//! Why words give no invocation.

/// Why words give no invocation.
#[derive(Drop)]
pub enum WordFault {
    /// The words are no invocation, or ask for help. clap's text about them is for the user.
    Words(clap::Error),
    /// Memory was refused.
    Memory,
}
