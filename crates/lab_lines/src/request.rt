//! What a line may ask for.

/// What a line asks for.
#[derive(Drop)]
pub enum Request<'v> {
    /// To load the module `main` of a text.
    Load {
        main: &'v str,
        text: &'v str,
    },
    /// The kernel of the module that is loaded.
    Kernel,
    /// Whether claims hold in all its runs.
    Explore {
        /// Each is `never T` or `always T`.
        claims: Vec<&'v str>,
        /// What is looked at.
        scope: SearchScope<'v>,
    },
    /// Whether the module `main` of a text does the same.
    Same {
        main: &'v str,
        text: &'v str,
        /// What is looked at.
        scope: SearchScope<'v>,
    },
    /// All its states, and what it does at each.
    Table(SearchScope<'v>),
    /// Its next instant, with the inputs of these names.
    Instant(Vec<&'v str>),
    /// The same, and it stays where it stands.
    Try(Vec<&'v str>),
    /// To go back to where it stood after so many instants.
    Back(u64),
}

/// What a search looks at.
#[derive(Drop)]
pub struct SearchScope<'v> {
    /// The names of the signals that somebody may offer.
    pub inputs: Vec<&'v str>,
    /// With more states than this, or more reactions, the search ends.
    pub most: u64,
}
