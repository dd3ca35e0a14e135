//! What is answered to a claim.
use crate::one_module::Answer;
use est_cover::answered::AnsweredInputs;

/// What is answered to a claim.
#[derive(Drop)]
pub enum Verdict {
    /// It holds in every instant of every run.
    Holds,
    /// It fails in the last of these instants, and in no fewer.
    Fails {
        /// What happens.
        word: Vec<AnsweredInputs<Answer>>,
    },
    /// There are more states, or more steps, than were to be looked at.
    TooMany,
}
