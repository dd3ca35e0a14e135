//! The keywords: words of the form of an identifier that are no name.
ghost use Rattle.std.specs.Prelude.{◌≡◌};
ghost use Rattle.est_text.specs.Keywords.{keyword_of};

/// A keyword of the language.
#[derive(Clone, Copy, PartialEq, Eq, Debug)]
pub enum Keyword {
    Module,
    End,
    Input,
    Output,
    Inputoutput,
    Relation,
    Nothing,
    Pause,
    Halt,
    Emit,
    Sustain,
    Present,
    Then,
    Else,
    Suspend,
    When,
    Immediate,
    Loop,
    Each,
    Every,
    Do,
    Await,
    Abort,
    Weak,
    Trap,
    In,
    Exit,
    Signal,
    Run,
    And,
    Or,
    Not,
}

/// The keyword that a word is, if it is one.
pub fn keyword_of(word: &str) -> Option<Keyword>
    ensures { result ≡ keyword_of word.now }
{
    match word {
        "module" => Some(Keyword::Module),
        "end" => Some(Keyword::End),
        "input" => Some(Keyword::Input),
        "output" => Some(Keyword::Output),
        "inputoutput" => Some(Keyword::Inputoutput),
        "relation" => Some(Keyword::Relation),
        "nothing" => Some(Keyword::Nothing),
        "pause" => Some(Keyword::Pause),
        "halt" => Some(Keyword::Halt),
        "emit" => Some(Keyword::Emit),
        "sustain" => Some(Keyword::Sustain),
        "present" => Some(Keyword::Present),
        "then" => Some(Keyword::Then),
        "else" => Some(Keyword::Else),
        "suspend" => Some(Keyword::Suspend),
        "when" => Some(Keyword::When),
        "immediate" => Some(Keyword::Immediate),
        "loop" => Some(Keyword::Loop),
        "each" => Some(Keyword::Each),
        "every" => Some(Keyword::Every),
        "do" => Some(Keyword::Do),
        "await" => Some(Keyword::Await),
        "abort" => Some(Keyword::Abort),
        "weak" => Some(Keyword::Weak),
        "trap" => Some(Keyword::Trap),
        "in" => Some(Keyword::In),
        "exit" => Some(Keyword::Exit),
        "signal" => Some(Keyword::Signal),
        "run" => Some(Keyword::Run),
        "and" => Some(Keyword::And),
        "or" => Some(Keyword::Or),
        "not" => Some(Keyword::Not),
        _ => None,
    }
}
