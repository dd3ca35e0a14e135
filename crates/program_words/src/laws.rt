//! Laws of the command line: of all words, and of some that are written out.
ghost use Rattle.std.specs.Prelude.{◌≡◌, ◌∷◌, [], List, Some, None, true, false, codes};
ghost use Rattle.std.specs.Borrow.{Bor};
ghost use Rattle.clap.specs.Words.{Text, fault_of, subcommand_of};
ghost use Rattle.clap.specs.declared.error.kind.ErrorKind.TheVariants as kind;
ghost use Rattle.program_words.specs.Words.{IsNamed, IsInvocation, IsSame, command_line};
ghost use Rattle.program_words.specs.declared.invocation.Invocation.{Invocation};
ghost use Rattle.program_words.specs.declared.invocation.Invocation.TheVariants.{Script, Serve};
ghost use Rattle.program_words.specs.declared.invocation.TheConstants.{DEFAULT_WORKERS};

/// Whatever the words are: if they have no fault, they name one of the invocations.
pub fn words_without_a_fault_name_an_order()
    ensures { (words : List Text) → fault_of command_line words ≡ []
        → IsNamed (subcommand_of command_line words) }
{}

/// Words give one invocation at most.
pub fn words_are_one_invocation()
    ensures { (words : List Text) (one other : Invocation) → IsInvocation words one
        → IsInvocation words other
        → IsSame one other }
{}

/// `estserve` alone is no invocation: one has to be named.
pub fn the_name_alone_is_no_order()
    ensures { fault_of command_line (codes "estserve" ∷ []) ≡ kind.MissingSubcommand ∷ [] }
{}

/// `estserve --version` is no invocation: the version is told, and nothing is served.
pub fn a_wish_for_the_version_is_no_order()
    ensures { fault_of command_line (codes "estserve" ∷ codes "--version" ∷ [])
        ≡ kind.DisplayVersion ∷ [] }
{}

/// `estserve script` serves one connection, with no line on its end and no report.
pub fn script_has_no_flags()
    ensures { IsInvocation (codes "estserve" ∷ codes "script" ∷ []) (Script false false) }
{}

/// `--log` asks for the line on the end, and for no more.
pub fn script_with_log_tells_the_end()
    ensures { IsInvocation (codes "estserve" ∷ codes "script" ∷ codes "--log" ∷ [])
        (Script true false) }
{}

/// `--report` asks for the report, and for no more.
pub fn script_with_report_prints_it()
    ensures { IsInvocation (codes "estserve" ∷ codes "script" ∷ codes "--report" ∷ [])
        (Script false true) }
{}

/// `estserve serve --socket a` serves at `a`, four connections at a time, as many as come.
pub fn serve_has_four_workers()
    ensures { (path : Bor Text) → path.now ≡ codes "a"
        → IsInvocation (codes "estserve" ∷ codes "serve" ∷ codes "--socket" ∷ codes "a" ∷ [])
        (Serve (record { path = path; workers = DEFAULT_WORKERS; connections = None })) }
{}

/// A number is read for the option that it follows.
pub fn serve_reads_its_numbers()
    ensures { (path : Bor Text) → path.now ≡ codes "a"
        → IsInvocation (codes "estserve" ∷ codes "serve" ∷ codes "--socket" ∷ codes "a"
        ∷ codes "--workers" ∷ codes "16" ∷ codes "--connections=2" ∷ [])
        (Serve (record { path = path; workers = 16; connections = Some 2 })) }
{}

/// `estserve serve` is no invocation: the socket has to be named.
pub fn serve_without_a_socket_is_no_order()
    ensures { fault_of command_line (codes "estserve" ∷ codes "serve" ∷ [])
        ≡ kind.MissingRequiredArgument ∷ [] }
{}

/// Seventeen workers are one too many.
pub fn seventeen_workers_are_no_order()
    ensures { fault_of command_line (codes "estserve" ∷ codes "serve" ∷ codes "--socket"
        ∷ codes "a" ∷ codes "--workers" ∷ codes "17" ∷ []) ≡ kind.ValueValidation ∷ [] }
{}
