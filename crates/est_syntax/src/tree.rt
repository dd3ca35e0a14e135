//! The tree of a library of modules, as it is written: names where they stand, and no places. The
//! forms are those of Berry's Esterel v5 Language Primer, without values; beside each stands how it
//! is spelt.
//!
//! Whatever walks a tree, its drop included, recurses through nested units, and through `not` and
//! parentheses in a test. A tree that was read nests at most 128 of these, however long its lists
//! are.
use est_text::identifier::Identifier;

/// A part of a test: what `and` stands between.
#[derive(Drop)]
#[cycle(tests)]
pub enum Literal {
    /// `S`
    Signal(Identifier),
    /// `not l`
    Not(Box<Literal>),
    /// `(e)`
    Group(Expression),
}

/// Literals with `and` between them: all of them hold.
#[derive(Drop)]
#[cycle(tests)]
pub struct Conjunction {
    /// The first literal.
    pub first: Box<Literal>,
    /// The others, in the order of the text.
    pub later: Vec<Literal>,
}

/// Conjunctions with `or` between them: one of them holds.
#[derive(Drop)]
#[cycle(tests)]
pub struct Expression {
    /// The first conjunction.
    pub first: Box<Conjunction>,
    /// The others, in the order of the text.
    pub later: Vec<Conjunction>,
}

/// What is asked: an expression over signals.
#[derive(Drop)]
pub enum Test {
    /// `e`
    Bare(Expression),
    /// `[e]`
    Bracketed(Expression),
}

/// A test that is waited for. With `immediate` it is asked already in the instant in which the
/// waiting begins.
#[derive(Drop)]
pub struct Delay {
    /// Whether `immediate` is written.
    pub immediate: bool,
    /// What is asked.
    pub test: Test,
}

/// One name or more, with commas between them.
#[derive(Drop)]
pub struct Names {
    /// The first name.
    pub first: Identifier,
    /// The others, in the order of the text.
    pub later: Vec<Identifier>,
}

/// A renaming `outer/inner`: the caller's signal stands for the signal of the module that is run.
#[derive(Clone, Copy, PartialEq, Eq)]
pub struct Renaming {
    /// The caller's signal.
    pub outer: Identifier,
    /// The signal of the module that is run.
    pub inner: Identifier,
}

/// How the `end` of a `weak abort` is written.
#[derive(Clone, Copy, PartialEq, Eq)]
pub enum WeakEnd {
    /// Not at all.
    LeftOut,
    /// `end abort`
    EndAbort,
    /// `end weak abort`
    EndWeakAbort,
}

/// A unit: what `;` and `||` stand between. Where a closing keyword may be left out, a flag tells
/// whether it is written.
#[derive(Drop)]
#[cycle(tree)]
pub enum Unit {
    /// `nothing`
    Nothing,
    /// `pause`
    Pause,
    /// `halt`
    Halt,
    /// `emit S`
    Emit(Identifier),
    /// `sustain S`
    Sustain(Identifier),
    /// `exit T`
    Exit(Identifier),
    /// `await S`
    Await(Delay),
    /// `present S` and the branches.
    Present(Test, Branches),
    /// `suspend p when S`. The flag: `end suspend` is written.
    Suspend(Statement, Delay, bool),
    /// `abort p when S`. The flag: `end abort` is written.
    Abort(Statement, Delay, bool),
    /// `weak abort p when S`
    WeakAbort(Statement, Delay, WeakEnd),
    /// `loop p end`. The flag: `loop` stands again after `end`.
    Loop(Statement, bool),
    /// `loop p each S`
    LoopEach(Statement, Test),
    /// `every S do p end`. The flag: `every` stands again after `end`.
    Every(Delay, Statement, bool),
    /// `trap T in p end`. The flag: `trap` stands again after `end`.
    Trap(Identifier, Statement, bool),
    /// `signal A, B in p end`. The flag: `signal` stands again after `end`.
    Signal(Names, Statement, bool),
    /// `run M [signal A/B, C/D]`: the module that is run, and its renamings. Without renamings
    /// there are no brackets.
    Run(Identifier, Vec<Renaming>),
    /// `[p]`
    Group(Statement),
}

/// The branches of a `present`. The flag: `present` stands again after `end`.
#[derive(Drop)]
#[cycle(tree)]
pub enum Branches {
    /// `then p end`
    Then(Statement, bool),
    /// `else q end`
    Else(Statement, bool),
    /// `then p else q end`
    Both(Statement, Statement, bool),
}

/// Units one after another, with `;` between them.
#[derive(Drop)]
#[cycle(tree)]
pub struct Sequence {
    /// The first unit.
    pub first: Box<Unit>,
    /// The others, in the order of the text.
    pub later: Vec<Unit>,
    /// Whether a `;` closes them.
    pub closed: bool,
}

/// Sequences side by side, with `||` between them.
#[derive(Drop)]
#[cycle(tree)]
pub struct Statement {
    /// The first sequence.
    pub first: Box<Sequence>,
    /// The others, in the order of the text.
    pub later: Vec<Sequence>,
}

/// What signals may be offered together.
#[derive(Drop)]
pub enum Relation {
    /// `A # B # C`: at most one of these is offered, of the first, the second and the later ones.
    Excludes(Identifier, Identifier, Vec<Identifier>),
    /// `A => B`: where the first is offered, the second is.
    Implies(Identifier, Identifier),
}

/// A declaration at the head of a module.
#[derive(Drop)]
pub enum Declaration {
    /// `input A, B;`
    Input(Names),
    /// `output A, B;`
    Output(Names),
    /// `inputoutput A, B;`
    InputOutput(Names),
    /// `relation A # B, C => D;`: the first relation, and the later ones.
    Relations(Relation, Vec<Relation>),
}

/// A module, `module M: .. end module`.
#[derive(Drop)]
pub struct Module {
    /// Its name.
    pub name: Identifier,
    /// Its declarations, in the order of the text.
    pub declarations: Vec<Declaration>,
    /// Its body.
    pub body: Statement,
}

/// One module or more.
#[derive(Drop)]
pub struct Library {
    /// The first module.
    pub first: Module,
    /// The others, in the order of the text.
    pub later: Vec<Module>,
}
