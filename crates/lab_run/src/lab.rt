//! A module, and what is asked of it.

ghost use Rattle.std.specs.Prelude.{◌≡◌, ◌≢◌, ◌⊎◌, None, IfOk, IfErr, map};
ghost use Rattle.serde_json.specs.View.{view};
ghost use Rattle.access_core.specs.declared.reply.Reply.TheVariants as reply;
ghost use Rattle.est_explore.specs.Views.{module_of};
ghost use Rattle.est_micro.specs.Engine.{IsNetOf};
ghost use Rattle.lab_lines.specs.Comparing.{IsComparison};
ghost use Rattle.lab_lines.specs.Exploring.{IsExploration};
ghost use Rattle.lab_lines.specs.TableJson.{IsTableTold, IsTooLarge};
ghost use Rattle.lab_lines.specs.Tests.{test_of};
ghost use Rattle.lab_run.specs.Walking.{GoesBackIf, MakesIf, TriesIf};
ghost use Rattle.lab_run.specs.Answers.{IsBadClaimTold, IsLoadedTold, IsOtherInterface, Loads};
ghost use Rattle.lab_run.specs.Answers.{Obeys, TellsAmong, TellsIf, TellsOfBoth, TellsOfClaims};
ghost use Rattle.lab_run.specs.Answers.{TellsOfKernel, TellsOfTable, TellsOfTwo};
ghost use Rattle.wire_lines.specs.Replies.{line_of};
ghost use Rattle.wire_lines.specs.Requests.{IsValue};

use crate::stepped_module::{SteppedModule, refusal_of};
use access_core::refusal::Refusal;
use access_core::reply::Reply;
use est_cover::lawful_inputs::LawfulInputs;
use est_explore::one_module::OneModule;
use est_explore::two_modules::{EnginePair, TwoModules};
use est_micro::micro::Micro;
use est_net::net::Net;
use lab_claims::claims::{BadClaim, read_claims};
use lab_lines::asked_test::AskedTest;
use lab_lines::comparing::{are_same, compare_modules};
use lab_lines::exploring::judge_module;
use lab_lines::found_json::names_json;
use lab_lines::offers::signals_of_names;
use lab_lines::refusal::{CLAIM_CODE, INTERFACE_CODE};
use lab_lines::request::{Request, SearchScope};
use lab_lines::statements::kernel_json;
use lab_lines::table_json::find_table;
use reactor_core::kernel_module::Module;
use reactor_core::reading::read_module;
use serde_json::{Value, json};
use state_search::search::Limits;
use std::alloc::{AllocError, Global};
use std::marker::PhantomData;
use wire_lines::reply::reply_line;

/// What a request is answered.
#[derive(Drop)]
pub enum LabReply {
    /// A refusal, which has the line that the server gives it.
    Refused(Refusal),
    /// A value, which is the line.
    Json(Value),
    /// The line itself, with its LF.
    Line(Vec<u8>),
}

/// What is loaded.
#[derive(Drop)]
pub struct Lab {
    stepped: Option<SteppedModule>,
}

/// The engine of a module.
fn engine_of(alloc: Global, loaded: &Module) -> Result<Micro, AllocError>
    ensures { IfOk result (λ m. IsNetOf m.net loaded.now.kernel) }
{
    let net = Net::build(alloc, &loaded.kernel)?;
    Ok(Micro::new(net))
}

/// A module as a search sees it.
fn one_module(loaded: &Module) -> OneModule<'_, Micro>
    ensures { result.kernel.now ≡ loaded.now.kernel }
{
    OneModule {
        kernel: &loaded.kernel,
        engine: PhantomData,
    }
}

/// How far a search goes.
pub fn limits(most: u64) -> Limits
    ensures states { result.states ≡ most }
    ensures steps { result.steps ≡ most }
{
    let most = most as usize;
    Limits {
        states: most,
        steps: most,
    }
}

/// The line of a refusal, as a value.
fn refusal_json(alloc: Global, refusal: Refusal) -> Result<Value, AllocError>
    ensures { IfOk result (λ v. IsValue (line_of (reply.Refused refusal)) (view v)) }
{
    let line = reply_line(alloc, &Reply::Refused(refusal))?;
    match Value::from_slice(alloc, line.as_slice()) {
        Ok(value) => Ok(value),
        Err(_) => Err(AllocError),
    }
}

/// That a claim can't be read.
fn bad_claim_json(alloc: Global, bad: BadClaim) -> Result<Value, AllocError>
    ensures { IfOk result (λ v. IsBadClaimTold bad (view v)) }
{
    let number = bad.number;
    let why = refusal_json(alloc, Refusal::from(bad.why))?;
    json!(in alloc; {"claim": number, "code": CLAIM_CODE, "fault": "Claim", "why": why})
}

/// The verdicts on tests of a module that is offered these inputs alone.
fn judge_tests(
    alloc: Global,
    loaded: &Module,
    allowed: u64,
    tests: &[AskedTest],
    limits: Limits,
) -> Result<Value, AllocError>
    ensures { IfOk result (λ v. IsExploration (module_of loaded.now.kernel loaded.now.relations
        allowed) (map test_of tests.now) limits.states limits.steps (view v)) }
{
    let mut engine = engine_of(alloc, loaded)?;
    let reactive = one_module(loaded);
    let subject = LawfulInputs {
        reactive: &reactive,
        relations: &loaded.relations,
        allowed,
        watched: 0,
    };
    judge_module(alloc, &subject, &mut engine, tests, limits)
}

/// Judges claims of a module that is offered these inputs alone.
pub fn explore_among(
    alloc: Global,
    loaded: &Module,
    claims: &[&str],
    allowed: u64,
    limits: Limits,
) -> Result<Value, AllocError>
    ensures { IfOk result (λ v. TellsAmong loaded.now (map (λ t. t.now) claims.now) allowed
        limits.states limits.steps (view v)) }
{
    match read_claims(alloc, loaded.kernel.interface(), claims)? {
        Ok(tests) => judge_tests(alloc, loaded, allowed, tests.as_slice(), limits),
        Err(bad) => bad_claim_json(alloc, bad),
    }
}

/// Judges claims of a module.
fn explore_claims(
    alloc: Global,
    loaded: &Module,
    claims: &[&str],
    scope: &SearchScope<'_>,
) -> Result<LabReply, AllocError>
    ensures { IfOk result (TellsOfClaims loaded.now (map (λ t. t.now) claims.now) scope.now) }
{
    let allowed = match signals_of_names(loaded.kernel.interface(), scope.inputs.as_slice()) {
        Ok(allowed) => allowed,
        Err(refused) => return Ok(LabReply::Refused(refusal_of(refused))),
    };
    let value = explore_among(alloc, loaded, claims, allowed, limits(scope.most))?;
    Ok(LabReply::Json(value))
}

/// Compares two modules of one interface, which are offered these inputs alone.
fn compare_among(
    alloc: Global,
    one: &Module,
    other: &Module,
    allowed: u64,
    limits: Limits,
) -> Result<Value, AllocError>
    requires { other.now.kernel.interface ≡ one.now.kernel.interface }
    ensures { IfOk result (λ v. IsComparison (module_of one.now.kernel one.now.relations allowed)
        (module_of other.now.kernel one.now.relations allowed) limits.states limits.steps
        (view v)) }
{
    let mut engines = EnginePair {
        first: engine_of(alloc, one)?,
        second: engine_of(alloc, other)?,
    };
    let both = TwoModules {
        first: one_module(one),
        second: one_module(other),
    };
    let subject = LawfulInputs {
        reactive: &both,
        relations: &one.relations,
        allowed,
        watched: 0,
    };
    compare_modules(alloc, &subject, &mut engines, limits)
}

/// That the module of a text has another interface.
fn other_interface(alloc: Global, loaded: &Module, other: &Module) -> Result<Value, AllocError>
    requires { other.now.kernel.interface ≢ loaded.now.kernel.interface }
    ensures { IfOk result (λ v. IsOtherInterface loaded.now other.now (view v)) }
{
    json!(in alloc; {"code": INTERFACE_CODE, "fault": "Interface"})
}

/// Compares a module with another, which are offered these inputs alone.
fn compare_if_alike(
    alloc: Global,
    loaded: &Module,
    other: &Module,
    allowed: u64,
    limits: Limits,
) -> Result<Value, AllocError>
    ensures { IfOk result (λ v. TellsOfTwo loaded.now other.now allowed limits.states limits.steps
        (view v)) }
{
    if are_same(other.kernel.interface(), loaded.kernel.interface()) {
        compare_among(alloc, loaded, other, allowed, limits)
    } else {
        other_interface(alloc, loaded, other)
    }
}

/// Compares a module with that of a text.
fn compare_with_text(
    alloc: Global,
    loaded: &Module,
    main: &str,
    text: &str,
    scope: &SearchScope<'_>,
) -> Result<LabReply, AllocError>
    ensures { IfOk result (TellsOfBoth loaded.now main.now text.now scope.now) }
{
    let allowed = match signals_of_names(loaded.kernel.interface(), scope.inputs.as_slice()) {
        Ok(allowed) => allowed,
        Err(refused) => return Ok(LabReply::Refused(refusal_of(refused))),
    };
    let other = match read_module(alloc, main, text) {
        Ok(other) => other,
        Err(refusal) => return Ok(LabReply::Refused(Refusal::from(refusal))),
    };
    let value = compare_if_alike(alloc, loaded, &other, allowed, limits(scope.most))?;
    Ok(LabReply::Json(value))
}

/// The table of a module that is offered these inputs alone.
fn table_among(
    alloc: Global,
    loaded: &Module,
    allowed: u64,
    limits: Limits,
) -> Result<Value, AllocError>
    ensures { IfOk result (λ v.
        IsTableTold (module_of loaded.now.kernel loaded.now.relations allowed) (view v)
        ⊎ IsTooLarge (module_of loaded.now.kernel loaded.now.relations allowed) limits.states
        limits.steps (view v)) }
{
    let mut engine = engine_of(alloc, loaded)?;
    let reactive = one_module(loaded);
    let subject = LawfulInputs {
        reactive: &reactive,
        relations: &loaded.relations,
        allowed,
        watched: 0,
    };
    find_table(alloc, &subject, &mut engine, limits)
}

/// The table of a module.
fn table_of(alloc: Global, loaded: &Module, scope: &SearchScope<'_>) -> Result<LabReply, AllocError>
    ensures { IfOk result (TellsOfTable loaded.now scope.now) }
{
    let allowed = match signals_of_names(loaded.kernel.interface(), scope.inputs.as_slice()) {
        Ok(allowed) => allowed,
        Err(refused) => return Ok(LabReply::Refused(refusal_of(refused))),
    };
    let value = table_among(alloc, loaded, allowed, limits(scope.most))?;
    Ok(LabReply::Json(value))
}

/// What is told of a module that was loaded.
fn module_json(alloc: Global, loaded: &Module) -> Result<Value, AllocError>
    ensures { IfOk result (λ v. IsLoadedTold loaded.now (view v)) }
{
    let interface = loaded.kernel.interface();
    let inputs = names_json(alloc, interface, interface.offerable())?;
    let outputs = names_json(alloc, interface, interface.emittable())?;
    json!(in alloc; {"inputs": inputs, "ok": "load", "outputs": outputs})
}

/// The statements of a module.
fn kernel_of(alloc: Global, loaded: &Module) -> Result<LabReply, AllocError>
    ensures { IfOk result (TellsOfKernel loaded.now) }
{
    Ok(LabReply::Json(kernel_json(alloc, &loaded.kernel)?))
}

impl Lab {
    /// A lab in which nothing is loaded.
    pub fn new() -> Lab
        ensures { result.stepped ≡ None }
    {
        Lab { stepped: None }
    }

    /// Loads the module `main` of a text.
    fn load(&mut self, alloc: Global, main: &str, text: &str) -> Result<LabReply, AllocError>
        ensures done { IfOk result (λ told. Loads main.now text.now self.old.stepped told
            self.new.stepped) }
        ensures kept { IfErr result (λ _. self.new ≡ self.old) }
    {
        let loaded = match read_module(alloc, main, text) {
            Ok(loaded) => loaded,
            Err(refusal) => return Ok(LabReply::Refused(Refusal::from(refusal))),
        };
        let value = module_json(alloc, &loaded)?;
        self.stepped = Some(SteppedModule::begin(alloc, loaded)?);
        Ok(LabReply::Json(value))
    }

    /// Tells the statements of the module that is loaded.
    fn tell_kernel(&self, alloc: Global) -> Result<LabReply, AllocError>
        ensures { IfOk result (TellsIf self.now.stepped TellsOfKernel) }
    {
        match &self.stepped {
            Some(stepped) => kernel_of(alloc, stepped.module()),
            None => Ok(LabReply::Refused(Refusal::Empty)),
        }
    }

    /// Judges claims on all runs of the module that is loaded.
    fn explore(
        &self,
        alloc: Global,
        claims: &[&str],
        scope: &SearchScope<'_>,
    ) -> Result<LabReply, AllocError>
        ensures { IfOk result (TellsIf self.now.stepped (λ m. TellsOfClaims m
            (map (λ t. t.now) claims.now) scope.now)) }
    {
        match &self.stepped {
            Some(stepped) => explore_claims(alloc, stepped.module(), claims, scope),
            None => Ok(LabReply::Refused(Refusal::Empty)),
        }
    }

    /// Compares the module that is loaded with the module `main` of a text.
    fn compare(
        &self,
        alloc: Global,
        main: &str,
        text: &str,
        scope: &SearchScope<'_>,
    ) -> Result<LabReply, AllocError>
        ensures { IfOk result (TellsIf self.now.stepped (λ m. TellsOfBoth m main.now text.now
            scope.now)) }
    {
        match &self.stepped {
            Some(stepped) => compare_with_text(alloc, stepped.module(), main, text, scope),
            None => Ok(LabReply::Refused(Refusal::Empty)),
        }
    }

    /// Tells the table of the module that is loaded.
    fn tabulate(&self, alloc: Global, scope: &SearchScope<'_>) -> Result<LabReply, AllocError>
        ensures { IfOk result (TellsIf self.now.stepped (λ m. TellsOfTable m scope.now)) }
    {
        match &self.stepped {
            Some(stepped) => table_of(alloc, stepped.module(), scope),
            None => Ok(LabReply::Refused(Refusal::Empty)),
        }
    }

    /// Makes the next instant of the module that is loaded.
    fn make_instant(&mut self, alloc: Global, names: &[&str]) -> Result<LabReply, AllocError>
        ensures done { IfOk result (λ told. MakesIf self.old.stepped (map (λ t. t.now) names.now)
            told self.new.stepped) }
        ensures kept { IfErr result (λ _. self.new ≡ self.old) }
    {
        match &mut self.stepped {
            Some(stepped) => stepped.make(alloc, names),
            None => Ok(LabReply::Refused(Refusal::Empty)),
        }
    }

    /// Tries the next instant of the module that is loaded.
    fn try_instant(&mut self, alloc: Global, names: &[&str]) -> Result<LabReply, AllocError>
        ensures done { IfOk result (λ told. TriesIf self.old.stepped (map (λ t. t.now) names.now)
            told self.new.stepped) }
        ensures kept { IfErr result (λ _. self.new ≡ self.old) }
    {
        match &mut self.stepped {
            Some(stepped) => stepped.try_instant(alloc, names),
            None => Ok(LabReply::Refused(Refusal::Empty)),
        }
    }

    /// Goes back with the module that is loaded.
    fn go_back(&mut self, alloc: Global, to: u64) -> Result<LabReply, AllocError>
        ensures done { IfOk result (λ told. GoesBackIf self.old.stepped to told self.new.stepped) }
        ensures kept { IfErr result (λ _. self.new ≡ self.old) }
    {
        match &mut self.stepped {
            Some(stepped) => stepped.go_back(alloc, to),
            None => Ok(LabReply::Refused(Refusal::Empty)),
        }
    }

    /// Does what is asked.
    pub fn obey(&mut self, alloc: Global, request: &Request<'_>) -> Result<LabReply, AllocError>
        ensures done { IfOk result (λ told. Obeys self.old.stepped request.now told
            self.new.stepped) }
        ensures kept { IfErr result (λ _. self.new ≡ self.old) }
    {
        match request {
            Request::Load { main, text } => self.load(alloc, *main, *text),
            Request::Kernel => self.tell_kernel(alloc),
            Request::Explore { claims, scope } => self.explore(alloc, claims.as_slice(), scope),
            Request::Same { main, text, scope } => self.compare(alloc, *main, *text, scope),
            Request::Table(scope) => self.tabulate(alloc, scope),
            Request::Instant(names) => self.make_instant(alloc, names.as_slice()),
            Request::Try(names) => self.try_instant(alloc, names.as_slice()),
            Request::Back(to) => self.go_back(alloc, *to),
        }
    }
}
