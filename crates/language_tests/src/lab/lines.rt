//! Requests as JSON, and the answers to them.

use crate::lab::modules::{both, late};
use crate::literature::loads::engine_of;
use est_cover::lawful_inputs::LawfulInputs;
use est_explore::one_module::OneModule;
use est_explore::verdict::Verdict;
use est_kernel::interface::Interface;
use est_kernel::kernel::Kernel;
use est_micro::micro::Micro;
use est_relations::relations::Relations;
use est_rounds::rounds::Rounds;
use json::Scratch;
use lab_lines::reading::request_of;
use lab_lines::request::Request;
use lab_lines::table_json::find_table;
use lab_mistakes::telling::{kernel_json, read_instant, signals_of_names, verdict_json};
use reactor_core::reading::read_module;
use serde_json::Value;
use state_search::search::Limits;
use std::alloc::Global;
use std::marker::PhantomData;
use std::process::Abort;

/// Lines, and what each asks for.
const REQUESTS: [(&str, &str); 11] = [
    ("{\"cmd\":\"kernel\"}", "kernel"),
    ("{\"cmd\":\"kernel\",\"most\":9}", "nothing"),
    ("{\"text\":\"\",\"main\":\"M\",\"cmd\":\"load\"}", "load"),
    ("{\"cmd\":\"table\",\"inputs\":[],\"most\":9}", "table"),
    ("{\"cmd\":\"table\",\"inputs\":[1],\"most\":9}", "nothing"),
    ("{\"cmd\":\"tables\",\"inputs\":[],\"most\":9}", "nothing"),
    ("{\"inputs\":[\"A\"],\"cmd\":\"instant\"}", "instant"),
    ("{\"cmd\":\"try\",\"inputs\":[]}", "try"),
    ("{\"cmd\":\"try\",\"inputs\":[],\"most\":9}", "nothing"),
    ("{\"cmd\":\"back\",\"to\":0}", "back"),
    ("{\"cmd\":\"back\",\"to\":-1}", "nothing"),
];

/// A kernel with an engine.
fn machine(kernel: &Kernel) -> OneModule<'_, Rounds> {
    OneModule {
        kernel,
        engine: PhantomData,
    }
}

/// What a request asks for.
fn word_told(request: &Option<Request<'_>>) -> &'static str {
    match request {
        None => "nothing",
        Some(Request::Load { .. }) => "load",
        Some(Request::Kernel) => "kernel",
        Some(Request::Explore { .. }) => "explore",
        Some(Request::Same { .. }) => "same",
        Some(Request::Table(_)) => "table",
        Some(Request::Instant(_)) => "instant",
        Some(Request::Try(_)) => "try",
        Some(Request::Back(_)) => "back",
    }
}

/// A line is a request if it has the members of one, and no others.
#[test]
fn requests(rt: HostRuntime) {
    let alloc = rt.alloc();
    for (line, wanted) in REQUESTS {
        let value = Value::from_str(alloc, line).ok().expect(&rt, "a value");
        let request = request_of(alloc, &value).expect(&rt, "room");
        assert_eq!(rt; word_told(&request), wanted);
    }
}

/// Lines, what each asks for where it is read token by token, and the last of its inputs.
const BY_TOKENS: [(&str, &str, &str); 6] = [
    (
        "{\"cmd\":\"instant\",\"inputs\":[\"A\",\"\\u0042\"]}",
        "instant",
        "B",
    ),
    (" {\"cmd\": \"try\", \"inputs\": []} ", "try", ""),
    ("{\"cmd\":\"try\",\"inputs\":[],\"most\":9}", "nothing", ""),
    ("{\"inputs\":[\"A\"],\"cmd\":\"instant\"}", "nothing", ""),
    ("{\"cmd\":\"instant\",\"inputs\":[1]}", "nothing", ""),
    ("{\"cmd\":\"back\",\"to\":0}", "nothing", ""),
];

/// The last input of a request.
fn input_told<'v>(request: &Option<Request<'v>>) -> &'v str {
    let (Some(Request::Instant(names)) | Some(Request::Try(names))) = request else {
        return "";
    };
    match names.as_slice() {
        [.., last] => *last,
        [] => "",
    }
}

/// A line of an instant is read token by token where its keys stand in order.
#[test]
fn instants_by_tokens(rt: HostRuntime) {
    let alloc = rt.alloc();
    let mut scratch = Scratch::new(alloc);
    for (line, word, input) in BY_TOKENS {
        let request = read_instant(alloc, &mut scratch, line).expect(&rt, "room");
        assert_eq!(rt; word_told(&request), word);
        assert_eq!(rt; input_told(&request), input);
    }
}

/// Fails where a value has another text.
fn expect_text(rt: &impl Abort, alloc: Global, value: &Value, wanted: &str) {
    let text = value.to_string(alloc).expect(rt, "room");
    assert_eq!(rt; text.as_str(), wanted);
}

/// Fails where a member of a value is missing, or has another text.
pub fn expect_member(rt: &impl Abort, alloc: Global, value: &Value, key: &str, wanted: &str) {
    let member = value.get(key).expect(rt, "a member");
    expect_text(rt, alloc, member, wanted);
}

/// The table of a kernel in which A and B may be offered.
fn table_of(rt: &impl Abort, alloc: Global, kernel: &Kernel) -> Value {
    let free = Relations::new(alloc);
    let by_parts: OneModule<'_, Micro> = OneModule {
        kernel,
        engine: PhantomData,
    };
    let subject = LawfulInputs {
        reactive: &by_parts,
        relations: &free,
        allowed: 3,
        watched: 0,
    };
    let limits = Limits {
        states: 9,
        steps: 99,
    };
    let mut engine = engine_of(rt, alloc, kernel);
    find_table(alloc, &subject, &mut engine, limits).expect(rt, "room")
}

/// A row stands for all inputs that are the same where it was asked.
#[test]
fn rows_of_a_table(rt: HostRuntime) {
    let alloc = rt.alloc();
    let table = table_of(&rt, alloc, &late(&rt, alloc));
    let wanted = "[{\"asked\":[],\"from\":0,\"inputs\":[],\"next\":1,\"outputs\":[]},\
        {\"asked\":[],\"from\":1,\"inputs\":[],\"next\":2,\"outputs\":[]},\
        {\"asked\":[],\"from\":2,\"inputs\":[],\"next\":3,\"outputs\":[\"O\"]},\
        {\"asked\":[],\"from\":3,\"inputs\":[],\"next\":3,\"outputs\":[]}]";
    expect_member(&rt, alloc, &table, "rows", wanted);
}

/// The states of a table are the start, the pauses and the end.
#[test]
fn states_of_a_table(rt: HostRuntime) {
    let alloc = rt.alloc();
    let kernel = late(&rt, alloc);
    let free = Relations::new(alloc);
    let subject = LawfulInputs {
        reactive: &machine(&kernel),
        relations: &free,
        allowed: 0,
        watched: 0,
    };
    let limits = Limits {
        states: 9,
        steps: 99,
    };
    let table = find_table(alloc, &subject, &mut Rounds::new(), limits).expect(&rt, "room");
    expect_member(&rt, alloc, &table, "states", "[\"start\",[0],[1],\"end\"]");
}

/// A search that gave up says so.
#[test]
fn words_of_answers(rt: HostRuntime) {
    let alloc = rt.alloc();
    let interface = Interface::new(alloc);
    let given = verdict_json(alloc, &interface, &Verdict::TooMany).expect(&rt, "room");
    expect_text(&rt, alloc, &given, "{\"verdict\":\"toomany\"}");
}

/// Names of an input, an inputoutput, an output and nothing, and the mask of what may be offered.
const OFFERS: [(&str, Option<u64>); 4] = [("A", Some(1)), ("L", Some(2)), ("O", None), ("X", None)];

/// An input and an inputoutput may be offered, and what is not named is not offered.
#[test]
fn offered_signals(rt: HostRuntime) {
    let alloc = rt.alloc();
    let text = "module M: input A; inputoutput L; output O; nothing end module";
    let module = read_module(alloc, "M", text).ok().expect(&rt, "a module");
    for (name, wanted) in OFFERS {
        let names = [name];
        let signals = signals_of_names(module.kernel.interface(), names.as_slice()).ok();
        assert!(rt; signals == wanted);
    }
}

/// The statements of a kernel, each with the numbers of its parts.
#[test]
fn statements_of_a_kernel(rt: HostRuntime) {
    let alloc = rt.alloc();
    let told = kernel_json(alloc, &both(&rt, alloc)).expect(&rt, "room");
    let wanted = "{\"inputs\":2,\"ok\":\"kernel\",\"statements\":[\
        {\"kind\":\"loop\",\"parts\":[1]},{\"kind\":\"seq\",\"parts\":[2,7]},\
        {\"kind\":\"present\",\"parts\":[3,6]},\
        {\"kind\":\"present\",\"parts\":[4,5]},{\"kind\":\"emit\",\"signal\":\"O\"},\
        {\"kind\":\"nothing\"},{\"kind\":\"nothing\"},{\"kind\":\"pause\",\"pause\":0}]}";
    expect_text(&rt, alloc, &told, wanted);
}
