//! What a lab is asked line by line, where a module stands after instants, and the status at the
//! end.

use lab_lines::reading::request_of;
use lab_mistakes::obeying::{go_back, obey, status_of, try_instant};
use lab_run::answer::line_of;
use lab_run::lab::{Lab, LabReply};
use lab_run::stepped_module::SteppedModule;
use reactor_core::reading::read_module;
use serde_json::Value;
use std::alloc::Global;
use std::process::Abort;

/// Lines that are sent to one lab, and what it answers.
const LINES: [(&str, &str); 6] = [
    (
        "{\"cmd\":\"kernel\"}",
        "{\"code\":62,\"fault\":\"Empty\"}\n",
    ),
    (
        "{\"cmd\":\"load\",\"main\":\"M\",\"text\":\"module M: input A; nothing end module\"}",
        "{\"inputs\":[\"A\"],\"ok\":\"load\",\"outputs\":[]}\n",
    ),
    (
        "{\"cmd\":\"load\",\"main\":\"M\",\"text\":\"module M: output O; emit O end module\"}",
        "{\"inputs\":[],\"ok\":\"load\",\"outputs\":[\"O\"]}\n",
    ),
    (
        "{\"cmd\":\"kernel\"}",
        "{\"inputs\":0,\"ok\":\"kernel\",\"statements\":[{\"kind\":\"emit\",\"signal\":\"O\"}]}\n",
    ),
    (
        "{\"cmd\":\"same\",\"inputs\":[],\"main\":\"M\",\"most\":9,\
            \"text\":\"module M: output O; nothing end module\"}",
        "{\"ok\":\"same\",\"reactions\":1,\"states\":1,\"verdict\":\"differ\",\"word\":\
            [{\"first\":{\"outputs\":[\"O\"]},\"inputs\":[],\"second\":{\"outputs\":[]}}]}\n",
    ),
    (
        "{\"cmd\":\"try\",\"inputs\":[\"O\"]}",
        "{\"code\":64,\"fault\":\"NotInput\"}\n",
    ),
];

/// What a lab answers to a line.
fn reply_to(rt: &impl Abort, alloc: Global, lab: &mut Lab, line: &str) -> LabReply {
    let value = Value::from_str(alloc, line).ok().expect(rt, "a value");
    let request = request_of(alloc, &value).expect(rt, "room");
    let request = request.expect(rt, "a request");
    obey(lab, alloc, &request).expect(rt, "room")
}

/// Fails where a reply is told by another line.
fn expect_line(rt: &impl Abort, alloc: Global, reply: LabReply, wanted: &str) {
    let line = line_of(alloc, reply).expect(rt, "room");
    assert!(rt; line.as_slice() == wanted.as_bytes());
}

/// Each question is about the module of the last load.
#[test]
fn loads_and_questions(rt: HostRuntime) {
    let alloc = rt.alloc();
    let mut lab = Lab::new();
    for (line, wanted) in LINES {
        let reply = reply_to(&rt, alloc, &mut lab, line);
        expect_line(&rt, alloc, reply, wanted);
    }
}

/// Steps of `emit O; pause`, and what is told of each.
const STEPS: [(&str, &str); 5] = [
    ("try", FIRST),
    ("make", FIRST),
    ("make", SECOND),
    ("back", "{\"next\":\"start\",\"ok\":\"back\"}\n"),
    ("make", FIRST),
];

/// Its first instant.
const FIRST: &str = "{\"began\":[0,1,2],\"locals\":[],\"next\":[0],\"ok\":\"instant\",\
    \"outputs\":[\"O\"],\"went\":[]}\n";

/// Its second instant.
const SECOND: &str = "{\"began\":[],\"locals\":[],\"next\":\"end\",\"ok\":\"instant\",\
    \"outputs\":[],\"went\":[0,2]}\n";

/// What a step of a walk is answered.
fn step_told(rt: &impl Abort, alloc: Global, walk: &mut SteppedModule, word: &str) -> LabReply {
    let names: [&str; 0] = [];
    let told = match word {
        "try" => try_instant(walk, alloc, names.as_slice()),
        "back" => go_back(walk, alloc, 0),
        _ => walk.make(alloc, names.as_slice()),
    };
    told.expect(rt, "room")
}

/// An instant that is tried moves nothing, and the way back leads to where a module stood.
#[test]
fn steps_of_a_walk(rt: HostRuntime) {
    let alloc = rt.alloc();
    let text = "module M: output O; emit O; pause end module";
    let module = read_module(alloc, "M", text).ok().expect(&rt, "a module");
    let mut walk = SteppedModule::begin(alloc, module).expect(&rt, "room");
    for (word, wanted) in STEPS {
        let told = step_told(&rt, alloc, &mut walk, word);
        expect_line(&rt, alloc, told, wanted);
    }
}

/// What is told of claims, and the status with which the program then ends.
const STATUSES: [(&str, u8); 4] = [
    (
        "{\"stuck\":{\"verdict\":\"holds\"},\"verdicts\":[{\"verdict\":\"holds\"}]}",
        0,
    ),
    (
        "{\"stuck\":{\"verdict\":\"holds\"},\"verdicts\":[{\"verdict\":\"fails\"}]}",
        1,
    ),
    ("{\"stuck\":{\"verdict\":\"toomany\"},\"verdicts\":[]}", 3),
    ("{\"claim\":1}", 2),
];

/// A claim that fails, one that is not known and one that can't be read have their own status.
#[test]
fn statuses(rt: HostRuntime) {
    let alloc = rt.alloc();
    for (text, wanted) in STATUSES {
        let value = Value::from_str(alloc, text).ok().expect(&rt, "a value");
        assert_eq!(rt; status_of(&LabReply::Json(value)), wanted);
    }
}
