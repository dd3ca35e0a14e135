//! Connections whose reader cuts anywhere, and whose devices fail: how they end, and that no
//! session is left living.
use crate::protocol::devices::{AMPLE, Calls, Input, Output, STEP};
use access_core::single::Single;
use client_loop::connections::finish_logout;
use client_loop::serving::{ServedEnd, serve};
use rbac_policy::commands::SessionId;
use rbac_policy::objects::{Object, Operation};
use std::alloc::Global;
use std::process::Abort;
use std::sync::Wait;
use wire_reader::meter::{MeteredMemory, MeteredReader, MeteredWriter};
use wire_reader::serving::EndReason;

/// A login, a line that is no JSON, a grant by a last line without LF.
const LINES: &str = "{\"cmd\":\"login\",\"roles\":[\"root\"],\"user\":\"root\"}\nfly\n\
    {\"cmd\":\"grant\",\"object\":\"0\",\"op\":\"load\",\"role\":\"root\"}";

/// Their answers. The answers to the two lines that end with LF are written before the read in
/// which the last line ends.
const ANSWERS: &str =
    "{\"ok\":\"login\",\"session\":1,\"version\":5}\n{\"code\":2,\"fault\":\"NotJson\"}\n\
    {\"ok\":\"grant\",\"version\":6}\n";

/// How long the answers to the two lines are that end with LF.
const FIRST_ANSWERS: usize = 68;

/// How many bytes of the answers n writes take.
fn taken_by(calls: usize) -> usize {
    let first_calls = FIRST_ANSWERS.div_ceil(STEP);
    if calls <= first_calls {
        return FIRST_ANSWERS.min(calls.saturating_mul(STEP));
    }
    let more = (calls - first_calls).saturating_mul(STEP);
    ANSWERS.len().min(FIRST_ANSWERS.saturating_add(more))
}

/// The lines, so many bytes at once.
fn lines_by(step: usize, calls: Calls) -> Input<'static> {
    Input {
        bytes: LINES.as_bytes(),
        step,
        calls,
    }
}

/// Whether root's first session lives: it may administer the policy.
fn lives(desk: &Single) -> bool {
    desk.check(SessionId::new(1), Operation::Administer, &Object::Policy)
}

/// How a connection to a new desk ends, after which no login is left and no session lives.
fn end_of<R: Abort + Wait>(
    rt: &R,
    memory: &mut MeteredMemory,
    reader: &mut MeteredReader<Input<'_>>,
    writer: &mut MeteredWriter<Output>,
) -> EndReason {
    let mut desk = Single::new(memory.allocator()).ok().expect(rt, "a desk");
    let ServedEnd { why, left } = serve(memory, reader, writer, &mut desk);
    let is_left = left.is_some();
    finish_logout(rt, &mut desk, left);
    assert!(rt; !is_left);
    assert!(rt; !lives(&desk));
    why
}

/// How a connection over these devices ends, which writes the answers from the first on.
fn served<R: Abort + Wait>(
    rt: &R,
    alloc: Global,
    input: Input<'_>,
    output: Output,
) -> (EndReason, usize) {
    let mut memory = MeteredMemory::new(alloc);
    let mut reader = MeteredReader::new(input);
    let mut writer = MeteredWriter::new(output);
    let why = end_of(rt, &mut memory, &mut reader, &mut writer);
    let written = writer.into_device().written;
    assert!(rt; ANSWERS.as_bytes().starts_with(written.as_slice()));
    (why, written.len())
}

#[test]
fn the_first_read_ends_after_each_byte(rt: HostRuntime) {
    for place in 1..=LINES.len() {
        let input = lines_by(place, Calls::that_fail_from(AMPLE));
        let output = Output::new(rt.alloc(), Calls::that_fail_from(AMPLE));
        let (why, written) = served(&rt, rt.alloc(), input, output);
        assert!(rt;
            why == EndReason::Closed && written == ANSWERS.len(),
            "{place}"
        );
    }
}

#[test]
fn no_session_lives_where_the_reader_fails(rt: HostRuntime) {
    for calls in 0..=LINES.len().div_ceil(7) {
        let input = lines_by(7, Calls::that_fail_from(calls));
        let output = Output::new(rt.alloc(), Calls::that_fail_from(AMPLE));
        let (why, _) = served(&rt, rt.alloc(), input, output);
        assert!(rt; why == EndReason::ReadFault, "{calls}");
    }
}

#[test]
fn no_session_lives_where_the_writer_fails(rt: HostRuntime) {
    for calls in 0..12usize {
        let input = lines_by(AMPLE, Calls::that_fail_from(AMPLE));
        let output = Output::new(rt.alloc(), Calls::that_fail_from(calls));
        let (why, written) = served(&rt, rt.alloc(), input, output);
        let taken = taken_by(calls);
        let wanted = if taken == ANSWERS.len() {
            EndReason::Closed
        } else {
            EndReason::WriteFault
        };
        assert!(rt; why == wanted && written == taken, "{calls}");
    }
}

/// Reader, writer and memory fail before the connection, and it is served to its end.
#[test]
fn faults_before_a_connection_are_none_of_its_own(rt: HostRuntime) {
    let mut memory = MeteredMemory::new(rt.alloc());
    let mut reader = MeteredReader::new(lines_by(AMPLE, Calls::of_which_one_fails()));
    let mut writer = MeteredWriter::new(Output::new(rt.alloc(), Calls::of_which_one_fails()));
    let is_read = reader.read(&mut [0; 4]).is_some();
    let is_written = writer.write(b"lost").is_some();
    let is_given = memory.zeros(usize::MAX / 2).is_ok();
    assert!(rt; !is_read && !is_written && !is_given);
    let why = end_of(&rt, &mut memory, &mut reader, &mut writer);
    assert!(rt; why == EndReason::Closed);
    assert!(rt; (reader.faults(), writer.faults(), memory.refusals()) == (1, 1, 1));
    let written = writer.into_device().written;
    assert!(rt; written.as_slice() == ANSWERS.as_bytes());
}
