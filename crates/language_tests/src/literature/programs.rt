//! Programs of the literature, with their instants as they were worked out by hand: before `>` the
//! inputs, after it the outputs, or `stuck` and the outputs that are undecided.

use crate::literature::loads::expect_instants;
use std::alloc::Global;
use std::process::Abort;

/// Waits, resets and runs of modules: Berry, *The Esterel v5 Language Primer*; a car's belt alarm,
/// as co-design tools had it for their example; the sender of the alternating bit protocol.
const WAITING: [(&str, &str); 8] = [
    // ABRO: O once A and B have come, anew after each R
    (
        "module M: input A, B, R; output O; loop [await A || await B]; \
        emit O each R end module",
        ">; A >; B > O; A B >; R >; A B > O; A B R >; A >; B R >; B >; A > O",
    ),
    // ABCRO, of modules that wait
    (
        "module M: input A, B, C, R; output O; \
            loop [run W [signal A/S] || run W [signal B/S] || run W [signal C/S]]; \
            emit O each R end module \
            module W: input S; await S end module",
        "A B C >; A C >; B > O; A B C >; R >; C >; A B > O",
    ),
    // AwaitImmediate: the first instant counts
    (
        "module M: input I; output O; run W [signal I/S]; emit O end module \
            module W: input S; await immediate S end module",
        "I > O; I >",
    ),
    // an edge: A that wasn't there in the instant before
    (
        "module M: input A; output O; \
            loop await A; emit O; trap T in loop pause; present A else exit T end end end end end \
            module",
        "A >; A > O; A >; >; A > O",
    ),
    // a watchdog: Set, and no Reset before Time
    (
        "module M: input Set, Reset, Time; output Alarm; \
            every Set do abort await Time; sustain Alarm when Reset end end module",
        "Set >; Time >; Set >; Time > Alarm; > Alarm; Reset >; Time >; Set >; Reset Time >; Time >",
    ),
    // a mouse: one click or two before Top
    (
        "module M: input Click, Top; output Single, Double; \
            loop await Click; trap T in abort await Top; emit Single; exit T when Click; \
            emit Double end end end module",
        ">; Click >; Top > Single; Click >; Click > Double; Top >; Click >; Click Top > Double",
    ),
    // a belt alarm: from End5 to End10 after the key, unless the belt is put on or the key is taken
    (
        "module M: input KeyOn, KeyOff, BeltOn, End5, End10; output Start, Alarm; \
        every KeyOn do \
            abort abort emit Start; await End5; abort sustain Alarm when End10 when BeltOn when \
            KeyOff end end module",
        ">; KeyOn > Start; End5 > Alarm; > Alarm; BeltOn >; End5 >; KeyOn > Start; End5 > Alarm; \
        End10 >; KeyOn > Start; KeyOff End5 >; KeyOn > Start; End5 > Alarm; KeyOn > Start",
    ),
    // the sender of the alternating bit: a frame again at each Timer, until it is acknowledged by
    // its own bit
    (
        "module M: input Send, Ack0, Ack1, Timer; output Frame0, Frame1, Ready; \
            loop run Half [signal Ack0/Ack, Frame0/Frame]; run Half [signal Ack1/Ack, \
            Frame1/Frame] end end module \
            module Half: input Send, Ack, Timer; output Frame, Ready; \
            await Send; abort loop emit Frame each Timer when Ack; emit Ready end module",
        ">; Send > Frame0; >; Timer > Frame0; Ack1 >; Timer Ack1 > Frame0; Ack0 > Ready; Ack0 >; \
        Send > Frame1; Ack0 Timer > Frame1; Ack1 Timer > Ready; Send Ack0 > Frame0; Ack0 > Ready",
    ),
];

/// Programs that abort, suspend and leave: after Berry's runner and reflex game; a mine's pump, as
/// books on real-time systems have it.
const LEAVING: [(&str, &str); 6] = [
    // a runner: each Morning, turns of walking until Second, running until Lap, and a jump
    (
        "module M: input Morning, Second, Lap; output Walk, Run, Jump; every Morning do \
            loop weak abort sustain Walk when Second; weak abort sustain Run when Lap; \
            emit Jump end end end module",
        ">; Second >; Morning > Walk; > Walk; Second > Walk Run; Second > Run; \
        Lap > Run Jump Walk; Lap > Walk; Second Lap > Walk Run; Lap Morning > Walk",
    ),
    // a reflex game's control part: wait for Ready, then for Delay, then for Stop
    (
        "module M: input Coin, Ready, Stop, Delay, Limit; output On, Go, Display, Bell, \
        Tilt, Over; \
            every Coin do emit On; trap End in trap Error in \
            trap Start in every Stop do emit Bell end || await Ready; exit Start || await Limit; \
            exit Error end; \
            trap Lit in await Delay; exit Lit || await Stop; exit Error \
            || every Ready do emit Bell end end; emit Go; \
            trap Done in await Stop; emit Display; exit Done || await Limit; exit Error \
            || every Ready do emit Bell end end; \
            emit Over; exit End end; emit Tilt; emit Over end end end module",
        ">; Coin > On; Stop > Bell; Ready >; Ready > Bell; Delay > Go; Ready > Bell; \
        Stop > Display Over; Stop >; Coin > On; Limit > Tilt Over; Coin > On; Ready >; \
        Stop > Tilt Over; Coin > On; Ready Stop > Bell; Delay Stop > Tilt Over",
    ),
    // held up as long as Hold is there
    (
        "module M: input Hold; output O, P; suspend loop emit O; pause; emit P; \
        pause end when Hold end module",
        "Hold > O; Hold >; > P; > O; Hold >; Hold >; > P",
    ),
    // a mine's pump: from High to Low, but not while there is methane
    (
        "module M: input High, Low, Methane; output Pump, Alarm; \
            loop await High; abort suspend sustain Pump when immediate Methane when Low end \
            || every immediate Methane do emit Alarm end end module",
        "High Methane > Alarm; High > Pump; > Pump; Methane > Alarm; Methane > Alarm; > Pump; \
        Low >; High Methane > Alarm; > Pump; Methane Low > Alarm; High > Pump",
    ),
    // of two aborts in one instant the outer one counts
    (
        "module M: input A, B; output O, P, Q; \
            loop abort [abort sustain O when A; emit P; halt] when B; emit Q; pause end end module",
        "A B > O; A > P; >; B > Q; > O; A B > Q; A > O; B > Q",
    ),
    // of two exits in one instant the outer one counts
    (
        "module M: output O, P; trap T in trap U in [exit T || exit U] end; emit O end; \
        emit P end module",
        "> P; >",
    ),
];

/// Loops whose body is left and begun again in one instant, circuits in a ring, and instants that
/// are undecided: after Berry, *The Constructive Semantics of Pure Esterel*.
const CIRCUITS: [(&str, &str); 10] = [
    // links against the order of the with the input all are present, without it none is
    (
        "module M: input I; output L0, L1, L2, L3, L4, L5, L6, L7, L8, L9, L10, L11, L12; \
            loop [present L11 then emit L12 end || present L10 then emit L11 end || present L9 \
            then emit L10 end || present L8 then emit L9 end || present L7 then emit L8 end || \
            present L6 then emit L7 end || present L5 then emit L6 end || present L4 then emit L5 \
            end || present L3 then emit L4 end || present L2 then emit L3 end || present L1 then \
            emit L2 end || present L0 then emit L1 end || present I then emit L0 end]; pause end \
            end module",
        ">; I > L0 L1 L2 L3 L4 L5 L6 L7 L8 L9 L10 L11 L12; >",
    ),
    // links in no order of the text
    (
        "module M: input I; output L0, L1, L2, L3, L4, L5, L6, L7, L8; loop [present L3 then emit \
            L4 end || present L0 then emit L1 end || present L6 then emit L7 end || present I \
            then emit L0 end || present L4 then emit L5 end || present L1 then emit L2 end || \
            present L7 then emit L8 end || present L2 then emit L3 end || present L5 then emit L6 \
            end]; pause end end module",
        ">; I > L0 L1 L2 L3 L4 L5 L6 L7 L8; >",
    ),
    // the same, each in a loop of its own
    (
        "module M: input I; output L0, L1, L2, L3, L4, L5, L6, L7, L8; loop present L3 then emit \
            L4 end; pause end || loop present L0 then emit L1 end; pause end || loop present L6 \
            then emit L7 end; pause end || loop present I then emit L0 end; pause end || loop \
            present L4 then emit L5 end; pause end || loop present L1 then emit L2 end; pause end \
            || loop present L7 then emit L8 end; pause end || loop present L2 then emit L3 end; \
            pause end || loop present L5 then emit L6 end; pause end end module",
        ">; I > L0 L1 L2 L3 L4 L5 L6 L7 L8; >",
    ),
    // a signal that is left is not the one that is declared anew
    (
        "module M: output O, P; \
            loop signal S in present S then emit O else emit P end; pause; \
            emit S end end end module",
        "> P; > P; > P",
    ),
    // both are asked in one instant, the one that is left and the new one
    (
        "module M: output O, P; loop trap T in signal S in [pause; emit S; exit T \
            || loop present S then emit O else emit P end; pause end] end end end end module",
        "> P; > O P; > O P",
    ),
    // a counter of two bits: each turns over where the one before does
    (
        "module M: input T; output Low, High; signal C, D in \
            run Bit [signal Low/Q] || run Bit [signal C/T, High/Q, D/C] end end module \
            module Bit: input T; output Q, C; loop await T; abort sustain Q when T; \
            emit C end end module",
        ">; T > Low; T > High; T > Low High; T >; >; T > Low; > Low; T > High",
    ),
    // a bus arbiter of six cells in a ring: the cell with the token T, or that is passed the turn
    // N, acknowledges its request, or else passes the turn on
    (
        "module M: input R0, R1, R2, R3, R4, R5; \
            output K0, K1, K2, K3, K4, K5, N0, N1, N2, N3, N4, N5, T0, T1, T2, T3, T4, T5; \
            run Cell [signal R0/R, T0/T, N0/C, K0/K, N1/N] || run Cell [signal R1/R, T1/T, N1/C, \
            K1/K, N2/N] \
            || run Cell [signal R2/R, T2/T, N2/C, K2/K, N3/N] || run Cell [signal R3/R, T3/T, \
            N3/C, K3/K, N4/N] \
            || run Cell [signal R4/R, T4/T, N4/C, K4/K, N5/N] || run Cell [signal R5/R, T5/T, \
            N5/C, K5/K, N0/N] \
            || loop emit T0; pause; emit T1; pause; emit T2; pause; emit T3; pause; emit T4; \
            pause; emit T5; pause end \
            end module \
            module Cell: input R, T, C; output K, N; loop signal G in \
            [present T then emit G end || present C then emit G end \
            || present G then present R then emit K else emit N end end] end; pause end end module",
        "> T0 N0 N1 N2 N3 N4 N5; R0 > T1 N2 N3 N4 N5 N0 K0; R0 R2 R4 > T2 K2; \
        R0 R2 > T3 N4 N5 N0 K0; R4 R5 > T4 K4; R5 > T5 K5; R1 R2 > T0 N1 K1",
    ),
    // a signal that would be emitted where it isn't there
    (
        "module M: input I; output O, P; await I; present O else emit O end; \
        emit P end module",
        "I >; >; I > stuck O P; >",
    ),
    // a signal that is emitted in both cases, but only once it is asked
    (
        "module M: output O; present O then emit O else emit O end end module",
        "> stuck O",
    ),
    // each of two signals waits for the other; with I the ring is open
    (
        "module M: input I; output O, P; loop present I then emit P else present P then emit \
        O end end; pause end \
            || loop present I then present P then emit O end else present O then emit P end end; \
            pause end end module",
        "I > O P; > stuck O P; I > O P",
    ),
];

/// Tests of more than one signal, and signals that are offered and emitted.
const EXPRESSIONS: [(&str, &str); 9] = [
    // O is asked only where A isn't there
    (
        "module M: input A; output O, P; present [A or O] then emit P else emit O end end \
        module",
        "> stuck O P; A > P",
    ),
    // what is so in both cases is not known before O is
    (
        "module M: output O; present [O or not O] then emit O end end module",
        "> stuck O",
    ),
    // A without B ends it
    (
        "module M: input A, B; output O; abort sustain O when [A and not B] end module",
        "> O; A B > O; A >; >",
    ),
    // B is offered, or emitted where A is offered
    (
        "module M: input A; inputoutput B; output O; relation A # B; \
            [present A then emit B end || loop present B then emit O end; pause end] end module",
        "A > B O; B > O; >",
    ),
    // what is offered is there before anything is emitted, and another inputoutput is not known
    // before
    (
        "module M: inputoutput B; output O; loop present B then emit O else emit B end; \
        pause end end module",
        "B > O; > stuck B O; B > O",
    ),
    // `and` binds tighter than `or`, and `not` tighter than both
    (
        "module M: input A, B, C; output O, P, Q; loop present A or B and C then emit O end; \
            present (A or B) and C then emit P end; present not A and B then emit Q end; \
            pause end end module",
        "A > O; A C > O P; B > Q; B C > O P Q; C >; A B > O",
    ),
    // each name of a test is bound where its module is run
    (
        "module M: input B, A; output O, P; run N [signal A/X, B/Y] end module \
            module N: input X, Y; output O, P; loop present (X and not Y) or (Y and not X) then \
            emit O end; \
            present not X and Y then emit P end; pause end end module",
        ">; A > O; A B >; B > O P",
    ),
    // `and` is absent where one side is, and `or` present where one side is, whatever the other is
    (
        "module M: input A; output O, P; present [A and O] else emit P end; \
        present [P or O] then emit O end end module",
        "> O P",
    ),
    // an inputoutput that nobody offers or emits is absent
    (
        "module M: inputoutput B; output O; loop present not B then emit O end; \
        pause end end module",
        "> O; B >",
    ),
];

/// Fails where a program of a table shows something else.
fn expect_programs(rt: &impl Abort, alloc: Global, programs: &[(&str, &str)]) {
    for (text, instants) in programs {
        expect_instants(rt, alloc, text, instants);
    }
}

#[test]
fn programs_of_the_literature(rt: HostRuntime) {
    expect_programs(&rt, rt.alloc(), &WAITING);
    expect_programs(&rt, rt.alloc(), &LEAVING);
    expect_programs(&rt, rt.alloc(), &CIRCUITS);
    expect_programs(&rt, rt.alloc(), &EXPRESSIONS);
}
