// What follows the packet that ends a command's exchange: the answer of a call, or its next command.
ghost use Rattle.std.specs.Prelude.{◌≡◌, ℕ, ◌+◌, ◌≤◌, List, length, take};
ghost use Rattle.stages.specs.Stages.{put as put_by};
ghost use Rattle.stages.specs.Put.{put, Puts};
ghost use Rattle.stages.specs.Few.{few};
ghost use Rattle.stages.specs.Decided.{layout_bytes, Fitting, decision_in, DecisionFits, response_limit};
ghost use Rattle.protocol.specs.Session.{packet_limit, buffer_need};
ghost use Rattle.engine.specs.Transitions.{end_transition, reply_length};
ghost use Rattle.engine.specs.Ends.{GoesOn};
ghost use Rattle.engine.specs.Core.{Lent, arrays, progressed, keeps_of, performs_of, transitioned_of};

use super::call::{Call, End, PAUSE_PHASE};
use super::running::{Core, FOUND_LIMIT, Output, Progress};
use exchange::Order;
use stages::put::{DATA_LIMIT, append};
use stages::{Decision, HEAD_LIMIT, Layout};

// Kept: command, found bytes and buffer are lent one by one and no struct has them: each function takes some, and some only to read.
// Puts a layout behind the found bytes that it keeps, which stand at the target's start already.
fn lay(layout: Layout, response: &[u8], target: &mut [u8]) -> usize
    requires { (layout.start + layout.len ≤ length response.now) × (layout.kept + (length (few layout.head) + (layout.len + length (few layout.tail))) ≤ length target.old) }
    ensures { (f c : List ℕ) → Puts target.old layout.kept (take layout.kept f) c → Puts target.new result (layout_bytes f response.now layout) c }
{
    let part = &response[layout.start..layout.start + layout.len];
    let behind_head = append(layout.head.as_slice(), target, layout.kept);
    let behind_part = append(part, target, behind_head);
    append(layout.tail.as_slice(), target, behind_part)
}

// Puts a layout at the target's start.
fn put_answer(layout: Layout, found: &[u8], response: &[u8], target: &mut [u8]) -> usize
    requires { Fitting found.now response.now layout × (layout.kept + (length (few layout.head) + (layout.len + length (few layout.tail))) ≤ length target.old) }
    ensures value { result ≡ length (layout_bytes found.now response.now layout) }
    ensures target_after { target.new ≡ put (layout_bytes found.now response.now layout) target.old }
{
    append(&found[..layout.kept], target, 0);
    lay(layout, response, target)
}

impl Core {
    // Bytes are kept, and the command of a call's stage follows.
    // Kept: command, found bytes and buffer are three memories, of which each function lends some: `Lent` says of all three what is asked.
    fn keep(
        self,
        call: Call,
        layout: Layout,
        response: &[u8],
        command: &[u8; DATA_LIMIT],
        found: &mut [u8; FOUND_LIMIT],
        buffer: &mut [u8],
    ) -> Progress
        requires { (length response.now ≤ response_limit) × Fitting (take self.found found.old) response.now layout × Lent self buffer.old }
        ensures { progressed result (arrays command.now found.new) buffer.new ≡ keeps_of self (arrays command.now found.old) call (layout_bytes (take self.found found.old) response.now layout) buffer.old }
    {
        let n = lay(layout, response, found);
        self.with_found(n).send(call, command, buffer)
    }

    // Three bytes become the pending command, and the command of a stage follows.
    // Kept: a buffer may have any length, and its least is tested once, where a call or an event comes in (refusal 2).
    fn put_pending(
        self,
        stage: u8,
        bytes: [u8; HEAD_LIMIT],
        command: &mut [u8; DATA_LIMIT],
        buffer: &mut [u8],
    ) -> Progress
        requires { buffer_need ≤ length buffer.old }
        ensures { (f : List ℕ) → progressed result (arrays command.new f) buffer.new ≡ performs_of self (arrays command.old f) (put_by stage bytes) buffer.old }
    {
        octets::copy(&bytes, command);
        self.with_command(bytes.len())
            .send(self.call.to_stage(stage), command, buffer)
    }

    // The call goes on. What ends it is not for here.
    // Kept: command, found bytes and buffer are three memories, of which each function lends some: `Lent` says of all three what is asked.
    fn continued(
        self,
        decision: Decision,
        response: &[u8],
        command: &mut [u8; DATA_LIMIT],
        found: &mut [u8; FOUND_LIMIT],
        buffer: &mut [u8],
    ) -> Progress
        requires { (length response.now ≤ response_limit) × DecisionFits (take self.found found.old) response.now decision × Lent self buffer.old }
        ensures { GoesOn decision → progressed result (arrays command.new found.new) buffer.new ≡ performs_of self (arrays command.old found.old) (decision_in (take self.found found.old) response.now decision) buffer.old }
    {
        let call = self.call;
        let exchange = self.exchange;
        match decision {
            Decision::Send(stage) => self.send(call.to_stage(stage), command, buffer),
            Decision::Keep(stage, layout) => {
                let next = call.to_stage(stage);
                self.keep(next, layout, response, command, found, buffer)
            }
            Decision::Next(stage, cursor, layout) => {
                let next = call.to_cursor(stage, cursor);
                self.keep(next, layout, response, command, found, buffer)
            }
            Decision::Put(stage, bytes) => self.put_pending(stage, bytes, command, buffer),
            Decision::Pause(us, stage) => {
                let next = call.to_stage(stage).at(PAUSE_PHASE);
                self.ordered(Order::Pause(us), next, exchange, buffer)
            }
            _ => self.ended(Output::Nothing),
        }
    }

    // What a call decided.
    // Kept: command, found bytes and buffer are three memories, of which each function lends some: `Lent` says of all three what is asked.
    fn performed(
        self,
        decision: Decision,
        response: &[u8],
        command: &mut [u8; DATA_LIMIT],
        found: &mut [u8; FOUND_LIMIT],
        buffer: &mut [u8],
    ) -> Progress
        requires { (length response.now ≤ response_limit) × DecisionFits (take self.found found.old) response.now decision × Lent self buffer.old }
        ensures { progressed result (arrays command.new found.new) buffer.new ≡ performs_of self (arrays command.old found.old) (decision_in (take self.found found.old) response.now decision) buffer.old }
    {
        let kept = self.found;
        match decision {
            Decision::Part(start, len) => {
                let len = append(&response[start..start + len], buffer, 0);
                self.ended(Output::Done(len))
            }
            Decision::Done(layout) => {
                let len = put_answer(layout, &found[..kept], response, buffer);
                self.ended(Output::Done(len))
            }
            Decision::Type1(layout) => {
                let len = put_answer(layout, &found[..kept], response, buffer);
                self.ended(Output::Type1(len))
            }
            Decision::UidAndAts(layout, uid, ats) => {
                let len = put_answer(layout, &found[..kept], response, buffer);
                self.ended(Output::UidAndAts(len, uid, ats))
            }
            Decision::Nothing => self.ended(Output::Nothing),
            Decision::Refused(fault) => self.ended(Output::Failed(fault)),
            Decision::RefusedAfter(fault, n) => self.ended(Output::FailedAfter(fault, n)),
            _ => self.continued(decision, response, command, found, buffer),
        }
    }

    // The call's command has ended: what is decided upon its response, or its fault.
    // Kept: command, found bytes and buffer are three memories, of which each function lends some: `Lent` says of all three what is asked.
    pub(crate) fn replied(
        self,
        end: End,
        packet: &[u8],
        command: &mut [u8; DATA_LIMIT],
        found: &mut [u8; FOUND_LIMIT],
        buffer: &mut [u8],
    ) -> Progress
        requires { (reply_length (end_transition self.exchange.code packet.now end) ≤ packet_limit) × Lent self buffer.old }
        ensures { progressed result (arrays command.new found.new) buffer.new ≡ transitioned_of self (arrays command.old found.old) (end_transition self.exchange.code packet.now end) buffer.old }
    {
        let call = self.call;
        let pending = &command[..self.command];
        let kept = &found[..self.found];
        let reply = end.response(self.exchange.code, packet);
        let decision = match reply {
            Ok(response) => {
                calls::decided(call.kind, call.stage, call.cursor, pending, kept, response)
            }
            Err(fault) => {
                calls::failed(call.kind, call.stage, call.cursor, pending, kept, fault)
            }
        };
        let response = reply.unwrap_or(&packet[..0]);
        self.performed(decision, response, command, found, buffer)
    }
}
