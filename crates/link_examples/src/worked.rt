//! A worked history: calls that meet each premise of the law of a loss, so that none of its promises is empty.
ghost use Rattle.std.specs.Prelude.{◌≡◌, IfOk, vec_items};
ghost use Rattle.sss.specs.Cipher.{product};
ghost use Rattle.link.specs.Ends.{receiving, registers_of, sealing};
ghost use Rattle.link.specs.Law.{Law};
ghost use Rattle.link_examples.specs.Instances.{MeetsEach};
ghost use Rattle.link_examples.specs.Worked.{AreWorked, WithNonce, altered, as_sent, begins, given_up, heard_across, hears, hears_open, numbered, seals, sends_open, sent_across, zero_function};

use functions::{FieldRule, FilledTable, FromKey, LazyTable, PrintedTable};
use link::{Call, History, Issuer, Nonce, ReceiverCall, SealerCall, run};
use std::alloc::{AllocError, Global};

/// The nonce of a message of run 1.
fn numbered(message: u16) -> Nonce
    ensures { result ≡ numbered message }
{
    match Issuer::resumed(1, u32::from(message)).draw() {
        Ok(nonce) => nonce,
        Err(_) => unreachable!(),
    }
}

/// Begins a message at the sealer.
fn begins(message: u16) -> Call
    ensures { result ≡ begins message }
{
    Call::OnSealer(SealerCall::Begin(numbered(message)))
}

/// A sealed word at the sealer.
fn seals(plain: u16) -> Call
    ensures { result ≡ seals plain }
{
    Call::OnSealer(SealerCall::Word {
        mask: 0xFFFF,
        plain,
    })
}

/// A sealed word at the receiver.
fn hears(wire: u16) -> Call
    ensures { result ≡ hears wire }
{
    Call::OnReceiver(ReceiverCall::Word { mask: 0xFFFF, wire })
}

/// An open word at the sealer.
fn sends_open(plain: u16) -> Call
    ensures { result ≡ sends_open plain }
{
    Call::OnSealer(SealerCall::Word { mask: 0, plain })
}

/// An open word at the receiver.
fn hears_open(wire: u16) -> Call
    ensures { result ≡ hears_open wire }
{
    Call::OnReceiver(ReceiverCall::Word { mask: 0, wire })
}

/// The message 0, which comes as it was sent.
fn as_sent(heap: Global) -> Result<Vec<Call>, AllocError>
    ensures { IfOk result (λ calls. WithNonce 0 as_sent calls.items) }
{
    let nonce = vec![in heap; 1, 0, 0, 0, 0, 0]?;
    let tag = [25847, 26128, 54925, 29964, 14058, 10564, 24001, 26668];
    Ok(vec![in heap;
        begins(0),
        sends_open(7),
        seals(0x1234),
        Call::OnSealer(SealerCall::Finish),
        Call::OnReceiver(ReceiverCall::Begin(nonce)),
        hears_open(7),
        hears(7853),
        Call::OnReceiver(ReceiverCall::Finish(tag)),
    ]?)
}

/// The message 1, of which one word comes altered.
fn altered(heap: Global) -> Result<Vec<Call>, AllocError>
    ensures { IfOk result (λ calls. WithNonce 1 altered calls.items) }
{
    let nonce = vec![in heap; 1, 0, 0, 0, 1, 0]?;
    let tag = [51988, 50012, 32936, 47857, 16713, 40256, 58291, 52770];
    Ok(vec![in heap;
        begins(1),
        seals(940),
        seals(941),
        seals(942),
        Call::OnSealer(SealerCall::Finish),
        Call::OnReceiver(ReceiverCall::Begin(nonce)),
        hears(16320),
        hears(9779),
        hears(18738),
        Call::OnReceiver(ReceiverCall::Finish(tag)),
    ]?)
}

/// The message 2, as it is sent.
fn sent_across(heap: Global) -> Result<Vec<Call>, AllocError>
    ensures { IfOk result (λ calls. calls.items ≡ sent_across) }
{
    Ok(vec![in heap;
        begins(2),
        seals(1000),
        seals(1001),
        seals(1002),
        seals(1003),
        seals(1004),
        seals(1005),
        seals(1006),
        seals(1007),
        seals(1008),
        seals(1009),
        seals(1010),
        seals(1011),
        seals(1012),
        seals(1013),
        seals(1014),
        seals(1015),
        seals(1016),
        seals(1017),
        seals(1018),
        seals(1019),
        Call::OnSealer(SealerCall::Finish),
    ]?)
}

/// The message 2, as it comes: its second word is lost.
fn heard_across(heap: Global) -> Result<Vec<Call>, AllocError>
    ensures { IfOk result (λ calls. WithNonce 2 heard_across calls.items) }
{
    let nonce = vec![in heap; 1, 0, 0, 0, 2, 0]?;
    let tag = [34784, 26745, 44940, 18066, 13358, 47010, 29796, 14406];
    Ok(vec![in heap;
        Call::OnReceiver(ReceiverCall::Begin(nonce)),
        hears(23527),
        Call::OnReceiver(ReceiverCall::Break),
        hears(33663),
        hears(55696),
        hears(28707),
        hears(31717),
        hears(56846),
        hears(10786),
        hears(41193),
        hears(6972),
        hears(51368),
        hears(58430),
        hears(55133),
        hears(53500),
        hears(45743),
        hears(8625),
        hears(16080),
        hears(10034),
        hears(50494),
        hears(49155),
        Call::OnReceiver(ReceiverCall::Finish(tag)),
    ]?)
}

/// The message 3, which is given up.
fn given_up(heap: Global) -> Result<Vec<Call>, AllocError>
    ensures { IfOk result (λ calls. WithNonce 3 given_up calls.items) }
{
    let nonce = vec![in heap; 1, 0, 0, 0, 3, 0]?;
    Ok(vec![in heap;
        begins(3),
        seals(943),
        Call::OnSealer(SealerCall::Abandon),
        Call::OnReceiver(ReceiverCall::Begin(nonce)),
        hears(44153),
    ]?)
}

/// All calls.
fn worked_calls(heap: Global) -> Result<Vec<Call>, AllocError>
    ensures { IfOk result (λ calls. AreWorked calls.items) }
{
    let mut calls = as_sent(heap)?;
    calls.append(&mut altered(heap)?)?;
    calls.append(&mut sent_across(heap)?)?;
    calls.append(&mut heard_across(heap)?)?;
    calls.append(&mut given_up(heap)?)?;
    Ok(calls)
}

/// A history of two fresh ends, of different makes: four messages, one that comes as it was sent, one with an altered word, one across a loss,
/// and one that is given up. It keeps the law of a loss, and meets each of its premises.
pub fn worked_history(
    heap: Global,
) -> Result<History<FromKey, PrintedTable, LazyTable<FilledTable>, FieldRule>, AllocError>
    ensures law { IfOk result (λ h. Law zero_function product (vec_items h.log) (registers_of (sealing h.sealer)) (receiving h.receiver).registers) }
    ensures meets { IfOk result (λ h. MeetsEach zero_function product (vec_items h.log)) }
{
    let calls = worked_calls(heap)?;
    let sealer = (FromKey::new(), PrintedTable);
    let receiver = (LazyTable::new(FilledTable::new()), FieldRule);
    run(sealer, receiver, calls, Vec::new(heap))
}
