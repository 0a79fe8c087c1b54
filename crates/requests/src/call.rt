//! The calls that requests ask for, made in buffers of known bytes.
ghost use Rattle.std.specs.Prelude.{◌≡◌, IfOk};
ghost use Rattle.link.specs.Issuing.{nonce_bytes};
ghost use Rattle.requests.specs.Replies.{SealReply, OpenReply};

use crate::reply::Reply;
use crate::request::{OpenRequest, SealRequest};
use functions::{FilledTable, PrintedTable};
use link::{Issuer, Nonce};
use std::alloc::{AllocError, Global};

/// What the output's buffer holds before a call.
const OUTPUT: u8 = 0xA5;

/// What the tag's buffer holds before a call.
const TAG: u8 = 0x5A;

/// The nonce of a message, by its run number and its message number.
fn drawn(run: u32, message: u16) -> Nonce
    ensures run { result.run ≡ run }
    ensures message { result.message ≡ message }
{
    Issuer::resumed(run, message.into()).draw().unwrap()
}

/// The nonce whose six bytes are these.
fn nonce(bytes: &[u8; 6]) -> Nonce
    ensures { nonce_bytes result ≡ bytes.now }
{
    let [a, b, c, d, e, f] = *bytes;
    drawn(u32::from_le_bytes([a, b, c, d]), u16::from_le_bytes([e, f]))
}

/// Seals the message of a request. Nothing but want of memory keeps it from a reply.
pub(crate) fn seal(heap: Global, request: &SealRequest) -> Result<Reply, AllocError>
    ensures { IfOk result (SealReply request.now) }
{
    let mut function = match FilledTable::of(&request.key) {
        Ok(function) => function,
        Err(fault) => return Ok(Reply::NoKey(fault)),
    };
    let mut output = vec![in heap; OUTPUT; request.room]?;
    let mut tag = vec![in heap; TAG; request.tag_room]?;
    let answer = message::seal(
        &mut function,
        &PrintedTable,
        nonce(&request.nonce),
        &request.masks,
        &request.plaintext,
        &mut output,
        &mut tag,
    );
    Ok(Reply::Sealing {
        answer,
        output,
        tag,
    })
}

/// Opens the message of a request. Nothing but want of memory keeps it from a reply.
pub(crate) fn open(heap: Global, request: &OpenRequest) -> Result<Reply, AllocError>
    ensures { IfOk result (OpenReply request.now) }
{
    let mut function = match FilledTable::of(&request.key) {
        Ok(function) => function,
        Err(fault) => return Ok(Reply::NoKey(fault)),
    };
    let mut output = vec![in heap; OUTPUT; request.room]?;
    let answer = message::open(
        &mut function,
        &PrintedTable,
        &request.nonce,
        &request.masks,
        &request.wire,
        &mut output,
        &request.tag,
    );
    Ok(Reply::Opening { answer, output })
}
