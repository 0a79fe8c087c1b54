//! What came of a request, and the line that says so.
ghost use Rattle.std.specs.Prelude.{Some};
ghost use Rattle.requests.specs.Texts.{reply_text};

use fields::Hex;
use sss::Fault;
use std::fmt;

/// What a call answered, and its buffers as they are afterwards.
#[derive(Drop)]
pub enum Reply {
    /// The key does not load: no call was made.
    NoKey(Fault),
    /// A message was to be sealed.
    Sealing {
        answer: Result<(), Fault>,
        output: Vec<u8>,
        tag: Vec<u8>,
    },
    /// A message was to be opened.
    Opening {
        answer: Result<(), Fault>,
        output: Vec<u8>,
    },
}

impl fmt::Display for Reply {
    ghost output = { λ reply. Some (reply_text reply) };

    fn fmt<W: fmt::Write>(&self, f: &mut fmt::Formatter<W>) -> fmt::Result {
        match self {
            Reply::NoKey(fault) => write!(f, "refused {}", fault.number()),
            Reply::Sealing {
                answer,
                output,
                tag,
            } => {
                let output = Hex(output);
                let tag = Hex(tag);
                match answer {
                    Ok(()) => write!(f, "sealed {output} {tag}"),
                    Err(fault) => write!(f, "refused {} {output} {tag}", fault.number()),
                }
            }
            Reply::Opening { answer, output } => {
                let output = Hex(output);
                match answer {
                    Ok(()) => write!(f, "opened {output}"),
                    Err(fault) => write!(f, "refused {} {output}", fault.number()),
                }
            }
        }
    }
}
