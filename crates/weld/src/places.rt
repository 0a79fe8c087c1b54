//! Words of a message by their places.
ghost use Rattle.std.specs.Prelude.{◌≡◌, ◌+◌, ◌↔◌, IsTrue, Some};
ghost use Rattle.std.specs.Bool.{OnTrue, OnFalse};
ghost use Rattle.weld.specs.Texts.{places_text};

use crate::hex::HexWord;
use crate::passage::Sent;
use crate::span::Span;
use sss::MaskKind;
use std::fmt;

/// Consecutive words under one mask.
#[derive(Clone, Copy)]
pub struct Places {
    span: Span<u16>,
    mask: u16,
}

impl From<&Sent> for Places {
    ghost from_gives = { λ sent places. places ≡ record { span = record { first = sent.now.place; last = sent.now.place }; mask = sent.now.mask } };

    fn from(sent: &Sent) -> Places {
        Places {
            span: Span::of(sent.place),
            mask: sent.mask,
        }
    }
}

impl Places {
    /// Takes the next word in, if it follows and has the same mask.
    pub(crate) fn takes(&mut self, sent: &Sent) -> bool
        ensures follows { IsTrue result ↔ ((sent.now.place ≡ self.old.span.last + 1) × (sent.now.mask ≡ self.old.mask)) }
        ensures taken { OnTrue result (self.new ≡ record self.old { span = record self.old.span { last = sent.now.place } }) }
        ensures left { OnFalse result (self.new ≡ self.old) }
    {
        let goes_on = self.span.leads_to(sent.place) && self.mask == sent.mask;
        if goes_on {
            self.span.take(sent.place);
        }
        goes_on
    }
}

impl fmt::Display for Places {
    ghost output = { λ places. Some (places_text places) };

    fn fmt<W: fmt::Write>(&self, f: &mut fmt::Formatter<W>) -> fmt::Result {
        let Places { span, mask } = self;
        let Span { first, last } = span;
        if first == last {
            write!(f, "word {first}")?;
        } else {
            write!(f, "words {first} to {last}")?;
        }
        match MaskKind::of(*mask) {
            MaskKind::Sealed => Ok(()),
            MaskKind::Open => write!(f, " (open)"),
            MaskKind::Part => write!(f, " (part, mask {})", HexWord(*mask)),
        }
    }
}
