//! The line in hand.

ghost use Rattle.std.specs.Prelude.{◌≡◌, ◌≤◌, ◌<◌, ℕ, List, [], ◌++◌, length, IfOk, OnOk, IfErr, IsTrue, ◌↔◌, false};
ghost use Rattle.bl_script.specs.Lines.{without_return};
ghost use Rattle.bl_script.specs.Parsing.{parsed};
ghost use Rattle.bl_script.specs.Limits.{IsWithinLimits};

use crate::stop::Stop;
use bl_script::{MAX_LINE, Parsed, Refusal, parse_line, without_return};
use std::alloc::Global;

// A line that is to be obeyed has these bytes at most, and one 0x0D that does not count.
const KEPT: usize = MAX_LINE + 1;

// The bytes of the script since its last whole line. Those of a line that is too long are not kept.
#[derive(Drop)]
pub(crate) struct LineInHand {
    pub(crate) bytes: Vec<u8>,
    pub(crate) long: bool,
    ghost bounded: { length bytes.items ≤ 67108865 },
}

impl LineInHand {
    ghost use Rattle.bl_shell.specs.Carried.{Holds};

    // No byte.
    pub(crate) fn new(alloc: Global) -> LineInHand
        ensures { Holds result [] }
    {
        LineInHand {
            bytes: Vec::new(alloc),
            long: false,
        }
    }

    // More bytes of the line.
    pub(crate) fn push(&mut self, bytes: &[u8]) -> Result<(), Stop>
        ensures ok { OnOk result ((front : List ℕ) → Holds self.old front → Holds self.new (front ++ bytes.now)) }
        ensures memory { IfErr result (λ e. e ≡ Stop.OutOfMemory) }
    {
        if self.long {
            return Ok(());
        }
        if bytes.len() > KEPT - self.bytes.len() {
            self.bytes.clear();
            self.long = true;
        } else {
            self.bytes.extend_from_slice(bytes)?;
        }
        Ok(())
    }

    // What the whole line orders.
    pub(crate) fn parse(&self, alloc: Global) -> Result<Parsed, Stop>
        ensures parsed { IfOk result (λ p. (front : List ℕ) → Holds self.now front → p ≡ parsed (without_return front)) }
        ensures within { IfOk result IsWithinLimits }
        ensures memory { IfErr result (λ e. e ≡ Stop.OutOfMemory) }
    {
        if self.long {
            return Ok(Parsed::Refused(Refusal::Long));
        }
        Ok(parse_line(alloc, without_return(self.bytes.as_slice()))?)
    }

    // The next line begins.
    pub(crate) fn clear(&mut self)
        ensures holds { Holds self.new [] }
        ensures cleared { (self.new.long ≡ false) × (self.new.bytes.items ≡ []) }
    {
        self.bytes.clear();
        self.long = false;
    }

    // No byte of a line is in hand.
    pub(crate) fn is_empty(&self) -> bool
        ensures { IsTrue result ↔ ((self.now.long ≡ false) × (self.now.bytes.items ≡ [])) }
    {
        !self.long && self.bytes.is_empty()
    }
}
