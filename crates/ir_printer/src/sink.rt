//! A text that is written piece by piece, and the two ways in which lists are written into it.
ghost use Rattle.std.specs.Prelude.{◌≡◌, ◌==◌, ◌∷◌, [], IsTrue, length, map, IfOk};
ghost use Rattle.std.specs.List.{flat_map};
ghost use Rattle.ir_printer.specs.ExpressionPrinter.Printed.{listed};
ghost use Rattle.ir_printer.specs.Told.{IsTold};

use std::alloc::{AllocError, Global};

/// A text that is written piece by piece. It is whole until memory is refused once, and nothing is written from then on.
#[derive(Drop)]
pub(crate) struct Sink {
    bytes: Vec<u8>,
    whole: bool,
}

impl Sink {
    /// The text of no bytes.
    pub(crate) fn new(alloc: Global) -> Sink
        ensures { result.bytes.items ≡ [] }
    {
        Sink {
            bytes: Vec::new(alloc),
            whole: true,
        }
    }

    /// Puts the bytes at the end of the text.
    pub(crate) fn put(&mut self, piece: &[u8])
        ensures { IsTold self.old self.new piece.now }
    {
        if self.whole {
            match self.bytes.extend_from_slice(piece) {
                Ok(()) => {}
                Err(_) => self.whole = false,
            }
        }
    }

    /// Puts one byte at the end of the text.
    pub(crate) fn put_byte(&mut self, byte: u8)
        ensures { IsTold self.old self.new (byte ∷ []) }
    {
        if self.whole {
            match self.bytes.push(byte) {
                Ok(()) => {}
                Err(_) => self.whole = false,
            }
        }
    }

    /// Whether nothing was written so far.
    pub(crate) fn is_empty(&self) -> bool
        ensures { result ≡ (length self.now.bytes.items == 0) }
    {
        self.bytes.is_empty()
    }

    /// The text, if it is whole.
    pub(crate) fn finish(self) -> Result<Vec<u8>, AllocError>
        ensures { IfOk result (λ text. IsTrue self.whole × (text.items ≡ self.bytes.items)) }
    {
        if self.whole {
            Ok(self.bytes)
        } else {
            Err(AllocError)
        }
    }
}

/// A way in which things are printed.
pub(crate) trait Prints<T> {
    ghost use Rattle.std.specs.Prelude.{ℕ, List};

    /// What a thing is printed as.
    ghost printed: { Self → T → List ℕ };

    /// Puts the thing at the end of the text.
    fn push(&self, text: &mut Sink, thing: &T)
        ensures { IsTold text.old text.new (printed self.now thing.now) };
}

/// Each of the things, one behind the other.
pub(crate) fn push_each<T, P: Prints<T>>(text: &mut Sink, by: &P, things: &[T])
    ensures { IsTold text.old text.new (flat_map (P.printed by.now) things.now) }
{
    for thing in things {
        by.push(text, thing);
    }
}

/// Each of the things, with this before the first and a comma before each further one.
pub(crate) fn push_listed<T, P: Prints<T>>(text: &mut Sink, by: &P, before: &[u8], things: &[T])
    ensures { IsTold text.old text.new (listed before.now (map (P.printed by.now) things.now)) }
{
    let mut between = before;
    for thing in things {
        text.put(between);
        by.push(text, thing);
        between = b", ";
    }
}
