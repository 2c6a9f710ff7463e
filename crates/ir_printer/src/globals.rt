//! Globals as text.
ghost use Rattle.std.specs.Prelude.{◌≡◌};
ghost use Rattle.ir_printer.specs.Globals.{contents_text, global_linkage, global_text, global_word, held_text, linkage_text, printed_init, struct_end};
ghost use Rattle.ir_printer.specs.Told.{IsTold};

use crate::expression_printer::{push_align, push_constant, push_name, push_quoted, push_type};
use crate::sink::{Prints, Sink};
use ir_core::{GlobalVar, Init, Linkage, Sigil, Ty};

/// Globals, each on a line of its own.
pub(crate) struct Globals;

impl Prints<GlobalVar> for Globals {
    ghost printed = { λ _ global. global_text global };

    fn push(&self, text: &mut Sink, global: &GlobalVar) {
        push_global(text, global);
    }
}

fn push_global(text: &mut Sink, global: &GlobalVar)
    ensures { IsTold text.old text.new (global_text global.now) }
{
    push_name(text, Sigil::Global, &global.name);
    text.put(b" = ");
    text.put(linkage_of(global.linkage, &global.init));
    text.put(word_of(global.constant));
    push_contents(text, global);
}

fn push_contents(text: &mut Sink, global: &GlobalVar)
    ensures { IsTold text.old text.new (contents_text global.now) }
{
    push_type(text, &global.ty);
    push_held(text, &global.ty, &global.init);
    push_align(text, global.align);
    text.put_byte(b'\n');
}

/// `external` of one that another module defines.
fn linkage_of(linkage: Linkage, init: &Option<Init>) -> &'static [u8]
    ensures { result.now ≡ global_linkage linkage init.now }
{
    match (linkage, init) {
        (Linkage::External, None) => b"external ",
        _ => linkage_text(linkage),
    }
}

/// The word of a linkage and a space, and nothing for the linkage without a word.
pub(crate) fn linkage_text(linkage: Linkage) -> &'static [u8]
    ensures { result.now ≡ linkage_text linkage }
{
    match linkage {
        Linkage::External => b"",
        Linkage::Private => b"private ",
        Linkage::Internal => b"internal ",
        Linkage::Common => b"common ",
        Linkage::AvailableExternally => b"available_externally ",
        Linkage::LinkonceOdr => b"linkonce_odr ",
        Linkage::WeakOdr => b"weak_odr ",
    }
}

fn word_of(constant: bool) -> &'static [u8]
    ensures { result.now ≡ global_word constant }
{
    if constant { b"constant " } else { b"global " }
}

fn push_held(text: &mut Sink, ty: &Ty, init: &Option<Init>)
    ensures { IsTold text.old text.new (held_text ty.now init.now) }
{
    match init {
        Some(init) => {
            text.put_byte(b' ');
            push_init(text, init, ty);
        }
        None => {}
    }
}

/// Goes as deep as initialisers stand in one another.
fn push_init(text: &mut Sink, init: &Init, ty: &Ty)
    ensures { IsTold text.old text.new (printed_init init.now ty.now) }
{
    match init {
        Init::Const(constant) => push_constant(text, ty, constant),
        Init::Zero => text.put(b"zeroinitializer"),
        Init::Bytes(bytes) => {
            text.put_byte(b'c');
            push_quoted(text, bytes.as_slice());
        }
        Init::Array(elements) => {
            let elements = elements.get();
            text.put_byte(b'[');
            let mut before: &[u8] = b"";
            for i in 0..elements.len() {
                let one = &elements.as_slice()[i];
                text.put(before);
                push_type(text, &one.0);
                text.put_byte(b' ');
                push_init(text, &one.1, &one.0);
                before = b", ";
            }
            text.put_byte(b']');
        }
        Init::Struct(fields) => {
            let fields = fields.get();
            let mut before: &[u8] = b"{ ";
            for i in 0..fields.len() {
                let one = &fields.as_slice()[i];
                text.put(before);
                push_type(text, &one.0);
                text.put_byte(b' ');
                push_init(text, &one.1, &one.0);
                before = b", ";
            }
            push_struct_end(text, fields.as_slice());
        }
    }
}

/// What stands behind the fields of a struct, and in their place where there are none.
fn push_struct_end(text: &mut Sink, fields: &[(Ty, Init)])
    ensures { IsTold text.old text.new (struct_end fields.now) }
{
    text.put(if fields.is_empty() { b"{}" } else { b" }" });
}
