ghost use Rattle.std.specs.Prelude.{◌≡◌, ◌↔◌, IsTrue, IfOk};
ghost use Rattle.ir_core.specs.Modules as meaning;

use crate::operands::is_align;
use crate::{Const, Extensions, Function, Name, Ty};
use contents::{Exact, Seq, Text};
use ir_types::{NamedTypes, Shared};
use std::alloc::{AllocError, Global};

/// Where else a global or a definition can be seen (LangRef 3.7, Linkage Types). A definition without a word has the linkage `external`.
#[derive(Drop, Clone, Copy)]
pub enum Linkage {
    External,
    Private,
    Internal,
    Common,
    AvailableExternally,
    LinkonceOdr,
    WeakOdr,
}

/// A number for each linkage.
fn linkage_code(linkage: Linkage) -> u32
    ensures { result ≡ meaning.linkage_code linkage }
{
    match linkage {
        Linkage::External => 0,
        Linkage::Private => 1,
        Linkage::Internal => 2,
        Linkage::Common => 3,
        Linkage::AvailableExternally => 4,
        Linkage::LinkonceOdr => 5,
        Linkage::WeakOdr => 6,
    }
}

impl Exact for Linkage {
    fn is(&self, other: &Linkage) -> bool {
        linkage_code(*self) == linkage_code(*other)
    }

    fn copy(&self, _alloc: Global) -> Result<Linkage, AllocError> {
        Ok(*self)
    }
}

/// What a global holds at the start (LangRef 3.7, Constants, Complex Constants).
pub enum Init {
    Const(Const),
    /// `zeroinitializer`, of whatever type.
    Zero,
    /// `c"bytes"`, an array of i8.
    Bytes(Text),
    /// `[ty init, ..]`
    Array(Shared<Seq<TypedInit>>),
    /// `{ ty init, .. }`
    Struct(Shared<Seq<TypedInit>>),
}

/// An element or a field of an initialiser, behind its type.
pub type TypedInit = (Ty, Init);

impl Drop for Init {
    fn drop(self) {
        match self {
            Init::Const(_) => {}
            Init::Zero => {}
            Init::Bytes(_) => {}
            Init::Array(_) => {}
            Init::Struct(_) => {}
        }
    }
}

impl Exact for Init {
    fn is(&self, other: &Init) -> bool {
        match (self, other) {
            (Init::Const(mine), Init::Const(theirs)) => mine.is(theirs),
            (Init::Zero, Init::Zero) => true,
            (Init::Bytes(mine), Init::Bytes(theirs)) => mine.is(theirs),
            (Init::Array(mine), Init::Array(theirs)) => {
                let mine = mine.get();
                let theirs = theirs.get();
                if mine.len() != theirs.len() {
                    return false;
                }
                for i in 0..mine.len() {
                    let one = &mine.as_slice()[i];
                    let other = &theirs.as_slice()[i];
                    if !one.0.is(&other.0) || !one.1.is(&other.1) {
                        return false;
                    }
                }
                true
            }
            (Init::Struct(mine), Init::Struct(theirs)) => {
                let mine = mine.get();
                let theirs = theirs.get();
                if mine.len() != theirs.len() {
                    return false;
                }
                for i in 0..mine.len() {
                    let one = &mine.as_slice()[i];
                    let other = &theirs.as_slice()[i];
                    if !one.0.is(&other.0) || !one.1.is(&other.1) {
                        return false;
                    }
                }
                true
            }
            _ => false,
        }
    }

    /// Takes no walk through the lists.
    fn copy(&self, alloc: Global) -> Result<Init, AllocError> {
        match self {
            Init::Const(constant) => Ok(Init::Const(constant.copy(alloc)?)),
            Init::Zero => Ok(Init::Zero),
            Init::Bytes(bytes) => Ok(Init::Bytes(bytes.copy(alloc)?)),
            Init::Array(elements) => Ok(Init::Array(elements.share()?)),
            Init::Struct(fields) => Ok(Init::Struct(fields.share()?)),
        }
    }
}

fn same_init(mine: &Option<Init>, theirs: &Option<Init>) -> bool
    ensures { IsTrue result ↔ (mine.now ≡ theirs.now) }
{
    match (mine, theirs) {
        (Some(mine), Some(theirs)) => mine.is(theirs),
        (None, None) => true,
        _ => false,
    }
}

fn copied_init(init: &Option<Init>, alloc: Global) -> Result<Option<Init>, AllocError>
    ensures { IfOk result (λ copied. copied ≡ init.now) }
{
    match init {
        Some(init) => Ok(Some(init.copy(alloc)?)),
        None => Ok(None),
    }
}

/// `@name = linkage constant ty init, align N` (LangRef 3.7, Global Variables): `constant` or `global`. One that is `external` holds what
/// another module gives it. The alignment is kept as it is read.
pub struct GlobalVar {
    pub name: Name,
    pub linkage: Linkage,
    pub constant: bool,
    pub ty: Ty,
    pub init: Option<Init>,
    pub align: Option<u32>,
}

impl Drop for GlobalVar {
    fn drop(self) {
        let GlobalVar {
            name: _,
            linkage: _,
            constant: _,
            ty: _,
            init: _,
            align: _,
        } = self;
    }
}

impl Exact for GlobalVar {
    fn is(&self, other: &GlobalVar) -> bool {
        self.name.is(&other.name)
            && self.linkage.is(&other.linkage)
            && self.constant == other.constant
            && self.ty.is(&other.ty)
            && same_init(&self.init, &other.init)
            && is_align(self.align, other.align)
    }

    fn copy(&self, alloc: Global) -> Result<GlobalVar, AllocError> {
        Ok(GlobalVar {
            name: self.name.copy(alloc)?,
            linkage: self.linkage,
            constant: self.constant,
            ty: self.ty.copy(alloc)?,
            init: copied_init(&self.init, alloc)?,
            align: self.align,
        })
    }
}

/// A parameter of a declaration, whose name plays no part.
pub struct DeclaredParam {
    pub ty: Ty,
    pub extensions: Extensions,
}

impl Drop for DeclaredParam {
    fn drop(self) {
        let DeclaredParam {
            ty: _,
            extensions: _,
        } = self;
    }
}

impl Exact for DeclaredParam {
    fn is(&self, other: &DeclaredParam) -> bool {
        self.ty.is(&other.ty) && self.extensions.is(&other.extensions)
    }

    fn copy(&self, alloc: Global) -> Result<DeclaredParam, AllocError> {
        Ok(DeclaredParam {
            ty: self.ty.copy(alloc)?,
            extensions: self.extensions,
        })
    }
}

/// `declare result_extensions result @name(params, ...)` (LangRef 3.7, Functions): `variadic` where `...` stands last.
pub struct Declaration {
    pub result_extensions: Extensions,
    pub result: Ty,
    pub name: Name,
    pub params: Seq<DeclaredParam>,
    pub variadic: bool,
    /// How many definitions stand before it in the file.
    pub before: usize,
}

impl Drop for Declaration {
    fn drop(self) {
        let Declaration {
            result_extensions: _,
            result: _,
            name: _,
            params: _,
            variadic: _,
            before: _,
        } = self;
    }
}

impl Exact for Declaration {
    fn is(&self, other: &Declaration) -> bool {
        self.result_extensions.is(&other.result_extensions)
            && self.result.is(&other.result)
            && self.name.is(&other.name)
            && self.params.is(&other.params)
            && self.variadic == other.variadic
            && self.before == other.before
    }

    fn copy(&self, alloc: Global) -> Result<Declaration, AllocError> {
        Ok(Declaration {
            result_extensions: self.result_extensions,
            result: self.result.copy(alloc)?,
            name: self.name.copy(alloc)?,
            params: self.params.copy(alloc)?,
            variadic: self.variadic,
            before: self.before,
        })
    }
}

/// A module: the types that it names, its globals, its definitions and its declarations, each in the order of the file. A declaration says
/// how many definitions stand before it.
pub struct Module {
    pub types: NamedTypes,
    pub globals: Seq<GlobalVar>,
    pub functions: Seq<Function>,
    pub declarations: Seq<Declaration>,
}

impl Drop for Module {
    fn drop(self) {
        let Module {
            types: _,
            globals: _,
            functions: _,
            declarations: _,
        } = self;
    }
}
