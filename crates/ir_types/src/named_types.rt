use crate::keeping::{index_fields, keep_layouts};
use crate::kept::{kept_layout, kept_offset};
use crate::layout::Layout;
use crate::name_map::NameMap;
use crate::named::{Fields, NamedTy};
use crate::{Name, Ty};
use contents::{Exact, Seq};
use std::alloc::{AllocError, Global};
use std::marker::Model;

/// The types that a module names, in its order. Beside them stands what is kept of their layouts, which no contract sees.
pub struct NamedTypes {
    types: Seq<NamedTy>,
    fields: NameMap<Fields>,
    layouts: NameMap<Layout>,
}

impl Model for NamedTypes {
    ghost use Rattle.std.specs.Prelude.{List};
    ghost use Rattle.ir_types.specs.declared.named.NamedTy.{NamedTy};
    ghost use Rattle.std.specs.Coded.{codes};
    ghost use Rattle.ir_types.specs.contracts.ty.Ty as ty;
    ghost use Rattle.ir_types.specs.Kept.{AreBeside};

    ghost Value = { List NamedTy };

    ghost coded = { Prim.hlevel (codes, ty.the_row.coded) };

    ghost view = { λ it. it.types };

    ghost invariant = { λ it. AreBeside it.types it.fields it.layouts };
}

impl Drop for NamedTypes {
    fn drop(self) {
        let NamedTypes {
            types: _,
            fields: _,
            layouts: _,
        } = self;
    }
}

impl NamedTypes {
    ghost use Rattle.std.specs.Prelude.{◌≡◌, ◌<◌, [], true, length, map, IfOk, IfSome};
    ghost use Rattle.std.specs.Option.{option_copied, option_map, is_some};
    ghost use Rattle.ir_types.specs.Kept as kept;
    ghost use Rattle.ir_types.specs.Named.{fields_of, knows_type, layout_of, offset_in};
    ghost use Rattle.ir_types.specs.Layout.{all_of};

    pub fn new(alloc: Global, types: Seq<NamedTy>) -> Result<NamedTypes, AllocError>
        ensures { IfOk result (λ it. it ≡ types) }
    {
        let fields = index_fields(alloc, types.as_slice())?;
        let layouts = keep_layouts(alloc, types.as_slice(), &fields)?;
        Ok(NamedTypes {
            types,
            fields,
            layouts,
        })
    }

    /// No type is named. Takes no memory.
    pub fn none(alloc: Global) -> NamedTypes
        ensures { result ≡ [] }
    {
        NamedTypes {
            types: Seq::new(alloc),
            fields: NameMap::new(alloc),
            layouts: NameMap::new(alloc),
        }
    }

    pub fn as_slice(&self) -> &[NamedTy]
        ensures { result.now ≡ self.now }
    {
        self.types.as_slice()
    }

    /// The fields of the first type of that name: none where it is opaque, and where there is none. Takes no walk.
    pub fn fields(&self, name: &Name) -> Option<&Seq<Ty>>
        ensures { option_copied result ≡ fields_of self.now name.now }
    {
        match self.fields.get(name) {
            Some(Some(fields)) => Some(fields.get()),
            _ => None,
        }
    }

    /// Whether the module names the type, opaque or not. Takes no walk.
    pub fn knows(&self, name: &Name) -> bool
        ensures { result ≡ knows_type self.now name.now }
    {
        self.fields.get(name).is_some()
    }

    pub(crate) fn layout(&self, ty: &Ty) -> Option<Layout>
        ensures value { result ≡ option_map kept.capped (layout_of self.now ty.now) }
        ensures positive { IfSome result (λ layout. 0 < layout.align) }
    {
        kept_layout(&self.layouts, ty)
    }

    pub(crate) fn offset(&self, fields: &[Ty], index: u32) -> u32
        requires there { index < length fields.now }
        requires sized { is_some (all_of (map (layout_of self.now) fields.now)) ≡ true }
        ensures { result ≡ kept.capped_size (offset_in (all_of (map (layout_of self.now) fields.now)) index) }
    {
        kept_offset(&self.layouts, fields, index)
    }
}

impl Exact for NamedTypes {
    fn is(&self, other: &NamedTypes) -> bool {
        self.types.is(&other.types)
    }

    fn copy(&self, alloc: Global) -> Result<NamedTypes, AllocError> {
        NamedTypes::new(alloc, self.types.copy(alloc)?)
    }
}
