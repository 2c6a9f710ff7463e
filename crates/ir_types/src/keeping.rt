//! How the layouts of a module's named types are found: by rounds, until one finds none.
ghost use Rattle.std.specs.Prelude.{◌≡◌, ◌<◌, true, false, IfOk, IfSome, OnOk};
ghost use Rattle.ir_types.specs.Kept as kept;

use crate::Name;
use crate::kept::kept_struct;
use crate::layout::Layout;
use crate::name_map::NameMap;
use crate::named::{Fields, NamedTy, shared_fields};
use crate::order::places_in_order;
use contents::Exact;
use std::alloc::{AllocError, Global};

/// The fields of each name: those of the first type of that name.
pub(crate) fn index_fields(alloc: Global, types: &[NamedTy]) -> Result<NameMap<Fields>, AllocError>
    ensures indexed { IfOk result (λ fields. kept.AreIndexed types.now fields) }
    ensures listed { IfOk result (λ fields. kept.AreListed types.now fields) }
{
    let mut fields = NameMap::with_room(alloc, types.len())?;
    let mut left = types.len();
    while left > 0 {
        left -= 1;
        let named = &types[left];
        fields.put(named.name.copy(alloc)?, shared_fields(&named.fields)?)?;
    }
    Ok(fields)
}

fn layout_of_fields(
    fields: &NameMap<Fields>,
    layouts: &NameMap<Layout>,
    name: &Name,
) -> Option<Layout>
    requires { kept.AlignsArePositive (kept.value_of layouts.now) }
    ensures value { result ≡ kept.struct_kept (kept.fields_at fields.now) (kept.value_of layouts.now) name.now }
    ensures positive { IfSome result (λ layout. 0 < layout.align) }
{
    let fields = fields.get(name)?.as_ref()?;
    kept_struct(layouts, fields.get().as_slice())
}

/// Keeps the layout of the name, where it is new and its struct has one.
fn keep_name(
    alloc: Global,
    fields: &NameMap<Fields>,
    layouts: &mut NameMap<Layout>,
    name: &Name,
) -> Result<bool, AllocError>
    requires { kept.AlignsArePositive (kept.value_of layouts.old) }
    ensures positive { OnOk result (kept.AlignsArePositive (kept.value_of layouts.new)) }
    ensures more { IfOk result (λ more. more ≡ true → kept.IsOneMore (kept.fields_at fields.now) (kept.value_of layouts.old) (kept.value_of layouts.new) name.now) }
    ensures none { IfOk result (λ more. more ≡ false → layouts.new ≡ layouts.old) }
    ensures closed { IfOk result (λ more. more ≡ false → kept.IsClosed (kept.fields_at fields.now) (kept.value_of layouts.old) name.now) }
{
    if layouts.get(name).is_some() {
        return Ok(false);
    }
    match layout_of_fields(fields, layouts, name) {
        Some(layout) => {
            layouts.put(name.copy(alloc)?, layout)?;
            Ok(true)
        }
        None => Ok(false),
    }
}

/// Keeps the layout of each name in turn that is new and whose struct has one, and says whether there was any.
fn keep_round(
    alloc: Global,
    types: &[NamedTy],
    fields: &NameMap<Fields>,
    layouts: &mut NameMap<Layout>,
) -> Result<bool, AllocError>
    requires indexed { kept.AreIndexed types.now fields.now }
    requires positive { kept.AlignsArePositive (kept.value_of layouts.old) }
    requires partly { kept.ArePartlyKept types.now (kept.value_of layouts.old) }
    ensures positive { OnOk result (kept.AlignsArePositive (kept.value_of layouts.new)) }
    ensures partly { OnOk result (kept.ArePartlyKept types.now (kept.value_of layouts.new)) }
    ensures fewer { IfOk result (λ more. more ≡ true → kept.missing_of (kept.value_of layouts.new) types.now < kept.missing_of (kept.value_of layouts.old) types.now) }
    ensures closed { IfOk result (λ more. more ≡ false → kept.AreClosed (kept.fields_at fields.now) (kept.value_of layouts.new) types.now) }
{
    let mut more = false;
    for named in types {
        more |= keep_name(alloc, fields, layouts, &named.name)?;
    }
    Ok(more)
}

/// Keeps the layouts of names in the order in which they are found at once.
fn keep_in_order(
    alloc: Global,
    types: &[NamedTy],
    fields: &NameMap<Fields>,
    layouts: &mut NameMap<Layout>,
) -> Result<(), AllocError>
    requires indexed { kept.AreIndexed types.now fields.now }
    requires positive { kept.AlignsArePositive (kept.value_of layouts.old) }
    requires partly { kept.ArePartlyKept types.now (kept.value_of layouts.old) }
    ensures positive { OnOk result (kept.AlignsArePositive (kept.value_of layouts.new)) }
    ensures partly { OnOk result (kept.ArePartlyKept types.now (kept.value_of layouts.new)) }
{
    let order = places_in_order(alloc, types)?;
    for place in order.as_slice() {
        if let Some(named) = types.get(*place) {
            keep_name(alloc, fields, layouts, &named.name)?;
        }
    }
    Ok(())
}

/// What is kept of the layouts of all names. The first round finds none behind the names in order, so that the work is linear.
pub(crate) fn keep_layouts(
    alloc: Global,
    types: &[NamedTy],
    fields: &NameMap<Fields>,
) -> Result<NameMap<Layout>, AllocError>
    requires indexed { kept.AreIndexed types.now fields.now }
    ensures kept { IfOk result (λ layouts. kept.AreKept types.now (kept.value_of layouts)) }
    ensures positive { IfOk result (λ layouts. kept.AlignsArePositive (kept.value_of layouts)) }
{
    let mut layouts = NameMap::with_room(alloc, types.len())?;
    keep_in_order(alloc, types, fields, &mut layouts)?;
    while keep_round(alloc, types, fields, &mut layouts)? {}
    Ok(layouts)
}
