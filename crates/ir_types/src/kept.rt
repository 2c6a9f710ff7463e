//! What is kept of the layouts of types, from what is kept of the layouts of names.
ghost use Rattle.std.specs.Prelude.{◌≡◌, ◌<◌, IfSome};
ghost use Rattle.ir_types.specs.Kept as kept;

use crate::Ty;
use crate::layout::{
    Layout, array_layout, capped, end_behind, greater_align, int_layout, round_up,
};
use crate::name_map::NameMap;

#[cycle(kept)]
pub(crate) fn kept_layout(names: &NameMap<Layout>, ty: &Ty) -> Option<Layout>
    requires { kept.AlignsArePositive (kept.value_of names.now) }
    ensures value { result ≡ kept.capped_by (kept.value_of names.now) ty.now }
    ensures positive { IfSome result (λ layout. 0 < layout.align) }
{
    match ty {
        Ty::Int(width) => Some(int_layout(*width)),
        Ty::Ptr(_) => Some(Layout { size: 8, align: 8 }),
        Ty::Array(count, element) => {
            let element = kept_layout(names, element.get())?;
            Some(array_layout(*count, element))
        }
        Ty::Struct(fields) => kept_struct(names, fields.get().as_slice()),
        Ty::Named(name) => names.get(name.get()).copied(),
        Ty::Void => None,
    }
}

#[cycle(kept)]
pub(crate) fn kept_struct(names: &NameMap<Layout>, fields: &[Ty]) -> Option<Layout>
    requires { kept.AlignsArePositive (kept.value_of names.now) }
    ensures value { result ≡ kept.capped_fields (kept.value_of names.now) fields.now }
    ensures positive { IfSome result (λ layout. 0 < layout.align) }
{
    let mut end = 0;
    let mut align = 1;
    for field in fields {
        let field = kept_layout(names, field)?;
        end = end_behind(end, field);
        align = greater_align(align, field.align);
    }
    Some(Layout {
        size: capped(round_up(end, align)),
        align,
    })
}

/// Where the field of that number begins.
pub(crate) fn kept_offset(names: &NameMap<Layout>, fields: &[Ty], index: u32) -> u32
    requires { kept.AlignsArePositive (kept.value_of names.now) }
    ensures { result ≡ kept.kept_offset (kept.value_of names.now) 0 fields.now index }
{
    let mut end = 0;
    let mut left = index;
    for field in fields {
        match kept_layout(names, field) {
            Some(field) => {
                if left == 0 {
                    return capped(round_up(end, field.align));
                }
                end = end_behind(end, field);
                left -= 1;
            }
            None => return 0,
        }
    }
    capped(u64::from(end))
}
