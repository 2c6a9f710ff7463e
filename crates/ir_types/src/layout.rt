ghost use Rattle.std.specs.Prelude.{◌≡◌, ◌<◌, ◌+◌, ◌^◌, max};
ghost use Rattle.ir_types.specs.Kept as kept;
ghost use Rattle.ir_types.specs.Layout as lies;

/// How a type lies in memory. Definitions count in natural numbers; what is kept of a size above 2^31 is 2^31 + 1.
#[derive(Drop, Clone, Copy)]
pub(crate) struct Layout {
    pub(crate) size: u32,
    pub(crate) align: u32,
}

pub(crate) const MOST: u64 = 2_147_483_649;

/// A size as it is kept.
pub(crate) fn capped(size: u64) -> u32
    ensures { result ≡ kept.capped_size size }
{
    if size < MOST {
        size as u32
    } else {
        MOST as u32
    }
}

/// The least multiple of the alignment that is `size` or more.
pub(crate) fn round_up(size: u32, align: u32) -> u64
    requires { 0 < align }
    ensures value { result ≡ lies.round_up size align }
    ensures bound { result < 2 ^ 33 }
{
    let align = u64::from(align);
    (u64::from(size) + (align - 1)) / align * align
}

pub(crate) fn int_layout(width: u32) -> Layout
    ensures value { result ≡ kept.capped (lies.of_int width) }
    ensures positive { 0 < result.align }
{
    let size = ((u64::from(width) + 7) / 8).next_power_of_two() as u32;
    Layout { size, align: size }
}

pub(crate) fn array_layout(count: u64, element: Layout) -> Layout
    ensures { result ≡ kept.capped (lies.of_array count element) }
{
    Layout {
        size: capped(count.saturating_mul(u64::from(element.size))),
        align: element.align,
    }
}

/// Where a field ends behind fields that end there.
pub(crate) fn end_behind(end: u32, field: Layout) -> u32
    requires { 0 < field.align }
    ensures { result ≡ kept.capped_size (lies.round_up end field.align + field.size) }
{
    capped(round_up(end, field.align) + u64::from(field.size))
}

pub(crate) fn greater_align(one: u32, other: u32) -> u32
    ensures { result ≡ max one other }
{
    if one < other { other } else { one }
}
