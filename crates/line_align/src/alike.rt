//! Lists of things that are alike in pairs.
ghost use Rattle.std.specs.Prelude.{◌≡◌};
ghost use Rattle.ir_types.specs.Same.{same_list};

/// A way in which two things are alike.
pub trait Likeness<T> {
    ghost use Rattle.std.specs.Prelude.{Bool};

    ghost like: { Self → T → T → Bool };

    fn are_alike(&self, a: &T, b: &T) -> bool
        ensures { result ≡ like self.now a.now b.now };
}

/// Whether the lists are equally long, and alike in pairs.
pub fn all_alike<T, L: Likeness<T>>(likeness: &L, source: &[T], target: &[T]) -> bool
    ensures { result ≡ same_list (L.like likeness.now) source.now target.now }
{
    let mut rest = target;
    for a in source {
        match rest.split_first() {
            Some((b, after)) => {
                if !likeness.are_alike(a, b) {
                    return false;
                }
                rest = after;
            }
            None => return false,
        }
    }
    rest.is_empty()
}
