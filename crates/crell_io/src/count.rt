// The calls that are to fail, by their numbers.
ghost use Rattle.std.specs.Prelude.{◌≡◌};
ghost use Rattle.crell_io.specs.Count.{is_to_fail};

/// Whether the call with this number is among those that are to fail.
pub(crate) fn is_in(failing: &[u64], call: u64) -> bool
    ensures { result ≡ is_to_fail failing.now call }
{
    failing.contains(&call)
}
