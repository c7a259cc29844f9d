// Numbers that are counted up.
ghost use Rattle.std.specs.Prelude.{◌≡◌, ◌-◌, ◌≤◌, ◌^◌, suc, IfSome, IfNone};

/// The number after this one, none past the greatest.
pub fn next_number(number: u64) -> Option<u64>
    ensures next { IfSome result (λ n. n ≡ suc number) }
    ensures greatest { IfNone result (2 ^ 64 - 1 ≤ number) }
{
    if number == u64::MAX {
        return None;
    }
    Some(number + 1)
}
