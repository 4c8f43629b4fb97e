//! The filters of catches, by the addresses of their descriptors: the number that GNU's code is given at the landing pad.
//! docs/rules/gnu-tables.md states the rule.
ghost use Rattle.std.specs.Prelude.{◌≡◌, ◌≤◌, length, nat_lt};
ghost use Rattle.std.specs.List.{prefix_len};
ghost use Rattle.std.specs.List.Sorted.{IsStrictlySortedBy};
ghost use Rattle.std.specs.Ordering.{nat_cmp};
ghost use Rattle.std.specs.Map.{keys_of};
ghost use Rattle.gnu_descriptors.specs.Filters.{filter_in};

/// How many of the catches have an address below `desc`.
fn catches_below(filters: &[(u32, u32)], desc: u32) -> usize
    requires { IsStrictlySortedBy nat_cmp (keys_of filters.now) }
    ensures count { result ≡ prefix_len (λ f. nat_lt f.0 desc) filters.now }
    ensures within { result ≤ length filters.now }
{
    filters.partition_point(|f| f.0 < desc)
}

/// The filter of the catch whose descriptor is at an address; None if and only if there is none. At the landing pad GNU's code compares
/// r1 with it. `filters` are in ascending order of addresses, as `rewritten` lists them. A binary search.
pub fn filter_of(filters: &[(u32, u32)], desc: u32) -> Option<u32>
    requires { IsStrictlySortedBy nat_cmp (keys_of filters.now) }
    ensures { result ≡ filter_in filters.now desc }
{
    let count = catches_below(filters, desc);
    if count == filters.len() {
        return None;
    }
    let (at, filter) = filters[count];
    if at == desc { Some(filter) } else { None }
}
