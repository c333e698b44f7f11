// The order of rows.
ghost use Rattle.std.specs.Prelude.{◌≡◌, ℕ, map};
ghost use Rattle.sheet.specs.Order.{before, follows};
ghost use Rattle.sheet.specs.Reading.{values_by};

// Whether one row comes before another, compared value by value, where `value` takes a value out of its word.
fn comes_before<V: Fn(u32) -> u32>(first: &[u32], second: &[u32], value: V) -> bool
    requires { V.IsAlwaysCallable value }
    ensures { (f : ℕ → ℕ) → ((x y : ℕ) → V.post value x y → y ≡ f x) → result ≡ before (map f first.now) (map f second.now) }
{
    for (u, v) in first.iter().zip(second) {
        let u = value(*u);
        let v = value(*v);
        if u != v {
            return u < v;
        }
    }
    false
}

// Whether a row may follow the row before it, if there is one, where `value` takes a value out of its word.
pub fn in_order<V: Fn(u32) -> u32>(previous: Option<&[u32]>, row: &[u32], value: V) -> bool
    requires { V.IsAlwaysCallable value }
    ensures { (f : ℕ → ℕ) → ((x y : ℕ) → V.post value x y → y ≡ f x) → result ≡ follows (values_by f previous.entry) (map f row.now) }
{
    match previous {
        Some(before) => comes_before(before, row, value),
        None => true,
    }
}
