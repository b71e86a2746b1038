//! Entries that rise by their keys.
ghost use Rattle.std.specs.Prelude.{◌≡◌, ℕ, ◌<◌, length, slice_index_or, Option, IfSome};
ghost use Rattle.std.specs.Fn.{FnReturnsAt};
ghost use Rattle.cartridge.specs.Orders.{FirstFall, above};

/// Whether a key is above the one before it. An entry that is wrong by itself has none.
fn rises(last: Option<(u16, u16)>, key: Option<(u16, u16)>) -> bool
    ensures { result ≡ above last key }
{
    last < key
}

/// The first of the entries whose key is not above that of the one before it. An entry that is wrong by itself has no
/// key.
pub(crate) fn first_fall<T, F: Fn(&T) -> Option<(u16, u16)>>(
    entries: &[T],
    key_of: F,
) -> Option<usize>
    requires { F.IsAlwaysCallable key_of }
    ensures within { IfSome result (λ k. k < length entries.now) }
    ensures falls { (key : ℕ → Option (ℕ × ℕ))
        → ((i : ℕ) (d : T) (k : Option (ℕ × ℕ)) → i < length entries.now → FnReturnsAt F.Fn key_of (slice_index_or entries.now i d) k → k ≡ key i)
        → FirstFall key (length entries.now) result }
{
    let mut last = None;
    for (i, entry) in entries.iter().enumerate() {
        let key = key_of(entry);
        if !rises(last, key) {
            return Some(i);
        }
        last = key;
    }
    None
}
