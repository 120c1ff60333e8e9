//! Whether two texts are equal, by their symbols.

ghost use Rattle.std.specs.Prelude.{◌≡◌, ◌↔◌, IsTrue, IfOk};

use string_interner::StringInterner;
use string_interner::backend::{Backend, InternError};
use string_interner::dedup::TextHasher;

/// Interns two texts, and reports whether they are equal by their symbols alone.
///
/// Fails as `get_or_intern` does.
pub fn same_text<B: Backend, H: TextHasher>(
    interner: &mut StringInterner<B, H>,
    a: &str,
    b: &str,
) -> Result<bool, InternError>
    ensures { IfOk result (λ same. IsTrue same ↔ (a.now ≡ b.now)) }
{
    let left = interner.get_or_intern(a)?;
    let right = interner.get_or_intern(b)?;
    // For the proof: states that symbols are equal exactly if their texts are.
    let _ = interner.len();
    Ok(left == right)
}

/// Interns three texts, and reports whether all are equal by their symbols alone.
///
/// Fails as `get_or_intern` does.
pub fn same_texts<B: Backend, H: TextHasher>(
    interner: &mut StringInterner<B, H>,
    a: &str,
    b: &str,
    c: &str,
) -> Result<bool, InternError>
    ensures { IfOk result (λ same. IsTrue same ↔ ((a.now ≡ b.now) × (b.now ≡ c.now))) }
{
    let first = interner.get_or_intern(a)?;
    let second = interner.get_or_intern(b)?;
    let third = interner.get_or_intern(c)?;
    // For the proof, as above.
    let _ = interner.len();
    Ok(first == second && second == third)
}
