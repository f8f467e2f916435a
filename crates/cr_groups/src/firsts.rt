//! Tables of the first of each key in a list.
ghost use Rattle.std.specs.Prelude.{◌≡◌, eqb, cond, ℕ, Some, OnOk};
ghost use Rattle.cr_groups.specs.Firsts.{find_number, or_number, Notes};

use cr_base::OutOfMemory;
use indexmap::IndexMap;

/// The number that is noted under a key.
pub fn first_at(firsts: &IndexMap<usize, usize>, key: usize) -> Option<usize>
    ensures { result ≡ find_number key firsts.now.entries }
{
    firsts.get(&key).copied()
}

// A key has this number.
fn put_first(firsts: &mut IndexMap<usize, usize>, key: usize, n: usize) -> Result<(), OutOfMemory>
    ensures { OnOk result ((a : ℕ) → find_number a firsts.new.entries
        ≡ cond (eqb key a) (Some n) (find_number a firsts.old.entries)) }
{
    firsts.insert(key, n)?;
    Ok(())
}

// The number that was found, or else another one.
fn number_or(found: Option<usize>, n: usize) -> usize
    ensures { result ≡ or_number found n }
{
    match found {
        Some(c) => c,
        None => n,
    }
}

/// Notes a number under a key, where there is one that nothing is noted under yet.
pub fn note_first(
    firsts: &mut IndexMap<usize, usize>,
    key: Option<usize>,
    n: usize,
) -> Result<(), OutOfMemory>
    ensures { OnOk result (Notes key n firsts.old.entries firsts.new.entries) }
{
    let Some(key) = key else {
        return Ok(());
    };
    let first = number_or(first_at(firsts, key), n);
    put_first(firsts, key, first)?;
    Ok(())
}
