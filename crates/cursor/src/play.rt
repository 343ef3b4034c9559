// Playback: the entries from the gap on, by nexts, into lent slices. Each answer is taken apart, and playback goes on
// only with the entry that it carries.
ghost use Rattle.std.specs.Prelude.{◌≡◌, [], ◌∷◌, min, length};
ghost use Rattle.model.specs.Refusal.{refusal};
ghost use Rattle.model.specs.CursorCalls.{cursor_tests};
ghost use Rattle.model.specs.ListCalls.{key_column, value_column};
ghost use Rattle.map.specs.Answers.{outcome_of, itself};
ghost use Rattle.model.specs.Playback.{Plays};
ghost use Rattle.cursor.specs.Playback.{PlayStops};

use crate::{gap, next};
use map::refusal::Refusal;
use page::Entry;

// Playback that ends with no further entry, after `n`: where the first next is refused it is refused; else it has told
// what it wrote. Beside the list's `stop`, whose step is refused for one reason alone: one over both errors would promise
// less of each.
fn stop(step: Result<Option<Entry>, Refusal>, n: usize) -> Result<usize, Refusal>
    ensures { PlayStops step n result }
{
    if n == 0 {
        step?;
    }
    Ok(n)
}

// Past the tests: at most `most` entries. By the index, which is how many were written where it ends early.
fn run(
    pool: &mut [u64],
    most: usize,
    keys: &mut [u64],
    values: &mut [u64],
) -> Result<usize, Refusal>
    requires pool_value { refusal (cursor_tests pool.old) ≡ 0 }
    requires most_value { most ≡ min (length keys.old) (length values.old) }
    ensures { Plays pool.old pool.new (key_column keys.old keys.new ∷ value_column values.old values.new ∷ []) (outcome_of itself result) }
{
    for i in 0..most {
        let step = next(pool);
        let Ok(Some(e)) = step else {
            return stop(step, i);
        };
        keys[i] = e.key;
        values[i] = e.value;
    }
    Ok(most)
}

// The entries after the gap, as many as the shorter slice takes; the gap goes over them. Two slices, and none of
// entries, for C lends two arrays.
pub fn play(pool: &mut [u64], keys: &mut [u64], values: &mut [u64]) -> Result<usize, Refusal>
    ensures { Plays pool.old pool.new (key_column keys.old keys.new ∷ value_column values.old values.new ∷ []) (outcome_of itself result) }
{
    gap::ready(pool)?;
    let most = keys.len().min(values.len());
    run(pool, most, keys, values)
}
