//! Which variables are to be the lowest ones: eight under which the truth tables have few distinct
//! strips, one of 256 entries for each assignment of the others. What is chosen decides time alone.

ghost use Rattle.std.specs.Prelude.{◌≡◌, ◌<◌, ◌≤◌, IfOk};

use order_model::packed::lower_half;
use order_model::{HASH_MULTIPLIER, Mask, Problem, VarIx};
use std::alloc::{AllocError, Global};
use symmetries::Renaming;

/// The most exchanges of two variables that are made.
const MOST_CHANGES: u8 = 8;

/// With at most this many distinct strips class tables are small whichever variables are the
/// lowest.
const FEW_STRIPS: u32 = 16;

/// The hash of `hash` and `word`.
fn mixed(hash: u64, word: u64) -> u64 {
    let product = (hash ^ word).wrapping_mul(HASH_MULTIPLIER);
    product ^ (product >> 29)
}

/// For each strip in `words`, which has packed truth tables, four words a strip, the hashes of the
/// half where bit `low` of the point is 0, and of that where it is 1.
fn halves_of(alloc: Global, words: &[u64], low: VarIx) -> Result<Vec<u64>, AllocError>
    requires { low < 8 }
{
    let mut hashes = Vec::with_capacity(alloc, words.len() / 2)?;
    for strip in words.chunks_exact(4) {
        let mut halves = [0, 0];
        for (place, word) in strip.iter().enumerate() {
            if low < 6 {
                let mask = lower_half(low);
                halves[0] = mixed(halves[0], *word & mask);
                halves[1] = mixed(halves[1], word.wrapping_shr(1 << low) & mask);
            } else {
                let half = (place >> (low - 6)) & 1;
                halves[half] = mixed(halves[half], *word);
            }
        }
        hashes.extend_from_slice(&halves)?;
    }
    Ok(hashes)
}

/// About how many distinct strips the hashed halves make up, if those at places that differ in bit
/// `bit` alone are joined. Bit 0 joins them as `halves_of` found them, and bit k as if the low
/// variable and the high one `7 + k` were exchanged.
fn count_strips(halves: &[u64], bit: u8) -> u32
    requires { bit ≤ 8 }
{
    let mut seen = [0u64; 256];
    for (place, half) in halves.iter().enumerate() {
        if (place >> bit) & 1 == 0
            && let Some(other) = halves.get(place | (1 << bit))
        {
            let value = mixed(mixed(0, *half), *other) >> 50;
            seen[(value / 64) as usize] |= 1 << (value % 64);
        }
    }
    seen.iter()
        .fold(0, |count, word| count.wrapping_add(word.count_ones()))
}

/// An exchange of the variables at two places, which are bits of a point.
#[derive(Clone, Copy)]
struct Change {
    /// The low place, below 8.
    low: VarIx,
    /// The high place, 8 or above.
    high: VarIx,
    /// About how many distinct strips the exchange leaves.
    strips: u32,
    ghost is_low: { low < 8 },
    ghost is_high: { high < 16 },
}

/// The first exchange of a variable at a place below 8 with one at a higher place that leaves the
/// fewest distinct strips of `words`, by an estimate from hashes. None if each leaves at least
/// `most`. `halves` has those of place 0.
fn best_change(
    alloc: Global,
    words: &[u64],
    mut halves: Vec<u64>,
    inputs: u8,
    most: u32,
) -> Result<Option<Change>, AllocError>
    requires { inputs ≤ 16 }
{
    let mut best = None;
    let mut fewest = most;
    for low in 0..8 {
        if low > 0 {
            halves = halves_of(alloc, words, low)?;
        }
        for high in 8..inputs {
            let strips = count_strips(&halves, high - 7);
            if strips < fewest {
                fewest = strips;
                best = Some(Change { low, high, strips });
            }
        }
    }
    Ok(best)
}

/// Exchanges bits `low` and `high` of all points in `words`, packed truth tables one after another.
fn exchange(words: &mut [u64], low: VarIx, high: VarIx)
    requires low { low < 8 }
    requires high { high < 16 }
{
    let above = (1usize << high) / 64;
    let below = (1usize << low) / 64;
    for place in 0..words.len() {
        let other = (place ^ below) | above;
        if place & (below | above) != below || other >= words.len() {
            continue;
        }
        if low < 6 {
            let shift = 1u32 << low;
            let moved = (words[place].wrapping_shr(shift) ^ words[other]) & lower_half(low);
            words[place] ^= moved.wrapping_shl(shift);
            words[other] ^= moved;
        } else {
            words.swap(place, other);
        }
    }
}

/// The eight variables that are to become the lowest ones, so that the truth tables have fewer
/// distinct strips: found by at most `MOST_CHANGES` exchanges, each time the best one. None if at
/// most `FEW_STRIPS` strips are distinct at first, or more than three quarters of them at last.
fn lowest_of(alloc: Global, problem: &Problem) -> Result<Option<Mask>, AllocError>
    requires { problem.now.inputs ≤ 16 }
{
    let mut words = problem.all_words().to_vec(alloc)?;
    let mut halves = halves_of(alloc, &words, 0)?;
    let first = count_strips(&halves, 0);
    if first <= FEW_STRIPS {
        return Ok(None);
    }
    let mut fewest = first;
    // The variable at each place, which is a bit of a point.
    let mut variables: [VarIx; 16] = [0, 1, 2, 3, 4, 5, 6, 7, 8, 9, 10, 11, 12, 13, 14, 15];
    for _change in 0..MOST_CHANGES {
        let Some(change) = best_change(alloc, &words, halves, problem.inputs(), fewest)? else {
            break;
        };
        fewest = change.strips;
        exchange(&mut words, change.low, change.high);
        halves = halves_of(alloc, &words, 0)?;
        variables.swap(change.low as usize, change.high as usize);
    }
    if fewest > first - first / 4 {
        return Ok(None);
    }
    let lowest = variables[..8].iter().fold(0, |set, x| set | 1 << (*x % 16));
    Ok(Some(lowest))
}

/// A renaming of the variables by which the truth tables of `problem` have fewer distinct strips,
/// and class tables are smaller; one that exchanges none if that gains little.
pub fn renaming_of<'a>(alloc: Global, problem: &'a Problem) -> Result<Renaming<'a>, AllocError>
    ensures { IfOk result (λ r. r.problem ≡ problem.now) }
{
    prove!(problem.inputs() <= 16);
    if problem.inputs() > 8
        && let Some(set) = lowest_of(alloc, problem)?
    {
        return Renaming::to_lowest(alloc, problem, set);
    }
    Ok(Renaming::none(problem))
}
